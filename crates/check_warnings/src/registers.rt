//! Where a task has a register: in a statement that reads or assigns it, and where the condition names it.

ghost use Rattle.std.specs.Prelude.{◌≡◌};
ghost use Rattle.litmus_syntax.specs.Views.{assignment_of, block_of, expression_of, fetch_of, loading_of, proposition_of, pure_of, statement_of};
ghost use Rattle.check_warnings.specs.Registers as spec;

use litmus_syntax::{Assignment, Expression, Fetch, Loading, Proposition, Pure, Statement};

/// What a register of a task is in its body and in the condition.
#[derive(Clone, Copy)]
pub enum Role {
    /// A statement assigns it.
    Assigned,
    /// A statement reads it, and none assigns it.
    Read,
    /// The condition names it, and no statement reads or assigns it.
    Named,
    /// Nothing reads or assigns it.
    Unused,
}

/// The register stands in an expression without a load.
fn in_pure(register: usize, value: &Pure) -> bool
    ensures { result ≡ spec.in_pure register (pure_of value.now) }
{
    match value {
        Pure::Number(_) => false,
        Pure::Register(other) => *other == register,
        Pure::Unary(_, operand) => in_pure(register, operand),
        Pure::Binary(_, left, right) => in_pure(register, left) || in_pure(register, right),
    }
}

/// It stands in what a load does.
fn in_fetch(register: usize, fetch: &Fetch) -> bool
    ensures { result ≡ spec.in_fetch register (fetch_of fetch.now) }
{
    match fetch {
        Fetch::Read { .. } => false,
        Fetch::Exchange { value, .. } => in_pure(register, value),
        Fetch::CompareExchange {
            expected,
            replacement,
            ..
        } => in_pure(register, expected) || in_pure(register, replacement),
    }
}

/// It stands in an expression with a load.
fn in_loading(register: usize, loading: &Loading) -> bool
    ensures { result ≡ spec.in_loading register (loading_of loading.now) }
{
    match loading {
        Loading::Load(load) => in_fetch(register, &load.fetch),
        Loading::Unary(_, operand) => in_loading(register, operand),
        Loading::Left(_, left, right) => in_loading(register, left) || in_pure(register, right),
        Loading::Right(_, left, right) => in_pure(register, left) || in_loading(register, right),
    }
}

/// It stands in an expression.
fn in_expression(register: usize, expression: &Expression) -> bool
    ensures { result ≡ spec.in_expression register (expression_of expression.now) }
{
    match expression {
        Expression::Pure(value) => in_pure(register, value),
        Expression::Loading(loading) => in_loading(register, loading),
    }
}

/// An assignment reads it.
fn in_assignment(register: usize, assignment: &Assignment) -> bool
    ensures { result ≡ spec.in_assignment register (assignment_of assignment.now) }
{
    match assignment {
        Assignment::Register { value, .. } => in_expression(register, value),
        Assignment::Write { value, .. }
        | Assignment::Add { value, .. }
        | Assignment::AtomicAdd { value, .. } => in_pure(register, value),
        Assignment::Increment { .. }
        | Assignment::AtomicIncrement { .. }
        | Assignment::AtomicDecrement { .. } => false,
    }
}

/// A statement of a block reads it.
#[cycle(reads)]
fn reads_in(register: usize, block: &[Statement]) -> bool
    ensures { result ≡ spec.reads_in register (block_of block.now) }
{
    for statement in block {
        if reads(register, statement) {
            return true;
        }
    }
    false
}

/// A statement reads it.
#[cycle(reads)]
fn reads(register: usize, statement: &Statement) -> bool
    ensures { result ≡ spec.reads register (statement_of statement.now) }
{
    match statement {
        Statement::Load(load) => in_fetch(register, &load.fetch),
        Statement::Assign { assignment, .. } => in_assignment(register, assignment),
        Statement::Call(_) => false,
        Statement::If { condition, body } => {
            in_expression(register, condition) || reads_in(register, body.as_slice())
        }
        Statement::IfElse {
            condition,
            body,
            otherwise,
        } => {
            in_expression(register, condition)
                || reads_in(register, body.as_slice())
                || reads_in(register, otherwise.as_slice())
        }
        Statement::For { body, .. } => reads_in(register, body.as_slice()),
    }
}

/// An assignment is to it.
fn is_to(register: usize, assignment: &Assignment) -> bool
    ensures { result ≡ spec.is_to register (assignment_of assignment.now) }
{
    match assignment {
        Assignment::Register {
            register: other,
            ..
        } => *other == register,
        _ => false,
    }
}

/// A statement of a block assigns it.
#[cycle(assigns)]
fn assigns_in(register: usize, block: &[Statement]) -> bool
    ensures { result ≡ spec.assigns_in register (block_of block.now) }
{
    for statement in block {
        if assigns(register, statement) {
            return true;
        }
    }
    false
}

/// A statement assigns it.
#[cycle(assigns)]
fn assigns(register: usize, statement: &Statement) -> bool
    ensures { result ≡ spec.assigns register (statement_of statement.now) }
{
    match statement {
        Statement::Load(_) | Statement::Call(_) => false,
        Statement::Assign { assignment, .. } => is_to(register, assignment),
        Statement::If { body, .. } => assigns_in(register, body.as_slice()),
        Statement::IfElse {
            body,
            otherwise,
            ..
        } => assigns_in(register, body.as_slice()) || assigns_in(register, otherwise.as_slice()),
        Statement::For {
            register: counter,
            body,
            ..
        } => *counter == register || assigns_in(register, body.as_slice()),
    }
}

/// The condition names it as one of this task.
fn names(task: usize, register: usize, condition: &Proposition) -> bool
    ensures { result ≡ spec.names task register (proposition_of condition.now) }
{
    match condition {
        Proposition::Register {
            task: owner,
            register: other,
            ..
        } => *owner == task && *other == register,
        Proposition::Not(denied) => names(task, register, denied),
        Proposition::And(left, right) | Proposition::Or(left, right) => {
            names(task, register, left) || names(task, register, right)
        }
        Proposition::True | Proposition::False | Proposition::Variable { .. } => false,
    }
}

/// What a register of a task with this body is there and in the condition.
#[tactic(auto, unfolding(crate::specs::Registers::role_of))]
pub(crate) fn role_of(
    task: usize,
    register: usize,
    body: &[Statement],
    condition: &Proposition,
) -> Role
    ensures { result ≡ spec.role_of task register (block_of body.now) (proposition_of condition.now) }
{
    if assigns_in(register, body) {
        return Role::Assigned;
    }
    if reads_in(register, body) {
        return Role::Read;
    }
    if names(task, register, condition) {
        return Role::Named;
    }
    Role::Unused
}
