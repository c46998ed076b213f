//! How many operators one expression of a task has, at most, and how many the condition has. A count of 64 bits stays
//! at its last value.

ghost use Rattle.std.specs.Prelude.{◌≡◌};
ghost use Rattle.litmus_syntax.specs.Limits.{connectives, loading_operators, pure_operators};
ghost use Rattle.litmus_syntax.specs.Views.{assignment_of, block_of, expression_of, fetch_of, loading_of, proposition_of, pure_of, statement_of};
ghost use Rattle.program_table.specs.Counts.{capped};
ghost use Rattle.program_table.specs.Operators as spec;

use litmus_syntax::{Assignment, Expression, Fetch, Loading, Proposition, Pure, Statement};

/// The operators of an expression without a load.
fn in_pure(value: &Pure) -> u64
    ensures { result ≡ capped (pure_operators (pure_of value.now)) }
{
    match value {
        Pure::Number(_) | Pure::Register(_) => 0,
        Pure::Unary(_, operand) => in_pure(operand).saturating_add(1),
        Pure::Binary(_, left, right) => {
            let first = in_pure(left);
            first.saturating_add(in_pure(right)).saturating_add(1)
        }
    }
}

/// The operators of an expression with a load, those in the load apart.
fn in_loading(loading: &Loading) -> u64
    ensures { result ≡ capped (loading_operators (loading_of loading.now)) }
{
    match loading {
        Loading::Load(_) => 0,
        Loading::Unary(_, operand) => in_loading(operand).saturating_add(1),
        Loading::Left(_, left, right) => {
            let first = in_loading(left);
            first.saturating_add(in_pure(right)).saturating_add(1)
        }
        Loading::Right(_, left, right) => {
            let first = in_pure(left);
            first.saturating_add(in_loading(right)).saturating_add(1)
        }
    }
}

/// The most of one expression in a load.
fn most_in_fetch(fetch: &Fetch) -> u64
    ensures { result ≡ capped (spec.most_in_fetch (fetch_of fetch.now)) }
{
    match fetch {
        Fetch::Read { .. } => 0,
        Fetch::Exchange { value, .. } => in_pure(value),
        Fetch::CompareExchange {
            expected,
            replacement,
            ..
        } => {
            let first = in_pure(expected);
            first.max(in_pure(replacement))
        }
    }
}

/// The same of the load of an expression.
fn most_in_load(loading: &Loading) -> u64
    ensures { result ≡ capped (spec.most_in_load (loading_of loading.now)) }
{
    match loading {
        Loading::Load(load) => most_in_fetch(&load.fetch),
        Loading::Unary(_, operand) => most_in_load(operand),
        Loading::Left(_, left, _) => most_in_load(left),
        Loading::Right(_, _, right) => most_in_load(right),
    }
}

/// The most of an expression and of those in its load.
fn most_in_expression(expression: &Expression) -> u64
    ensures { result ≡ capped (spec.most_in_expression (expression_of expression.now)) }
{
    match expression {
        Expression::Pure(value) => in_pure(value),
        Expression::Loading(loading) => {
            let own = in_loading(loading);
            own.max(most_in_load(loading))
        }
    }
}

/// The most of one expression of an assignment.
fn most_in_assignment(assignment: &Assignment) -> u64
    ensures { result ≡ capped (spec.most_in_assignment (assignment_of assignment.now)) }
{
    match assignment {
        Assignment::Register { value, .. } => most_in_expression(value),
        Assignment::Write { value, .. }
        | Assignment::Add { value, .. }
        | Assignment::AtomicAdd { value, .. } => in_pure(value),
        Assignment::Increment { .. }
        | Assignment::AtomicIncrement { .. }
        | Assignment::AtomicDecrement { .. } => 0,
    }
}

/// The most of one expression of a block.
#[cycle(most)]
pub(crate) fn most_in_block(block: &[Statement]) -> u64
    ensures { result ≡ capped (spec.most_in_block (block_of block.now)) }
{
    let mut most = 0u64;
    for statement in block {
        most = most.max(most_in_statement(statement));
    }
    most
}

/// The most of one expression of a statement.
#[cycle(most)]
fn most_in_statement(statement: &Statement) -> u64
    ensures { result ≡ capped (spec.most_in_statement (statement_of statement.now)) }
{
    match statement {
        Statement::Load(load) => most_in_fetch(&load.fetch),
        Statement::Assign { assignment, .. } => most_in_assignment(assignment),
        Statement::Call(_) => 0,
        Statement::If { condition, body } => {
            let own = most_in_expression(condition);
            own.max(most_in_block(body.as_slice()))
        }
        Statement::IfElse {
            condition,
            body,
            otherwise,
        } => {
            let own = most_in_expression(condition);
            let first = most_in_block(body.as_slice());
            own.max(first.max(most_in_block(otherwise.as_slice())))
        }
        Statement::For { body, .. } => most_in_block(body.as_slice()),
    }
}

/// The operators of a condition.
pub(crate) fn in_proposition(condition: &Proposition) -> u64
    ensures { result ≡ capped (connectives (proposition_of condition.now)) }
{
    match condition {
        Proposition::True
        | Proposition::False
        | Proposition::Register { .. }
        | Proposition::Variable { .. } => 0,
        Proposition::Not(operand) => in_proposition(operand).saturating_add(1),
        Proposition::And(left, right) | Proposition::Or(left, right) => {
            let first = in_proposition(left);
            first
                .saturating_add(in_proposition(right))
                .saturating_add(1)
        }
    }
}
