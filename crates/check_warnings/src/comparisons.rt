//! What `check` warns of where a variable is compared with a number that no variable of its type has as value, since
//! each type has a sign.

ghost use Rattle.std.specs.Prelude.{◌≡◌, IfOk, map};
ghost use Rattle.litmus_syntax.specs.Views.{assignment_of, block_of, expression_of, fetch_of, loading_of, proposition_of, pure_of, statement_of, task_of};
ghost use Rattle.check_warnings.specs.Comparisons as spec;

use litmus_syntax::{
    Assignment, BinaryOperator, Contents, Expression, Fetch, Loading, Program, Proposition, Pure,
    Statement, Task, UnaryOperator, Variable,
};
use program_table::text_pieces::{joined, shown};
use std::alloc::{AllocError, Global};

/// The greatest value of this type. A lock has no value, and is as a `long` here, whose values are all numbers.
fn greatest(contents: Contents) -> u64
    ensures { result ≡ spec.greatest contents }
{
    match contents {
        Contents::Char(_) => 0x7f,
        Contents::Short(_) => 0x7fff,
        Contents::Int(_) | Contents::Atomic(_) => 0x7fff_ffff,
        Contents::Long(_) | Contents::Lock => 0x7fff_ffff_ffff_ffff,
    }
}

/// A number, where -1 is 2^64 - 1, is no value of this type.
fn is_beyond(contents: Contents, number: u64) -> bool
    ensures { result ≡ spec.is_beyond contents number }
{
    let greatest = greatest(contents);
    greatest < number && number < u64::MAX - greatest
}

/// The number that an expression is written as, with minus signs or without.
fn number_of(value: &Pure) -> Option<u64>
    ensures { result ≡ spec.number_of (pure_of value.now) }
{
    match value {
        Pure::Number(number) => Some(*number),
        Pure::Unary(UnaryOperator::Negate, operand) => Some(number_of(operand)?.wrapping_neg()),
        _ => None,
    }
}

/// The number that an expression is written as, if it is one, is no value of this type.
fn is_never(contents: Contents, value: &Pure) -> bool
    ensures { result ≡ spec.is_never contents (spec.number_of (pure_of value.now)) }
{
    match number_of(value) {
        Some(number) => is_beyond(contents, number),
        None => false,
    }
}

/// An operator that compares.
fn is_comparison(operator: BinaryOperator) -> bool
    ensures { result ≡ spec.is_comparison operator }
{
    matches!(
        operator,
        BinaryOperator::Less
            | BinaryOperator::Greater
            | BinaryOperator::LessOrEqual
            | BinaryOperator::GreaterOrEqual
            | BinaryOperator::Equal
            | BinaryOperator::NotEqual
    )
}

/// The variable that a load reads.
fn variable_of(fetch: &Fetch) -> usize
    ensures { result ≡ spec.variable_of (fetch_of fetch.now) }
{
    match fetch {
        Fetch::Read { variable, .. }
        | Fetch::Exchange { variable, .. }
        | Fetch::CompareExchange { variable, .. } => *variable,
    }
}

/// An expression is a load of the variable.
fn is_load_of(variable: usize, loading: &Loading) -> bool
    ensures { result ≡ spec.is_load_of variable (loading_of loading.now) }
{
    match loading {
        Loading::Load(load) => variable_of(&load.fetch) == variable,
        _ => false,
    }
}

/// An operator compares the variable, which has this type, with a number that is no value of the type: the operands are
/// these, in this order or the other.
fn compares(
    variable: usize,
    contents: Contents,
    operator: BinaryOperator,
    loading: &Loading,
    value: &Pure,
) -> bool
    ensures { result ≡ spec.compares variable contents operator (loading_of loading.now) (pure_of value.now) }
{
    is_comparison(operator) && is_load_of(variable, loading) && is_never(contents, value)
}

/// Such a comparison stands in an expression with a load.
fn in_loading(variable: usize, contents: Contents, loading: &Loading) -> bool
    ensures { result ≡ spec.in_loading variable contents (loading_of loading.now) }
{
    match loading {
        Loading::Load(_) => false,
        Loading::Unary(_, operand) => in_loading(variable, contents, operand),
        Loading::Left(operator, left, right) => {
            compares(variable, contents, *operator, left, right)
                || in_loading(variable, contents, left)
        }
        Loading::Right(operator, left, right) => {
            compares(variable, contents, *operator, right, left)
                || in_loading(variable, contents, right)
        }
    }
}

/// It stands in an expression.
fn in_expression(variable: usize, contents: Contents, expression: &Expression) -> bool
    ensures { result ≡ spec.in_expression variable contents (expression_of expression.now) }
{
    match expression {
        Expression::Pure(_) => false,
        Expression::Loading(loading) => in_loading(variable, contents, loading),
    }
}

/// It stands in an assignment: only what a register is assigned has loads.
fn in_assignment(variable: usize, contents: Contents, assignment: &Assignment) -> bool
    ensures { result ≡ spec.in_assignment variable contents (assignment_of assignment.now) }
{
    match assignment {
        Assignment::Register { value, .. } => in_expression(variable, contents, value),
        _ => false,
    }
}

/// It stands in a statement of a block.
#[cycle(statements)]
fn in_block(variable: usize, contents: Contents, block: &[Statement]) -> bool
    ensures { result ≡ spec.in_block variable contents (block_of block.now) }
{
    for statement in block {
        if in_statement(variable, contents, statement) {
            return true;
        }
    }
    false
}

/// It stands in a statement.
#[cycle(statements)]
fn in_statement(variable: usize, contents: Contents, statement: &Statement) -> bool
    ensures { result ≡ spec.in_statement variable contents (statement_of statement.now) }
{
    match statement {
        Statement::Load(_) | Statement::Call(_) => false,
        Statement::Assign { assignment, .. } => in_assignment(variable, contents, assignment),
        Statement::If { condition, body } => {
            in_expression(variable, contents, condition)
                || in_block(variable, contents, body.as_slice())
        }
        Statement::IfElse {
            condition,
            body,
            otherwise,
        } => {
            in_expression(variable, contents, condition)
                || in_block(variable, contents, body.as_slice())
                || in_block(variable, contents, otherwise.as_slice())
        }
        Statement::For { body, .. } => in_block(variable, contents, body.as_slice()),
    }
}

/// It stands in the body of a task.
fn in_task(variable: usize, contents: Contents, task: &Task) -> bool
    ensures { result ≡ spec.in_block variable contents (block_of task.now.body.items) }
{
    in_block(variable, contents, task.body.as_slice())
}

/// It stands in the body of one of these tasks.
fn in_tasks(variable: usize, contents: Contents, tasks: &[Task]) -> bool
    ensures { result ≡ spec.in_tasks variable contents (map task_of tasks.now) }
{
    for task in tasks {
        if in_task(variable, contents, task) {
            return true;
        }
    }
    false
}

/// It stands in the condition.
fn in_condition(variable: usize, contents: Contents, condition: &Proposition) -> bool
    ensures { result ≡ spec.in_condition variable contents (proposition_of condition.now) }
{
    match condition {
        Proposition::Variable {
            variable: other,
            value,
        } => *other == variable && is_beyond(contents, *value),
        Proposition::Not(denied) => in_condition(variable, contents, denied),
        Proposition::And(left, right) | Proposition::Or(left, right) => {
            in_condition(variable, contents, left) || in_condition(variable, contents, right)
        }
        Proposition::True | Proposition::False | Proposition::Register { .. } => false,
    }
}

/// The article before the name of this type.
fn article(contents: Contents) -> &'static str
    ensures { result.now ≡ spec.article contents }
{
    match contents {
        Contents::Int(_) | Contents::Atomic(_) => "an",
        Contents::Char(_) | Contents::Short(_) | Contents::Long(_) | Contents::Lock => "a",
    }
}

/// What is said of a variable of this type that is compared so, behind its name.
#[tactic(auto, unfolding(crate::specs::Comparisons::compared_words))]
fn compared_words(alloc: Global, contents: Contents) -> Result<Vec<u8>, AllocError>
    ensures { IfOk result (λ words. words.items ≡ spec.compared_words contents) }
{
    let before = article(contents).as_bytes();
    let kind = contents.type_name().as_bytes();
    joined(
        alloc,
        &[
            b"` is compared with a number that ",
            before,
            b" `",
            kind,
            b"` never is: its value has a sign, and with all bits set it is -1\n",
        ],
    )
}

/// The warning on a variable that is compared so, in a file of this name.
#[tactic(auto, unfolding(crate::specs::Comparisons::compared_line))]
fn compared_line(alloc: Global, file: &[u8], variable: &Variable) -> Result<Vec<u8>, AllocError>
    ensures { IfOk result (λ line. line.items ≡ spec.compared_line file.now variable.now) }
{
    let head = shown(alloc, file)?;
    let name = shown(alloc, variable.name.as_str().as_bytes())?;
    let words = compared_words(alloc, variable.contents)?;
    joined(alloc, &[&head, b": warning: `", &name, &words])
}

/// The warning on the variable of this number, in a file of this name.
#[tactic(auto, unfolding(crate::specs::Comparisons::variable_line))]
fn variable_line(
    alloc: Global,
    file: &[u8],
    number: usize,
    variable: &Variable,
    program: &Program,
) -> Result<Vec<u8>, AllocError>
    ensures { IfOk result (λ line. line.items
        ≡ spec.variable_line file.now (map task_of program.now.tasks) (proposition_of program.now.condition) number variable.now) }
{
    let contents = variable.contents;
    if in_condition(number, contents, &program.condition)
        || in_tasks(number, contents, program.tasks.as_slice())
    {
        return compared_line(alloc, file, variable);
    }
    Ok(Vec::new(alloc))
}

/// The warnings on the variables of a program, in a file of this name: a line for each that is compared with a number
/// that no variable of its type has as value.
pub(crate) fn compared_lines(
    alloc: Global,
    file: &[u8],
    program: &Program,
) -> Result<Vec<u8>, AllocError>
    ensures { IfOk result (λ lines. lines.items
        ≡ spec.variables_from file.now (map task_of program.now.tasks) (proposition_of program.now.condition) 0 program.now.variables) }
{
    let mut lines = Vec::new(alloc);
    for (number, variable) in program.variables.as_slice().iter().enumerate() {
        let line = variable_line(alloc, file, number, variable, program)?;
        lines.extend_from_slice(&line)?;
    }
    Ok(lines)
}
