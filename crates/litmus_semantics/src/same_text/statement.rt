//! Whether two statements are the same, and two blocks.

ghost use Rattle.std.specs.Prelude.{◌≡◌, ◌↔◌, IsTrue};
ghost use Rattle.litmus_syntax.specs.Tree as tree;
ghost use Rattle.litmus_syntax.specs.Views.{assignment_of, block_of, expression_of, load_of, statement_of};

use crate::same_text::assignment::is_same_assignment;
use crate::same_text::expression::{is_same_expression, is_same_load};
use litmus_syntax::{Assignment, Call, Expression, Load, Statement};

/// Both are the same statements, in one order.
#[cycle(same)]
pub fn is_same_block(one: &[Statement], other: &[Statement]) -> bool
    ensures { IsTrue result ↔ (block_of one.now ≡ block_of other.now) }
{
    if one.len() != other.len() {
        return false;
    }
    for (index, statement) in one.iter().enumerate() {
        if !is_same_statement(statement, &other[index]) {
            return false;
        }
    }
    true
}

/// Both are the same statement, with the same blocks.
#[cycle(same)]
fn is_same_statement(one: &Statement, other: &Statement) -> bool
    ensures { IsTrue result ↔ (statement_of one.now ≡ statement_of other.now) }
{
    match other {
        Statement::Load(load) => is_load(one, load),
        Statement::Assign {
            data_race,
            assignment,
        } => is_assignment(one, *data_race, assignment),
        Statement::Call(call) => is_call(one, call),
        Statement::If { condition, body } => is_if(one, condition, body.as_slice()),
        Statement::IfElse {
            condition,
            body,
            otherwise,
        } => is_if_else(one, condition, body.as_slice(), otherwise.as_slice()),
        Statement::For {
            register,
            turns,
            body,
        } => is_loop(one, *register, *turns, body.as_slice()),
    }
}

/// The statement is this load alone.
fn is_load(statement: &Statement, load: &Load) -> bool
    ensures { IsTrue result ↔ (statement_of statement.now ≡ tree.load_only (load_of load.now)) }
{
    match statement {
        Statement::Load(own) => is_same_load(own, load),
        _ => false,
    }
}

/// The statement is this assignment, inside `data_race( )` or not.
fn is_assignment(statement: &Statement, data_race: bool, assignment: &Assignment) -> bool
    ensures { IsTrue result ↔ (statement_of statement.now ≡ tree.assign data_race (assignment_of assignment.now)) }
{
    match statement {
        Statement::Assign {
            data_race: inside,
            assignment: own,
        } => *inside == data_race && is_same_assignment(own, assignment),
        _ => false,
    }
}

/// The statement is this call.
fn is_call(statement: &Statement, call: &Call) -> bool
    ensures { IsTrue result ↔ (statement_of statement.now ≡ tree.call call.now) }
{
    match statement {
        Statement::Call(own) => own == call,
        _ => false,
    }
}

/// The statement is an `if` without `else`, of this condition and this block.
#[cycle(same)]
fn is_if(statement: &Statement, condition: &Expression, body: &[Statement]) -> bool
    ensures { IsTrue result ↔ (statement_of statement.now ≡ tree.if_block (expression_of condition.now) (block_of body.now)) }
{
    match statement {
        Statement::If {
            condition: asked,
            body: inner,
        } => is_same_expression(asked, condition) && is_same_block(inner.as_slice(), body),
        _ => false,
    }
}

/// The statement is an `if` with `else`, of this condition and these blocks.
#[cycle(same)]
fn is_if_else(
    statement: &Statement,
    condition: &Expression,
    body: &[Statement],
    otherwise: &[Statement],
) -> bool
    ensures { IsTrue result ↔ (statement_of statement.now
        ≡ tree.if_else (expression_of condition.now) (block_of body.now) (block_of otherwise.now)) }
{
    match statement {
        Statement::IfElse {
            condition: asked,
            body: inner,
            otherwise: last,
        } => {
            is_same_expression(asked, condition)
                && is_same_block(inner.as_slice(), body)
                && is_same_block(last.as_slice(), otherwise)
        }
        _ => false,
    }
}

/// The statement is a loop with this register, so many turns and this block.
#[cycle(same)]
fn is_loop(statement: &Statement, register: usize, turns: u64, body: &[Statement]) -> bool
    ensures { IsTrue result ↔ (statement_of statement.now ≡ tree.for_turns register turns (block_of body.now)) }
{
    match statement {
        Statement::For {
            register: counter,
            turns: times,
            body: inner,
        } => { *counter == register && *times == turns && is_same_block(inner.as_slice(), body) }
        _ => false,
    }
}
