//! How many blocks of a task are open at one place, and how many scoped assertions are in force there.

ghost use Rattle.std.specs.Prelude.{◌≡◌};
ghost use Rattle.litmus_syntax.specs.Limits.{BodyKeepsLimits, call_scopes, scopes_of};
ghost use Rattle.litmus_syntax.specs.Views.{block_of, statement_of};
ghost use Rattle.program_table.specs.Counts.{capped};
ghost use Rattle.program_table.specs.Nesting as spec;

use litmus_syntax::{Call, Statement};

/// How many blocks in a block stand in one another, at most.
#[cycle(blocks)]
fn blocks_in(block: &[Statement]) -> u64
    ensures { result ≡ capped (spec.blocks_in (block_of block.now)) }
{
    let mut most = 0u64;
    for statement in block {
        most = most.max(blocks_of(statement));
    }
    most
}

/// The same of a statement.
#[cycle(blocks)]
fn blocks_of(statement: &Statement) -> u64
    ensures { result ≡ capped (spec.blocks_of (statement_of statement.now)) }
{
    match statement {
        Statement::If { body, .. } => blocks_in(body.as_slice()).saturating_add(1),
        Statement::IfElse {
            body,
            otherwise,
            ..
        } => {
            let first = blocks_in(body.as_slice());
            first.max(blocks_in(otherwise.as_slice())).saturating_add(1)
        }
        Statement::For { body, .. } => blocks_in(body.as_slice()).saturating_add(1),
        _ => 0,
    }
}

/// How many blocks are open at the deepest place of a task with this body.
pub(crate) fn open_blocks(body: &[Statement]) -> usize
    requires { BodyKeepsLimits (block_of body.now) }
    ensures { result ≡ spec.open_blocks (block_of body.now) }
{
    blocks_in(body).saturating_add(1) as usize
}

/// How many scopes a call begins.
fn call_begins(call: Call) -> u64
    ensures { result ≡ call_scopes call }
{
    match call {
        Call::AssertWriter { scoped: true, .. } | Call::AssertAccess { scoped: true, .. } => 1,
        _ => 0,
    }
}

/// How many a statement begins.
fn begins(statement: &Statement) -> u64
    ensures { result ≡ scopes_of (statement_of statement.now) }
{
    match statement {
        Statement::Call(call) => call_begins(*call),
        _ => 0,
    }
}

/// How many scoped assertions of a block are in force at one place, at most.
#[cycle(scoped)]
fn scoped_in(block: &[Statement]) -> u64
    ensures { result ≡ capped (spec.scoped_in (block_of block.now)) }
{
    let mut begun = 0u64;
    let mut most = 0u64;
    for statement in block {
        most = most.max(begun.saturating_add(scoped_of(statement)));
        begun = begun.saturating_add(begins(statement));
    }
    most.max(begun)
}

/// The same of the blocks of a statement.
#[cycle(scoped)]
fn scoped_of(statement: &Statement) -> u64
    ensures { result ≡ capped (spec.scoped_of (statement_of statement.now)) }
{
    match statement {
        Statement::If { body, .. } => scoped_in(body.as_slice()),
        Statement::IfElse {
            body,
            otherwise,
            ..
        } => {
            let first = scoped_in(body.as_slice());
            first.max(scoped_in(otherwise.as_slice()))
        }
        Statement::For { body, .. } => scoped_in(body.as_slice()),
        _ => 0,
    }
}

/// How many scoped assertions are in force at one place of a task with this body, at most.
pub(crate) fn scoped_in_force(body: &[Statement]) -> usize
    requires { BodyKeepsLimits (block_of body.now) }
    ensures { result ≡ spec.scoped_in (block_of body.now) }
{
    scoped_in(body) as usize
}
