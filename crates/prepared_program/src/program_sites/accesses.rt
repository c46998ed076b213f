//! How many accesses each task of a program can begin.

ghost use Rattle.std.specs.Prelude.{◌≡◌, ◌≤◌, IfOk, map};
ghost use Rattle.litmus_semantics.specs.TextSites.{AllLoopsFit, LoopsFit};
ghost use Rattle.litmus_syntax.specs.Limits.{BodyKeepsLimits, KeepsLimits, block_repeats, own_repeats, statement_repeats};
ghost use Rattle.litmus_syntax.specs.Views.{block_of, program_of, statement_of, task_of};
ghost use Rattle.prepared_program.specs.program_sites.Accesses.{begun_by};

use litmus_syntax::{Program, Statement, Task};
use std::alloc::{AllocError, Global};

/// How many accesses begin at most in a block, in loops whose turns multiply to so many.
#[cycle(begun)]
fn in_block(times: u64, block: &[Statement]) -> u64
    ensures { AllLoopsFit times (block_of block.now) → block_repeats times (block_of block.now) ≤ 1024
        → result ≡ block_repeats times (block_of block.now) }
{
    let mut all = 0u64;
    for statement in block {
        all = all.saturating_add(in_statement(times, statement));
    }
    all
}

/// How many accesses a statement itself begins at most, in such loops.
fn in_itself(times: u64, statement: &Statement) -> u64
    ensures { result ≡ own_repeats times (statement_of statement.now) }
{
    if statement.has_access() { times } else { 0 }
}

/// How many begin at most in a statement and in all that stands in it.
#[cycle(begun)]
fn in_statement(times: u64, statement: &Statement) -> u64
    ensures { LoopsFit times (statement_of statement.now) → statement_repeats times (statement_of statement.now) ≤ 1024
        → result ≡ statement_repeats times (statement_of statement.now) }
{
    let own = in_itself(times, statement);
    match statement {
        Statement::If { body, .. } => own.saturating_add(in_block(times, body.as_slice())),
        Statement::IfElse {
            body,
            otherwise,
            ..
        } => {
            // Which branch is taken is known only in a run, and in a loop it may be now one, now the other: both count.
            let first = own.saturating_add(in_block(times, body.as_slice()));
            first.saturating_add(in_block(times, otherwise.as_slice()))
        }
        Statement::For { turns, body, .. } => {
            in_block(times.saturating_mul(*turns), body.as_slice())
        }
        _ => own,
    }
}

/// How many accesses a task can begin.
fn in_task(task: &Task) -> usize
    requires { BodyKeepsLimits (task_of task.now).body }
    ensures { result ≡ begun_by (task_of task.now) }
{
    in_block(1, task.body.as_slice()) as usize
}

/// How many accesses each task of a program can begin, in the order of the tasks.
pub fn accesses_of(alloc: Global, program: &Program) -> Result<Vec<usize>, AllocError>
    requires { KeepsLimits (program_of program.now) }
    ensures { IfOk result (λ accesses. accesses.items ≡ map begun_by (program_of program.now).tasks) }
{
    let tasks = program.tasks.as_slice();
    let mut accesses = Vec::with_capacity(alloc, tasks.len())?;
    for task in tasks {
        accesses.push_reserved(in_task(task));
    }
    Ok(accesses)
}
