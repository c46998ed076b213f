//! How much a program has of what is limited.

ghost use Rattle.std.specs.Prelude.{◌≡◌, All, IfOk, map};
ghost use Rattle.litmus_syntax.specs.Limits.{BodyKeepsLimits, block_count, statement_count};
ghost use Rattle.litmus_syntax.specs.Views.{block_of, proposition_of, statement_of, task_of};
ghost use Rattle.program_table.specs.Counts as spec;
ghost use Rattle.program_table.specs.Counts.{capped};

use crate::nesting::{open_blocks, scoped_in_force};
use crate::operators::{in_proposition, most_in_block};
use crate::text_pieces::{joined, number, padded};
use litmus_syntax::{Proposition, Statement, Task};
use std::alloc::{AllocError, Global};

/// Bytes of a file.
const FILE_BYTES: usize = 65536;

/// Tasks of a program.
const TASKS: usize = 16;

/// Variables of a program.
const VARIABLES: usize = 32;

/// Registers of a task.
const REGISTERS: usize = 32;

/// Statements of a task.
const STATEMENTS: usize = 256;

/// Blocks and parentheses that are open at one place.
const NESTING: usize = 16;

/// Scoped assertions in force at one place.
const SCOPED: usize = 8;

/// Operators of an expression or a condition.
const OPERATORS: usize = 256;

/// How often the statements of a task that have an access are repeated, in all.
const REPEATS: usize = 1024;

/// How many statements a block has, with those in their blocks. A count of 64 bits stays at its last value.
#[cycle(counted)]
fn in_block(block: &[Statement]) -> u64
    ensures { result ≡ capped (block_count (block_of block.now)) }
{
    let mut all = 0u64;
    for statement in block {
        all = all.saturating_add(in_statement(statement));
    }
    all
}

/// How many a statement is, with those in its blocks.
#[cycle(counted)]
fn in_statement(statement: &Statement) -> u64
    ensures { result ≡ capped (statement_count (statement_of statement.now)) }
{
    match statement {
        Statement::If { body, .. } => in_block(body.as_slice()).saturating_add(1),
        Statement::IfElse {
            body,
            otherwise,
            ..
        } => {
            let first = in_block(body.as_slice());
            first
                .saturating_add(in_block(otherwise.as_slice()))
                .saturating_add(1)
        }
        Statement::For { body, .. } => in_block(body.as_slice()).saturating_add(1),
        _ => 1,
    }
}

/// How many statements a task with this body has.
fn statements_in(body: &[Statement]) -> usize
    requires { BodyKeepsLimits (block_of body.now) }
    ensures { result ≡ block_count (block_of body.now) }
{
    in_block(body) as usize
}

/// The line that says that there is so much, and how much there may be.
#[tactic(auto, unfolding(crate::specs::Counts::used))]
fn used(alloc: Global, name: &[u8], count: usize, limit: usize) -> Result<Vec<u8>, AllocError>
    ensures { IfOk result (λ text. text.items ≡ spec.used name.now count limit) }
{
    let name = padded(alloc, name, 34)?;
    let count = number(alloc, count)?;
    let count = padded(alloc, &count, 12)?;
    let limit = number(alloc, limit)?;
    joined(alloc, &[&name, &count, &limit, b"\n"])
}

/// The same of a task.
#[tactic(auto, unfolding(crate::specs::Counts::used_by_task))]
fn used_by_task(
    alloc: Global,
    task: usize,
    name: &'static str,
    count: usize,
    limit: usize,
) -> Result<Vec<u8>, AllocError>
    ensures { IfOk result (λ text. text.items ≡ spec.used_by_task task name.now count limit) }
{
    let task = number(alloc, task)?;
    let name = joined(alloc, &[b"P", &task, name.as_bytes()])?;
    used(alloc, &name, count, limit)
}

/// The lines of the body of a task.
fn body_lines(alloc: Global, number: usize, body: &[Statement]) -> Result<Vec<u8>, AllocError>
    requires { BodyKeepsLimits (block_of body.now) }
    ensures { IfOk result (λ text. text.items ≡ spec.body_lines number (block_of body.now)) }
{
    let statements = statements_in(body);
    let statements = used_by_task(alloc, number, " statements", statements, STATEMENTS)?;
    let blocks = open_blocks(body);
    let blocks = used_by_task(alloc, number, " blocks, one in another", blocks, NESTING)?;
    let scoped = scoped_in_force(body);
    let scoped = used_by_task(alloc, number, " scoped assertions in force", scoped, SCOPED)?;
    let most = most_in_block(body) as usize;
    let most = used_by_task(
        alloc,
        number,
        " operators of an expression",
        most,
        OPERATORS,
    )?;
    let lines = joined(alloc, &[&statements, &blocks, &scoped, &most])?;
    Ok(lines)
}

/// The lines of a task that can begin so many accesses.
#[tactic(auto, unfolding(crate::specs::Counts::task_lines))]
fn task_lines(
    alloc: Global,
    number: usize,
    task: &Task,
    accesses: usize,
) -> Result<Vec<u8>, AllocError>
    requires { BodyKeepsLimits (block_of task.now.body.items) }
    ensures { IfOk result (λ text. text.items ≡ spec.task_lines number task.now accesses) }
{
    let body = body_lines(alloc, number, task.body.as_slice())?;
    let registers = task.registers.as_slice().len();
    let registers = used_by_task(alloc, number, " registers", registers, REGISTERS)?;
    let accesses = used_by_task(alloc, number, " accesses, with turns", accesses, REPEATS)?;
    joined(alloc, &[&body, &registers, &accesses])
}

/// The lines of tasks, which can begin so many accesses each.
pub(crate) fn tasks_lines(
    alloc: Global,
    tasks: &[Task],
    accesses: &[usize],
) -> Result<Vec<u8>, AllocError>
    requires { All (λ task. BodyKeepsLimits task.body) (map task_of tasks.now) }
    ensures { IfOk result (λ lines. lines.items ≡ spec.lines_from accesses.now 0 tasks.now) }
{
    let mut lines = Vec::new(alloc);
    for (number, task) in tasks.iter().enumerate() {
        let begun = accesses.get(number).copied().unwrap_or(0);
        let own = task_lines(alloc, number, task, begun)?;
        lines.extend_from_slice(&own)?;
    }
    Ok(lines)
}

/// The lines of a program whose text has so many bytes.
#[tactic(auto, unfolding(crate::specs::Counts::program_lines))]
pub(crate) fn program_lines(
    alloc: Global,
    bytes: usize,
    tasks: usize,
    variables: usize,
    condition: &Proposition,
) -> Result<Vec<u8>, AllocError>
    ensures { IfOk result (λ text. text.items ≡ spec.program_lines bytes tasks variables (proposition_of condition.now)) }
{
    let bytes = used(alloc, b"bytes", bytes, FILE_BYTES)?;
    let tasks = used(alloc, b"processes", tasks, TASKS)?;
    let variables = used(alloc, b"variables", variables, VARIABLES)?;
    let operators = in_proposition(condition) as usize;
    let operators = used(alloc, b"operators of the condition", operators, OPERATORS)?;
    joined(alloc, &[&bytes, &tasks, &variables, &operators])
}
