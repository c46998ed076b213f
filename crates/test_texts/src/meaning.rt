//! Rows of meanings: what a task does where its reads have given values, and its registers then.

use crate::blocks::Blocks;
use crate::fault::Fault;
use crate::happenings::show_walk;
use crate::numbers::{number, numbers, small};
use crate::row::program_of;
use access_types::Bytes;
use litmus_syntax::Task;
use oracle_semantics::oracle_meaning::text::means;
use oracle_semantics::oracle_meaning::walk::{Given, NoMeaning};
use std::alloc::Global;
use std::fmt::Write;

/// Shows what a task of a text does, or why that has no meaning: `TEXT TASK at BYTES reading VALUES`, with the bytes of
/// each variable and the values of the reads.
pub fn show(alloc: Global, blocks: &Blocks, row: &str, shown: &mut String) -> Result<(), Fault> {
    let (row, values) = row.split_once(" reading").ok_or(Fault::NoRow)?;
    let (row, bytes) = row.split_once(" at ").ok_or(Fault::NoRow)?;
    let (name, task) = row.split_once(' ').ok_or(Fault::NoRow)?;
    let program = program_of(alloc, blocks, name)?;
    let task = small(task)?;
    let body = program.tasks.as_slice().get(task as usize);
    let body = body.ok_or(Fault::NoRow)?;
    let bytes = bytes_of(alloc, bytes)?;
    let given = Given {
        task,
        bytes: bytes.as_slice(),
    };
    show_task(alloc, &given, body, values, shown)
}

/// Shows what a task does that is given, whose reads have these values, or why that has no meaning.
fn show_task(
    alloc: Global,
    given: &Given<'_>,
    body: &Task,
    values: &str,
    shown: &mut String,
) -> Result<(), Fault> {
    let registers = zeros(alloc, body.registers.as_slice().len())?;
    let values = numbers(alloc, values)?;
    match means(alloc, given, &body.body, &registers, &values) {
        Ok(walk) => show_walk(shown, &walk.did, &walk.registers)?,
        Err(NoMeaning::OutOfMemory) => return Err(Fault::OutOfMemory),
        Err(why) => writeln!(shown, "{why:?}")?,
    }
    Ok(())
}

/// So many registers that are 0.
fn zeros(alloc: Global, count: usize) -> Result<Vec<u64>, Fault> {
    Ok(vec![in alloc; 0; count]?)
}

/// The bytes of variables, each `ADDRESS+SIZE`.
fn bytes_of(alloc: Global, words: &str) -> Result<Vec<Bytes>, Fault> {
    let mut variables = Vec::new(alloc);
    for word in words.split_whitespace() {
        let (addr, size) = word.split_once('+').ok_or(Fault::NoRow)?;
        variables.push(Bytes {
            addr: number(addr)?,
            size: number(size)?,
        })?;
    }
    Ok(variables)
}
