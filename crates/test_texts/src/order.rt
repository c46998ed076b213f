//! Rows of records of texts of locks and loops: what a task did by them and its registers then.

use crate::blocks::Blocks;
use crate::fault::Fault;
use crate::happenings::show_walk;
use crate::numbers::small;
use crate::row::program_of;
use crate::steps::records_of;
use oracle_semantics::oracle_order::text::spells;
use oracle_semantics::oracle_order::walk::{Given, NotSpelled};
use std::alloc::Global;
use std::fmt::Write;

/// Shows what a task of a text did by its steps, or why they don't spell the text: `TEXT TASK`.
pub fn show(
    alloc: Global,
    blocks: &Blocks,
    row: &str,
    steps: &str,
    shown: &mut String,
) -> Result<(), Fault> {
    let (name, task) = row.split_once(' ').ok_or(Fault::NoRow)?;
    let program = program_of(alloc, blocks, name)?;
    let task = small(task)?;
    let body = program.tasks.as_slice().get(task as usize);
    let body = body.ok_or(Fault::NoRow)?;
    let given = Given {
        task,
        variables: program.variables.as_slice(),
    };
    let registers = body.registers.as_slice().len();
    let records = records_of(alloc, task, steps)?;
    match spells(alloc, &given, registers, &body.body, &records) {
        Ok(walk) => show_walk(shown, &walk.did, &walk.registers)?,
        Err(NotSpelled::OutOfMemory) => return Err(Fault::OutOfMemory),
        Err(why) => writeln!(shown, "{why:?}")?,
    }
    Ok(())
}
