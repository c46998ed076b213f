//! Which item of a schedule doesn't read.

ghost use Rattle.std.specs.Prelude.{IfNone, IfOk, IfSome, IsTrue};
ghost use Rattle.diagnostics.specs.option_diagnostics.Schedules.{AllRead, IsFault, Reads};

use crate::option_diagnostics::item::{fault_line, items};
use prepared_program::step_schedule::Schedule;
use std::alloc::{AllocError, Global};

/// The item spells an entry.
fn reads(alloc: Global, item: &str) -> Result<bool, AllocError>
    ensures yes { IfOk result (λ reads. IsTrue reads → Reads item.now) }
    ensures no { IfOk result (λ reads. Reads item.now → IsTrue reads) }
{
    if item.is_empty() {
        return Ok(false);
    }
    match Schedule::parse(alloc, item)? {
        Some(_) => Ok(true),
        None => Ok(false),
    }
}

/// What is said of the first item of a schedule that spells no entry: its number and its bytes.
/// None: each does, or the list is empty.
pub fn schedule_fault(alloc: Global, text: &str) -> Result<Option<Vec<u8>>, AllocError>
    ensures found { IfOk result (λ said. IfSome said (λ line. IsFault text.now line.items)) }
    ensures none { IfOk result (λ said. IfNone said (AllRead text.now)) }
{
    if text.is_empty() {
        return Ok(None);
    }
    let items = items(alloc, text)?;
    for (number, item) in items.iter().enumerate() {
        if !reads(alloc, item)? {
            let line = fault_line(alloc, number, item, "TxC, a task and a number of steps")?;
            return Ok(Some(line));
        }
    }
    Ok(None)
}
