//! Which item of a place list doesn't read.

ghost use Rattle.std.specs.Prelude.{IfNone, IfOk, IfSome, IsTrue};
ghost use Rattle.diagnostics.specs.option_diagnostics.Places.{AllRead, IsFault, Reads};

use crate::option_diagnostics::item::{fault_line, items};
use prepared_program::place_list::parse_places;
use std::alloc::{AllocError, Global};

/// The item spells a place.
fn reads(alloc: Global, item: &str) -> Result<bool, AllocError>
    ensures yes { IfOk result (λ reads. IsTrue reads → Reads item.now) }
    ensures no { IfOk result (λ reads. Reads item.now → IsTrue reads) }
{
    if item.is_empty() {
        return Ok(false);
    }
    match parse_places(alloc, item)? {
        Some(_) => Ok(true),
        None => Ok(false),
    }
}

/// What is said of the first item of a place list that spells no place: its number and its bytes.
/// None: each does, or the list is empty.
pub fn place_fault(alloc: Global, text: &str) -> Result<Option<Vec<u8>>, AllocError>
    ensures found { IfOk result (λ said. IfSome said (λ line. IsFault text.now line.items)) }
    ensures none { IfOk result (λ said. IfNone said (AllRead text.now)) }
{
    if text.is_empty() {
        return Ok(None);
    }
    let items = items(alloc, text)?;
    for (number, item) in items.iter().enumerate() {
        if !reads(alloc, item)? {
            let line = fault_line(alloc, number, item, "NAME=ADDRESS")?;
            return Ok(Some(line));
        }
    }
    Ok(None)
}
