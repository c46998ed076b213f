//! Copies of lists, which keep the room of the list.

ghost use Rattle.std.specs.Prelude.{◌≡◌, IfOk, vec_capacity};

use std::alloc::{AllocError, Global};

/// A second list of the same elements, with as much room; without memory for it there is an error.
pub fn copied<T: Copy>(alloc: Global, list: &Vec<T>) -> Result<Vec<T>, AllocError>
    ensures items { IfOk result (λ copy. copy.items ≡ list.now.items) }
    ensures room { IfOk result (λ copy. vec_capacity copy ≡ vec_capacity list.now) }
{
    let mut copy = Vec::with_capacity(alloc, list.capacity())?;
    for element in list {
        copy.push_reserved(*element);
    }
    Ok(copy)
}
