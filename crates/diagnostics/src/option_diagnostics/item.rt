//! The items of a list, and what is said of one that doesn't read.

ghost use Rattle.std.specs.Prelude.{◌≡◌, ◌==◌, ◌+◌, ◌<◌, ◌^◌, IfOk, map};
ghost use Rattle.diagnostics.specs.option_diagnostics.Item as spec;
ghost use Rattle.diagnostics.specs.option_diagnostics.Item.{items_of};

use program_table::text_pieces::{joined, number, shown};
use std::alloc::{AllocError, Global};

/// The texts between the commas of a text.
pub(crate) fn items(alloc: Global, text: &str) -> Result<Vec<&str>, AllocError>
    ensures { IfOk result (λ items. map (λ item. item.now) items.items ≡ items_of text.now) }
{
    text.split(',').collect(alloc)
}

/// The line that names an item, by its number from 0, and says what it should be.
#[tactic(auto, unfolding(crate::specs::option_diagnostics::Item::fault_line))]
pub(crate) fn fault_line(
    alloc: Global,
    place: usize,
    item: &str,
    form: &'static str,
) -> Result<Vec<u8>, AllocError>
    requires { place + 1 < 2 ^ 64 }
    ensures { IfOk result (λ line. line.items ≡ spec.fault_line place item.now form.now) }
{
    let count = number(alloc, place + 1)?;
    let name = shown(alloc, item.as_bytes())?;
    joined(
        alloc,
        &[
            b"item ",
            &count,
            b": `",
            &name,
            b"` is no ",
            form.as_bytes(),
            b"\n",
        ],
    )
}
