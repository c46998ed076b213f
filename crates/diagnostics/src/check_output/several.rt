//! Lines of several files.

ghost use Rattle.std.specs.Prelude.{◌≡◌, IfOk};
ghost use Rattle.diagnostics.specs.check_output.Output as spec;

use program_table::text_pieces::{joined, number, shown};
use std::alloc::{AllocError, Global};

/// The line that says that a file of this name can't be read.
#[tactic(auto, unfolding(crate::specs::check_output::Output::unread_line))]
pub fn unread_line(alloc: Global, name: &str) -> Result<Vec<u8>, AllocError>
    ensures { IfOk result (λ line. line.items ≡ spec.unread_line name.now) }
{
    let file = shown(alloc, name.as_bytes())?;
    joined(alloc, &[&file, b": can't be read\n"])
}

/// The line behind the tables of several files: how many of how many are read.
#[tactic(auto, unfolding(crate::specs::check_output::Output::last_line))]
pub fn last_line(alloc: Global, read: usize, all: usize) -> Result<Vec<u8>, AllocError>
    ensures { IfOk result (λ line. line.items ≡ spec.last_line read all) }
{
    let few = number(alloc, read)?;
    let many = number(alloc, all)?;
    joined(alloc, &[&few, b" of ", &many, b" files are read\n"])
}
