//! What is written behind several files.

ghost use Rattle.std.specs.Prelude.{◌≡◌, IfOk};
ghost use Rattle.race_output.specs.Several as spec;

use crate::counts::counted;
use output_pieces::{FileCounts, TextBuilder};
use std::alloc::{AllocError, Global};

/// What is told of the files that were searched to their ends.
fn searched_counts(alloc: Global, counts: FileCounts) -> Result<Vec<u8>, AllocError>
    ensures { IfOk result (λ text. text.items ≡ spec.searched_counts counts) }
{
    TextBuilder::new(alloc)
        .text(counted(alloc, counts.free, " free of races, "))
        .text(counted(alloc, counts.reported, " with races reported, "))
        .text(counted(alloc, counts.missed, " with races missed, "))
        .build()
}

/// The line behind several files.
pub fn last_line(alloc: Global, counts: FileCounts) -> Result<Vec<u8>, AllocError>
    ensures { IfOk result (λ text. text.items ≡ spec.last_line counts) }
{
    TextBuilder::new(alloc)
        .piece(b"files: ")
        .text(searched_counts(alloc, counts))
        .text(counted(alloc, counts.refused, " refused, "))
        .text(counted(alloc, counts.stopped, " stopped\n"))
        .build()
}
