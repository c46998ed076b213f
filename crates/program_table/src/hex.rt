//! Numbers in hexadecimal.

ghost use Rattle.std.specs.Prelude.{◌≡◌, ◌++◌, IfOk, codes};
ghost use Rattle.program_table.specs.Accesses.{hexed};

use report_text::MemorySink;
use report_text::pieces::{Piece, write_pieces};
use std::alloc::{AllocError, Global};

/// The number in hexadecimal, behind `0x`.
#[tactic(auto, unfolding(crate::specs::Accesses::hexed))]
pub(crate) fn hexed(alloc: Global, value: u64) -> Result<Vec<u8>, AllocError>
    ensures { IfOk result (λ text. text.items ≡ hexed value) }
{
    let mut sink = MemorySink::new(alloc);
    match write_pieces(&mut sink, &[Piece::Text("0x"), Piece::Hex(1, value)]) {
        Ok(()) => Ok(sink.into_bytes()),
        Err(_) => Err(AllocError),
    }
}
