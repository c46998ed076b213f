//! Texts that are put together of pieces.

ghost use Rattle.std.specs.Prelude.{◌≡◌, IfOk, replicate};
ghost use Rattle.std.specs.Fmt.{decimal};
ghost use Rattle.std.specs.List.{flat_map};
ghost use Rattle.program_table.specs.text_pieces.Pieces as spec;

use itoa::Buffer;
use std::alloc::{AllocError, Global};

/// The pieces, one behind the other.
pub fn joined(alloc: Global, pieces: &[&[u8]]) -> Result<Vec<u8>, AllocError>
    ensures { IfOk result (λ text. text.items ≡ flat_map (λ piece. piece.now) pieces.now) }
{
    let mut text = Vec::new(alloc);
    for piece in pieces {
        text.extend_from_slice(piece)?;
    }
    Ok(text)
}

/// The number in decimal.
pub fn number(alloc: Global, value: usize) -> Result<Vec<u8>, AllocError>
    ensures { IfOk result (λ text. text.items ≡ decimal value) }
{
    Vec::from_slice(alloc, Buffer::new().format(value).as_bytes())
}

/// So many blanks.
pub fn blanks(alloc: Global, count: usize) -> Result<Vec<u8>, AllocError>
    ensures { IfOk result (λ text. text.items ≡ replicate count 32) }
{
    vec![in alloc; b' '; count]
}

/// The text with as many blanks behind it as fill so many signs; a longer one has none.
#[tactic(auto, unfolding(crate::specs::text_pieces::Pieces::padded))]
pub fn padded(alloc: Global, text: &[u8], width: usize) -> Result<Vec<u8>, AllocError>
    ensures { IfOk result (λ found. found.items ≡ spec.padded text.now width) }
{
    let gap = blanks(alloc, width.saturating_sub(text.len()))?;
    joined(alloc, &[text, &gap])
}
