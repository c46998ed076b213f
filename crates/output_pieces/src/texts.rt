//! Texts that are built piece by piece. No function leaves early with texts in hand, since each path on which they are
//! dropped has to be proved.

ghost use Rattle.std.specs.Prelude.{◌≡◌, ◌++◌, ◌∷◌, [], ℕ, IfOk, List, OnOk};
ghost use Rattle.std.specs.Fmt.{decimal};
ghost use Rattle.std.specs.List.{concat};
ghost use Rattle.output_pieces.specs.Texts.{HasPieces};

use program_table::text_pieces::number;
use std::alloc::{AllocError, Global};

/// A text with the pieces so far. Where there was no room for one, there is no text.
#[derive(Drop)]
pub struct TextBuilder {
    pub alloc: Global,
    pub text: Result<Vec<u8>, AllocError>,
}

/// The text with one piece more.
fn appended(text: Result<Vec<u8>, AllocError>, piece: &[u8]) -> Result<Vec<u8>, AllocError>
    ensures { (before : List ℕ) → IfOk text (λ found. found.items ≡ before)
        → IfOk result (λ found. found.items ≡ before ++ piece.now) }
{
    let mut text = text?;
    text.extend_from_slice(piece)?;
    Ok(text)
}

impl TextBuilder {
    /// With no piece.
    pub fn new(alloc: Global) -> TextBuilder
        ensures { HasPieces result [] }
    {
        TextBuilder {
            alloc,
            text: Ok(Vec::new(alloc)),
        }
    }

    /// With one piece more.
    pub fn piece(self, piece: &[u8]) -> TextBuilder
        ensures { (pieces : List (List ℕ)) (own : List ℕ) → HasPieces self pieces → piece.now ≡ own
            → HasPieces result (pieces ++ own ∷ []) }
    {
        TextBuilder {
            alloc: self.alloc,
            text: appended(self.text, piece),
        }
    }

    /// With one piece more that is a text.
    pub fn words(self, words: &str) -> TextBuilder
        ensures { (pieces : List (List ℕ)) (own : List ℕ) → HasPieces self pieces → words.now ≡ own
            → HasPieces result (pieces ++ own ∷ []) }
    {
        self.piece(words.as_bytes())
    }

    /// With one piece more, if there was room for it.
    pub fn text(self, piece: Result<Vec<u8>, AllocError>) -> TextBuilder
        ensures { (pieces : List (List ℕ)) (own : List ℕ) → HasPieces self pieces
            → IfOk piece (λ found. found.items ≡ own) → HasPieces result (pieces ++ own ∷ []) }
    {
        match piece {
            Ok(piece) => self.piece(&piece),
            Err(refused) => TextBuilder {
                alloc: self.alloc,
                text: Err(refused),
            },
        }
    }

    /// With a number more.
    pub fn number(self, value: usize) -> TextBuilder
        ensures { (pieces : List (List ℕ)) (own : ℕ) → HasPieces self pieces → value ≡ own
            → HasPieces result (pieces ++ decimal own ∷ []) }
    {
        let digits = number(self.alloc, value);
        self.text(digits)
    }

    /// The whole text.
    pub fn build(self) -> Result<Vec<u8>, AllocError>
        ensures { (pieces : List (List ℕ)) → HasPieces self pieces → IfOk result (λ text. text.items ≡ concat pieces) }
    {
        self.text
    }
}

/// Adds a text behind another.
pub fn add_text(text: &mut Vec<u8>, piece: Result<Vec<u8>, AllocError>) -> Result<(), AllocError>
    ensures { (own : List ℕ) → IfOk piece (λ found. found.items ≡ own)
        → OnOk result (text.new.items ≡ text.old.items ++ own) }
{
    let piece = piece?;
    text.extend_from_slice(&piece)?;
    Ok(())
}
