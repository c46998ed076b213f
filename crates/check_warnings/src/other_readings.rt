//! What `check` warns of where C reads a token, or two, otherwise.

ghost use Rattle.std.specs.Prelude.{◌≡◌, ◌≤◌, IfOk, List, length, ℕ};
ghost use Rattle.litmus_lex.specs.Head.{IsText};
ghost use Rattle.litmus_lex.specs.Tokens.{Placed};
ghost use Rattle.check_warnings.specs.OtherReadings as spec;

use litmus_lex::{Spot, column_of, line_of, read_head, tokens};
use program_table::text_pieces::{joined, number, shown};
use std::alloc::{AllocError, Global};

/// How C reads what a text goes on with from a token on.
#[derive(Clone, Copy)]
pub enum OtherReading {
    /// `--`, which takes 1 away.
    Decrement,
    /// A decimal number with a 0 before it, which is octal.
    Octal,
    /// As here.
    Same,
}

/// A decimal number with a 0 before its other digits.
#[tactic(auto, unfolding(crate::specs::OtherReadings::is_octal))]
fn is_octal(bytes: &[u8]) -> bool
    ensures { result ≡ spec.is_octal bytes.now }
{
    match bytes {
        [first, second, ..] => *first == b'0' && second.is_ascii_digit(),
        _ => false,
    }
}

/// How C reads what a text goes on with from a token on.
#[tactic(auto, unfolding(crate::specs::OtherReadings::reading_of))]
fn reading_of(bytes: &[u8]) -> OtherReading
    ensures { result ≡ spec.reading_of bytes.now }
{
    if bytes.starts_with(b"--") {
        return OtherReading::Decrement;
    }
    if is_octal(bytes) {
        return OtherReading::Octal;
    }
    OtherReading::Same
}

/// A warning on this place of a text, in a file of this name.
#[tactic(auto, unfolding(crate::specs::OtherReadings::placed_line))]
pub(crate) fn placed_line(
    alloc: Global,
    file: &[u8],
    text: &[u8],
    at: usize,
    words: &[u8],
) -> Result<Vec<u8>, AllocError>
    requires { at ≤ length text.now }
    ensures { IfOk result (λ line. line.items ≡ spec.placed_line file.now text.now at words.now) }
{
    let head = shown(alloc, file)?;
    let line = number(alloc, line_of(text, at))?;
    let column = number(alloc, column_of(text, at))?;
    joined(alloc, &[&head, b":", &line, b":", &column, words])
}

/// The warning on a token at this place that C reads so.
#[tactic(auto, unfolding(crate::specs::OtherReadings::reading_line))]
fn reading_line(
    alloc: Global,
    file: &[u8],
    text: &[u8],
    at: usize,
    reading: OtherReading,
) -> Result<Vec<u8>, AllocError>
    requires { at ≤ length text.now }
    ensures { IfOk result (λ line. line.items ≡ spec.reading_line file.now text.now at reading) }
{
    match reading {
        OtherReading::Decrement => placed_line(
            alloc,
            file,
            text,
            at,
            b": warning: `--` is the minus of a minus, and changes nothing: for `--r0` write `r0 = r0 - 1;` before it\n",
        ),
        OtherReading::Octal => placed_line(
            alloc,
            file,
            text,
            at,
            b": warning: a number with 0 before it is decimal, where C reads it as octal: for `010` of C write 8\n",
        ),
        OtherReading::Same => Ok(Vec::new(alloc)),
    }
}

/// The warning on a token at this place.
#[tactic(auto, using(crate::proofs::TokenLemmas::none_past), unfolding(crate::specs::OtherReadings::token_line))]
fn token_line(alloc: Global, file: &[u8], text: &[u8], at: usize) -> Result<Vec<u8>, AllocError>
    ensures { IfOk result (λ line. line.items ≡ spec.token_line file.now text.now at) }
{
    if at > text.len() {
        return Ok(Vec::new(alloc));
    }
    reading_line(alloc, file, text, at, reading_of(&text[at..]))
}

/// The warnings on tokens.
fn spots_lines(
    alloc: Global,
    file: &[u8],
    text: &[u8],
    spots: &[Spot],
) -> Result<Vec<u8>, AllocError>
    ensures { IfOk result (λ lines. lines.items ≡ spec.lines_at file.now text.now (spec.places_of_spots spots.now)) }
{
    let mut lines = Vec::new(alloc);
    for spot in spots {
        let line = token_line(alloc, file, text, spot.at)?;
        lines.extend_from_slice(&line)?;
    }
    Ok(lines)
}

/// The warnings on the tokens of a text, in a file of this name.
pub(crate) fn tokens_lines(alloc: Global, file: &[u8], text: &[u8]) -> Result<Vec<u8>, AllocError>
    ensures { (name : List ℕ) (found : List Placed) → IsText text.now name found
        → IfOk result (λ lines. lines.items ≡ spec.lines_at file.now text.now (spec.places_of found)) }
{
    match read_head(text) {
        Ok(head) => {
            let spots = tokens(alloc, text, head.after)?;
            spots_lines(alloc, file, text, &spots)
        }
        Err(_) => Ok(Vec::new(alloc)),
    }
}
