//! A part as a text, and the part that a text is.

ghost use Rattle.std.specs.Prelude.{◌≡◌, ◌++◌, ◌∷◌, ◌↔◌, [], IfOk, IsTrue, IsUtf8, List, MatchOption, MatchResult, Some, codes, ℕ};
ghost use Rattle.part_search.specs.part_file.Reads.{part_in, text_at};
ghost use Rattle.part_search.specs.part_file.Texts.{IsTextOf, text_of};
ghost use Rattle.part_search.specs.part_file.Values.{format, part_data};
ghost use Rattle.part_search.specs.part_file.Views.{PartView, part_view};
ghost use Rattle.part_search.specs.declared.part_file.text.PartError.TheVariants.{OutOfMemory};
ghost use Rattle.serde_json.specs.Data.{Data};
ghost use Rattle.serde_json.specs.Read.{read};
ghost use Rattle.serde_json.specs.View.{view};

use crate::part_file::members::str_at;
use crate::part_file::part::Part;
use crate::part_file::reading::part_of;
use crate::part_file::values::{FORMAT, part_value};
use program_table::text_pieces::joined;
use serde_json::Value;
use std::alloc::{AllocError, Global};
use thiserror::Error;

/// Why a text is not that of a part.
#[derive(Clone, Copy, Debug, Error)]
pub enum PartError {
    #[error("out of memory")]
    OutOfMemory,
    /// Its last line has no end.
    #[error("cut short")]
    CutShort,
    #[error("not JSON")]
    NotJson,
    /// It is JSON, and not of a part, or of one that is written in another way.
    #[error("not a part of a search, or of another version")]
    OtherFormat,
    /// It is of a part, and something was changed in it.
    #[error("not as a part is written")]
    Changed,
}

impl From<AllocError> for PartError {
    ghost from_gives = { λ _ e. e ≡ OutOfMemory };

    fn from(_error: AllocError) -> PartError {
        PartError::OutOfMemory
    }
}

/// The text of a part, which reads as the part. The only error is want of memory.
pub fn part_text(alloc: Global, part: &Part) -> Result<Vec<u8>, AllocError>
    ensures { IfOk result (λ text. IsTextOf (part_view part.now) text.items) }
{
    let value = part_value(alloc, part)?;
    let text = value.to_string(alloc)?;
    let line = joined(alloc, &[text.as_str().as_bytes(), b"\n"])?;
    Ok(line)
}

/// What stands before the end of the last line.
fn line_in(text: &[u8]) -> Option<&[u8]>
    ensures { MatchOption result ((line : List ℕ) → text.now ≡ line ++ 10 ∷ [] → ⊥)
        (λ line. text.now ≡ line.now ++ 10 ∷ []) }
{
    match text.split_last() {
        Some((last, line)) => { if *last == b'\n' { Some(line) } else { None } }
        None => None,
    }
}

/// The value that a line is.
fn value_in(alloc: Global, line: &[u8]) -> Result<Value, PartError>
    ensures { (is : Data) → IsUtf8 line.now → read line.now ≡ Some is
        → MatchResult result (λ value. view value ≡ is) (λ error. error ≡ OutOfMemory) }
{
    match Value::from_slice(alloc, line) {
        Ok(value) => Ok(value),
        Err(error) => {
            if error.is_memory() {
                Err(PartError::OutOfMemory)
            } else {
                Err(PartError::NotJson)
            }
        }
    }
}

/// Whether a value says that it is a part, and is written in this way.
fn is_of_part(value: &Value) -> bool
    ensures { IsTrue result ↔ (text_at (codes "format") (view value.now) ≡ format) }
{
    str_at(value, "format") == FORMAT
}

/// The part that is read of a value, if it says that it is one.
fn part_in_value(alloc: Global, value: &Value) -> Result<Part, PartError>
    ensures { (part : PartView) → view value.now ≡ part_data part → part_in (part_data part) ≡ part
        → MatchResult result (λ again. part_view again ≡ part) (λ error. error ≡ OutOfMemory) }
{
    if !is_of_part(value) {
        return Err(PartError::OtherFormat);
    }
    let part = part_of(alloc, value)?;
    Ok(part)
}

/// The part that is read of a line.
fn part_in_line(alloc: Global, line: &[u8]) -> Result<Part, PartError>
    ensures { (part : PartView) → IsUtf8 line.now → read line.now ≡ Some (part_data part) → part_in (part_data part) ≡ part
        → MatchResult result (λ again. part_view again ≡ part) (λ error. error ≡ OutOfMemory) }
{
    let value = value_in(alloc, line)?;
    let part = part_in_value(alloc, &value)?;
    Ok(part)
}

/// Whether two texts are the same.
fn is_same(one: &[u8], other: &[u8]) -> bool
    ensures { IsTrue result ↔ (one.now ≡ other.now) }
{
    one == other
}

/// Whether a text is that of a part.
fn is_text_of(alloc: Global, part: &Part, text: &[u8]) -> Result<bool, AllocError>
    ensures { IfOk result (λ is. IsTrue is ↔ (text.now ≡ text_of (part_view part.now))) }
{
    let again = part_text(alloc, part)?;
    Ok(is_same(text, again.as_slice()))
}

/// The part that was read of a text, if this is its text.
fn checked(alloc: Global, part: Part, text: &[u8]) -> Result<Part, PartError>
    ensures only { IfOk result (λ again. text.now ≡ text_of (part_view again)) }
    ensures back { text.now ≡ text_of (part_view part)
        → MatchResult result (λ again. part_view again ≡ part_view part) (λ error. error ≡ OutOfMemory) }
{
    match is_text_of(alloc, &part, text) {
        Ok(true) => Ok(part),
        Ok(false) => Err(PartError::Changed),
        Err(_) => Err(PartError::OutOfMemory),
    }
}

/// The part that a text is. No other text is taken for that of the part, and the text of a part that was written is
/// refused only for want of memory.
pub fn read_part(alloc: Global, text: &[u8]) -> Result<Part, PartError>
    ensures only { IfOk result (λ part. text.now ≡ text_of (part_view part)) }
    ensures back { (part : PartView) → IsTextOf part text.now
        → MatchResult result (λ again. part_view again ≡ part) (λ error. error ≡ OutOfMemory) }
{
    let Some(line) = line_in(text) else {
        return Err(PartError::CutShort);
    };
    let part = part_in_line(alloc, line)?;
    checked(alloc, part, text)
}
