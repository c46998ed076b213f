//! The line of a place, cut round it where it is long, with a mark under the place.

ghost use Rattle.std.specs.Prelude.{◌≡◌, ◌+◌, ◌<◌, ◌≤◌, ◌^◌, ◌==◌, IfOk, length};
ghost use Rattle.std.specs.List.{position_or_len};
ghost use Rattle.diagnostics.specs.refusal_text.Excerpt as spec;

use litmus_lex::{column_of, line_of};
use program_table::text_pieces::{blanks, joined, number, shown};
use std::alloc::{AllocError, Global};

/// How many bytes of a line are shown before the place.
const BEFORE: usize = 60;

/// How many bytes of a line are shown in all.
const WIDTH: usize = 80;

/// The bytes of a place's line that stand before it.
pub(crate) fn before_of(text: &[u8], at: usize) -> &[u8]
    requires { at ≤ length text.now }
    ensures exact { result.now ≡ spec.before_of text.now at }
    ensures within { length result.now ≤ at }
{
    let column = column_of(text, at);
    &text[at - (column - 1)..at]
}

/// How many bytes at the front stand before an LF.
fn line_len(bytes: &[u8]) -> usize
    ensures exact { result ≡ position_or_len (λ byte. byte == 10) bytes.now }
    ensures within { result ≤ length bytes.now }
{
    for (len, byte) in bytes.iter().enumerate() {
        if *byte == b'\n' {
            return len;
        }
    }
    bytes.len()
}

/// The bytes of a place's line from there on.
fn after_of(text: &[u8], at: usize) -> &[u8]
    requires { at ≤ length text.now }
    ensures exact { result.now ≡ spec.after_of text.now at }
    ensures within { length result.now + at ≤ length text.now }
{
    let rest = &text[at..];
    let end = line_len(rest);
    &rest[..end]
}

/// What is shown of the bytes before a place: the last of them.
fn near_before(before: &[u8]) -> &[u8]
    ensures exact { result.now ≡ spec.near_before before.now }
    ensures short { (length result.now ≤ 60) × (length result.now ≤ length before.now) }
{
    &before[before.len().saturating_sub(BEFORE)..]
}

/// What is shown of the bytes from a place on, behind so many: as many as there is room for.
fn near_after(after: &[u8], shown: usize) -> &[u8]
    requires { shown ≤ 60 }
    ensures exact { result.now ≡ spec.near_after after.now shown }
    ensures short { length result.now ≤ length after.now }
{
    &after[..after.len().min(WIDTH - shown)]
}

/// The line that says that a line is cut, and where: from a column to a column of so many. Nothing where it isn't.
#[tactic(auto, unfolding(crate::specs::refusal_text::Excerpt::cut_text))]
fn cut_text(
    alloc: Global,
    margin: &[u8],
    from: usize,
    to: usize,
    all: usize,
) -> Result<Vec<u8>, AllocError>
    ensures { IfOk result (λ text. text.items ≡ spec.cut_text margin.now from to all) }
{
    if from == 1 && to == all {
        return Ok(Vec::new(alloc));
    }
    let first = number(alloc, from)?;
    let last = number(alloc, to)?;
    let count = number(alloc, all)?;
    joined(
        alloc,
        &[
            b"  ",
            margin,
            b" | columns ",
            &first,
            b" to ",
            &last,
            b" of ",
            &count,
            b"\n",
        ],
    )
}

/// The line and the mark.
#[tactic(auto, unfolding(crate::specs::refusal_text::Excerpt::marked_text))]
fn marked_text(
    alloc: Global,
    line: &[u8],
    margin: &[u8],
    before: &[u8],
    after: &[u8],
) -> Result<Vec<u8>, AllocError>
    ensures { IfOk result (λ text. text.items ≡ spec.marked_text line.now margin.now before.now after.now) }
{
    let front = shown(alloc, before)?;
    let rest = shown(alloc, after)?;
    let gap = blanks(alloc, front.len())?;
    joined(
        alloc,
        &[
            b"  ", line, b" | ", &front, &rest, b"\n  ", margin, b" | ", &gap, b"^\n",
        ],
    )
}

/// A line with this number, cut, and with a mark behind the bytes before.
#[tactic(auto, unfolding(crate::specs::refusal_text::Excerpt::excerpt_of))]
fn excerpt_of(
    alloc: Global,
    line: &[u8],
    before: &[u8],
    after: &[u8],
) -> Result<Vec<u8>, AllocError>
    requires { length before.now + length after.now < 2 ^ 63 }
    ensures { IfOk result (λ text. text.items ≡ spec.excerpt_of line.now before.now after.now) }
{
    let margin = blanks(alloc, line.len())?;
    let near = near_before(before);
    let rest = near_after(after, near.len());
    let marked = marked_text(alloc, line, &margin, near, rest)?;
    let from = before.len() - near.len() + 1;
    let to = before.len() + rest.len();
    let cut = cut_text(alloc, &margin, from, to, before.len() + after.len())?;
    joined(alloc, &[&marked, &cut])
}

/// The line of a place with a mark under the place, and where it is cut.
#[tactic(auto, unfolding(crate::specs::refusal_text::Excerpt::excerpt))]
pub(crate) fn excerpt(alloc: Global, text: &[u8], at: usize) -> Result<Vec<u8>, AllocError>
    requires { at ≤ length text.now }
    ensures { IfOk result (λ shown. shown.items ≡ spec.excerpt text.now at) }
{
    let line = number(alloc, line_of(text, at))?;
    let before = before_of(text, at);
    let after = after_of(text, at);
    excerpt_of(alloc, &line, before, after)
}
