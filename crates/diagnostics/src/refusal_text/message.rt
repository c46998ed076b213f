//! What is said of a text that is refused.

ghost use Rattle.std.specs.Prelude.{◌≡◌, ◌≤◌, IfOk, length};
ghost use Rattle.diagnostics.specs.refusal_text.Message as spec;
ghost use Rattle.diagnostics.specs.refusal_text.Message.{IsRefusalText};

use crate::refusal_text::before::word_before;
use crate::refusal_text::excerpt::excerpt;
use crate::refusal_text::expected::expected_text;
use crate::refusal_text::form_note::note_line;
use crate::refusal_text::reason::{behind, excess_words, fault_words, more_than, unread_words};
use crate::refusal_text::token::token_at;
use litmus_lex::{column_of, line_of};
use litmus_parse::{Reason, Refused};
use program_table::text_pieces::{joined, number, shown};
use std::alloc::{AllocError, Global};

/// How many bytes a text can have.
const FILE_BYTES: usize = 65536;

/// What a refusal is called.
fn kind_words(reason: Reason) -> &'static str
    ensures { result.now ≡ spec.kind_words reason }
{
    match reason {
        Reason::OutOfMemory => "out of memory",
        Reason::File | Reason::Limit(_) => "limit",
        Reason::NotAscii => "not ascii",
        Reason::Syntax { .. } => "syntax",
        Reason::Unsupported { .. } => "unsupported",
    }
}

/// Why it is refused, mostly behind the token that offends.
#[tactic(auto, unfolding(crate::specs::refusal_text::Message::reason_text))]
fn reason_text(alloc: Global, reason: Reason, token: &[u8]) -> Result<Vec<u8>, AllocError>
    ensures { IfOk result (λ text. text.items ≡ spec.reason_text reason token.now) }
{
    match reason {
        Reason::OutOfMemory => Ok(Vec::new(alloc)),
        Reason::File => more_than(alloc, FILE_BYTES, " bytes"),
        Reason::NotAscii => behind(alloc, token, "is no byte of a litmus file"),
        Reason::Limit(excess) => excess_words(alloc, excess),
        Reason::Syntax { fault, .. } => behind(alloc, token, fault_words(fault)),
        Reason::Unsupported { unread, .. } => behind(alloc, token, unread_words(unread)),
    }
}

/// The line that says where, how and why.
#[tactic(auto, unfolding(crate::specs::refusal_text::Message::heading))]
fn heading(
    alloc: Global,
    name: &[u8],
    text: &[u8],
    at: usize,
    reason: Reason,
    token: &[u8],
) -> Result<Vec<u8>, AllocError>
    requires { at ≤ length text.now }
    ensures { IfOk result (λ line. line.items ≡ spec.heading name.now text.now at reason token.now) }
{
    let file = shown(alloc, name)?;
    let line = number(alloc, line_of(text, at))?;
    let column = number(alloc, column_of(text, at))?;
    let kind = kind_words(reason).as_bytes();
    let words = reason_text(alloc, reason, token)?;
    joined(
        alloc,
        &[
            &file, b":", &line, b":", &column, b": ", kind, b": ", &words, b"\n",
        ],
    )
}

/// What would stand there, where it is no limit that is passed.
#[tactic(auto, unfolding(crate::specs::refusal_text::Message::expected_of))]
fn expected_of(alloc: Global, reason: Reason) -> Result<Vec<u8>, AllocError>
    ensures { IfOk result (λ text. text.items ≡ spec.expected_of reason) }
{
    match reason {
        Reason::Syntax { expected, .. } | Reason::Unsupported { expected, .. } => {
            expected_text(alloc, expected)
        }
        _ => Ok(Vec::new(alloc)),
    }
}

/// What is said of a text that is refused at a place where this token stands.
#[tactic(auto, unfolding(crate::specs::refusal_text::Message::refusal_text))]
fn with_token(
    alloc: Global,
    name: &[u8],
    text: &[u8],
    refused: Refused,
    token: &[u8],
) -> Result<Vec<u8>, AllocError>
    requires { refused.at ≤ length text.now }
    ensures { IfOk result (λ said. said.items ≡ spec.refusal_text name.now text.now refused.at refused.reason token.now) }
{
    if let Reason::OutOfMemory = refused.reason {
        return Ok(Vec::new(alloc));
    }
    let first = heading(alloc, name, text, refused.at, refused.reason, token)?;
    let marked = excerpt(alloc, text, refused.at)?;
    let wanted = expected_of(alloc, refused.reason)?;
    let rest = &text[refused.at..];
    let note = note_line(refused.reason, token, word_before(text, refused.at), rest);
    joined(alloc, &[&first, &marked, &wanted, note.as_bytes()])
}

/// What is said of a text that is refused, in a file of this name: where, how and why; the line of the place with a
/// mark under it; what would stand there; and what to write in its place or why it isn't read, or else the form that is
/// read there. Nothing where memory is refused.
pub fn refusal_text(
    alloc: Global,
    name: &[u8],
    text: &[u8],
    refused: Refused,
) -> Result<Vec<u8>, AllocError>
    requires { refused.at ≤ length text.now }
    ensures { IfOk result (λ said. IsRefusalText name.now text.now refused.at refused.reason said.items) }
{
    with_token(alloc, name, text, refused, token_at(text, refused.at))
}
