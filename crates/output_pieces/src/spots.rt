//! Where sites stand in a text, and what is written there.

ghost use Rattle.std.specs.Prelude.{◌≡◌, ◌≤◌, IfOk, IfSome, length, map};
ghost use Rattle.output_pieces.specs.Spots as spec;

use litmus_lex::{column_of, line_of};
use program_table::text_pieces::{cut, joined, number, shown};
use races::SiteName;
use std::alloc::{AllocError, Global};

/// Where the access of a site begins in a text: how many bytes stand before it, if that is known.
pub fn place_of(text: &[u8], places: &[Vec<usize>], name: SiteName) -> Option<usize>
    ensures place { result ≡ spec.place_of text.now (map (λ own. own.items) places.now) name }
    ensures within { IfSome result (λ at. at ≤ length text.now) }
{
    let Some(own) = places.get(name.task as usize) else {
        return None;
    };
    match own.get(name.site as usize) {
        Some(at) if *at <= text.len() => Some(*at),
        _ => None,
    }
}

/// A line and a column.
pub fn spot_text(alloc: Global, text: &[u8], at: Option<usize>) -> Result<Vec<u8>, AllocError>
    requires { IfSome at (λ at. at ≤ length text.now) }
    ensures { IfOk result (λ found. found.items ≡ spec.spot_text text.now at) }
{
    match at {
        None => Vec::from_slice(alloc, b"-"),
        Some(at) => {
            let line = number(alloc, line_of(text, at))?;
            let column = number(alloc, column_of(text, at))?;
            joined(alloc, &[&line, b":", &column])
        }
    }
}

/// A statement ends at this byte, or its line does.
fn is_end(byte: u8) -> bool
    ensures { result ≡ spec.is_end byte }
{
    byte == b';' || byte == b'\n'
}

/// How many bytes at the front are the statement that begins there: those up to and with the first `;`, or those of the
/// line.
fn statement_len(bytes: &[u8]) -> usize
    ensures exact { result ≡ spec.statement_len bytes.now }
    ensures within { result ≤ length bytes.now }
{
    for (len, byte) in bytes.iter().enumerate() {
        if is_end(*byte) {
            return if *byte == b';' { len + 1 } else { len };
        }
    }
    bytes.len()
}

/// A blank, a tab or a carriage return.
fn is_blank(byte: u8) -> bool
    ensures { result ≡ spec.is_blank byte }
{
    byte == b' ' || byte == b'\t' || byte == b'\r'
}

/// The bytes without the blanks at their end.
fn without_blanks(mut bytes: &[u8]) -> &[u8]
    ensures { result.now ≡ spec.without_blanks bytes.entry.now }
{
    while let [rest @ .., last] = bytes {
        if !is_blank(*last) {
            break;
        }
        bytes = rest;
    }
    bytes
}

/// The bytes from the first on that is no blank.
fn from_text(mut bytes: &[u8]) -> &[u8]
    ensures { result.now ≡ spec.from_text bytes.entry.now }
{
    while let [first, rest @ ..] = bytes {
        if !is_blank(*first) {
            break;
        }
        bytes = rest;
    }
    bytes
}

/// A statement begins behind this byte: the end of another, a brace, or the end of a line.
fn is_start(byte: u8) -> bool
    ensures { result ≡ spec.is_start byte }
{
    byte == b';' || byte == b'{' || byte == b'}' || byte == b'\n'
}

/// The bytes up to and with the last behind which a statement begins.
fn up_to_start(mut bytes: &[u8]) -> &[u8]
    ensures exact { result.now ≡ spec.up_to_start bytes.entry.now }
    ensures within { length result.now ≤ length bytes.entry.now }
{
    while let [rest @ .., last] = bytes {
        if is_start(*last) {
            break;
        }
        bytes = rest;
    }
    bytes
}

/// The statement in which a place of a text stands, as far as it stands in the line.
#[tactic(auto, unfolding(crate::specs::Spots::statement_at))]
pub fn statement_at(text: &[u8], at: usize) -> &[u8]
    requires { at ≤ length text.now }
    ensures { result.now ≡ spec.statement_at text.now at }
{
    let start = up_to_start(&text[..at]).len();
    let rest = from_text(&text[start..]);
    let len = statement_len(rest);
    without_blanks(&rest[..len])
}

/// The statement of a place, behind two blanks, cut to so many columns; nothing where the place isn't known.
pub fn statement_text(
    alloc: Global,
    text: &[u8],
    at: Option<usize>,
    room: usize,
) -> Result<Vec<u8>, AllocError>
    requires place { IfSome at (λ at. at ≤ length text.now) }
    requires room { 2 ≤ room }
    ensures { IfOk result (λ found. found.items ≡ spec.statement_text text.now at room) }
{
    match at {
        None => Ok(Vec::new(alloc)),
        Some(at) => {
            let statement = shown(alloc, statement_at(text, at))?;
            let statement = cut(alloc, &statement, room)?;
            joined(alloc, &[b"  ", &statement])
        }
    }
}
