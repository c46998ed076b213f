//! Rows of tokens, heads and lines. Each ends with a text between quotes, with its escapes.

use crate::fault::Fault;
use crate::numbers::number;
use litmus_lex::{Lexeme, Part, SourcePosition, Token, line_of, next_token, read_head};
use std::alloc::Global;
use std::fmt::Write;
use test_rows::escapes::unescaped;

/// The words before a text between quotes, and that text.
pub fn quoted(alloc: Global, row: &str) -> Result<(&str, String), Fault> {
    let (words, text) = row.split_once('"').ok_or(Fault::NoRow)?;
    let text = text.strip_suffix('"').ok_or(Fault::NoRow)?;
    Ok((words.trim_end(), unescaped(alloc, text)?))
}

/// The text that bytes are.
pub fn text_of(bytes: &[u8]) -> Result<&str, Fault> {
    str::from_utf8(bytes).ok().ok_or(Fault::NoRow)
}

/// Where a row begins: in a part of the text, behind so many bytes.
fn start_of(words: &str) -> Result<(Part, usize), Fault> {
    let (part, at) = words.split_once(' ').ok_or(Fault::NoRow)?;
    let part = match part {
        "Init" => Part::Init,
        "Between" => Part::Between,
        "Body(1)" => Part::Body(1),
        _ => return Err(Fault::NoRow),
    };
    Ok((part, number(at)? as usize))
}

/// The token that a text goes on with in a part, behind so many bytes.
fn token_at(text: &[u8], part: Part, at: usize) -> Result<Lexeme<'_>, Fault> {
    if at > text.len() {
        return Err(Fault::NoRow);
    }
    match part {
        Part::Body(depth) => {
            if depth > at {
                return Err(Fault::NoRow);
            }
            let part = Part::Body(depth);
            Ok(next_token(text, SourcePosition { at, part }))
        }
        Part::Head | Part::Init | Part::Between => Ok(next_token(
            text,
            SourcePosition { at, part },
        )),
    }
}

/// Shows a token, from where it stands to the place after it: `PART BYTES "TEXT"`.
pub fn show_token(alloc: Global, row: &str, shown: &mut String) -> Result<(), Fault> {
    let (words, text) = quoted(alloc, row)?;
    let (part, at) = start_of(words)?;
    let lexeme = token_at(text.as_bytes(), part, at)?;
    let (at, after) = (lexeme.at, lexeme.after.at);
    match lexeme.token {
        Token::Name(name) => {
            let name = text_of(name)?;
            writeln!(shown, "{at} to {after}: Name({name})")?;
        }
        token => writeln!(shown, "{at} to {after}: {token:?}")?,
    }
    Ok(())
}

/// Shows where each token of a text stands and the part that goes on after it, up to the end: `PART BYTES "TEXT"`.
pub fn show_parts(alloc: Global, row: &str, shown: &mut String) -> Result<(), Fault> {
    let (words, text) = quoted(alloc, row)?;
    let (mut part, mut at) = start_of(words)?;
    for _ in 0..=text.len() {
        let lexeme = token_at(text.as_bytes(), part, at)?;
        if lexeme.token == Token::End {
            break;
        }
        at = lexeme.after.at;
        part = lexeme.after.part;
        let start = lexeme.at;
        writeln!(shown, "{start} {part:?}")?;
    }
    Ok(())
}

/// Shows the name in a text's head and the place after the head, or the place that offends: `"TEXT"`.
pub fn show_head(alloc: Global, row: &str, shown: &mut String) -> Result<(), Fault> {
    let (_, text) = quoted(alloc, row)?;
    match read_head(text.as_bytes()) {
        Ok(head) => {
            let name = text_of(head.name)?;
            let (at, part) = (head.after.at, head.after.part);
            writeln!(shown, "{name}, then {part:?} {at}")?;
        }
        Err(at) => writeln!(shown, "refused at {at}")?,
    }
    Ok(())
}

/// Shows the line of the place behind so many bytes: `BYTES "TEXT"`.
pub fn show_line(alloc: Global, row: &str, shown: &mut String) -> Result<(), Fault> {
    let (words, text) = quoted(alloc, row)?;
    let at = number(words)? as usize;
    if at > text.len() {
        return Err(Fault::NoRow);
    }
    let line = line_of(text.as_bytes(), at);
    writeln!(shown, "{line}")?;
    Ok(())
}
