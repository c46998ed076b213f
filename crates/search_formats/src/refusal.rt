//! Why a file has no output, and what is written of it.

ghost use Rattle.std.specs.Prelude.{◌≡◌, IfOk};
ghost use Rattle.search_formats.specs.Refusals as spec;

use crate::rows::refused_row;
use crate::wanted::Format;
use litmus_syntax::{Limit, ParseError};
use program_table::text_pieces::{joined, number};
use search_json::refused_json;
use std::alloc::{AllocError, Global};

/// Why a file has no output.
#[derive(Clone, Copy)]
pub enum Refusal {
    /// Its text is refused.
    Text(ParseError),
    /// A place doesn't suit its variables.
    BadPlace,
    /// It can't be read.
    CannotRead,
}

/// What a litmus text has too much of.
fn limit_word(limit: Limit) -> &'static str
    ensures { result.now ≡ spec.limit_word limit }
{
    match limit {
        Limit::File => "file",
        Limit::Tasks => "tasks",
        Limit::Statements => "statements",
        Limit::Variables => "variables",
        Limit::Registers => "registers",
        Limit::Nesting => "nesting",
        Limit::Operators => "operators",
        Limit::Scoped => "scoped",
        Limit::Number => "number",
        Limit::Check => "check",
        Limit::Repeats => "repeats",
    }
}

/// What offends in a line.
#[tactic(auto, unfolding(crate::specs::Refusals::line_text))]
fn line_text(alloc: Global, line: u64, words: &str) -> Result<Vec<u8>, AllocError>
    ensures { IfOk result (λ text. text.items ≡ spec.line_text line words.now) }
{
    let line = number(alloc, line as usize)?;
    joined(alloc, &[b"line ", &line, words.as_bytes()])
}

/// Why a text is refused.
fn error_text(alloc: Global, error: ParseError) -> Result<Vec<u8>, AllocError>
    ensures { IfOk result (λ text. text.items ≡ spec.error_text error) }
{
    match error {
        ParseError::OutOfMemory => Vec::from_slice(alloc, b"out of memory"),
        ParseError::Syntax { line } => line_text(alloc, line, ": syntax"),
        ParseError::Unsupported { line } => line_text(alloc, line, ": unsupported"),
        ParseError::Limit(limit) => joined(alloc, &[b"limit: ", limit_word(limit).as_bytes()]),
        ParseError::NotAscii => Vec::from_slice(alloc, b"not ascii"),
    }
}

/// Why a file has no output, as it is written.
pub fn refusal_text(alloc: Global, why: Refusal) -> Result<Vec<u8>, AllocError>
    ensures { IfOk result (λ text. text.items ≡ spec.refusal_text why) }
{
    match why {
        Refusal::Text(error) => error_text(alloc, error),
        Refusal::BadPlace => Vec::from_slice(alloc, b"bad place"),
        Refusal::CannotRead => Vec::from_slice(alloc, b"cannot read"),
    }
}

/// What is written of a file that isn't searched: a row in CSV, a line in JSON, else nothing.
pub fn refused_text(
    alloc: Global,
    name: &str,
    format: Format,
    status: u8,
    why: Refusal,
) -> Result<Vec<u8>, AllocError>
    ensures { IfOk result (λ text. text.items ≡ spec.refused_text name.now format status why) }
{
    match format {
        Format::Text | Format::Herd | Format::Part { .. } => Ok(Vec::new(alloc)),
        Format::Csv => {
            let why = refusal_text(alloc, why)?;
            refused_row(alloc, name, status, &why)
        }
        Format::Json => {
            let why = refusal_text(alloc, why)?;
            refused_json(alloc, name, status, &why)
        }
    }
}
