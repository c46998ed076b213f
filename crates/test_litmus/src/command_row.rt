//! Rows of words of the command line: what they ask for, or how they are refused.

use clap::error::{Error, ErrorKind};
use cli::request::asked;
use std::alloc::{AllocError, Global};

/// What comes of words, the first of them the program's name, with `|` between two of them: the request, or the kind of
/// the error.
pub fn outcome(alloc: Global, words: &str) -> Result<String, AllocError> {
    let words = split(alloc, words)?;
    match asked(alloc, &words) {
        Ok(request) => format!(in alloc; "{request:?}"),
        Err(error) => kind(alloc, error.kind()),
    }
}

/// The same, with a part behind the kind of the error that stands in what is said of them, or else with all of that.
pub fn said(alloc: Global, words: &str, wanted: &str) -> Result<String, AllocError> {
    let words = split(alloc, words)?;
    match asked(alloc, &words) {
        Ok(request) => format!(in alloc; "{request:?}"),
        Err(error) => part_said(alloc, &error, wanted),
    }
}

/// The kind of an error, and of what is said of it the part that is wanted, or all where that isn't in it.
fn part_said(alloc: Global, error: &Error, wanted: &str) -> Result<String, AllocError> {
    let kind = kind(alloc, error.kind())?;
    let said = format!(in alloc; "{error}")?;
    if let Some((_, part)) = wanted.split_once(", ")
        && said.contains(part)
    {
        return format!(in alloc; "{kind}, {part}");
    }
    format!(in alloc; "{kind}, {said}")
}

/// The words of a row.
fn split<'l>(alloc: Global, text: &'l str) -> Result<Vec<&'l str>, AllocError> {
    let mut words = Vec::new(alloc);
    for word in text.split('|') {
        words.push(word)?;
    }
    Ok(words)
}

/// The kind of an error.
fn kind(alloc: Global, kind: ErrorKind) -> Result<String, AllocError> {
    match kind {
        ErrorKind::OutOfMemory => Err(AllocError),
        kind => format!(in alloc; "{kind:?}"),
    }
}
