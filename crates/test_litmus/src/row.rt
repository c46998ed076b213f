//! Rows of each kind: texts, and behind a word for the kind checks, traces and words of the command line.

use crate::{check_row, command_row, text_row, trace_row};
use std::alloc::{AllocError, Global};
use test_rows::Tried;
use test_rows::texts::Texts;

/// What a row is about.
#[derive(Clone, Copy)]
pub enum Subject {
    Text,
    Check,
    Trace,
    Words,
}

/// What the row of a line is about.
pub fn subject_of(line: &str) -> Subject {
    match line.split_once(' ') {
        Some(("check", _)) => Subject::Check,
        Some(("words", _)) | Some(("words_say", _)) => Subject::Words,
        Some(("trace", _)) => Subject::Trace,
        _ if line.starts_with('|') => Subject::Trace,
        _ => Subject::Text,
    }
}

/// Tries the row of a line, or keeps the line, one of a trace that rows refer to by its name.
pub fn try_row(
    alloc: Global,
    traces: &mut Texts,
    subject: Subject,
    line: &str,
) -> Result<Tried, AllocError> {
    match subject {
        Subject::Text => try_text(alloc, line),
        Subject::Check => try_check(alloc, line),
        Subject::Trace => try_trace(alloc, traces, line),
        Subject::Words => try_words(alloc, line),
    }
}

/// Tries a row of a text.
fn try_text(alloc: Global, line: &str) -> Result<Tried, AllocError> {
    let Some(row) = text_row::Row::read(alloc, line)? else {
        return Tried::no_row(alloc, line);
    };
    let comes = text_row::outcome(alloc, &row)?;
    Tried::of(alloc, line, &row.wanted, &comes)
}

/// Tries a row of a check, which is what stands behind the word for its kind.
fn try_check(alloc: Global, line: &str) -> Result<Tried, AllocError> {
    let check = line.strip_prefix("check ").unwrap_or(line);
    let Some(row) = check_row::Row::read(alloc, check)? else {
        return Tried::no_row(alloc, line);
    };
    let comes = check_row::outcome(alloc, &row)?;
    Tried::of(alloc, line, &row.wanted, &comes)
}

/// Tries a row of a trace, or keeps a line of one.
fn try_trace(alloc: Global, traces: &mut Texts, line: &str) -> Result<Tried, AllocError> {
    let trace = line.strip_prefix("trace ").unwrap_or(line);
    if traces.takes(trace)? {
        return Ok(Tried::Kept);
    }
    let Some(row) = trace_row::Row::read(trace) else {
        return Tried::no_row(alloc, line);
    };
    let (Some(comes), Some(wanted)) = (row.outcome(alloc, traces)?, row.wanted(alloc, traces)?)
    else {
        return Tried::no_row(alloc, line);
    };
    Tried::of(alloc, line, &wanted, &comes)
}

/// Tries a row of words of the command line.
fn try_words(alloc: Global, line: &str) -> Result<Tried, AllocError> {
    let Some((asked, wanted)) = line.split_once(" => ") else {
        return Tried::no_row(alloc, line);
    };
    let comes = match asked.split_once(' ') {
        Some(("words_say", words)) => command_row::said(alloc, words, wanted)?,
        Some((_, words)) => command_row::outcome(alloc, words)?,
        None => return Tried::no_row(alloc, line),
    };
    Tried::of(alloc, line, wanted, &comes)
}
