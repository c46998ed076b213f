//! Heads and lines.

use crate::trace::Trace;
use crate::trace_row::quoted;
use report_text::Line;
use std::alloc::{AllocError, Global};
use test_rows::escapes::unescaped;
use trace_replay::trace_lines::{Shape, read_head, read_line};
use watch_word::Layout;

/// The shape of a trace with one line.
const SHAPE: Shape = Shape {
    slots: 64,
    layout: Layout::W64,
};

/// What stands before that line.
const HEAD: &str = "KCSAN-TRACE 2\nshape 64 64\n";

/// The head that a quoted text begins with and what stands behind it, or the line that fails.
pub fn head(alloc: Global, asked: &str) -> Result<Option<String>, AllocError> {
    let Some(text) = quoted(asked) else {
        return Ok(None);
    };
    let text = unescaped(alloc, text)?;
    match read_head(text.as_bytes()) {
        Ok((head, rest)) => {
            let rest = String::from_utf8_lossy(alloc, rest)?;
            Ok(Some(format!(in alloc; "{head:?} then {rest:?}")?))
        }
        Err(line) => Ok(Some(format!(in alloc; "line {line}")?)),
    }
}

/// The line that a quoted text is, and what else comes where the text goes on behind it, where a beginning of the text
/// is a line too, or where the line isn't written as that text.
pub fn line(alloc: Global, asked: &str) -> Result<Option<String>, AllocError> {
    let Some(text) = quoted(asked) else {
        return Ok(None);
    };
    let text = unescaped(alloc, text)?;
    let Some((line, rest)) = read_line(text.as_bytes()) else {
        return Ok(Some(String::from_str(alloc, "no line")?));
    };
    let mut comes = format!(in alloc; "{line:?}")?;
    if !rest.is_empty() {
        comes.push_str(", and more behind it")?;
    }
    if begins_with_a_line(text.as_bytes()) {
        comes.push_str(", also of a beginning")?;
    }
    if let Some(other) = written_otherwise(alloc, line, &text)? {
        comes.push_str(", written in ")?;
        comes.push_str(&other)?;
    }
    Ok(Some(comes))
}

/// Whether a beginning of the bytes, fewer than they are, is a line.
fn begins_with_a_line(bytes: &[u8]) -> bool {
    for end in 0..bytes.len() {
        if read_line(&bytes[..end]).is_some() {
            return true;
        }
    }
    false
}

/// The trace that is written of a line alone, where that isn't the text between a head and an end.
fn written_otherwise(alloc: Global, line: Line, text: &str) -> Result<Option<String>, AllocError> {
    let mut trace = Trace::new(alloc, SHAPE);
    trace.keep(line)?;
    let written = trace.written(alloc)?;
    let wanted = format!(in alloc; "{HEAD}{text}end\n")?;
    Ok((written != wanted).then_some(written))
}
