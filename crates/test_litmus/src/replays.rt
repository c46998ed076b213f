//! Traces that are replayed.

use crate::trace_row::quoted;
use std::alloc::{AllocError, Global};
use test_rows::escapes::unescaped;
use test_rows::texts::Texts;
use trace_replay::{TraceError, replay};

/// What is answered of the trace of a name.
pub fn replayed(alloc: Global, texts: &Texts, name: &str) -> Result<Option<String>, AllocError> {
    match texts.get(name) {
        Some(text) => Ok(Some(answer(alloc, text.as_bytes())?)),
        None => Ok(None),
    }
}

/// What is answered of bytes.
fn answer(alloc: Global, bytes: &[u8]) -> Result<String, AllocError> {
    match replay(alloc, bytes) {
        Err(TraceError::OutOfMemory) => Err(AllocError),
        Err(fault) => format!(in alloc; "{fault}"),
        Ok(accepted) => format!(in alloc; "{accepted:?}"),
    }
}

/// What is answered of the trace of a name with one part replaced, where it stands first: `NAME "OLD" "NEW"`.
pub fn replayed_with(
    alloc: Global,
    texts: &Texts,
    asked: &str,
) -> Result<Option<String>, AllocError> {
    let Some((name, old, new)) = edit(asked) else {
        return Ok(None);
    };
    let old = unescaped(alloc, old)?;
    let new = unescaped(alloc, new)?;
    let Some((before, after)) = parts(texts, name, &old) else {
        return Ok(None);
    };
    let text = format!(in alloc; "{before}{new}{after}")?;
    Ok(Some(answer(alloc, text.as_bytes())?))
}

/// The name, the old part and the new one.
fn edit(asked: &str) -> Option<(&str, &str, &str)> {
    let (name, parts) = asked.split_once(' ')?;
    let (old, new) = quoted(parts)?.split_once("\" \"")?;
    Some((name, old, new))
}

/// What stands before and behind a part in the text of a name.
fn parts<'t>(texts: &'t Texts, name: &str, part: &str) -> Option<(&'t str, &'t str)> {
    texts.get(name)?.split_once(part)
}

/// What is answered of the beginnings of the trace of a name: of the first that isn't bad in its last line, where there
/// is one.
pub fn cut(alloc: Global, texts: &Texts, name: &str) -> Result<Option<String>, AllocError> {
    let Some(text) = texts.get(name) else {
        return Ok(None);
    };
    let bytes = text.as_bytes();
    for end in 0..bytes.len() {
        let beginning = &bytes[..end];
        if !is_bad_in_its_last_line(alloc, beginning) {
            let answer = answer(alloc, beginning)?;
            return Ok(Some(format!(in alloc; "{answer}, of {end} bytes")?));
        }
    }
    Ok(Some(String::from_str(alloc, "bad in their last lines")?))
}

/// Whether a trace is answered to be bad in the line that it ends in.
fn is_bad_in_its_last_line(alloc: Global, bytes: &[u8]) -> bool {
    let lines = bytes.iter().filter(|byte| **byte == b'\n').count() as u64;
    let line = lines.saturating_add(1);
    replay(alloc, bytes) == Err(TraceError::BadTrace { line })
}
