//! Rows of parts of a search: which part is read of a text, of one that was changed, and which parts are a whole.

use crate::blocks::Blocks;
use crate::fault::Fault;
use crate::sample::{numbered, sample};
use part_search::part_file::{PartError, PartFault, PartsFault, check_parts, part_text, read_part};
use std::alloc::Global;
use std::fmt::Write;

/// Shows what comes of the text of a name, by what is done with it: `NAME`, and behind it what is changed or added.
pub fn show(
    alloc: Global,
    blocks: &Blocks,
    kind: &str,
    row: &str,
    shown: &mut String,
) -> Result<(), Fault> {
    let (name, rest) = row.split_once(' ').unwrap_or((row, ""));
    let text = blocks.text(name).ok_or(Fault::NoRow)?;
    match kind {
        "written" => show_written(alloc, text, shown),
        "change" => show_changed(alloc, text, rest, shown),
        "cut" => show_read(alloc, without_last(text.as_bytes()), shown),
        "add" => show_added(alloc, text, rest, shown),
        _ => show_read(alloc, text.as_bytes(), shown),
    }
}

/// All bytes but the last.
fn without_last(bytes: &[u8]) -> &[u8] {
    match bytes.split_last() {
        Some((_, rest)) => rest,
        None => bytes,
    }
}

/// Shows whether the text of the sample is this one.
fn show_written(alloc: Global, text: &str, shown: &mut String) -> Result<(), Fault> {
    let own = part_text(alloc, &sample(alloc)?)?;
    if own.as_slice() == text.as_bytes() {
        shown.push_str("the text\n")?;
    } else {
        shown.push_str(&String::from_utf8_lossy(alloc, &own)?)?;
    }
    Ok(())
}

/// Shows which part is read of bytes.
fn show_read(alloc: Global, bytes: &[u8], shown: &mut String) -> Result<(), Fault> {
    match read_part(alloc, bytes) {
        Ok(part) => writeln!(shown, "part {} of {}", part.part, part.parts)?,
        Err(PartError::OutOfMemory) => return Err(Fault::OutOfMemory),
        Err(error) => writeln!(shown, "{error}")?,
    }
    Ok(())
}

/// Shows which part is read of a text in which one piece stands for another.
fn show_changed(alloc: Global, text: &str, pieces: &str, shown: &mut String) -> Result<(), Fault> {
    let (old, new) = pieces.split_once(" >> ").ok_or(Fault::NoRow)?;
    let text = text.replacen(alloc, old, new, 1)?;
    show_read(alloc, text.as_bytes(), shown)
}

/// Shows which part is read of a text with one more line.
fn show_added(alloc: Global, text: &str, line: &str, shown: &mut String) -> Result<(), Fault> {
    let text = format!(in alloc; "{text}{line}\n")?;
    show_read(alloc, text.as_bytes(), shown)
}

/// Shows whether parts are a whole search: `PART PART ..`.
pub fn show_whole(alloc: Global, words: &str, shown: &mut String) -> Result<(), Fault> {
    let mut parts = Vec::new(alloc);
    for word in words.split_whitespace() {
        let part = numbered(alloc, word)?.ok_or(Fault::NoRow)?;
        parts.push(part)?;
    }
    match check_parts(parts.as_slice()) {
        Ok(()) => shown.push_str("a whole\n")?,
        Err(PartsFault::NoPart) => shown.push_str("no part\n")?,
        Err(PartsFault::Missing(number)) => writeln!(shown, "{number} is missing")?,
        Err(PartsFault::At(place, fault)) => writeln!(shown, "at {place} {}", fault_words(fault))?,
    }
    Ok(())
}

/// What is amiss with a part.
fn fault_words(fault: PartFault) -> &'static str {
    match fault {
        PartFault::OtherFile => "another file",
        PartFault::OtherSettings => "other settings",
        PartFault::OutOfRange => "out of range",
        PartFault::Twice => "twice",
    }
}
