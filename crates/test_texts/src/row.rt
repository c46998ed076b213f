//! Rows, and what comes of them.

use crate::blocks::{Block, Blocks};
use crate::fault::Fault;
use crate::{accesses, meaning, order, parts, sources, tokens};
use litmus_parse::{Program, parse};
use print_roundtrip::printed_bytes::read_back;
use std::alloc::{AllocError, Global};
use std::fmt::Write;

/// What comes of a row.
pub fn outcome(alloc: Global, blocks: &Blocks, row: &Block) -> Result<String, AllocError> {
    let mut shown = String::new(alloc);
    match show(alloc, blocks, row, &mut shown) {
        Ok(()) => {}
        Err(Fault::NoRow) => shown.push_str("no row\n")?,
        Err(Fault::NoTask) => shown.push_str("no task\n")?,
        Err(Fault::Refused(refusal)) => writeln!(shown, "{refusal}")?,
        Err(Fault::OutOfMemory) => return Err(AllocError),
    }
    Ok(shown)
}

/// Shows what comes of a row. The first word says what is asked.
fn show(alloc: Global, blocks: &Blocks, row: &Block, shown: &mut String) -> Result<(), Fault> {
    let (kind, rest) = row.head.split_once(' ').unwrap_or((&row.head, ""));
    match kind {
        "token" => tokens::show_token(alloc, rest, shown),
        "parts" => tokens::show_parts(alloc, rest, shown),
        "head" => tokens::show_head(alloc, rest, shown),
        "line" => tokens::show_line(alloc, rest, shown),
        "source" => sources::show(alloc, rest, shown),
        "printed" => show_printed(alloc, blocks, rest, shown),
        "meaning" => meaning::show(alloc, blocks, rest, shown),
        "order" => order::show(alloc, blocks, rest, &row.given, shown),
        "accesses" => accesses::show(alloc, blocks, rest, &row.given, shown),
        "written" | "read" | "cut" | "add" | "change" => {
            parts::show(alloc, blocks, kind, rest, shown)
        }
        "whole" => parts::show_whole(alloc, rest, shown),
        _ => Err(Fault::NoRow),
    }
}

/// The program that the text of a name spells.
pub fn program_of(alloc: Global, blocks: &Blocks, name: &str) -> Result<Program, Fault> {
    let text = blocks.text(name).ok_or(Fault::NoRow)?;
    Ok(parse(alloc, text.as_bytes())?)
}

/// Shows which program comes back where that of a text is printed and read again: `TEXT`.
fn show_printed(
    alloc: Global,
    blocks: &Blocks,
    name: &str,
    shown: &mut String,
) -> Result<(), Fault> {
    let program = program_of(alloc, blocks, name)?;
    let again = read_back(alloc, &program)?;
    let comes = if again == program {
        "the program\n"
    } else {
        "another program\n"
    };
    shown.push_str(comes)?;
    Ok(())
}
