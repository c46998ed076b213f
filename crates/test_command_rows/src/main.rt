//! Reads rows from standard input, each the words that the program is started with and what comes of them over a desk
//! in memory, and prints those of which something else comes.
#![tactic(auto)]

mod cuts;
mod desk;
mod row;
mod wanted;

use cuts::Cuts;
use row::Row;
use std::alloc::{AllocError, Global};
use std::io;
use std::process::ExitCode;
use std::sync::Wait;
use std::thread::Threads;
use test_rows::status_of;
use test_rows::texts::Texts;

fn main(rt: HostRuntime) -> ExitCode {
    status_of(try_rows(&rt))
}

/// Keeps each text, tries each row, and counts the rows of which something else comes. Lines that are empty or begin
/// with `#` are neither. The loop stands here and not in `test_rows`, since a row needs a runtime that is `Sync`, and
/// no method of a trait can be told so.
fn try_rows<R: Threads + Wait + Sync + Input + Print + Alloc<A = Global>>(
    rt: &R,
) -> io::Result<u64> {
    let mut texts = Texts::new(rt.alloc());
    let mut rows = 0u64;
    let mut others = 0u64;
    for line in rt.lines(rt.alloc()) {
        let line = line?;
        if line.is_empty() || line.starts_with('#') || texts.takes(&line)? {
            continue;
        }
        rows = rows.saturating_add(1);
        if !comes_as_said(rt, rt.alloc(), &texts, &line)? {
            others = others.saturating_add(1);
            println!(rt; "otherwise: {line}")?;
        }
    }
    println!(rt; "{rows} rows, {others} of them come otherwise")?;
    Ok(others)
}

/// Tries what a line says: a row, one of which each write is also tried failing, for writes of several sizes, or the
/// beginnings of a file.
fn comes_as_said<R: Threads + Wait + Sync>(
    rt: &R,
    alloc: Global,
    texts: &Texts,
    line: &str,
) -> Result<bool, AllocError> {
    let (kind, rest) = line.split_once(' ').unwrap_or((line, ""));
    match kind {
        "row" => row_comes_as_said(rt, alloc, texts, rest, &[]),
        "writes" => row_comes_as_said(rt, alloc, texts, rest, &[0, 1, 7, usize::MAX]),
        "cuts" => match Cuts::read(alloc, texts, rest)? {
            Some(cuts) => cuts.come_as_said(rt, alloc),
            None => Ok(false),
        },
        _ => Ok(false),
    }
}

/// Tries a row, also with each write failing, for writes of these sizes.
fn row_comes_as_said<R: Threads + Wait + Sync>(
    rt: &R,
    alloc: Global,
    texts: &Texts,
    line: &str,
    rooms: &[usize],
) -> Result<bool, AllocError> {
    match Row::read(alloc, texts, line)? {
        Some(row) => Ok(
            row.comes_as_said(rt, alloc)
                && rooms.iter().all(|room| row.fails_as_said(rt, alloc, *room)),
        ),
        None => Ok(false),
    }
}
