//! Rows: the words that the program is started with, and what comes of them.

use crate::desk::{Files, Given, Table};
use crate::wanted::{Trace, Wanted};
use litmus_command::command::command;
use std::alloc::{AllocError, Global};
use std::sync::Wait;
use std::thread::Threads;
use test_rows::escapes::unescaped;
use test_rows::texts::Texts;

/// The status where standard output can't be written.
const UNWRITABLE: u8 = 74;

/// What standard error says then.
const CANNOT_WRITE: &[u8] = b"kcsan_litmus: cannot write\n";

/// What a picture in SVG, and a page, begin with.
const MARKUP: &[u8] = b"<";

/// The words, the program's name first, the files, where there are any, and what is to come of them.
#[derive(Drop)]
pub struct Row<'t> {
    words: Vec<String>,
    files: Files<'t>,
    status: u8,
    output: Wanted,
    errors: Wanted,
    trace: Trace,
}

impl<'t> Row<'t> {
    /// The row of a line: `WORDS | FILES => STATUS OUTPUT ERRORS`, and what becomes of the trace's file behind that,
    /// where that is touched.
    pub fn read(
        alloc: Global,
        texts: &'t Texts,
        line: &str,
    ) -> Result<Option<Row<'t>>, AllocError> {
        let Some((start, end)) = line.split_once(" => ") else {
            return Ok(None);
        };
        let Some((words, names)) = start.split_once("| ") else {
            return Ok(None);
        };
        match files_of(texts, names) {
            Some(files) => Row::of(texts, words_of(alloc, words)?, files, end),
            None => Ok(None),
        }
    }

    /// The row of its words and its files, and of what is to come of them.
    fn of(
        texts: &Texts,
        words: Vec<String>,
        files: Files<'t>,
        comes: &str,
    ) -> Result<Option<Row<'t>>, AllocError> {
        let mut parts = comes.split(' ');
        let (Some(status), Some(output), Some(errors)) = (parts.next(), parts.next(), parts.next())
        else {
            return Ok(None);
        };
        let trace = Trace::read(texts, parts.next())?;
        let (output, errors) = (Wanted::read(texts, output)?, Wanted::read(texts, errors)?);
        match (status.parse(), output, errors, trace) {
            (Ok(status), Some(output), Some(errors), Some(trace)) => Ok(Some(Row {
                words,
                files,
                status,
                output,
                errors,
                trace,
            })),
            _ => Ok(None),
        }
    }

    /// What the desk of the row has.
    fn given(&self) -> Given<'t> {
        Given {
            files: self.files,
            takes_trace: self.trace.may_be_written(),
            ..Given::of(None)
        }
    }

    /// The program over its desk comes to what the row says, and a trace that it writes is accepted.
    pub fn comes_as_said<R: Threads + Wait + Sync>(&self, rt: &R, alloc: Global) -> bool {
        let mut table = Table::new(alloc, self.given());
        let status = command(rt, alloc, &self.words, &mut table);
        status == self.status
            && self.output.is_in(table.output())
            && self.errors.is_in(table.errors())
            && self.trace.is_in(table.trace())
            && is_accepted(rt, alloc, table.trace())
    }

    /// The same, and with room for so many bytes a write, whichever write is the first that fails. With no room the
    /// first answers 0.
    pub fn fails_as_said<R: Threads + Wait + Sync>(
        &self,
        rt: &R,
        alloc: Global,
        room: usize,
    ) -> bool {
        let mut table = Table::new(alloc, self.given());
        let _ = command(rt, alloc, &self.words, &mut table);
        let whole = table.output();
        let writes = if room == 0 {
            1
        } else {
            whole.len().div_ceil(room)
        };
        for left in 0..writes {
            if !self.fails_after(rt, alloc, room, left, whole) {
                return false;
            }
        }
        true
    }

    /// Standard error holds what the row says, and then that standard output can't be written.
    fn says_so(&self, errors: &[u8]) -> bool {
        match errors.strip_suffix(CANNOT_WRITE) {
            Some(before) => self.errors.is_in(before),
            None => false,
        }
    }

    /// With room for so many bytes a write, of which so many succeed, the program ends as it has to where standard
    /// output can't be written, and has written a beginning of the whole.
    fn fails_after<R: Threads + Wait + Sync>(
        &self,
        rt: &R,
        alloc: Global,
        room: usize,
        writes: usize,
        whole: &[u8],
    ) -> bool {
        let given = Given {
            room,
            writes: writes as u64,
            ..self.given()
        };
        let mut table = Table::new(alloc, given);
        command(rt, alloc, &self.words, &mut table) == UNWRITABLE
            && self.says_so(table.errors())
            && table.output().len() == room.saturating_mul(writes)
            && whole.starts_with(table.output())
            && self.trace.is_in(table.trace())
    }
}

/// The files of their names with `,` between them, `t`, `u` and `v` in their order. A file is called by the name of its
/// text, or is `-`, which can't be read.
fn files_of<'t>(texts: &'t Texts, names: &str) -> Option<Files<'t>> {
    let mut names = names.split(',');
    let t = file_of(texts, names.next())?;
    let u = file_of(texts, names.next())?;
    let v = file_of(texts, names.next())?;
    match names.next() {
        Some(_) => None,
        None => Some(Files { t, u, v }),
    }
}

/// The file of a name: none where there is no name, or `-`.
fn file_of<'t>(texts: &'t Texts, name: Option<&str>) -> Option<Option<&'t [u8]>> {
    match name {
        None | Some("-") => Some(None),
        Some(name) => Some(Some(texts.get(name)?.as_bytes())),
    }
}

/// A trace that was written is accepted. A picture or a page is none.
fn is_accepted<R: Threads + Wait + Sync>(rt: &R, alloc: Global, trace: Option<&[u8]>) -> bool {
    match trace {
        Some(bytes) if !bytes.starts_with(MARKUP) => command(
            rt,
            alloc,
            &["kcsan_litmus", "replay", "t"],
            &mut Table::new(alloc, Given::of(trace)),
        ) == 0,
        _ => true,
    }
}

/// The program's name, and the words after it, with their escapes.
pub fn words_of(alloc: Global, text: &str) -> Result<Vec<String>, AllocError> {
    let mut words = Vec::new(alloc);
    words.push(String::from_str(alloc, "kcsan_litmus")?)?;
    for word in text.split_whitespace() {
        words.push(unescaped(alloc, word)?)?;
    }
    Ok(words)
}
