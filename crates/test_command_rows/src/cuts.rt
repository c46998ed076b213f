//! Files that end too early.

use crate::desk::{Given, Table};
use crate::row::words_of;
use litmus_command::command::command;
use std::alloc::{AllocError, Global};
use std::sync::Wait;
use std::thread::Threads;
use test_rows::texts::Texts;

/// The status where a file is refused.
const REFUSED: u8 = 65;

/// The words, the program's name first, and a file of which each beginning of fewer than so many bytes is refused, with
/// this said of its last line.
#[derive(Drop)]
pub struct Cuts<'t> {
    words: Vec<String>,
    file: &'t [u8],
    bytes: usize,
    fault: String,
}

impl<'t> Cuts<'t> {
    /// That of a line: `WORDS | FILE => BYTES FAULT`.
    pub fn read(
        alloc: Global,
        texts: &'t Texts,
        line: &str,
    ) -> Result<Option<Cuts<'t>>, AllocError> {
        let (Some((start, end)), Some((words, _))) = (
            line.split_once(" => "),
            line.split_once("| "),
        ) else {
            return Ok(None);
        };
        let (Some((_, file)), Some((bytes, fault))) = (start.split_once("| "), end.split_once(' '))
        else {
            return Ok(None);
        };
        match (texts.get(file), bytes.parse()) {
            (Some(file), Ok(bytes)) => Ok(Some(Cuts {
                words: words_of(alloc, words)?,
                file: file.as_bytes(),
                bytes,
                fault: String::from_str(alloc, fault)?,
            })),
            _ => Ok(None),
        }
    }

    /// Each beginning is refused as it has to be.
    pub fn come_as_said<R: Threads + Wait + Sync>(
        &self,
        rt: &R,
        alloc: Global,
    ) -> Result<bool, AllocError> {
        for bytes in 0..self.bytes.min(self.file.len()) {
            if !self.comes_as_said(rt, alloc, &self.file[..bytes])? {
                return Ok(false);
            }
        }
        Ok(self.bytes <= self.file.len())
    }

    /// A beginning is refused as it has to be.
    fn comes_as_said<R: Threads + Wait + Sync>(
        &self,
        rt: &R,
        alloc: Global,
        file: &[u8],
    ) -> Result<bool, AllocError> {
        let mut table = Table::new(alloc, Given::of(Some(file)));
        let status = command(rt, alloc, &self.words, &mut table);
        let line = 1 + file.iter().filter(|byte| **byte == b'\n').count() as u64;
        let fault = &self.fault;
        let said = format!(in alloc; "kcsan_litmus: line {line}: {fault}\n")?;
        Ok(status == REFUSED && table.output().is_empty() && table.errors() == said.as_bytes())
    }
}
