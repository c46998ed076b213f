//! Rows of sources that are read to their end.

ghost use Rattle.std.specs.Prelude.{◌<◌};

use crate::fault::Fault;
use crate::numbers::numbers;
use crate::tokens::{quoted, text_of};
use litmus_lex::{ReadError, Source, SourceFault, read_all};
use std::alloc::Global;
use std::fmt::Write;

/// Bytes in memory, some of them at a time, with a failure at one of the reads.
#[derive(Drop)]
struct Pieces<'a> {
    bytes: &'a [u8],
    size: usize,
    reads_before_failure: usize,
    failures: u64,
    ghost some: { 0 < size },
}

impl Source for Pieces<'_> {
    ghost use Rattle.std.specs.Prelude.{Some};

    ghost remaining = { λ pieces. Some pieces.bytes.now };

    ghost failures = { λ pieces. pieces.failures };

    fn read(&mut self, buffer: &mut [u8]) -> Result<usize, SourceFault> {
        if self.reads_before_failure == 0 {
            self.failures = self.failures.saturating_add(1);
            return Err(SourceFault);
        }
        self.reads_before_failure -= 1;
        let count = self.size.min(buffer.len()).min(self.bytes.len());
        let (given, rest) = self.bytes.split_at(count);
        buffer[..count].copy_from_slice(given);
        self.bytes = rest;
        Ok(count)
    }
}

/// How a text comes and is read.
#[derive(Clone, Copy)]
struct Way {
    size: usize,
    limit: usize,
    reads: usize,
}

/// The way in words: `SIZE LIMIT READS`, or `SIZE LIMIT`, where all reads succeed.
fn way_in(alloc: Global, words: &str) -> Result<Way, Fault> {
    let numbers = numbers(alloc, words)?;
    let (size, limit, reads) = match numbers.as_slice() {
        [size, limit] => (*size, *limit, u64::MAX),
        [size, limit, reads] => (*size, *limit, *reads),
        _ => return Err(Fault::NoRow),
    };
    Ok(Way {
        size: size as usize,
        limit: limit as usize,
        reads: reads as usize,
    })
}

/// Shows what is read of a text that comes so many bytes at a time, up to a limit, where so many reads succeed, and
/// then how many bytes are left and how often the source has failed: `SIZE LIMIT READS "TEXT"`.
pub fn show(alloc: Global, row: &str, shown: &mut String) -> Result<(), Fault> {
    let (words, text) = quoted(alloc, row)?;
    let Way { size, limit, reads } = way_in(alloc, words)?;
    if size == 0 {
        return Err(Fault::NoRow);
    }
    let mut source = Pieces {
        bytes: text.as_bytes(),
        size,
        reads_before_failure: reads,
        failures: 0,
    };
    match read_all(alloc, &mut source, limit) {
        Ok(bytes) => {
            let read = text_of(bytes.as_slice())?;
            write!(shown, "\"{read}\"")?;
        }
        Err(ReadError::SourceFailed) => shown.push_str("failed")?,
        Err(ReadError::OutOfMemory) => return Err(Fault::OutOfMemory),
    }
    let (left, failures) = (source.bytes.len(), source.failures);
    writeln!(shown, ", {left} left, {failures} failures")?;
    Ok(())
}
