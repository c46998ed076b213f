//! Traces, written where a write fails.

ghost use Rattle.std.specs.Prelude.{◌≡◌, Some};

use crate::trace::Trace;
use crate::trace_row::number;
use report_text::{Sink, SinkFault};
use std::alloc::{AllocError, Global};
use test_rows::texts::Texts;

/// A sink in memory that takes so many bytes at most, and whose write of one number fails.
#[derive(Drop)]
struct Faulty {
    bytes: Vec<u8>,
    failures: u64,
    most: usize,
    writes_left: u64,
}

impl Sink for Faulty {
    ghost written = { λ sink. Some sink.bytes.items };

    ghost failures = { λ sink. sink.failures };

    fn write(&mut self, text: &[u8]) -> Result<usize, SinkFault> {
        let count = text.len().min(self.most);
        if self.writes_left == 0 || self.bytes.extend_from_slice(&text[..count]).is_err() {
            self.failures = self.failures.saturating_add(1);
            return Err(SinkFault);
        }
        self.writes_left -= 1;
        if count == 0 {
            self.failures = self.failures.saturating_add(1);
        }
        Ok(count)
    }
}

/// What is left of a trace whose writes fail: `NAME MOST WRITES`, the name of the trace, how many bytes a write takes
/// at most, and below how many writes each number is tried as that of those that succeed.
pub fn failing(alloc: Global, texts: &Texts, asked: &str) -> Result<Option<String>, AllocError> {
    let mut words = asked.split(' ');
    let (Some(name), Some(most), Some(writes)) = (
        words.next(),
        number(words.next()),
        number(words.next()),
    ) else {
        return Ok(None);
    };
    let Some(text) = texts.get(name) else {
        return Ok(None);
    };
    let Some(trace) = Trace::read(alloc, text)? else {
        return Ok(None);
    };
    for left in 0..writes {
        let (written, sink) = written_in_part(alloc, &trace, most as usize, left);
        if !is_a_beginning(written, &sink, text) {
            return Ok(Some(told(alloc, left, &sink)?));
        }
    }
    Ok(Some(String::from_str(alloc, "beginnings")?))
}

/// Whether a trace is said to be written where so many writes succeed, and the sink behind them.
fn written_in_part(alloc: Global, trace: &Trace, most: usize, writes: u64) -> (bool, Faulty) {
    let mut sink = Faulty {
        bytes: Vec::new(alloc),
        failures: 0,
        most,
        writes_left: writes,
    };
    let written = trace.write(&mut sink).is_ok();
    (written, sink)
}

/// Whether a sink has a beginning of a text, and the whole of it just where that is said and where it counted no
/// failure.
fn is_a_beginning(written: bool, sink: &Faulty, text: &str) -> bool {
    let whole = sink.bytes.as_slice() == text.as_bytes();
    written == whole
        && (sink.failures == 0) == whole
        && text.as_bytes().starts_with(sink.bytes.as_slice())
}

/// What a sink has behind so many writes.
fn told(alloc: Global, writes: u64, sink: &Faulty) -> Result<String, AllocError> {
    let failures = sink.failures;
    let text = String::from_utf8_lossy(alloc, &sink.bytes)?;
    format!(in alloc; "behind {writes} writes {failures} failures and {text}")
}
