//! What traces say, and how that is written.

use access_types::{Arm, Report, Stamped, Take};
use report_text::{Line, MemorySink, Sink, WriteError, write_trace};
use std::alloc::{AllocError, Global};
use test_rows::texts::Texts;
use trace_replay::trace_lines::{Head, Shape, read_head, read_line};

/// What a trace of version 2 says.
#[derive(Drop)]
pub struct Trace {
    shape: Shape,
    accesses: Vec<Stamped>,
    arms: Vec<Arm>,
    takes: Vec<Take>,
    reports: Vec<Report>,
}

impl Trace {
    /// Nothing but a shape.
    pub fn new(alloc: Global, shape: Shape) -> Trace {
        Trace {
            shape,
            accesses: Vec::new(alloc),
            arms: Vec::new(alloc),
            takes: Vec::new(alloc),
            reports: Vec::new(alloc),
        }
    }

    /// What the lines of a text say, up to the first that is none.
    pub fn read(alloc: Global, text: &str) -> Result<Option<Trace>, AllocError> {
        let Ok((Head::Second(shape), lines)) = read_head(text.as_bytes()) else {
            return Ok(None);
        };
        let mut trace = Trace::new(alloc, shape);
        trace.keep_lines(lines)?;
        Ok(Some(trace))
    }

    /// Keeps the lines that the bytes begin with.
    fn keep_lines(&mut self, bytes: &[u8]) -> Result<(), AllocError> {
        let mut rest = bytes;
        for _ in 0..bytes.len() {
            let Some((line, more)) = read_line(rest) else {
                break;
            };
            self.keep(line)?;
            rest = more;
        }
        Ok(())
    }

    /// Keeps a line.
    pub fn keep(&mut self, line: Line) -> Result<(), AllocError> {
        match line {
            Line::Access(access) => self.accesses.push(access)?,
            Line::Arm(arm) => self.arms.push(arm)?,
            Line::Take(take) => self.takes.push(take)?,
            Line::Report(report) => self.reports.push(report)?,
        }
        Ok(())
    }

    /// Its accesses.
    pub fn accesses(&self) -> &[Stamped] {
        &self.accesses
    }

    /// Writes it.
    pub fn write<K: Sink>(&self, sink: &mut K) -> Result<(), WriteError> {
        write_trace(
            self.shape.slots as usize,
            self.shape.layout,
            &self.accesses,
            &self.arms,
            &self.takes,
            &self.reports,
            sink,
        )
    }

    /// What is written of it.
    pub fn written(&self, alloc: Global) -> Result<String, AllocError> {
        let mut sink = MemorySink::new(alloc);
        if self.write(&mut sink).is_err() {
            return Err(AllocError);
        }
        String::from_utf8_lossy(alloc, sink.bytes())
    }
}

/// How many bytes a trace has that is written as it stands, else what is written of it.
pub fn written(alloc: Global, texts: &Texts, name: &str) -> Result<Option<String>, AllocError> {
    let Some(text) = texts.get(name) else {
        return Ok(None);
    };
    let Some(trace) = Trace::read(alloc, text)? else {
        return Ok(None);
    };
    let written = trace.written(alloc)?;
    if written.as_str() != text {
        return Ok(Some(written));
    }
    let bytes = text.len();
    Ok(Some(format!(in alloc; "{bytes} bytes")?))
}
