//! Reads rows from standard input, and prints those of which something else comes: litmus texts, texts with settings
//! and what is said of their check, traces and reports, and words of the command line.
#![tactic(auto)]

mod check_row;
mod command_row;
mod failing;
mod frame;
mod lines;
mod replays;
mod reports;
mod row;
mod text_row;
mod trace;
mod trace_row;

use row::{Subject, subject_of, try_row};
use std::alloc::{AllocError, Global};
use std::process::ExitCode;
use test_rows::texts::Texts;
use test_rows::{Rows, Tally, Tried, status_of_rows};

fn main(rt: HostRuntime) -> ExitCode {
    let mut kinds = Kinds {
        named: Texts::new(rt.alloc()),
        texts: Tally::new(),
        checks: Tally::new(),
        traces: Tally::new(),
        words: Tally::new(),
    };
    status_of_rows(&rt, &mut kinds)
}

/// The traces so far, to which rows refer by name, and how many rows of each kind there were.
#[derive(Drop)]
struct Kinds {
    named: Texts,
    texts: Tally,
    checks: Tally,
    traces: Tally,
    words: Tally,
}

impl Kinds {
    /// How many rows of a kind there were.
    fn tally(&mut self, subject: Subject) -> &mut Tally {
        match subject {
            Subject::Text => &mut self.texts,
            Subject::Check => &mut self.checks,
            Subject::Trace => &mut self.traces,
            Subject::Words => &mut self.words,
        }
    }
}

impl Rows for Kinds {
    fn try_line(&mut self, alloc: Global, line: &str) -> Result<Tried, AllocError> {
        let subject = subject_of(line);
        let tried = try_row(alloc, &mut self.named, subject, line)?;
        self.tally(subject).count(&tried);
        Ok(tried)
    }

    fn summary(&self, alloc: Global, _all: Tally) -> Result<String, AllocError> {
        let mut text = String::new(alloc);
        add(&mut text, "texts", self.texts)?;
        add(&mut text, "\nchecks", self.checks)?;
        add(&mut text, "\ntraces and reports", self.traces)?;
        add(&mut text, "\nwords", self.words)?;
        Ok(text)
    }
}

/// Adds how many rows of a kind there were, and of how many something else came.
fn add(text: &mut String, kind: &str, tally: Tally) -> Result<(), AllocError> {
    let Tally { rows, others } = tally;
    write!(text, "{kind}: {rows} rows, {others} of them come otherwise")
}
