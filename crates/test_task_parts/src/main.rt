//! Reads rows from standard input, each a part of a task and what comes of it: what is done to memory, accesses, the
//! walk of a text, what a statement is about to do, what is kept, and what is the same of two texts; also what a task's
//! calls lead to, values, and where variables stand. Prints those of which something else comes.
#![tactic(auto)]

mod accesses;
mod contexts;
mod fault;
mod keeps;
mod layouts;
mod notation;
mod operations;
mod pairs;
mod plans;
mod process;
mod script;
mod values;
mod walks;

use fault::Fault;
use std::alloc::{AllocError, Global};
use std::process::ExitCode;
use test_rows::{Rows, Tried, status_of_rows};

fn main(rt: HostRuntime) -> ExitCode {
    status_of_rows(&rt, &mut Parts { row: None })
}

/// The row so far. A line that begins with a blank goes on with it.
#[derive(Drop)]
struct Parts {
    row: Option<String>,
}

impl Rows for Parts {
    fn try_line(&mut self, alloc: Global, line: &str) -> Result<Tried, AllocError> {
        if line.starts_with(' ') {
            self.go_on(line)?;
            return Ok(Tried::Kept);
        }
        let tried = self.try_last(alloc)?;
        self.row = Some(String::from_str(alloc, line)?);
        Ok(tried)
    }

    fn try_last(&mut self, alloc: Global) -> Result<Tried, AllocError> {
        match self.row.take() {
            Some(row) => try_row(alloc, &row),
            None => Ok(Tried::Kept),
        }
    }
}

impl Parts {
    /// Puts a line behind the row.
    fn go_on(&mut self, line: &str) -> Result<(), AllocError> {
        if let Some(row) = &mut self.row {
            row.push(' ')?;
            row.push_str(line.trim_start())?;
        }
        Ok(())
    }
}

/// Tries a row.
fn try_row(alloc: Global, row: &str) -> Result<Tried, AllocError> {
    let (start, wanted) = row.split_once(" => ").unwrap_or((row, ""));
    match outcome(alloc, start, wanted) {
        Ok(comes) => Tried::of(alloc, row, wanted, &comes),
        Err(Fault::NoRow) => Tried::no_row(alloc, row),
        Err(Fault::OutOfMemory) => Err(AllocError),
    }
}

/// What comes of a row, by the word that it begins with. Where it has a script, that says what is asked.
fn outcome(alloc: Global, start: &str, script: &str) -> Result<String, Fault> {
    let (kind, rest) = start.split_once(' ').unwrap_or((start, ""));
    match kind {
        "operation" => operations::operation(alloc, rest, script),
        "lock" => operations::lock(alloc, rest, script),
        "access" => accesses::access(alloc, rest, script, false),
        "silenced" => accesses::access(alloc, rest, script, true),
        "walk" => walks::walk(alloc, rest, script),
        "plan" => plans::plan(alloc, rest),
        "locks" => plans::locks(alloc, rest, script),
        "progress" => keeps::progress(alloc, rest, script),
        "log" => keeps::log(alloc, rest),
        "apart" => pairs::apart(alloc, rest),
        "places" => pairs::places(alloc, rest, script),
        "context" => contexts::context(alloc, script),
        "sampler" => contexts::sampler(alloc, rest),
        "samplers" => contexts::samplers(alloc, rest),
        "layout" => layouts::layout(alloc, rest, script),
        "tickets" => layouts::tickets(alloc, rest, script),
        "sites" => layouts::sites(alloc, rest),
        _ => values::answer(alloc, kind, rest),
    }
}
