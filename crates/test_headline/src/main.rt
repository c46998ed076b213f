//! Reads rows from standard input, each a program of tasks, or what is bent in the list that one makes, and what comes
//! of it by the headline that `oracle_headline` decides, and prints those of which something else comes.
#![tactic(auto)]

mod bend;
mod lists;
mod orders;
mod refusal;
mod row;
mod trial;
mod wanted;

use bend::bent;
use oracle_soundness::oracle_headline::ToldExecution;
use oracle_soundness::oracle_headline::meetings::setters_heard;
use orders::in_every_order;
use refusal::Refusal;
use row::Row;
use std::alloc::{AllocError, Global};
use std::process::ExitCode;
use test_rows::{Rows, Tried, status_of_rows};
use trial::{in_one_order, verdict};
use wanted::fits;

fn main(rt: HostRuntime) -> ExitCode {
    status_of_rows(&rt, &mut Headlines { last: None })
}

/// The last row that has a list, which others bend.
#[derive(Drop)]
struct Headlines {
    last: Option<Row>,
}

impl Rows for Headlines {
    fn try_line(&mut self, alloc: Global, line: &str) -> Result<Tried, AllocError> {
        let (row, wanted) = line.split_once(" => ").unwrap_or((line, ""));
        let comes = match outcome(alloc, &mut self.last, row) {
            Ok(comes) => comes,
            Err(Refusal::OutOfMemory) => return Err(AllocError),
            Err(refusal) => String::from_str(alloc, refusal.words())?,
        };
        if fits(wanted, &comes) {
            return Ok(Tried::AsSaid);
        }
        Tried::other(alloc, line, &comes)
    }
}

/// What comes of a row, which may bend the list of the last row that has one.
fn outcome(alloc: Global, list: &mut Option<Row>, row: &str) -> Result<String, Refusal> {
    let (kind, rest) = row.split_once(' ').unwrap_or((row, ""));
    match kind {
        "list" => {
            let row = Row::read(alloc, rest)?;
            let comes = in_one_order(alloc, &row)?;
            *list = Some(row);
            Ok(comes)
        }
        "every" => in_every_order(alloc, &Row::read(alloc, rest)?),
        "bent" => verdict(alloc, &bent(alloc, list.as_ref(), rest)?),
        "heard" => meetings(alloc, &bent(alloc, list.as_ref(), rest)?),
        _ => Err(Refusal::NoRow),
    }
}

/// Of how many meetings setters have heard.
fn meetings(alloc: Global, told: &ToldExecution) -> Result<String, Refusal> {
    let heard = setters_heard(alloc, told.records.as_slice())?.len();
    Ok(format!(in alloc; "{heard}")?)
}
