//! New checkers, and records that are read.

use crate::accesses::access_of;
use crate::setting::{CELLS, Setting};
use crate::steps::record_of;
use crate::words::Fault;
use access_types::{Sites, TASKS};
use oracle_steps::oracle_checks::{Reading, read_check};
use setup_access::{Checker, CheckerError};
use slot_table::Record;
use std::alloc::Global;

/// `RULE ..`: whether there is a checker by these rules, and where it stands.
pub fn new_checker(alloc: Global, asked: &str) -> Result<String, Fault> {
    let setting = Setting::read(asked)?;
    let answer = match Checker::new(alloc, 0, &setting.rules, &CELLS) {
        Ok(checker) => {
            if checker.next().is_some() || checker.stuck() || !checker.outcomes().is_empty() {
                "a checker in a check"
            } else {
                "a checker at rest"
            }
        }
        Err(CheckerError::BadSlots) => "bad slots",
        Err(CheckerError::OutOfMemory) => return Err(Fault::OutOfMemory),
    };
    Ok(String::from_str(alloc, answer)?)
}

/// `ACCESS RULE ..`: what records are of the check of a task's first access.
pub fn reading(alloc: Global, asked: &str, records: &str) -> Result<String, Fault> {
    let (access, setting) = asked.split_once(' ').ok_or(Fault::NoRow)?;
    let access = access_of(access)?;
    let rules = Setting::read(setting)?.rules;
    let records = records_of(alloc, records)?;
    if access.size() == 0 || access.task() >= TASKS {
        return Err(Fault::NoRow);
    }
    let sites = Sites::new(alloc);
    let (reading, _) = read_check(alloc, &rules, &CELLS, &sites, &access, &records)?;
    Ok(String::from_str(alloc, word_for(reading))?)
}

/// The records of a text, with a comma between two of them.
fn records_of(alloc: Global, text: &str) -> Result<Vec<Record>, Fault> {
    let mut records = Vec::new(alloc);
    for record in text.split(", ") {
        records.push(record_of(record)?)?;
    }
    Ok(records)
}

/// The word for what records are.
fn word_for(reading: Reading) -> &'static str {
    match reading {
        Reading::Whole => "whole",
        Reading::Other => "other",
        Reading::Stuck => "stuck",
    }
}
