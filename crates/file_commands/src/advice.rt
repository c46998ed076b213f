//! What a desk may say beside what it is told, where people read it.

use crate::desk::Desk;
use crate::failure::{Failure, REFUSED};
use crate::settings::settings;
use cli::RunOptions;
use diagnostics::check_output::Lines;
use diagnostics::option_diagnostics::{place_fault, schedule_fault};
use litmus_step::RunError;
use prepared_program::place_list::parse_places;
use prepared_program::step_schedule::Schedule;
use run_output::EngineError;
use source_places::deadlocks::stuck_lines;
use std::alloc::{AllocError, Global};

/// What a command was given that can be at fault.
#[derive(Clone, Copy)]
pub struct Given<'a> {
    /// The name of the litmus file.
    pub file: &'a str,
    /// The text of the schedule.
    pub schedule: &'a str,
    /// The text of the place list.
    pub places: &'a str,
    /// What `step` was asked under, if it is `step`.
    pub stepped: Option<RunOptions<'a>>,
}

/// Where a litmus file is refused, the desk may say where and why, as `check` does, and where a list is malformed, which
/// item of it is; and where a task that is stepped gets stuck, which task waits for which lock. Nothing is said where
/// memory runs out.
pub fn advise_given<D: Desk>(alloc: Global, failure: Failure, given: Option<Given<'_>>, desk: &D) {
    if let Some(given) = given {
        advise_check(failure, given.file, desk);
        if let Ok(Some(bytes)) = list_fault(alloc, failure, given) {
            desk.advise_item(&Lines { bytes });
        }
        advise_stuck(alloc, failure, given, desk);
    }
}

/// Where a task that is stepped gets stuck, the desk may say which task waits for which lock.
fn advise_stuck<D: Desk>(alloc: Global, failure: Failure, given: Given<'_>, desk: &D) {
    let (Failure::Engine(EngineError::Run(RunError::Stuck { .. })), Some(options)) = (
        failure,
        given.stepped,
    ) else {
        return;
    };
    let Some(text) = desk.read_again(alloc, given.file) else {
        return;
    };
    if let Ok(Some(bytes)) = stuck_fault(alloc, given, &options, &text) {
        desk.advise_item(&Lines { bytes });
    }
}

/// What is said of the waits for locks in the text of a file that is stepped.
fn stuck_fault(
    alloc: Global,
    given: Given<'_>,
    options: &RunOptions<'_>,
    text: &[u8],
) -> Result<Option<Vec<u8>>, AllocError> {
    let Some(places) = parse_places(alloc, options.places)? else {
        return Ok(None);
    };
    let settings = settings(options, places);
    let Some(schedule) = Schedule::parse(alloc, given.schedule)? else {
        return Ok(None);
    };
    let lines = stuck_lines(alloc, given.file, text, &settings, &schedule)?;
    Ok(Some(lines))
}

/// Where a litmus file is refused, the desk may say where and why, as `check` does.
pub(crate) fn advise_check<D: Desk>(failure: Failure, file: &str, desk: &D) {
    if let Failure::Engine(EngineError::Text(_)) = failure {
        if failure.status() == REFUSED {
            desk.advise_check(file);
        }
    }
}

/// The line on the first item of a list that is malformed, if one is.
fn list_fault(
    alloc: Global,
    failure: Failure,
    given: Given<'_>,
) -> Result<Option<Vec<u8>>, AllocError> {
    match failure {
        Failure::BadSchedule => schedule_fault(alloc, given.schedule),
        Failure::BadPlace => place_fault(alloc, given.places),
        _ => Ok(None),
    }
}
