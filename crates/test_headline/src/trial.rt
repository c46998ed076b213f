//! Lists of one order: whether the headline holds of them, and what reports they tell.

use crate::lists::{Program, play};
use crate::refusal::Refusal;
use crate::row::Row;
use oracle_soundness::oracle_headline::{ToldExecution, holds};
use setup_access::Outcome;
use std::alloc::Global;

/// How many reports of two sides, of unknown origin, and discards are told.
#[derive(Clone, Copy)]
pub struct Reports {
    pub two_sided: u32,
    pub unknown: u32,
    pub dropped: u32,
}

/// Those that are told.
pub fn reports_of(told: &ToldExecution) -> Reports {
    let mut seen = Reports {
        two_sided: 0,
        unknown: 0,
        dropped: 0,
    };
    for came in told.outcomes.as_slice() {
        match came.outcome {
            Outcome::Report { .. } => seen.two_sided = seen.two_sided.saturating_add(1),
            Outcome::Unknown { .. } => seen.unknown = seen.unknown.saturating_add(1),
            Outcome::Dropped(_) => seen.dropped = seen.dropped.saturating_add(1),
            _ => {}
        }
    }
    seen
}

/// The least number of steps, from one number to below another, that make a list of which the headline fails.
pub fn first_failure(
    alloc: Global,
    program: &Program,
    order: &[u32],
    from: usize,
    end: usize,
) -> Result<Option<usize>, Refusal> {
    for count in from..end {
        let Some(beginning) = order.get(..count) else {
            return Ok(None);
        };
        if !holds(alloc, &play(alloc, program, beginning)?)? {
            return Ok(Some(count));
        }
    }
    Ok(None)
}

/// That the headline fails.
pub fn failed(alloc: Global, count: usize, order: &[u32]) -> Result<String, Refusal> {
    Ok(format!(in alloc; "no headline after {count} steps in the order {order:?}")?)
}

/// The reports of the list that the row's order makes, in which all tasks have ended, where the headline holds of each
/// beginning.
pub fn in_one_order(alloc: Global, row: &Row) -> Result<String, Refusal> {
    let order = row.order.as_slice();
    let end = order.len().saturating_add(1);
    if let Some(count) = first_failure(alloc, &row.program, order, 0, end)? {
        return failed(alloc, count, order);
    }
    let told = play(alloc, &row.program, order)?;
    if !told.ended {
        return Ok(String::from_str(alloc, "a task that goes on")?);
    }
    let Reports {
        two_sided,
        unknown,
        dropped,
    } = reports_of(&told);
    Ok(format!(in alloc; "{two_sided} {unknown} {dropped}")?)
}

/// Whether the headline holds.
pub fn verdict(alloc: Global, told: &ToldExecution) -> Result<String, Refusal> {
    let word = if holds(alloc, told)? {
        "holds"
    } else {
        "fails"
    };
    Ok(String::from_str(alloc, word)?)
}
