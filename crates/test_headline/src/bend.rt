//! What is bent in a list.

use crate::lists::play;
use crate::refusal::Refusal;
use crate::row::{Row, number};
use oracle_soundness::oracle_headline::{Came, ToldExecution};
use setup_access::Outcome;
use slot_table::{Answer, Record, Step};
use std::alloc::Global;
use value_filter::Reason;

/// What is bent in a list, at one place.
#[derive(Clone, Copy)]
enum Bend {
    /// The last outcome is told once more.
    OutcomeAgain,
    /// The last outcome isn't told.
    OutcomeMissing,
    /// The first access is told to have been discarded for this reason, as well.
    Discard(Reason),
    /// Where setters would clear their pairs they look at the word.
    NoClears,
    /// Nothing happened.
    NoHistory,
    /// Nobody made a step.
    NoSteps,
    /// The record of this number is there twice, where the last record has the number 0.
    StepAgain(usize),
    /// Task 0 makes one more step at the end, with this flag for its answer.
    StepMore(Step, bool),
    /// A task goes on.
    Open,
}

/// The list of a row, with these bends.
pub fn bent(alloc: Global, row: Option<&Row>, bends: &str) -> Result<ToldExecution, Refusal> {
    let row = row.ok_or(Refusal::NoList)?;
    let mut told = play(alloc, &row.program, row.order.as_slice())?;
    for text in bends.split(',') {
        let bend = bend_of(text.trim()).ok_or(Refusal::NoRow)?;
        make(&mut told, bend)?;
    }
    Ok(told)
}

/// The bend that words call for.
fn bend_of(text: &str) -> Option<Bend> {
    let (word, rest) = text.split_once(' ').unwrap_or((text, ""));
    match word {
        "outcome-again" => Some(Bend::OutcomeAgain),
        "outcome-missing" => Some(Bend::OutcomeMissing),
        "discard" => Some(Bend::Discard(reason_of(rest)?)),
        "no-clears" => Some(Bend::NoClears),
        "no-history" => Some(Bend::NoHistory),
        "no-steps" => Some(Bend::NoSteps),
        "step-again" => Some(Bend::StepAgain(number(rest)? as usize)),
        "step-more" => more_of(rest),
        "open" => Some(Bend::Open),
        _ => None,
    }
}

/// The reason of a word.
fn reason_of(word: &str) -> Option<Reason> {
    match word {
        "encoding" => Some(Reason::Encoding),
        "same" => Some(Reason::SameValue),
        "masked" => Some(Reason::MaskedBits),
        _ => None,
    }
}

/// One more step: what is done, the index, and the word, where it has one.
fn more_of(text: &str) -> Option<Bend> {
    let (name, numbers) = text.split_once(' ')?;
    let (index, word) = numbers.split_once(' ').unwrap_or((numbers, "0"));
    let index = number(index)? as usize;
    let word = u64::from(number(word)?);
    match name {
        "arms" => Some(Bend::StepMore(Step::Insert(index, word), true)),
        "takes" => Some(Bend::StepMore(Step::TryConsume(index, word), true)),
        "finds-quiet" => Some(Bend::StepMore(Step::Consume(index), true)),
        "finds-hit" => Some(Bend::StepMore(Step::Consume(index), false)),
        _ => None,
    }
}

/// Makes a bend.
fn make(told: &mut ToldExecution, bend: Bend) -> Result<(), Refusal> {
    match bend {
        Bend::OutcomeAgain => outcome_again(told)?,
        Bend::OutcomeMissing => outcome_missing(told)?,
        Bend::Discard(reason) => discard(told, reason)?,
        Bend::NoClears => look_for_clears(told.records.as_mut_slice()),
        Bend::NoHistory => told.history.truncate(0),
        Bend::NoSteps => told.records.truncate(0),
        Bend::StepAgain(place) => step_again(told, place)?,
        Bend::StepMore(step, flag) => step_more(told, step, Answer::Flag(flag))?,
        Bend::Open => told.ended = false,
    }
    Ok(())
}

/// The last outcome is told once more.
fn outcome_again(told: &mut ToldExecution) -> Result<(), Refusal> {
    let last = told.outcomes.last().copied();
    let last = last.ok_or(Refusal::NothingToBend)?;
    told.outcomes.push(last)?;
    Ok(())
}

/// The last outcome isn't told.
fn outcome_missing(told: &mut ToldExecution) -> Result<(), Refusal> {
    let Some(others) = told.outcomes.len().checked_sub(1) else {
        return Err(Refusal::NothingToBend);
    };
    told.outcomes.truncate(others);
    Ok(())
}

/// The first access is told to have been discarded.
fn discard(told: &mut ToldExecution, reason: Reason) -> Result<(), Refusal> {
    let first = told.accesses.first().copied();
    let access = first.ok_or(Refusal::NothingToBend)?;
    told.outcomes.push(Came {
        access,
        outcome: Outcome::Dropped(reason),
        arming: None,
    })?;
    Ok(())
}

/// Setters look at the word where they would clear their pairs, so nobody hears that an arming was taken.
fn look_for_clears(records: &mut [Record]) {
    for record in records {
        if let Step::Clear(index) = record.step {
            record.step = Step::Load(index);
        }
    }
}

/// A record is there twice.
fn step_again(told: &mut ToldExecution, place: usize) -> Result<(), Refusal> {
    let Some(record) = told.records.get(place).copied() else {
        return Err(Refusal::NothingToBend);
    };
    told.records.insert(place, record)?;
    Ok(())
}

/// One more step at the end, which nobody made.
fn step_more(told: &mut ToldExecution, step: Step, answer: Answer) -> Result<(), Refusal> {
    told.records.insert(
        0,
        Record {
            task: 0,
            step,
            answer,
        },
    )?;
    told.moments.push(told.history.len())?;
    Ok(())
}
