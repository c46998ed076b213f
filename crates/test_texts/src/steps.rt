//! Steps and their answers in rows.

use crate::fault::Fault;
use crate::numbers::{number, small};
use slot_table::{Answer, Record, Step};
use std::alloc::Global;

/// The records of a task in a text, one a word, as `record_of` reads them.
pub fn records_of(alloc: Global, task: u32, text: &str) -> Result<Vec<Record>, Fault> {
    let mut records = Vec::new(alloc);
    for word in text.split_whitespace() {
        records.push(record_of(alloc, task, word)?)?;
    }
    Ok(records)
}

/// The record of a word: `STEP=ANSWER`, or a step alone, whose answer is that it is done. `TASK/` before it names
/// another task.
fn record_of(alloc: Global, task: u32, word: &str) -> Result<Record, Fault> {
    let (task, made) = match word.split_once('/') {
        Some((other, made)) => (small(other)?, made),
        None => (task, word),
    };
    let (step, answer) = match made.split_once('=') {
        Some((step, answer)) => (step, answer_of(answer)?),
        None => (made, Answer::Done),
    };
    Ok(Record {
        task,
        step: step_of(alloc, step)?,
        answer,
    })
}

/// An answer: `yes` or `no`, two halves with a comma between them, or a word.
fn answer_of(text: &str) -> Result<Answer, Fault> {
    match text {
        "yes" => Ok(Answer::Flag(true)),
        "no" => Ok(Answer::Flag(false)),
        _ => match text.split_once(',') {
            Some((first, second)) => Ok(Answer::Halves(small(first)?, small(second)?)),
            None => Ok(Answer::Word(number(text)?)),
        },
    }
}

/// A step: its name, and behind it each of its numbers with a colon before it.
fn step_of(alloc: Global, text: &str) -> Result<Step, Fault> {
    let mut numbers = Vec::new(alloc);
    let mut parts = text.split(':');
    let name = parts.next().ok_or(Fault::NoRow)?;
    for part in parts {
        numbers.push(number(part)?)?;
    }
    named_step(name, &numbers).ok_or(Fault::NoRow)
}

/// The step of a name and its numbers.
fn named_step(name: &str, numbers: &[u64]) -> Option<Step> {
    match (name, numbers) {
        ("clock", []) => Some(Step::Clock),
        (_, [at]) => step_at(name, *at as usize),
        (_, [at, other]) => step_with(name, *at as usize, *other),
        ("exchange", [cell, seen, new]) => { Some(Step::CellExchange(*cell as usize, *seen, *new)) }
        _ => None,
    }
}

/// The step of a name at an index, a cell or a lock.
fn step_at(name: &str, at: usize) -> Option<Step> {
    match name {
        "load" => Some(Step::Load(at)),
        "consume" => Some(Step::Consume(at)),
        "remove" => Some(Step::Remove(at)),
        "pair" => Some(Step::PairLoad(at)),
        "clear" => Some(Step::Clear(at)),
        "cell" => Some(Step::CellLoad(at)),
        "unlock" => Some(Step::LockStore(at)),
        _ => None,
    }
}

/// The step of a name at an index or a lock, with a word, a ticket or a task.
fn step_with(name: &str, at: usize, other: u64) -> Option<Step> {
    match name {
        "insert" => Some(Step::Insert(at, other)),
        "take" => Some(Step::TryConsume(at, other)),
        "name" => Some(Step::Name(at, u32::try_from(other).ok()?)),
        "tell" => Some(Step::Tell(at, u32::try_from(other).ok()?)),
        "lock" => Some(Step::LockTry(at, u32::try_from(other).ok()?)),
        _ => None,
    }
}
