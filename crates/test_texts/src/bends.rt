//! Lists of records that are bent at one place.

use oracle_steps::oracle_accesses::reading::Reading;
use slot_table::{Answer, Record, Step};
use std::alloc::{AllocError, Global};

/// How a list is bent at a record.
#[derive(Clone, Copy, Debug)]
pub enum Bend {
    /// It ends before it.
    End,
    /// Another task made it.
    Task,
    /// It is of a step on another word, with another value, or of another kind.
    Step,
    /// Its answer is of another kind.
    Answer,
    /// It is left out, and the next is of another step.
    Without,
    /// It changes its place with the next, which is of another step.
    Swap,
    /// One more follows it, which is the last.
    More,
}

/// Each way to bend a list.
pub const BENDS: [Bend; 7] = [
    Bend::End,
    Bend::Task,
    Bend::Step,
    Bend::Answer,
    Bend::Without,
    Bend::Swap,
    Bend::More,
];

impl Bend {
    /// What a list that spells a whole text has to be where it is bent so.
    pub fn reading(self) -> Reading {
        match self {
            Bend::End => Reading::Begun,
            _ => Reading::Other,
        }
    }
}

/// The records bent at one of them, if they can be bent so there.
pub fn bent(
    alloc: Global,
    records: &[Record],
    place: usize,
    record: Record,
    bend: Bend,
) -> Result<Option<Vec<Record>>, AllocError> {
    let after = place.saturating_add(1);
    let next = records.get(after).copied();
    let mut list = Vec::from_slice(alloc, records)?;
    match (bend, next) {
        (Bend::End, _) => list.truncate(place),
        (Bend::Task, _) => {
            let task = record.task ^ 1;
            put(&mut list, place, Record { task, ..record });
        }
        (Bend::Step, _) => {
            let step = another(record.step);
            put(&mut list, place, Record { step, ..record });
        }
        (Bend::Answer, _) => {
            let answer = of_another_kind(record.answer);
            put(&mut list, place, Record { answer, ..record });
        }
        (Bend::Without, Some(next)) if next.step != record.step => {
            if place < list.len() {
                list.remove(place);
            }
        }
        (Bend::Swap, Some(next)) if next.step != record.step => {
            put(&mut list, place, next);
            put(&mut list, after, record);
        }
        (Bend::More, None) => list.push(Record {
            step: Step::Clock,
            answer: Answer::Word(9),
            ..record
        })?,
        _ => return Ok(None),
    }
    Ok(Some(list))
}

/// Puts a record in a place.
fn put(list: &mut Vec<Record>, place: usize, record: Record) {
    if let Some(at) = list.get_mut(place) {
        *at = record;
    }
}

/// An answer of another kind.
fn of_another_kind(answer: Answer) -> Answer {
    match answer {
        Answer::Done => Answer::Word(0),
        _ => Answer::Done,
    }
}

/// A step on another word, with another value, or of another kind.
fn another(step: Step) -> Step {
    match step {
        Step::Load(index) => Step::Load(index.wrapping_add(1)),
        Step::Insert(index, word) => Step::Insert(index, word.wrapping_add(1)),
        Step::TryConsume(index, word) => Step::TryConsume(index, word.wrapping_add(1)),
        Step::Consume(index) => Step::Remove(index),
        Step::Remove(index) => Step::Clear(index),
        Step::PairLoad(index) => Step::PairLoad(index.wrapping_add(1)),
        Step::Name(index, ticket) => Step::Name(index, ticket.wrapping_add(1)),
        Step::Tell(index, ticket) => Step::Tell(index, ticket.wrapping_add(1)),
        Step::Clear(index) => Step::Remove(index),
        Step::CellLoad(cell) => Step::CellLoad(cell.wrapping_add(1)),
        Step::CellExchange(cell, seen, new) => Step::CellExchange(cell, seen, new.wrapping_add(1)),
        Step::LockTry(lock, task) => Step::LockTry(lock.wrapping_add(1), task),
        Step::LockStore(lock) => Step::LockStore(lock.wrapping_add(1)),
        Step::Clock => Step::Load(16),
    }
}
