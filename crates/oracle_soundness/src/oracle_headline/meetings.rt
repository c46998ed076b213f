//! Which setters and finders met, as each of the two heard of it. Lists have their latest record first.

ghost use Rattle.std.specs.Prelude.{◌≡◌, ◌↔◌, ◌∷◌, Contains, IfOk, IsTrue, List, MatchOption, Option, Some};
ghost use Rattle.std.specs.List.{cons_option};
ghost use Rattle.slot.specs.Pair.{Halves};
ghost use Rattle.slot_table.specs.Discipline.{hand_after, heard, heard_after, in_hand, part_at};
ghost use Rattle.slot_table.specs.Meetings as spec;
ghost use Rattle.slot_table.specs.Meetings.{finders_told, heard_by, setters_heard, told_by};
ghost use Rattle.slot_table.specs.Records.{records_of};
ghost use Rattle.slot_table.specs.declared.discipline.InHand.{InHand};
ghost use Rattle.slot_table.specs.declared.discipline.Part.TheVariants.{Hit};

use crate::oracle_headline::armings::last_arming;
use slot::Pair;
use slot_table::discipline::{InHand, Part};
use slot_table::{Answer, Record, Step};
use std::alloc::{AllocError, Global};
use std::marker::Model;

/// A setter and a finder met over the arming with this number at this index.
#[derive(Clone, Copy)]
pub struct Meeting {
    pub index: usize,
    pub number: usize,
    pub setter: u32,
    pub finder: u32,
}

impl Model for Meeting {
    ghost Value = { spec.Meeting };

    ghost view = { λ met. record { index = met.index; number = met.number; setter = met.setter; finder = met.finder } };

    ghost inverse = { λ met. record { index = met.index; number = met.number; setter = met.setter; finder = met.finder } };
}

/// What a task has heard at the index, if the record changes that.
fn hears(made: &Record, index: usize) -> Option<Option<Pair>>
    ensures { MatchOption result
        ((before : Option Halves) → heard_after index made.now.step made.now.answer before ≡ before)
        (λ now. (before : Option Halves) → heard_after index made.now.step made.now.answer before ≡ now) }
{
    match (made.step, made.answer) {
        (Step::PairLoad(at), Answer::Halves(setter, finder)) if at == index => {
            let mut pair = Pair::new();
            pair.name(setter);
            pair.tell(finder);
            Some(Some(pair))
        }
        (Step::Insert(at, _) | Step::TryConsume(at, _), Answer::Flag(true)) if at == index => {
            Some(None)
        }
        (
            Step::Name(at, _)
            | Step::Consume(at)
            | Step::Clear(at)
            | Step::Remove(at)
            | Step::Tell(at, _),
            _,
        ) if at == index => Some(None),
        _ => None,
    }
}

/// What a task has heard at the index.
fn heard(mut records: &[Record], task: u32, index: usize) -> Option<Pair>
    ensures { result ≡ heard index (records_of task records.entry.now) }
{
    while let [latest, earlier @ ..] = records {
        if latest.task == task {
            if let Some(now) = hears(latest, index) {
                return now;
            }
        }
        records = earlier;
    }
    None
}

/// What a task has in hand, if the record changes that.
fn hands(made: &Record) -> Option<Option<InHand>>
    ensures { MatchOption result
        ((before : Option InHand) → hand_after made.now.step made.now.answer before ≡ before)
        (λ now. (before : Option InHand) → hand_after made.now.step made.now.answer before ≡ now) }
{
    let (index, part) = match (made.step, made.answer) {
        (Step::Insert(index, word), Answer::Flag(true)) => (index, Part::Inserted(word)),
        (Step::TryConsume(index, word), Answer::Flag(true)) => (index, Part::Taken(word)),
        (Step::Name(index, ticket), _) => (index, Part::Named(ticket)),
        (Step::Consume(index), Answer::Flag(true)) => (index, Part::Untouched),
        (Step::Consume(index), Answer::Flag(false)) => (index, Part::Hit),
        (Step::Clear(index), _) => (index, Part::Cleared),
        (Step::Remove(_) | Step::Tell(_, _), _) => return Some(None),
        _ => return None,
    };
    Some(Some(InHand { index, part }))
}

/// What a task has in hand.
pub fn in_hand(mut records: &[Record], task: u32) -> Option<InHand>
    ensures { result ≡ in_hand (records_of task records.entry.now) }
{
    while let [latest, earlier @ ..] = records {
        if latest.task == task {
            if let Some(now) = hands(latest) {
                return now;
            }
        }
        records = earlier;
    }
    None
}

/// Whether the record is the tell of the meeting's finder.
fn tells(latest: &Record, earlier: &[Record], met: &Meeting) -> bool
    ensures { (before : List spec.Meeting) → IsTrue result
        → told_by latest.now.task latest.now.step earlier.now before ≡ met.now ∷ before }
{
    let Step::Tell(index, ticket) = latest.step else {
        return false;
    };
    let (Some(number), Some(pair)) = (
        last_arming(earlier, index),
        heard(earlier, latest.task, index),
    ) else {
        return false;
    };
    let setter = pair.halves().0;
    index == met.index && number == met.number && setter == met.setter && ticket == met.finder
}

/// Whether the meeting's finder told of it.
pub fn was_told(mut records: &[Record], met: &Meeting) -> bool
    ensures { IsTrue result → Contains (finders_told records.entry.now) met.now }
{
    while let [latest, earlier @ ..] = records {
        if tells(latest, earlier, met) {
            return true;
        }
        records = earlier;
    }
    false
}

/// Whether a task has found its word at the index hit, and not cleared.
fn is_hit(records: &[Record], task: u32, index: usize) -> bool
    ensures { IsTrue result ↔ (part_at index (in_hand (records_of task records.now)) ≡ Some Hit) }
{
    match in_hand(records, task) {
        Some(
            InHand {
                index: at,
                part: Part::Hit,
            },
        ) => at == index,
        _ => false,
    }
}

/// The meeting of which the record's task has heard, if it clears the pair after its word was hit.
fn heard_at(latest: &Record, earlier: &[Record]) -> Option<Meeting>
    ensures { (before : List spec.Meeting)
        → heard_by latest.now.task latest.now.step earlier.now before ≡ cons_option result before }
{
    let Step::Clear(index) = latest.step else {
        return None;
    };
    if !is_hit(earlier, latest.task, index) {
        return None;
    }
    let number = last_arming(earlier, index)?;
    let (setter, finder) = heard(earlier, latest.task, index)?.halves();
    Some(Meeting {
        index,
        number,
        setter,
        finder,
    })
}

/// The meetings of which setters have heard, the latest first.
pub fn setters_heard(alloc: Global, mut records: &[Record]) -> Result<Vec<Meeting>, AllocError>
    ensures { IfOk result (λ met. met.items ≡ setters_heard records.entry.now) }
{
    let mut met = Vec::new(alloc);
    while let [latest, earlier @ ..] = records {
        if let Some(meeting) = heard_at(latest, earlier) {
            met.push(meeting)?;
        }
        records = earlier;
    }
    Ok(met)
}
