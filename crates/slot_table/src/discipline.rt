//! The discipline that each task keeps: which steps it may make after its own. It is the rule by
//! which a setter and a finder meet at a watchpoint, and here a slow plain test of it over a list
//! of records.

ghost use Rattle.std.specs.Prelude.{◌≡◌, ◌↔◌, ◌<◌, ℕ, Some, IsTrue, reverse};
ghost use Rattle.slot_table.specs.Discipline.{Allows, HasHeardFinder, HasHeardSetter, IsOwnTicket};
ghost use Rattle.slot_table.specs.Discipline.{hand_after, heard, heard_after, holds, holds_after};
ghost use Rattle.slot_table.specs.Discipline.{in_hand, last_load, load_after};
ghost use Rattle.slot_table.specs.Records.{records_of};

use crate::records::Record;
use crate::step::{Answer, Step};
use access_types::task_of;
use slot::{CONSUMED, Pair};

/// A task's part in the handshake of a watchpoint, by its last step of it.
#[derive(Clone, Copy, Debug, PartialEq, Eq)]
pub enum Part {
    /// The setter has inserted this watch word.
    Inserted(u64),
    /// The setter has named itself by this ticket.
    Named(u32),
    /// The setter has consumed its word and found that nobody had hit it.
    Untouched,
    /// The setter has consumed its word and found that it was hit.
    Hit,
    /// The setter has cleared the pair.
    Cleared,
    /// The finder has taken this watch word.
    Taken(u64),
}

/// The handshake that a task has in hand: at which index, and its part.
#[derive(Clone, Copy, PartialEq, Eq)]
pub struct InHand {
    pub index: usize,
    pub part: Part,
}

/// What a task has in hand after one more of its records.
fn hand_with(made: Record, before: Option<InHand>) -> Option<InHand>
    ensures { result ≡ hand_after made.step made.answer before }
{
    let (index, part) = match (made.step, made.answer) {
        (Step::Insert(index, word), Answer::Flag(true)) => (index, Part::Inserted(word)),
        (Step::TryConsume(index, word), Answer::Flag(true)) => (index, Part::Taken(word)),
        (Step::Name(index, ticket), _) => (index, Part::Named(ticket)),
        (Step::Consume(index), Answer::Flag(true)) => (index, Part::Untouched),
        (Step::Consume(index), Answer::Flag(false)) => (index, Part::Hit),
        (Step::Clear(index), _) => (index, Part::Cleared),
        (Step::Remove(_) | Step::Tell(_, _), _) => return None,
        _ => return before,
    };
    Some(InHand { index, part })
}

/// What a task has heard at an index after one more of its records.
fn heard_with(made: Record, index: usize, before: Option<Pair>) -> Option<Pair>
    ensures { result ≡ heard_after index made.step made.answer before }
{
    match (made.step, made.answer) {
        (Step::PairLoad(at), Answer::Halves(setter, finder)) if at == index => {
            let mut pair = Pair::new();
            pair.name(setter);
            pair.tell(finder);
            Some(pair)
        }
        (Step::Insert(at, _) | Step::TryConsume(at, _), Answer::Flag(true)) if at == index => None,
        (
            Step::Name(at, _)
            | Step::Consume(at)
            | Step::Clear(at)
            | Step::Remove(at)
            | Step::Tell(at, _),
            _,
        ) if at == index => None,
        _ => before,
    }
}

/// What a task's last load of an index answered, after one more of its records.
fn loaded_with(made: Record, index: usize, before: Option<u64>) -> Option<u64>
    ensures { result ≡ load_after index made.step made.answer before }
{
    match (made.step, made.answer) {
        (Step::Load(at), Answer::Word(word)) if at == index => Some(word),
        _ => before,
    }
}

/// Whether a task holds a lock after one more of its records.
fn holds_with(made: Record, lock: usize, before: bool) -> bool
    ensures { result ≡ holds_after lock made.step made.answer before }
{
    match (made.step, made.answer) {
        (Step::LockTry(at, _), Answer::Flag(true)) if at == lock => true,
        (Step::LockStore(at), _) if at == lock => false,
        _ => before,
    }
}

/// What a task has in hand after its records among these, in their order.
fn hand_of(made: &[Record], task: u32) -> Option<InHand>
    ensures { result ≡ in_hand (records_of task (reverse made.now)) }
{
    let mut hand = None;
    for record in made {
        if record.task == task {
            hand = hand_with(*record, hand);
        }
    }
    hand
}

/// What a task has heard at an index after its records among these.
fn heard_by(made: &[Record], task: u32, index: usize) -> Option<Pair>
    ensures { result ≡ heard index (records_of task (reverse made.now)) }
{
    let mut both = None;
    for record in made {
        if record.task == task {
            both = heard_with(*record, index, both);
        }
    }
    both
}

/// What a task's last load of an index among these answered.
fn loaded_by(made: &[Record], task: u32, index: usize) -> Option<u64>
    ensures { result ≡ last_load index (records_of task (reverse made.now)) }
{
    let mut word = None;
    for record in made {
        if record.task == task {
            word = loaded_with(*record, index, word);
        }
    }
    word
}

/// Whether a task holds a lock after its records among these.
fn is_held_by(made: &[Record], task: u32, lock: usize) -> bool
    ensures { result ≡ holds lock (records_of task (reverse made.now)) }
{
    let mut is_held = false;
    for record in made {
        if record.task == task {
            is_held = holds_with(*record, lock, is_held);
        }
    }
    is_held
}

/// Whether a ticket is the task's own.
fn is_own_ticket(task: u32, ticket: u32) -> bool
    ensures { IsTrue result ↔ IsOwnTicket task ticket }
{
    ticket > 0 && task_of(ticket) == task
}

/// Whether it is the setter that has inserted its word at the index.
fn has_inserted(hand: Option<InHand>, index: usize) -> bool
    ensures { IsTrue result
        ↔ ((word : ℕ) × (hand ≡ Some (record { index = index; part = Part.Inserted word }))) }
{
    matches!(hand, Some(InHand { index: at, part: Part::Inserted(_) }) if at == index)
}

/// Whether it is the setter that has named itself at the index.
fn has_named(hand: Option<InHand>, index: usize) -> bool
    ensures { IsTrue result
        ↔ ((ticket : ℕ) × (hand ≡ Some (record { index = index; part = Part.Named ticket }))) }
{
    matches!(hand, Some(InHand { index: at, part: Part::Named(_) }) if at == index)
}

/// Whether it is the finder that has taken a word at the index.
fn has_taken(hand: Option<InHand>, index: usize) -> bool
    ensures { IsTrue result
        ↔ ((word : ℕ) × (hand ≡ Some (record { index = index; part = Part.Taken word }))) }
{
    matches!(hand, Some(InHand { index: at, part: Part::Taken(_) }) if at == index)
}

/// Whether it is this part at the index.
fn has_part(hand: Option<InHand>, index: usize, part: Part) -> bool
    ensures { IsTrue result ↔ (hand ≡ Some (record { index = index; part = part })) }
{
    hand == Some(InHand { index, part })
}

/// Whether a task has heard the setter's half at an index.
fn has_heard_setter(made: &[Record], task: u32, index: usize) -> bool
    ensures { IsTrue result ↔ HasHeardSetter index (records_of task (reverse made.now)) }
{
    heard_by(made, task, index).is_some_and(|both| both.halves().0 > 0)
}

/// Whether a task has heard the finder's half at an index.
fn has_heard_finder(made: &[Record], task: u32, index: usize) -> bool
    ensures { IsTrue result ↔ HasHeardFinder index (records_of task (reverse made.now)) }
{
    heard_by(made, task, index).is_some_and(|both| both.halves().1 > 0)
}

/// Whether the discipline allows the step to a task after its records among these, in their order.
pub fn allows(made: &[Record], task: u32, step: Step) -> bool
    ensures { IsTrue result ↔ Allows task (records_of task (reverse made.now)) step }
{
    let hand = hand_of(made, task);
    match step {
        // One handshake at a time: a task that has one in hand neither sets up nor takes another.
        Step::Insert(_, word) => word > CONSUMED && hand.is_none(),
        // What is taken was read there before: a word that wasn't read has matched no access.
        Step::TryConsume(index, word) => {
            word > CONSUMED && loaded_by(made, task, index) == Some(word) && hand.is_none()
        }
        // A stamp begins or ends an access or a scope, and handshakes lie between: whoever is named is in progress.
        Step::Clock => hand.is_none(),
        Step::Name(index, ticket) => is_own_ticket(task, ticket) && has_inserted(hand, index),
        // The name comes first: a finder that took the word awaits it, and after a hit the setter awaits this finder.
        Step::Consume(index) => has_named(hand, index),
        // After a hit the finder's half is awaited: cleared too early, the finder would tell the next setter.
        Step::Clear(index) => {
            has_part(hand, index, Part::Untouched)
                || has_part(hand, index, Part::Hit) && has_heard_finder(made, task, index)
        }
        // The pair is emptied while the index is still the setter's own.
        Step::Remove(index) => has_part(hand, index, Part::Cleared),
        // The finder has heard the setter first, so that both know the same pair.
        Step::Tell(index, ticket) => {
            is_own_ticket(task, ticket)
                && has_taken(hand, index)
                && has_heard_setter(made, task, index)
        }
        Step::LockTry(_, holder) => holder == task,
        Step::LockStore(lock) => is_held_by(made, task, lock),
        Step::Load(_) | Step::PairLoad(_) | Step::CellLoad(_) | Step::CellExchange(_, _, _) => true,
    }
}
