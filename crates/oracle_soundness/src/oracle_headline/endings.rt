//! Which takings have one answer, of those whose two accesses have ended. Lists have their latest record first.

ghost use Rattle.std.specs.Prelude.{◌≡◌, ◌↔◌, ℕ, IsTrue, MatchOption, length};
ghost use Rattle.access_types.specs.History.{InProgress};
ghost use Rattle.oracle_soundness.specs.oracle_headline.Tried.{Answered, EndsGoing, HasEnded, TakingsAnswered, WasArmed, account_of, moments_by};
ghost use Rattle.slot_table.specs.Hearings.{IsArming, IsTaking};

use crate::oracle_definitions::in_progress;
use crate::oracle_headline::answers::is_answered;
use crate::oracle_headline::armings::last_arming;
use crate::oracle_headline::told::{Armed, ToldExecution};
use access_types::{Access, Happening, Moment};
use slot_table::{Answer, Record, Step};

/// The access was in progress after so many moments.
fn was_going(history: &[Moment], access: &Access, count: usize) -> bool
    ensures { IsTrue result ↔ InProgress history.now access.now count }
{
    if count < history.len() {
        in_progress(history, access, count)
    } else {
        in_progress(history, access, history.len())
    }
}

/// How many moments were told by so many steps.
fn moments_by(told: &ToldExecution, count: usize) -> usize
    ensures { result ≡ moments_by told.now count }
{
    match told.moments.as_slice().get(count) {
        Some(moments) => *moments,
        None => 0,
    }
}

/// The moment ends an access of the task that was in progress after so many moments.
fn ends_going(history: &[Moment], task: u32, count: usize, moment: &Moment) -> bool
    ensures { IsTrue result ↔ EndsGoing history.now task count moment.now }
{
    match moment.happening {
        Happening::End(access) => {
            moment.task == task && access.task() == task && was_going(history, &access, count)
        }
        _ => false,
    }
}

/// An access of the task that was in progress after so many moments has ended.
fn has_ended(history: &[Moment], task: u32, count: usize) -> bool
    ensures { IsTrue result ↔ HasEnded history.now task count }
{
    for moment in history {
        if ends_going(history, task, count, moment) {
            return true;
        }
    }
    false
}

/// An access of the record's task that was in progress as it was made has ended.
fn ended_since(told: &ToldExecution, made: &Record, earlier: &[Record]) -> bool
    ensures { IsTrue result
        ↔ HasEnded told.now.history.items made.now.task (moments_by told.now (length earlier.now)) }
{
    let moments = moments_by(told, earlier.len());
    has_ended(told.history.as_slice(), made.task, moments)
}

/// The record is the arming with this number at the index.
fn is_arming(made: &Record, earlier: &[Record], index: usize, number: usize) -> bool
    ensures { (setter word : ℕ) → IsArming index number setter word made.now earlier.now → IsTrue result }
{
    match (made.step, made.answer) {
        (Step::Insert(at, _), Answer::Flag(true)) => at == index && earlier.len() == number,
        _ => false,
    }
}

/// The record is the arming with this number at the index, made for an access that has ended since.
fn is_ended_arming(
    told: &ToldExecution,
    made: &Record,
    earlier: &[Record],
    index: usize,
    number: usize,
) -> bool
    ensures { (setter word : ℕ) → IsArming index number setter word made.now earlier.now
        → HasEnded told.now.history.items made.now.task (moments_by told.now (length earlier.now))
        → IsTrue result }
{
    is_arming(made, earlier, index, number) && ended_since(told, made, earlier)
}

/// One of the records is the arming with this number at the index, made for an access that has ended since.
fn was_armed(told: &ToldExecution, mut records: &[Record], index: usize, number: usize) -> bool
    ensures { WasArmed (account_of told.now) index number records.entry.now → IsTrue result }
{
    while let [latest, earlier @ ..] = records {
        if is_ended_arming(told, latest, earlier, index, number) {
            return true;
        }
        records = earlier;
    }
    false
}

/// The arming that the record takes, if it does.
fn taking(latest: &Record, earlier: &[Record]) -> Option<Armed>
    ensures { MatchOption result
        ((index number finder word : ℕ) → ¬ IsTaking index number finder word latest.now earlier.now)
        (λ taken. (index number finder word : ℕ) → IsTaking index number finder word latest.now earlier.now
        → (index ≡ taken.index) × (number ≡ taken.number)) }
{
    let (Step::TryConsume(index, _), Answer::Flag(true)) = (latest.step, latest.answer) else {
        return None;
    };
    match last_arming(earlier, index) {
        Some(number) => Some(Armed { index, number }),
        None => None,
    }
}

/// What the record takes has one answer, if both accesses have ended since.
fn is_answered_if_ended(told: &ToldExecution, latest: &Record, earlier: &[Record]) -> bool
    ensures { IsTrue result → (index number finder word : ℕ)
        → IsTaking index number finder word latest.now earlier.now
        → HasEnded told.now.history.items latest.now.task (moments_by told.now (length earlier.now))
        → WasArmed (account_of told.now) index number told.now.records.items
        → Answered (account_of told.now) index number }
{
    let Some(taken) = taking(latest, earlier) else {
        return true;
    };
    if !ended_since(told, latest, earlier) {
        return true;
    }
    if !was_armed(told, told.records.as_slice(), taken.index, taken.number) {
        return true;
    }
    is_answered(told, taken.index, taken.number)
}

/// Each of these takings whose two accesses have ended has one answer.
pub fn takings_answered(told: &ToldExecution, mut records: &[Record]) -> bool
    ensures { IsTrue result → TakingsAnswered (account_of told.now) records.entry.now }
{
    while let [latest, earlier @ ..] = records {
        if !is_answered_if_ended(told, latest, earlier) {
            return false;
        }
        records = earlier;
    }
    true
}
