//! The headline, decided of a list of steps and of what is told of it.

ghost use Rattle.std.specs.Prelude.{◌≡◌, All, IfOk, IsTrue};
ghost use Rattle.oracle_soundness.specs.oracle_headline.Tried.{HasHeadline, IsAnswered, IsTrueOf, NamesRace, NamesRaceWith, Totals, account_of};
ghost use Rattle.slot_table.specs.Meetings.{setters_heard};

use crate::oracle_definitions::true_race;
use crate::oracle_headline::answers::all_answered;
use crate::oracle_headline::armings::taken_once;
use crate::oracle_headline::changes::changed;
use crate::oracle_headline::endings::takings_answered;
use crate::oracle_headline::meetings::{Meeting, setters_heard, was_told};
use crate::oracle_headline::told::{Came, ToldExecution};
use crate::oracle_headline::totals::law_totals_agree;
use access_types::{Access, ValueChange, ticket};
use setup_access::Outcome;
use slot::Pair;
use std::alloc::{AllocError, Global};

/// An answer, where memory suffices.
pub type Answer = Result<bool, AllocError>;

/// The pair names the access that was checked and this finder, which told of the arming, and the two race.
fn races_with(
    alloc: Global,
    told: &ToldExecution,
    came: &Came,
    pair: Pair,
    finder: &Access,
) -> Answer
    ensures { IfOk result (λ yes. IsTrue yes → NamesRaceWith (account_of told.now) came.now pair finder.now) }
{
    let Some(arming) = came.arming else {
        return Ok(false);
    };
    let (setter_ticket, finder_ticket) = pair.halves();
    if setter_ticket != ticket(&came.access) || finder_ticket != ticket(finder) {
        return Ok(false);
    }
    let met = Meeting {
        index: arming.index,
        number: arming.number,
        setter: setter_ticket,
        finder: finder_ticket,
    };
    if !was_told(told.records.as_slice(), &met) {
        return Ok(false);
    }
    true_race(
        alloc,
        told.atomic,
        told.history.as_slice(),
        &came.access,
        finder,
    )
}

/// The pair names a true race of the access that was checked.
fn names_race(alloc: Global, told: &ToldExecution, came: &Came, pair: Pair) -> Answer
    ensures { IfOk result (λ yes. IsTrue yes → NamesRace (account_of told.now) came.now pair) }
{
    for finder in told.accesses.as_slice() {
        if races_with(alloc, told, came, pair, finder)? {
            return Ok(true);
        }
    }
    Ok(false)
}

/// What came is true, if it is a report.
fn is_true(alloc: Global, told: &ToldExecution, came: &Came) -> Answer
    ensures { IfOk result (λ yes. IsTrue yes → IsTrueOf (account_of told.now) came.now) }
{
    match came.outcome {
        Outcome::Report { pair, seen: _ } => names_race(alloc, told, came, pair),
        Outcome::Unknown { old, new } => {
            let change = ValueChange { old, new };
            Ok(changed(told.history.as_slice(), &came.access, change))
        }
        _ => Ok(true),
    }
}

/// All reports are true.
fn all_true(alloc: Global, told: &ToldExecution) -> Answer
    ensures { IfOk result (λ yes. IsTrue yes → All (IsTrueOf (account_of told.now)) told.now.outcomes.items) }
{
    for came in told.outcomes.as_slice() {
        if !is_true(alloc, told, came)? {
            return Ok(false);
        }
    }
    Ok(true)
}

/// Once all tasks have ended the totals agree.
fn ends_agreed(told: &ToldExecution) -> bool
    ensures { IsTrue result → IsTrue told.now.ended → Totals told.now.records.items told.now.outcomes.items }
{
    !told.ended || law_totals_agree(told)
}

/// Whether the headline holds of what is told. Then each meeting of which a setter has heard has one answer as well.
pub fn holds(alloc: Global, told: &ToldExecution) -> Answer
    ensures headline { IfOk result (λ yes. IsTrue yes → HasHeadline (account_of told.now)) }
    ensures heard { IfOk result (λ yes. IsTrue yes → All (IsAnswered (account_of told.now)) (setters_heard told.now.records.items)) }
{
    if !taken_once(alloc, told.records.as_slice())? {
        return Ok(false);
    }
    if !all_true(alloc, told)? {
        return Ok(false);
    }
    if !takings_answered(told, told.records.as_slice()) {
        return Ok(false);
    }
    if !ends_agreed(told) {
        return Ok(false);
    }
    let met = setters_heard(alloc, told.records.as_slice())?;
    Ok(all_answered(told, met.as_slice()))
}
