//! The verdict on a pair of sites by the executions that are given, and its reasons.

ghost use Rattle.std.specs.Prelude.{◌≡◌, ◌↔◌, Bool, IfOk, IsTrue, List};
ghost use Rattle.oracle_soundness.specs.oracle_races.Shown.{facts_among};
ghost use Rattle.oracle_soundness.specs.declared.oracle_races.observed.Observed as spec;
ghost use Rattle.races.specs.Verdicts.{AreMissedReasons, FitsFacts, IsSettled};
ghost use Rattle.races.specs.declared.pair.SitePair.{SitePair};
ghost use Rattle.races.specs.declared.verdict.Verdict as verdicts;

use crate::oracle_definitions::marked::Answer;
use crate::oracle_races::events::{Event, some_happens};
use crate::oracle_races::facts::{Fact, some_two};
use crate::oracle_races::observed::Observed;
use races::{MissedWhy, NoRaceWhy, SitePair, Verdict};
use std::alloc::{AllocError, Global};
use value_filter::Reason;

/// A verdict, where memory suffices.
pub type Decided = Result<Verdict, AllocError>;

/// The two race in some execution.
fn is_race(alloc: Global, atomic: bool, executions: &[Observed], pair: SitePair) -> Answer
    ensures { IfOk result (λ yes. IsTrue yes ↔ (facts_among atomic executions.now pair).Race) }
{
    let first_never = !some_happens(executions, pair, Event::Writes(pair.first));
    let second_never = !some_happens(executions, pair, Event::Writes(pair.second));
    let fact = Fact::Race(atomic, first_never, second_never);
    some_two(alloc, fact, executions, pair)
}

/// None of the first three reasons is seen.
fn are_none(same_value: bool, masked: bool, origin: bool) -> bool
    ensures { IsTrue result ↔ ((¬ IsTrue same_value) × (¬ IsTrue masked) × (¬ IsTrue origin)) }
{
    !same_value && !masked && !origin
}

/// Why the two are missed.
fn missed_why(executions: &[Observed], pair: SitePair) -> MissedWhy
    ensures { (atomic : Bool) → AreMissedReasons (facts_among atomic executions.now pair) result }
{
    let same_value = some_happens(executions, pair, Event::Dropped(Reason::SameValue));
    let masked = some_happens(executions, pair, Event::Dropped(Reason::MaskedBits));
    let origin = some_happens(executions, pair, Event::Origin);
    let taken = some_happens(executions, pair, Event::Taken);
    let armed = some_happens(executions, pair, Event::Armed);
    let none = are_none(same_value, masked, origin);
    let untaken = none && !taken;
    let never_taken = untaken && armed;
    let never_armed = none && !armed;
    MissedWhy {
        same_value,
        masked,
        origin,
        never_taken,
        never_armed,
    }
}

/// The verdict on the two by these executions, in which memory is 0 at first.
pub fn verdict(alloc: Global, atomic: bool, executions: &[Observed], pair: SitePair) -> Decided
    ensures fits { IfOk result (FitsFacts (facts_among atomic executions.now pair)) }
    ensures settled { IfOk result IsSettled }
{
    if some_happens(executions, pair, Event::Reported) {
        return Ok(Verdict::Reported);
    }
    if is_race(alloc, atomic, executions, pair)? {
        return Ok(Verdict::Missed(missed_why(executions, pair)));
    }
    if !some_two(alloc, Fact::AtOnce, executions, pair)? {
        return Ok(Verdict::Apart);
    }
    Ok(Verdict::NoRace(NoRaceWhy {
        both_marked: some_two(alloc, Fact::BothMarked(atomic), executions, pair)?,
        silenced: some_two(alloc, Fact::OneSilenced, executions, pair)?,
        other_bits: some_two(alloc, Fact::TrueRace(atomic), executions, pair)?,
    }))
}

/// Law: one settled verdict fits at most.
pub fn law_one_settled_verdict_fits()
    ensures { (atomic : Bool) (executions : List spec.Observed) (pair : SitePair) (one other : verdicts.Verdict)
        → IsSettled one → IsSettled other → FitsFacts (facts_among atomic executions pair) one
        → FitsFacts (facts_among atomic executions pair) other → one ≡ other }
{}
