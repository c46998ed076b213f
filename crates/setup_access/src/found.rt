//! `kcsan_found_watchpoint`: a watchpoint of another task matches the access.

ghost use Rattle.std.specs.Prelude.{◌≡◌, ◌+◌, ◌-◌, ◌^◌, ◌<◌, ◌≤◌, ◌↔◌, ◌∷◌, ℕ, List, None, Some, if◌then◌else◌, min};
ghost use Rattle.slot_table.specs.Answer.{Answers};
ghost use Rattle.slot_table.specs.declared.records.Record.{Record};
ghost use Rattle.setup_access.specs.Due.{given_now, to_due};
ghost use Rattle.setup_access.specs.FallsAt.{EndsLookUp, GivesAt, TakingFalls};
ghost use Rattle.setup_access.specs.Parts.{FoundLeft, TakingLeft, found_step, made};
ghost use Rattle.setup_access.specs.PassLeft.{Given, GoesOnGiven, PassLeft, TurnLeft};
ghost use Rattle.setup_access.specs.Setting as spec;
ghost use Rattle.setup_access.specs.Waiting.{Counts, found_wait, taking_wait, to_wait};
ghost use Rattle.setup_access.specs.declared.outcome.Outcome.{Outcome};

use crate::begun::Begun;
use crate::outcome::{Outcome, Watchpoint};
use crate::pass::{Next, Pass, Transition};
use access_types::{Access, ticket};
use slot::Pair;
use slot_table::{Answer, Step};

/// An access that takes a watchpoint.
#[derive(Clone, Copy, PartialEq, Eq)]
pub enum Found {
    /// Take it, if the word that was read stands at its index: so one access alone takes an arming. Where that word was
    /// removed and inserted anew since, the try takes whichever arming has that word now.
    TryConsume(Watchpoint),
    /// It is taken: wait until its setter has named itself, which it does after its insertion, so that both
    /// sides have one pair.
    HearSetter { index: usize, tries: u64 },
    /// Tell this setter who took it. It comes after the taking, since only who took it may write here.
    Tell { index: usize, setter: u32 },
}

/// Where an answer leads an access that takes a watchpoint.
#[derive(Clone, Copy)]
pub enum Taking {
    Going(Found),
    Over(Outcome),
}

/// `kcsan_found_watchpoint`. An access with a mask takes nothing: which of its bits change only its own watch
/// could tell, and the setter knows of no mask.
#[inline(always)]
pub(crate) fn found_watchpoint(begun: &Begun, found: Watchpoint) -> Transition
    ensures fits { given_now result.outcome + to_due result.to ≤ 1 }
    ensures waits { to_wait result.to ≡ None }
    ensures falls { (s : spec.Setting) (last : Record) → EndsLookUp s begun.now.access (Some found) last
        → GivesAt s begun.now.access result.outcome last }
    ensures left { (s : spec.Setting) (asked : ℕ) (given : Given) (later rest : List Record) →
        GoesOnGiven s begun.now asked (Some found) later given rest ↔ TurnLeft s begun.now result asked later given rest }
{
    if begun.access.mask().is_some() {
        return Transition::over(Outcome::Nothing, Next::Settled);
    }
    Transition::going(Pass::Found(Found::TryConsume(found)))
}

impl Found {
    #[inline(always)]
    pub(crate) fn next(self, access: &Access) -> Step
        ensures { result ≡ found_step access.now self }
    {
        match self {
            Found::TryConsume(found) => Step::TryConsume(found.index, found.word),
            Found::HearSetter { index, .. } => Step::PairLoad(index),
            Found::Tell { index, .. } => Step::Tell(index, ticket(access)),
        }
    }

    #[inline(always)]
    pub(crate) fn answer(self, access: &Access, answer: Answer) -> Taking
        requires { Answers (found_step access.now self) answer }
        ensures waits { Counts (found_wait self) (found_step access.now self) answer (taking_wait result) }
        ensures falls { (s : spec.Setting) → TakingFalls s access.now result (made s.task (found_step access.now self) answer) }
        ensures left { (s : spec.Setting) (outcome : Outcome) (later rest : List Record) →
            FoundLeft s access.now self (made s.task (found_step access.now self) answer ∷ later) outcome rest ↔ TakingLeft s access.now result later outcome rest }
    {
        match (self, answer) {
            (Found::TryConsume(found), Answer::Flag(taken)) => tried(found, taken),
            (Found::HearSetter { index, tries }, Answer::Halves(setter, _)) => {
                heard_setter(index, tries, setter)
            }
            (Found::Tell { setter, .. }, Answer::Done) => Taking::Over(Outcome::Told {
                pair: Pair::of(setter, ticket(access)),
            }),
            _ => unreachable!(),
        }
    }
}

/// It was tried. Refused, another access was first, or the watch was over: neither is this one's to tell.
#[inline(always)]
fn tried(found: Watchpoint, taken: bool) -> Taking
    ensures { result ≡ (if taken then Taking.Going (Found.HearSetter found.index 0) else Taking.Over Outcome.Lost) }
{
    if !taken {
        return Taking::Over(Outcome::Lost);
    }
    Taking::Going(Found::HearSetter {
        index: found.index,
        tries: 0,
    })
}

/// The pair was loaded. A half of 0 isn't the setter's yet, who names itself right after its insertion.
#[inline(always)]
fn heard_setter(index: usize, tries: u64, setter: u32) -> Taking
    ensures failed { setter ≡ 0 → result ≡ Taking.Going (Found.HearSetter index (min (tries + 1) (2 ^ 64 - 1))) }
    ensures stands { 0 < setter → result ≡ Taking.Going (Found.Tell index setter) }
{
    if setter == 0 {
        return Taking::Going(Found::HearSetter {
            index,
            tries: tries.saturating_add(1),
        });
    }
    Taking::Going(Found::Tell { index, setter })
}

/// Where its step leads the check. A finder that has told goes on at once: the setter knows whether the bytes
/// changed, and reports.
#[inline(always)]
pub(crate) fn took(found: Found, begun: &Begun, answer: Answer) -> Transition
    requires { Answers (found_step begun.now.access found) answer }
    ensures fits { given_now result.outcome + to_due result.to ≤ 1 }
    ensures waits { Counts (found_wait found) (found_step begun.now.access found) answer (to_wait result.to) }
    ensures falls { (s : spec.Setting) → GivesAt s begun.now.access result.outcome (made s.task (found_step begun.now.access found) answer) }
    ensures left { (s : spec.Setting) (asked : ℕ) (given : Given) (later rest : List Record) →
        PassLeft s begun.now (Pass.Found found) asked (made s.task (found_step begun.now.access found) answer ∷ later) given rest ↔ TurnLeft s begun.now result asked later given rest }
{
    match found.answer(&begun.access, answer) {
        Taking::Going(found) => Transition::going(Pass::Found(found)),
        Taking::Over(outcome) => Transition::over(outcome, Next::Settled),
    }
}
