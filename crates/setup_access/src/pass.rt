//! `check_access`: an access is checked once. It looks for a watchpoint, and takes what it found or sets one up.

ghost use Rattle.std.specs.Prelude.{◌≡◌, ◌+◌, ◌≤◌, ◌↔◌, ◌∷◌, ℕ, List, None, Some, IsTrue, true, false};
ghost use Rattle.slot_table.specs.Answer.{Answers};
ghost use Rattle.slot_table.specs.declared.records.Record.{Record};
ghost use Rattle.setup_access.specs.Due.{given_now, pass_due, to_due};
ghost use Rattle.setup_access.specs.FallsAt.{GivesAt};
ghost use Rattle.setup_access.specs.Kept.{setting_with};
ghost use Rattle.setup_access.specs.Parts.{made};
ghost use Rattle.setup_access.specs.PassLeft.{Given, PassLeft, Samples, TurnLeft, pass_step};
ghost use Rattle.setup_access.specs.Setting as spec;
ghost use Rattle.setup_access.specs.Waiting.{Counts, pass_wait, to_wait, tries_of};
ghost use Rattle.access_types.specs.Sites.{AccessMap};

use crate::begun::Begun;
use crate::find::{Find, Sought};
use crate::found::{Found, found_watchpoint, took};
use crate::outcome::Outcome;
use crate::setting::Setting;
use crate::setup::{Setup, setup_watchpoint, watched};
use access_types::Sites;
use skip_sampler::Sampler;
use slot_table::{Answer, Step};

/// A check of an access under way.
#[derive(Clone, Copy, PartialEq, Eq)]
pub enum Pass {
    Find(Find),
    Found(Found),
    Setup(Setup),
    /// The verdict fell: empty the pair.
    Clear { index: usize },
    /// Give the index back.
    Remove { index: usize },
}

/// Where an answer leads a check.
#[derive(Clone, Copy)]
pub enum Next {
    Going(Pass),
    /// It is over, and has found a watchpoint or set one up.
    Settled,
    /// It is over, and has done neither.
    Unsettled,
}

/// Where an answer leads a check, and the outcome that it gives.
#[derive(Clone, Copy)]
pub struct Transition {
    pub(crate) outcome: Option<Outcome>,
    pub(crate) to: Next,
}

/// `check_access`, of an access that isn't silenced. One that found a watchpoint sets none up: its race is that watch's
/// to report. Which others are watched the sampler says: all that may be by default, where core.c has few.
#[inline(always)]
fn check_access(
    find: Find,
    setting: &Setting,
    sites: &Sites,
    sampler: &mut Sampler,
    begun: &Begun,
    answer: Answer,
) -> Transition
    requires { Answers (pass_step (setting_with setting.now sites.now) begun.now (Pass.Find find)) answer }
    ensures fits { given_now result.outcome + to_due result.to ≤ 1 }
    ensures waits { to_wait result.to ≡ None }
    ensures falls { let s = setting_with setting.now sites.now in GivesAt s begun.now.access result.outcome (made s.task (pass_step s begun.now (Pass.Find find)) answer) }
    ensures left { (asked : ℕ) → let s = setting_with setting.now sites.now in Samples s asked sampler.old → (asked_now : ℕ) × Samples s asked_now sampler.new
        × ((given : Given) (later rest : List Record) →
        PassLeft s begun.now (Pass.Find find) asked (made s.task (pass_step s begun.now (Pass.Find find)) answer ∷ later) given rest ↔ TurnLeft s begun.now result asked_now later given rest) }
{
    let Answer::Word(word) = answer else {
        unreachable!()
    };
    match find.answer(setting, &begun.access, word) {
        Sought::Going(find) => Transition::going(Pass::Find(find)),
        Sought::Found(found) => found_watchpoint(begun, found),
        Sought::Missed => {
            if !should_watch(setting, sites, sampler, begun) {
                return Transition::over(Outcome::Nothing, Next::Unsettled);
            }
            setup_watchpoint(setting, begun)
        }
    }
}

/// Whether the access is to be watched. That it counts as marked comes first, so that marked accesses, which
/// set nothing up, don't count as skipped.
#[inline(always)]
fn should_watch(setting: &Setting, sites: &Sites, sampler: &mut Sampler, begun: &Begun) -> bool
    ensures marked { begun.now.marked ≡ true → result ≡ false }
    ensures kept { begun.now.marked ≡ true → sampler.new ≡ sampler.old }
    ensures watched { (asked : ℕ) → begun.now.marked ≡ false → Samples (setting_with setting.now sites.now) asked sampler.old
        → (IsTrue result ↔ spec.IsWatched (setting_with setting.now sites.now) asked) }
    ensures asked { (asked : ℕ) → begun.now.marked ≡ false → Samples (setting_with setting.now sites.now) asked sampler.old
        → Samples (setting_with setting.now sites.now) (asked + 1) sampler.new }
{
    !begun.marked && sampler.should_watch()
}

impl Pass {
    #[inline(always)]
    pub(crate) fn next(self, setting: &Setting, begun: &Begun) -> Step
        ensures { (sites : AccessMap) → result ≡ pass_step (setting_with setting.now sites) begun.now self }
    {
        match self {
            Pass::Find(find) => find.next(setting, &begun.access),
            Pass::Found(found) => found.next(&begun.access),
            Pass::Setup(setup) => setup.next(setting, &begun.access),
            Pass::Clear { index } => Step::Clear(index),
            Pass::Remove { index } => Step::Remove(index),
        }
    }

    #[inline(always)]
    pub(crate) fn answer(
        self,
        setting: &Setting,
        sites: &Sites,
        sampler: &mut Sampler,
        begun: &Begun,
        answer: Answer,
    ) -> Transition
        requires { Answers (pass_step (setting_with setting.now sites.now) begun.now self) answer }
        ensures fits { given_now result.outcome + to_due result.to ≤ pass_due self }
        ensures waits { Counts (pass_wait self) (pass_step (setting_with setting.now sites.now) begun.now self) answer (to_wait result.to) }
        ensures falls { let s = setting_with setting.now sites.now in GivesAt s begun.now.access result.outcome (made s.task (pass_step s begun.now self) answer) }
        ensures left { (asked : ℕ) → let s = setting_with setting.now sites.now in Samples s asked sampler.old → (asked_now : ℕ) × Samples s asked_now sampler.new
            × ((given : Given) (later rest : List Record) →
            PassLeft s begun.now self asked (made s.task (pass_step s begun.now self) answer ∷ later) given rest ↔ TurnLeft s begun.now result asked_now later given rest) }
    {
        match self {
            Pass::Find(find) => check_access(find, setting, sites, sampler, begun, answer),
            Pass::Found(found) => took(found, begun, answer),
            Pass::Setup(setup) => watched(setup, setting, sites, begun, answer),
            Pass::Clear { index } => Transition::going(Pass::Remove { index }),
            Pass::Remove { .. } => Transition {
                outcome: None,
                to: Next::Settled,
            },
        }
    }

    /// How many tries of its wait failed, if it waits.
    #[inline(always)]
    pub(crate) fn tries(self) -> Option<u64>
        ensures { result ≡ tries_of (pass_wait self) }
    {
        match self {
            Pass::Found(Found::HearSetter { tries, .. })
            | Pass::Setup(Setup::HearFinder { tries, .. }) => Some(tries),
            _ => None,
        }
    }
}

impl Transition {
    #[inline(always)]
    pub(crate) fn going(pass: Pass) -> Transition
        ensures { result ≡ record { outcome = None; to = Next.Going pass } }
    {
        Transition {
            outcome: None,
            to: Next::Going(pass),
        }
    }

    #[inline(always)]
    pub(crate) fn over(outcome: Outcome, to: Next) -> Transition
        ensures { result ≡ record { outcome = Some outcome; to = to } }
    {
        Transition {
            outcome: Some(outcome),
            to,
        }
    }
}
