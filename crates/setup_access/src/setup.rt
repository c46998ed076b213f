//! `kcsan_setup_watchpoint`: no watchpoint matches the access, and it is watched itself.

ghost use Rattle.std.specs.Prelude.{◌≡◌, ◌+◌, ◌≤◌, ◌<◌, ◌↔◌, ◌∷◌, ℕ, IsTrue, List, None, Option, true, false};
ghost use Rattle.access_types.specs.Sites.{AccessMap};
ghost use Rattle.slot_table.specs.Answer.{Answers};
ghost use Rattle.slot_table.specs.declared.records.Record.{Record};
ghost use Rattle.setup_access.specs.Due.{given_now, to_due};
ghost use Rattle.setup_access.specs.FallsAt.{EndsLookUp, GivesAt, WatchingFalls};
ghost use Rattle.setup_access.specs.Kept.{setting_with};
ghost use Rattle.setup_access.specs.OldValue as olds;
ghost use Rattle.setup_access.specs.Parts.{SetupLeft, WatchingLeft, after_name, after_refusal, made, setup_step};
ghost use Rattle.slot_table.specs.index_order.Indices.{place_after, try_index};
ghost use Rattle.setup_access.specs.PassLeft.{Given, GoesOnGiven, PassLeft, TurnLeft};
ghost use Rattle.setup_access.specs.Setting as spec;
ghost use Rattle.setup_access.specs.Setup.{Judged};
ghost use Rattle.setup_access.specs.Waiting.{Counts, setup_wait, to_wait, watching_wait};
ghost use Rattle.setup_access.specs.Values as values;
ghost use Rattle.setup_access.specs.Verdicts.{HitOutcome, SharesByte, UntouchedOutcome};
ghost use Rattle.setup_access.specs.declared.outcome.Outcome.{Outcome};

use crate::begun::Begun;
use crate::outcome::Outcome;
use crate::pass::{Next, Pass, Transition};
use crate::setting::Setting;
use crate::source::Source;
use crate::values::{source_of, value_in};
use access_types::{Access, Sites, overlaps, ticket};
use slot::Pair;
use slot_table::index_order::ProbeIndex;
use slot_table::{Answer, Step, page_slot};
use value_filter::{Reason, Verdict, change, judge, seen_change};
use watch_word::encode_in;

/// An access that sets a watchpoint up and watches it.
#[derive(Clone, Copy, PartialEq, Eq)]
pub enum Setup {
    /// Try to insert the word.
    Insert {
        place: ProbeIndex,
        word: u64,
    },
    /// It stands: name the setter, for whoever takes it. Only now is the index its own.
    Name {
        index: usize,
    },
    /// Load the bytes, now that the word stands: whoever changes them from here on met it, or is seen by the change.
    /// All that is asked is whether two values differ.
    LoadOld {
        index: usize,
        source: Source,
    },
    /// Load them again. The stall stands between the two loads: it is the time in which others come.
    LoadNew {
        index: usize,
        source: Source,
        old: u64,
    },
    /// End the watch. It comes before the verdict, so that nobody takes the watchpoint after it, and is one
    /// exchange, so that a finder was in time or is too late, and nothing else.
    Consume {
        index: usize,
        values: Option<(u64, u64)>,
    },
    /// It was taken: wait until the finder has told who it is, since a report of a taken watch names both sides.
    HearFinder {
        index: usize,
        values: Option<(u64, u64)>,
        tries: u64,
    },
}

/// Where an answer leads an access that sets a watchpoint up.
#[derive(Clone, Copy)]
pub enum Watching {
    Going(Setup),
    /// No index was free. None is waited for: that would hold the task for the stall of another.
    Full,
    /// The verdict on the watch at this index.
    Judged { index: usize, outcome: Outcome },
}

/// `kcsan_setup_watchpoint`. The access is watched if a word can stand for it: a word that says less of it
/// would be met by the wrong ones.
#[inline(always)]
pub(crate) fn setup_watchpoint(setting: &Setting, begun: &Begun) -> Transition
    ensures fits { given_now result.outcome + to_due result.to ≤ 1 }
    ensures waits { to_wait result.to ≡ None }
    ensures falls { (s : spec.Setting) (last : Record) → EndsLookUp s begun.now.access None last
        → GivesAt s begun.now.access result.outcome last }
    ensures left { (sites : AccessMap) (asked : ℕ) (given : Given) (later rest : List Record) → let s = setting_with setting.now sites in
        begun.now.marked ≡ false → spec.IsWatched s asked → (GoesOnGiven s begun.now asked None later given rest ↔ TurnLeft s begun.now result (asked + 1) later given rest) }
{
    match encode_in(setting.rules.layout, &begun.access) {
        Some(word) => Transition::going(Pass::Setup(Setup::Insert {
            place: ProbeIndex::First,
            word,
        })),
        None => Transition::over(Outcome::Unencodable, Next::Unsettled),
    }
}

/// Of the two values that a watch has loaded the old one; 0 where it has loaded none.
fn first_of(values: Option<(u64, u64)>) -> u64
    ensures { result ≡ olds.first_of values }
{
    match values {
        Some((first, _)) => first,
        None => 0,
    }
}

impl Setup {
    /// The old value of the watch; 0 where none was loaded, or not yet.
    pub(crate) fn old_value(self) -> u64
        ensures { result ≡ olds.setup_old self }
    {
        match self {
            Setup::Insert { .. } | Setup::Name { .. } | Setup::LoadOld { .. } => 0,
            Setup::LoadNew { old, .. } => old,
            Setup::Consume { values, .. } | Setup::HearFinder { values, .. } => first_of(values),
        }
    }

    #[inline(always)]
    pub(crate) fn next(self, setting: &Setting, access: &Access) -> Step
        ensures { (sites : AccessMap) → result ≡ setup_step (setting_with setting.now sites) access.now self }
    {
        match self {
            Setup::Insert { place, word } => Step::Insert(index_of(place, setting, access), word),
            Setup::Name { index } => Step::Name(index, ticket(access)),
            Setup::LoadOld { source, .. } | Setup::LoadNew { source, .. } => {
                Step::CellLoad(source.cell)
            }
            Setup::Consume { index, .. } => Step::Consume(index),
            Setup::HearFinder { index, .. } => Step::PairLoad(index),
        }
    }

    #[inline(always)]
    pub(crate) fn answer(
        self,
        setting: &Setting,
        sites: &Sites,
        access: &Access,
        answer: Answer,
    ) -> Watching
        requires has_bytes { 0 < access.now.size }
        requires answers { Answers (setup_step (setting_with setting.now sites.now) access.now self) answer }
        ensures waits { Counts (setup_wait self) (setup_step (setting_with setting.now sites.now) access.now self) answer (watching_wait result) }
        ensures falls { let s = setting_with setting.now sites.now in WatchingFalls s access.now result (made s.task (setup_step s access.now self) answer) }
        ensures left { (judged : Option Judged) (later rest : List Record) → let s = setting_with setting.now sites.now in
            SetupLeft s access.now self (made s.task (setup_step s access.now self) answer ∷ later) judged rest ↔ WatchingLeft s access.now result later judged rest }
    {
        match (self, answer) {
            (Setup::Insert { place, word }, Answer::Flag(accepted)) => {
                inserted(setting, access, place, word, accepted)
            }
            (Setup::Name { index }, Answer::Done) => named(setting, access, index),
            (Setup::LoadOld { index, source }, Answer::Word(word)) => {
                let old = value_in(access, source, word);
                Watching::Going(Setup::LoadNew { index, source, old })
            }
            (Setup::LoadNew { index, source, old }, Answer::Word(word)) => {
                let new = value_in(access, source, word);
                Watching::Going(Setup::Consume {
                    index,
                    values: Some((old, new)),
                })
            }
            (Setup::Consume { index, values }, Answer::Flag(is_untouched)) => {
                consumed(setting, access, index, values, is_untouched)
            }
            (
                Setup::HearFinder {
                    index,
                    values,
                    tries,
                },
                Answer::Halves(setter, finder),
            ) => {
                if finder == 0 {
                    return Watching::Going(Setup::HearFinder {
                        index,
                        values,
                        tries: tries.saturating_add(1),
                    });
                }
                let outcome = hit(setting, sites, access, values, Pair::of(setter, finder));
                Watching::Judged { index, outcome }
            }
            _ => unreachable!(),
        }
    }
}

#[inline(always)]
fn index_of(place: ProbeIndex, setting: &Setting, access: &Access) -> usize
    ensures { (sites : AccessMap) → result ≡ try_index place (spec.slot_of (setting_with setting.now sites) access.now) }
{
    place.of_insertion(page_slot(access.addr(), setting.rules.slots))
}

/// An index was tried. Refused, it is occupied, and the next one is tried: as in core.c its neighbours stand in.
#[inline(always)]
fn inserted(
    setting: &Setting,
    access: &Access,
    place: ProbeIndex,
    word: u64,
    accepted: bool,
) -> Watching
    ensures accepted { (sites : AccessMap) → accepted ≡ true → result ≡ Watching.Going (Setup.Name (try_index place (spec.slot_of (setting_with setting.now sites) access.now))) }
    ensures refused { accepted ≡ false → result ≡ after_refusal word (place_after place) }
{
    if accepted {
        let index = index_of(place, setting, access);
        return Watching::Going(Setup::Name { index });
    }
    match place.after() {
        Some(place) => Watching::Going(Setup::Insert { place, word }),
        None => Watching::Full,
    }
}

/// The setter has named itself. It loads its value, if it has one; else only who takes the word tells of a race.
#[inline(always)]
fn named(setting: &Setting, access: &Access, index: usize) -> Watching
    requires { 0 < access.now.size }
    ensures { (sites : AccessMap) → result ≡ Watching.Going (after_name index (values.source_of (setting_with setting.now sites) access.now)) }
{
    match source_of(setting, access) {
        Some(source) => Watching::Going(Setup::LoadOld { index, source }),
        None => Watching::Going(Setup::Consume {
            index,
            values: None,
        }),
    }
}

/// The setter has consumed its word. If nobody had hit it nobody will, so the verdict falls at once.
#[inline(always)]
fn consumed(
    setting: &Setting,
    access: &Access,
    index: usize,
    values: Option<(u64, u64)>,
    is_untouched: bool,
) -> Watching
    ensures untouched { (sites : AccessMap) → is_untouched ≡ true → (outcome : Outcome) × UntouchedOutcome (setting_with setting.now sites) access.now values outcome × (result ≡ Watching.Judged index outcome) }
    ensures hit { is_untouched ≡ false → result ≡ Watching.Going (Setup.HearFinder index values 0) }
{
    if is_untouched {
        let outcome = untouched(setting, access, values);
        return Watching::Judged { index, outcome };
    }
    Watching::Going(Setup::HearFinder {
        index,
        values,
        tries: 0,
    })
}

/// Where its step leads the check. After the verdict the pair is emptied, while the index is still its own, so
/// that the next setter there finds nobody named. The word goes last: from then on the index is another's.
#[inline(always)]
pub(crate) fn watched(
    setup: Setup,
    setting: &Setting,
    sites: &Sites,
    begun: &Begun,
    answer: Answer,
) -> Transition
    requires { Answers (setup_step (setting_with setting.now sites.now) begun.now.access setup) answer }
    ensures fits { given_now result.outcome + to_due result.to ≤ 1 }
    ensures waits { Counts (setup_wait setup) (setup_step (setting_with setting.now sites.now) begun.now.access setup) answer (to_wait result.to) }
    ensures falls { let s = setting_with setting.now sites.now in GivesAt s begun.now.access result.outcome (made s.task (setup_step s begun.now.access setup) answer) }
    ensures left { (asked : ℕ) (given : Given) (later rest : List Record) → let s = setting_with setting.now sites.now in
        PassLeft s begun.now (Pass.Setup setup) asked (made s.task (setup_step s begun.now.access setup) answer ∷ later) given rest ↔ TurnLeft s begun.now result asked later given rest }
{
    match setup.answer(setting, sites, &begun.access, answer) {
        Watching::Going(setup) => Transition::going(Pass::Setup(setup)),
        Watching::Full => Transition::over(Outcome::Capacity, Next::Unsettled),
        Watching::Judged { index, outcome } => {
            Transition::over(outcome, Next::Going(Pass::Clear { index }))
        }
    }
}

/// Nobody hit the watchpoint. A change that was seen has an unknown origin: whoever made it had looked too early,
/// had ended its look-up at another watchpoint, or looks nothing up.
#[inline(always)]
fn untouched(setting: &Setting, access: &Access, values: Option<(u64, u64)>) -> Outcome
    ensures { (sites : AccessMap) → UntouchedOutcome (setting_with setting.now sites) access.now values result }
{
    let change = change(access, values);
    let verdict = judge(change, access, false, setting.rules.value_change_only);
    match verdict {
        Verdict::Report => match values {
            Some((old, new)) => Outcome::Unknown { old, new },
            None => unreachable!(),
        },
        Verdict::Drop(_) => unreachable!(),
        Verdict::Quiet => Outcome::Quiet,
    }
}

/// An access hit the watchpoint, by the ticket that was heard. If the two share no byte, only their words
/// met, and that is no race: so it comes before all other verdicts.
#[inline(always)]
fn hit(
    setting: &Setting,
    sites: &Sites,
    access: &Access,
    values: Option<(u64, u64)>,
    pair: Pair,
) -> Outcome
    ensures { HitOutcome (setting_with setting.now sites.now) access.now values pair result }
{
    if !shares_byte(sites, access, pair.halves().1) {
        return Outcome::Dropped(Reason::Encoding);
    }
    let change = change(access, values);
    match judge(change, access, true, setting.rules.value_change_only) {
        Verdict::Drop(reason) => Outcome::Dropped(reason),
        Verdict::Report => Outcome::Report {
            pair,
            seen: seen_change(change, values),
        },
        Verdict::Quiet => unreachable!(),
    }
}

/// Whether the ticket names an access that shares a byte with the setter's. The true ranges are compared,
/// and not what words have of them.
#[inline(always)]
fn shares_byte(sites: &Sites, access: &Access, ticket: u32) -> bool
    ensures { IsTrue result ↔ SharesByte sites.now access.now ticket }
{
    match sites.get(ticket) {
        Some(finder) => overlaps(access, finder),
        None => false,
    }
}
