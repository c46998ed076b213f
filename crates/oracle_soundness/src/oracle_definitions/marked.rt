//! Which accesses count as marked, and which are silenced.

ghost use Rattle.std.specs.Prelude.{◌≡◌, ◌<◌, ◌≤◌, ◌↔◌, [], ◌∷◌, ℕ, List, IsTrue, IfOk};
ghost use Rattle.std.specs.Prelude.{MatchOption, count_by, drop, length, take};
ghost use Rattle.access_types.specs.History.{History, beginning};
ghost use Rattle.access_types.specs.Marked.{CountedAsMarked, CountsAfter, EndsRaised, IsFlatOpen};
ghost use Rattle.access_types.specs.Marked.{IsWithinNext, Silenced, begins_countable};
ghost use Rattle.access_types.specs.Marked.{is_atomic_write, is_countable, is_disable, is_enable};
ghost use Rattle.access_types.specs.Marked.{is_flat, is_next};
ghost use Rattle.access_types.specs.Marked.{marks_of, next_mark};
ghost use Rattle.access_types.specs.declared.history.Happening.TheVariants as happenings;
ghost use Rattle.access_types.specs.declared.history.Mark.{Mark};
ghost use Rattle.access_types.specs.declared.history.Mark.TheVariants.{FlatBegin, Next};
ghost use Rattle.oracle_soundness.specs.oracle_definitions.Kinds.{is_of};

use crate::oracle_definitions::moments::begin;
use access_types::{Access, Happening, Kind, Mark, Moment, Operation};
use std::alloc::{AllocError, Global};

/// An answer, where memory suffices.
pub type Answer = Result<bool, AllocError>;

/// The mark of a task that a moment is, or none.
fn mark_of(moment: &Moment, task: u32) -> Option<Mark>
    ensures { MatchOption result (marks_of task (moment.now ∷ []) ≡ [])
        (λ mark. marks_of task (moment.now ∷ []) ≡ mark ∷ []) }
{
    match moment.happening {
        Happening::Mark(mark) if moment.task == task => Some(mark),
        _ => None,
    }
}

/// The marks of a task, in order.
fn marks_of(alloc: Global, history: &[Moment], task: u32) -> Result<Vec<Mark>, AllocError>
    ensures { IfOk result (λ marks. marks.items ≡ marks_of task history.now) }
{
    let mut marks = Vec::new(alloc);
    for moment in history {
        if let Some(mark) = mark_of(moment, task) {
            marks.push(mark)?;
        }
    }
    Ok(marks)
}

/// The kinds of marks that are counted.
#[derive(Clone, Copy)]
pub enum MarkKind {
    /// It turns reporting off.
    Disable,
    /// It turns it on again.
    Enable,
    /// It begins a nestable atomic region.
    NestOpen,
    /// It ends one.
    NestClose,
    /// It begins or ends the flat atomic region.
    Flat,
    /// It says how many of the next accesses count as marked.
    Next,
}

/// The mark is of the kind.
fn is_of(mark: Mark, kind: MarkKind) -> bool
    ensures { result ≡ is_of kind mark }
{
    match kind {
        MarkKind::Disable => matches!(mark, Mark::Disable),
        MarkKind::Enable => matches!(mark, Mark::Enable),
        MarkKind::NestOpen => matches!(mark, Mark::NestOpen),
        MarkKind::NestClose => matches!(mark, Mark::NestClose),
        MarkKind::Flat => matches!(mark, Mark::FlatBegin | Mark::FlatEnd),
        MarkKind::Next => matches!(mark, Mark::Next(_)),
    }
}

/// How many marks of the kind there are.
#[tactic(auto, using(std::proofs::lemmas::List::Sums::count_by_more_yes, std::proofs::lemmas::List::Sums::count_by_more_no))]
fn count_marks(marks: &[Mark], kind: MarkKind) -> usize
    ensures { result ≡ count_by (is_of kind) marks.now }
{
    let mut count = 0;
    for mark in marks {
        if is_of(*mark, kind) {
            count += 1;
        }
    }
    count
}

/// Some ending part has more of the one kind than of the other.
fn ends_raised(marks: &[Mark], raises: MarkKind, lowers: MarkKind) -> bool
    ensures { IsTrue result ↔ EndsRaised (is_of raises) (is_of lowers) marks.now }
{
    for from in 0..marks.len() {
        let end = &marks[from..];
        if count_marks(end, lowers) < count_marks(end, raises) {
            return true;
        }
    }
    false
}

/// The first is a flat begin, and no flat mark comes after it.
fn begins_last_flat(marks: &[Mark]) -> bool
    ensures { IsTrue result
        ↔ ((later : List Mark) × (marks.now ≡ FlatBegin ∷ later) × (count_by is_flat later ≡ 0)) }
{
    match marks.split_first() {
        Some((Mark::FlatBegin, later)) => count_marks(later, MarkKind::Flat) == 0,
        _ => false,
    }
}

/// The last flat mark is a begin.
fn is_flat_open(marks: &[Mark]) -> bool
    ensures { IsTrue result ↔ IsFlatOpen marks.now }
{
    for from in 0..marks.len() {
        if begins_last_flat(&marks[from..]) {
            return true;
        }
    }
    false
}

/// A write in one piece, where plain writes are assumed atomic.
fn is_atomic_write(atomic: bool, a: &Access) -> bool
    ensures { result ≡ is_atomic_write atomic a.now }
{
    let (addr, size) = (a.addr(), a.size());
    let writes = matches!(
        a.kind(),
        Kind::Plain(Operation::Write) | Kind::Marked(Operation::Write)
    );
    atomic && writes && 0 < size && size <= 8 && addr % size == 0
}

/// An access that a next-mark counts.
fn is_countable(atomic: bool, a: &Access) -> bool
    ensures { result ≡ is_countable atomic a.now }
{
    !a.kind().is_marked() && !a.kind().is_assertion() && !is_atomic_write(atomic, a)
}

/// The moment begins a countable access of the task.
fn begins_countable(atomic: bool, task: u32, moment: &Moment) -> bool
    ensures { result ≡ begins_countable atomic task moment.now }
{
    match moment.happening {
        Happening::Begin(a) => {
            moment.task == task && a.task() == task && is_countable(atomic, &a)
        }
        _ => false,
    }
}

/// How many of the moments begin a countable access of the task.
#[tactic(auto, using(std::proofs::lemmas::List::Sums::count_by_more_yes, std::proofs::lemmas::List::Sums::count_by_more_no))]
fn countable_begins(atomic: bool, task: u32, moments: &[Moment]) -> usize
    ensures { result ≡ count_by (begins_countable atomic task) moments.now }
{
    let mut count = 0;
    for moment in moments {
        if begins_countable(atomic, task, moment) {
            count += 1;
        }
    }
    count
}

/// The first moment is the task's last next-mark, and fewer countable accesses began since than it
/// says.
fn begins_last_next(alloc: Global, atomic: bool, task: u32, moments: &[Moment]) -> Answer
    ensures { IfOk result (λ answer. IsTrue answer ↔ ((count : ℕ) × (later : History)
        × (moments.now ≡ next_mark task count ∷ later)
        × (count_by is_next (marks_of task later) ≡ 0)
        × (count_by (begins_countable atomic task) later < count))) }
{
    let Some((first, later)) = moments.split_first() else {
        return Ok(false);
    };
    let Happening::Mark(Mark::Next(count)) = first.happening else {
        return Ok(false);
    };
    let marks = marks_of(alloc, later, task)?;
    let begun = countable_begins(atomic, task, later);
    Ok(first.task == task && count_marks(&marks, MarkKind::Next) == 0 && (begun as u64) < count)
}

/// The last next-mark of the task is near enough.
fn is_within_next(alloc: Global, atomic: bool, task: u32, moments: &[Moment]) -> Answer
    ensures { IfOk result (λ answer. IsTrue answer ↔ IsWithinNext atomic task moments.now) }
{
    for from in 0..moments.len() {
        if begins_last_next(alloc, atomic, task, &moments[from..])? {
            return Ok(true);
        }
    }
    Ok(false)
}

/// The moment begins the access.
fn is_begin(moment: &Moment, a: &Access) -> bool
    ensures { IsTrue result ↔ (moment.now ≡ beginning a.now) }
{
    let wanted = begin(*a);
    *moment == wanted
}

/// The first moment begins the access.
fn begins_here(moments: &[Moment], a: &Access) -> bool
    ensures { IsTrue result ↔ ((later : History) × (moments.now ≡ beginning a.now ∷ later)) }
{
    match moments.split_first() {
        Some((first, _)) => is_begin(first, a),
        None => false,
    }
}

/// The access begins after k moments, and is silenced then.
fn is_silenced_at(alloc: Global, history: &[Moment], a: &Access, k: usize) -> Answer
    requires { k ≤ length history.now }
    ensures { IfOk result (λ answer. IsTrue answer ↔ ((later : History)
        × (drop k history.now ≡ beginning a.now ∷ later)
        × EndsRaised is_disable is_enable (marks_of a.now.task (take k history.now)))) }
{
    let marks = marks_of(alloc, &history[..k], a.task())?;
    Ok(begins_here(&history[k..], a) && ends_raised(&marks, MarkKind::Disable, MarkKind::Enable))
}

/// The access is silenced.
pub fn silenced(alloc: Global, history: &[Moment], a: &Access) -> Answer
    ensures { IfOk result (λ answer. IsTrue answer ↔ Silenced history.now a.now) }
{
    for k in 0..history.len() {
        if is_silenced_at(alloc, history, a, k)? {
            return Ok(true);
        }
    }
    Ok(false)
}

/// The access counts as marked if these moments come before its begin.
fn counts_after(alloc: Global, atomic: bool, a: &Access, before: &[Moment]) -> Answer
    ensures { IfOk result (λ answer. IsTrue answer ↔ CountsAfter atomic a.now before.now) }
{
    if a.kind().is_marked() {
        return Ok(true);
    }
    if a.kind().is_assertion() {
        return Ok(false);
    }
    if is_atomic_write(atomic, a) {
        return Ok(true);
    }
    let marks = marks_of(alloc, before, a.task())?;
    let within_next = is_within_next(alloc, atomic, a.task(), before)?;
    let in_nest = ends_raised(&marks, MarkKind::NestOpen, MarkKind::NestClose);
    Ok(within_next || in_nest || is_flat_open(&marks))
}

/// The access begins after k moments, and counts as marked then.
fn counts_at(alloc: Global, atomic: bool, history: &[Moment], a: &Access, k: usize) -> Answer
    requires { k ≤ length history.now }
    ensures { IfOk result (λ answer. IsTrue answer ↔ ((later : History)
        × (drop k history.now ≡ beginning a.now ∷ later)
        × CountsAfter atomic a.now (take k history.now))) }
{
    let counts = counts_after(alloc, atomic, a, &history[..k])?;
    Ok(begins_here(&history[k..], a) && counts)
}

/// The access counts as marked.
pub fn counted_as_marked(alloc: Global, atomic: bool, history: &[Moment], a: &Access) -> Answer
    ensures { IfOk result (λ answer. IsTrue answer ↔ CountedAsMarked atomic history.now a.now) }
{
    for k in 0..history.len() {
        if counts_at(alloc, atomic, history, a, k)? {
            return Ok(true);
        }
    }
    Ok(false)
}
