//! Which accesses are in progress at one moment, and which race.

ghost use Rattle.std.specs.Prelude.{◌≤◌, ◌↔◌, ◌⊎◌, ℕ, Contains, IsTrue, IfOk, length};
ghost use Rattle.access_types.specs.History.{InProgress};
ghost use Rattle.access_types.specs.Marked.{CountedAsMarked, Silenced};
ghost use Rattle.access_types.specs.Race.{TrueRace};

use crate::oracle_definitions::marked::{Answer, counted_as_marked, silenced};
use crate::oracle_definitions::moments::{begin, end};
use access_types::{Access, Moment, conflicts};
use std::alloc::Global;

/// The access has begun after k moments and not ended.
pub fn in_progress(history: &[Moment], access: &Access, k: usize) -> bool
    requires { k ≤ length history.now }
    ensures { IsTrue result ↔ InProgress history.now access.now k }
{
    let past = &history[..k];
    happened(past, &begin(*access)) && !happened(past, &end(*access))
}

/// The moment is among those.
fn happened(past: &[Moment], moment: &Moment) -> bool
    ensures { IsTrue result ↔ Contains past.now moment.now }
{
    past.contains(moment)
}

/// Both are in progress after k moments.
fn both_in_progress(history: &[Moment], s: &Access, f: &Access, k: usize) -> bool
    requires { k ≤ length history.now }
    ensures { IsTrue result ↔ (InProgress history.now s.now k × InProgress history.now f.now k) }
{
    in_progress(history, s, k) && in_progress(history, f, k)
}

/// At some moment both are in progress.
pub fn go_together(history: &[Moment], s: &Access, f: &Access) -> bool
    ensures { IsTrue result
        ↔ ((k : ℕ) × (InProgress history.now s.now k × InProgress history.now f.now k)) }
{
    for k in 0..history.len() + 1 {
        if both_in_progress(history, s, f, k) {
            return true;
        }
    }
    false
}

/// Both count as marked.
pub fn both_count(alloc: Global, atomic: bool, history: &[Moment], s: &Access, f: &Access) -> Answer
    ensures { IfOk result
        (λ answer. IsTrue answer
        ↔ (CountedAsMarked atomic history.now s.now × CountedAsMarked atomic history.now f.now)) }
{
    let first = counted_as_marked(alloc, atomic, history, s)?;
    let second = counted_as_marked(alloc, atomic, history, f)?;
    Ok(first && second)
}

/// One of the two is silenced.
pub fn is_one_silenced(alloc: Global, history: &[Moment], s: &Access, f: &Access) -> Answer
    ensures { IfOk result (λ answer. IsTrue answer ↔ (Silenced history.now s.now ⊎ Silenced history.now f.now)) }
{
    let first = silenced(alloc, history, s)?;
    let second = silenced(alloc, history, f)?;
    Ok(first || second)
}

/// The two race.
pub fn true_race(alloc: Global, atomic: bool, history: &[Moment], s: &Access, f: &Access) -> Answer
    ensures { IfOk result (λ answer. IsTrue answer ↔ TrueRace atomic history.now s.now f.now) }
{
    if s.task() == f.task() || !conflicts(s, f) {
        return Ok(false);
    }
    if both_count(alloc, atomic, history, s, f)? || is_one_silenced(alloc, history, s, f)? {
        return Ok(false);
    }
    Ok(go_together(history, s, f))
}
