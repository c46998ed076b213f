//! What executions show of two accesses at the sites of a pair.

ghost use Rattle.std.specs.Prelude.{◌↔◌, IfOk, IsTrue};
ghost use Rattle.oracle_soundness.specs.oracle_races.Searched.{Holds};
ghost use Rattle.oracle_soundness.specs.oracle_races.Shown.{AreAtOnce, HasTwo, SomeAt, SomeTwo};

use crate::oracle_definitions::marked::Answer;
use crate::oracle_definitions::race::{both_count, go_together, is_one_silenced, true_race};
use crate::oracle_races::masks::{breaks_mask, is_at};
use crate::oracle_races::observed::Observed;
use access_types::{Access, Happening, Moment, conflicts};
use races::{SiteName, SitePair};
use std::alloc::Global;

/// What may hold of two accesses in an execution. Where marks decide it says whether plain writes are assumed atomic.
#[derive(Clone, Copy)]
pub enum Fact {
    /// They conflict, and are in progress at one moment.
    AtOnce,
    /// They are at once, and both count as marked.
    BothMarked(bool),
    /// They are at once, and one of them is silenced.
    OneSilenced,
    /// They are a true race, whatever masks they have.
    TrueRace(bool),
    /// They are a true race that breaks the mask of each. Of each site it is said whether accesses there never write.
    Race(bool, bool, bool),
}

/// The two conflict, and are in progress at one moment.
fn are_at_once(history: &[Moment], a: &Access, b: &Access) -> bool
    ensures { IsTrue result ↔ AreAtOnce history.now a.now b.now }
{
    conflicts(a, b) && go_together(history, a, b)
}

/// The fact holds of the two.
fn holds(alloc: Global, fact: Fact, history: &[Moment], a: &Access, b: &Access) -> Answer
    ensures { IfOk result (λ yes. IsTrue yes ↔ Holds fact history.now a.now b.now) }
{
    let at_once = are_at_once(history, a, b);
    match fact {
        Fact::AtOnce => Ok(at_once),
        Fact::BothMarked(atomic) => Ok(both_count(alloc, atomic, history, a, b)? && at_once),
        Fact::OneSilenced => Ok(is_one_silenced(alloc, history, a, b)? && at_once),
        Fact::TrueRace(atomic) => true_race(alloc, atomic, history, a, b),
        Fact::Race(atomic, a_never, b_never) => {
            let broken = breaks_mask(history, a, b, b_never) && breaks_mask(history, b, a, a_never);
            Ok(true_race(alloc, atomic, history, a, b)? && broken)
        }
    }
}

/// It holds of the first access and some access at the site.
fn has_second(alloc: Global, fact: Fact, history: &[Moment], a: &Access, at: SiteName) -> Answer
    ensures { IfOk result (λ yes. IsTrue yes ↔ SomeAt at (Holds fact history.now a.now)) }
{
    for moment in history {
        if let Happening::Begin(b) = moment.happening {
            if is_at(&b, at) && holds(alloc, fact, history, a, &b)? {
                return Ok(true);
            }
        }
    }
    Ok(false)
}

/// It holds of some two accesses at the sites.
fn has_two(alloc: Global, fact: Fact, history: &[Moment], pair: SitePair) -> Answer
    ensures { IfOk result (λ yes. IsTrue yes ↔ HasTwo pair (Holds fact history.now)) }
{
    for moment in history {
        if let Happening::Begin(a) = moment.happening {
            if is_at(&a, pair.first) && has_second(alloc, fact, history, &a, pair.second)? {
                return Ok(true);
            }
        }
    }
    Ok(false)
}

/// It holds of some two accesses at the sites in one of the executions.
pub fn some_two(alloc: Global, fact: Fact, executions: &[Observed], pair: SitePair) -> Answer
    ensures { IfOk result (λ yes. IsTrue yes ↔ SomeTwo executions.now pair (Holds fact)) }
{
    for told in executions {
        if has_two(alloc, fact, &told.history, pair)? {
            return Ok(true);
        }
    }
    Ok(false)
}
