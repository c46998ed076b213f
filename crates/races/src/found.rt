//! What was found of a pair of sites, and the verdict on it.

ghost use Rattle.std.specs.Prelude.{◌↔◌, IsTrue};
ghost use Rattle.executions.specs.execution.Run.{Run};
ghost use Rattle.races.specs.Found.{IsUnwatchedOf, IsWatchedOf};
ghost use Rattle.races.specs.Shown.{AreTrueRace, SomeShows};
ghost use Rattle.races.specs.Verdicts.{Fits, IsReported, IsSettled};
ghost use Rattle.races.specs.declared.pair.SitePair.{SitePair};

use crate::verdict::{MissedWhy, NoRaceWhy, Verdict};

/// What some execution shows of accesses at the two sites that are in progress at one moment.
#[derive(Clone, Copy)]
pub struct PairShown {
    /// That they conflict.
    pub at_once: bool,
    /// That both count as marked.
    pub both_marked: bool,
    /// That one is silenced.
    pub silenced: bool,
    /// That they are a true race.
    pub true_race: bool,
}

/// What was found of a pair where nothing is watched.
#[derive(Clone, Copy)]
pub struct Unwatched {
    pub shown: PairShown,
    /// Whether they are a race: a true race, in which a mask of either is broken by the other.
    pub race: bool,
    /// Whether all states were visited.
    pub settled: bool,
}

/// What was found of a pair where accesses are watched.
#[derive(Clone, Copy)]
pub struct Watched {
    /// Whether it is reported.
    pub reported: bool,
    /// Whether it is known of each reason that it holds or doesn't.
    pub settled: bool,
    pub why: MissedWhy,
}

/// Whether it isn't known of a true race whether it is reported.
fn is_open(true_race: bool, watched: Watched) -> bool
    ensures { IsTrue result ↔ (IsTrue true_race × (¬ IsTrue watched.settled)) }
{
    true_race && !watched.settled
}

/// The verdict on a pair by what was found.
pub fn verdict_of(unwatched: Unwatched, watched: Watched) -> Verdict
    ensures fits { (run : Run) → (pair : SitePair) → IsUnwatchedOf run pair unwatched → IsWatchedOf run pair watched
        → (IsReported run pair → SomeShows run (AreTrueRace run pair)) → Fits run pair result }
    ensures settled { IsTrue unwatched.settled → IsTrue watched.settled → IsSettled result }
{
    let shown = unwatched.shown;
    if watched.reported {
        return Verdict::Reported;
    }
    if unwatched.race {
        return if watched.settled {
            Verdict::Missed(watched.why)
        } else {
            Verdict::Race(watched.why)
        };
    }
    if !unwatched.settled {
        return Verdict::NotSettled;
    }
    if is_open(shown.true_race, watched) {
        return Verdict::NotSettled;
    }
    if shown.at_once {
        return Verdict::NoRace(NoRaceWhy {
            both_marked: shown.both_marked,
            silenced: shown.silenced,
            other_bits: shown.true_race,
        });
    }
    Verdict::Apart
}
