//! What is said of a pair of sites.

use crate::pair::SitePair;
use prepared_program::step_schedule::Entry;

/// The verdict on a pair of sites whose accesses conflict.
#[derive(Clone, Copy, Debug, PartialEq, Eq)]
pub enum Verdict {
    /// KCSAN reports the two in some execution.
    Reported,
    /// They race in some execution, and KCSAN reports them in none.
    Missed(MissedWhy),
    /// They race in some execution, and the search was stopped before KCSAN reported them.
    Race(MissedWhy),
    /// They are in progress at one moment of some execution, and race in none.
    NoRace(NoRaceWhy),
    /// They are never in progress at one moment.
    Apart,
    /// The search was stopped before this was settled.
    NotSettled,
}

/// Why accesses that are in progress at one moment are no race: each that some execution shows.
#[derive(Clone, Copy, Debug, PartialEq, Eq)]
pub struct NoRaceWhy {
    /// Both count as marked.
    pub both_marked: bool,
    /// One of them is silenced.
    pub silenced: bool,
    /// One is an assertion with a mask, and no write of the other changes a bit of it.
    pub other_bits: bool,
}

/// Why KCSAN doesn't report a race: each that some execution shows.
#[derive(Clone, Copy, Debug, PartialEq, Eq)]
pub struct MissedWhy {
    /// A watchpoint of the one was taken by the other, and the value was the same.
    pub same_value: bool,
    /// A watchpoint of the one was taken by the other, and no bit of the mask changed.
    pub masked: bool,
    /// One of them is named by a report of unknown origin.
    pub origin: bool,
    /// None of these is, and no watchpoint of the one is ever taken by the other.
    pub never_taken: bool,
    /// None of these is, and no watchpoint is ever set up for either.
    pub never_armed: bool,
}

/// What is said of a pair of sites whose accesses conflict.
#[derive(Drop)]
pub struct PairFound {
    pub pair: SitePair,
    pub verdict: Verdict,
    /// A schedule that shows it, up to the step that does: the first of those with the fewest preemptions. None where
    /// the accesses are never in progress at one moment.
    pub schedule: Option<Vec<Entry>>,
}

/// How an access counts as marked.
#[derive(Clone, Copy)]
pub enum HowMarked {
    /// It is declared marked, as `READ_ONCE()` is.
    Form,
    /// It is a plain write that the machine makes in one piece, where these count as marked.
    AlignedWrite,
    /// It stands in an atomic region, or is one of those that `kcsan_atomic_next()` counts.
    RegionOrNext,
}
