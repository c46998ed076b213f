//! Which pairs of accesses of a program race, whether KCSAN can report them, and why not.
#![tactic(auto)]

pub mod conflicts;
pub mod found;
pub mod pair;
pub mod placed;
pub mod report;
pub mod verdict;

pub use conflicts::conflicting_pairs;
pub use pair::{SiteName, SitePair};
pub use placed::{PlacedSite, placed_sites};
pub use verdict::{HowMarked, MissedWhy, NoRaceWhy, PairFound, Verdict};
