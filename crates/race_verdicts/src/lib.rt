//! Which pairs of accesses of a program race, whether KCSAN can report them, and why not.
#![tactic(auto)]

pub mod bare;
pub mod find;
pub mod firsts;
pub mod missed;
pub mod schedules;
pub mod shown;
pub mod wanted;
pub mod watched;

pub use find::{RacesFound, find_races};
pub use wanted::RacesWanted;
