//! In which order the tasks of a program are stepped.

pub mod entries;
pub mod schedule;

pub use schedule::{Entry, Schedule};
