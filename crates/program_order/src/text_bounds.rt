//! How far a task's text goes, at most: how often the counts of its context rise, and how many scoped assertions
//! are in force at one moment. No code.

pub mod laws;
