//! What is kept of the steps of a run: just what its list tells, where a task's machine stands by the task's records,
//! and how many outcomes, accesses, armings, takings and reports there are, at most and exactly.
#![tactic(auto)]

pub mod accesses;
pub mod bags;
pub mod bounds;
pub mod lengths;
pub mod logs;
pub mod reports;
pub mod standing;
pub mod watched;
