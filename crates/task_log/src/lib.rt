//! What a task keeps of its steps: its accesses with their stamps, its armings and takings, what is
//! reported, and how often each thing came of a check.
#![tactic(auto)]

pub mod armings;
pub mod counters;
pub mod latest;
pub mod log;
pub mod noted;
pub mod touches;

pub use counters::Counters;
pub use log::TaskLog;
pub use noted::Noted;
