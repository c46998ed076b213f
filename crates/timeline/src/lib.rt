//! The timeline of a trace.
#![tactic(auto)]

pub mod lengths;
pub mod picture;
pub mod texts;
