//! What a run that has ended writes as its trace is true.
#![tactic(auto)]

pub mod laws;
