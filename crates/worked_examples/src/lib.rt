//! Definitions tried on examples that were worked out by hand.
#![tactic(auto)]

pub mod example_grammar;
pub mod example_traces;
