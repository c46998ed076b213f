//! Executions of a litmus program: the lists of steps that its tasks can make on the words that they share, how long
//! these are, and what they tell. No code.
#![tactic(auto)]

pub mod execution;
pub mod observation_determinism;
pub mod step_bounds;
pub mod timestamp_irrelevance;
