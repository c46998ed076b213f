//! Litmus programs, printed.
#![tactic(auto)]

mod expression;
mod program;
mod scope;
mod statement;

pub use program::{append_condition, print};
