//! What is written of a run: its reports, what became of its checks, and whether its condition held; and its trace.
#![tactic(auto)]

pub mod error;
pub mod finals;
pub mod lines;
mod masks;
pub mod output;
pub mod trace;
pub mod written;

pub use error::EngineError;
pub use finals::{End, end_of, found_of};
pub use lines::{write_condition, write_counters, write_stuck};
pub use output::{RunFindings, output_of, write_output};
pub use trace::{trace_if, trace_of};
pub use written::Written;
