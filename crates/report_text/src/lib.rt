//! The texts that a run leaves: reports as KCSAN prints them, equal reports counted, and traces,
//! which a person who trusts neither the run nor its author can check.
#![tactic(auto)]

pub mod groups;
mod hex;
pub mod laws;
pub mod line;
pub mod memory;
pub mod pieces;
pub mod printed_reports;
pub mod report;
pub mod sink;
pub mod trace;
pub mod truth;

pub use groups::Groups;
pub use line::Line;
pub use memory::MemorySink;
pub use report::write_report;
pub use sink::{Sink, SinkFault, WriteError, write_all};
pub use trace::write_trace;
