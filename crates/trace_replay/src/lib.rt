//! Traces are checked, for a person who trusts neither the run that wrote them nor its author.
#![tactic(auto)]

mod accepted;
mod accesses;
mod armings;
mod counts;
pub mod laws;
mod pass;
mod story;
mod table;
mod told;
pub mod trace_lines;

pub use accepted::{Accepted, TraceError};
pub use pass::{SIZE_LIMIT, replay};
