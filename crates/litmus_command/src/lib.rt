//! The command line of `kcsan_litmus` over any desk: what is asked, the run of a litmus text, the search over its
//! schedules, the check of a trace, its picture, and what is written of them.
#![tactic(auto)]

mod additions;
pub mod command;
pub mod engine;
mod overwrite;
pub mod replay;
mod search;
pub mod show;

pub use diagnostics::check_output::Lines;
pub use file_commands::complaint::Complaint;
pub use file_commands::desk::{Desk, ReadFault};
pub use file_commands::failure::{OUT_OF_MEMORY, UNREADABLE, USAGE};
pub use file_commands::{Progress, SearchProgress};
pub use run_output::EngineError;
