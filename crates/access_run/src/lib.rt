//! One access of a task: its check, its operation on memory and its end.
#![tactic(auto)]

pub mod access;
pub mod completions;
pub mod laws;
pub mod memory_operation;
pub mod stage;
pub mod stamps;

pub use access::AccessRun;
pub use stamps::Stamps;
