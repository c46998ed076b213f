//! Why no task goes on: which task waits for which lock, where in the source, and who holds that.

pub mod calls;
pub mod explain;
pub mod lines;
pub mod output;
pub mod reached;
pub mod waits;

pub use explain::{deadlock_lines, stuck_lines};
pub use output::with_deadlocks;
