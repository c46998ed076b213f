//! Where a task stands in its text, what it is about to do at a statement, and what it keeps of what it did: the access
//! that a statement makes, what follows on it, its registers, counts and locks.
#![tactic(auto)]

mod block;
pub mod count;
pub mod due;
pub mod follow;
pub mod laws;
pub mod locks;
mod places;
pub mod plan;
pub mod progress;
pub mod task_laws;
pub mod task_points;
pub mod uses;
pub mod walk;

pub use due::Due;
pub use follow::{Taker, Then};
pub use locks::{is_lock_at, lock_number};
pub use plan::{Plan, Planner, load_in};
pub use progress::Progress;
pub use walk::Walk;
