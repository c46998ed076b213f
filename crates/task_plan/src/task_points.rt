//! The points on a task's way at which a gate or a stall may stand: what its last step was, and what its next is.

mod points;

pub use points::{After, Before, Latest};
