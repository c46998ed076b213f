//! The picture of a trace, as text.
#![tactic(auto)]

mod cells;
mod lines;
mod rows;
mod watches;
mod write;

pub use cells::Style;
pub use write::{Details, write_detailed_picture, write_picture};
