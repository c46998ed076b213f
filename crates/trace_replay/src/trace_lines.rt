//! The lines of a trace, read from the front of bytes.

mod fields;
pub mod head;
pub mod laws;
pub mod lines;

pub use head::{Head, Shape, read_head};
pub use lines::{read_end, read_line};
