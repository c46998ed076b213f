//! The colours of the text that goes to a terminal.

pub mod laws;
pub mod lines;

pub use lines::colored;
