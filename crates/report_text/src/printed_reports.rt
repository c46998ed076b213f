//! Which reports are printed.

pub mod laws;
pub mod printed;
pub mod texts;

pub use printed::printed_reports;
pub use texts::is_hidden_text;
