//! A slow plain program beside the definition of what a text means: it walks a text, statement by statement, with
//! values given for its reads, and says what the task does and what its registers hold then. `test_texts` runs
//! it on worked programs.

pub mod access;
pub mod call;
pub mod count;
pub mod load;
pub mod store;
pub mod text;
pub mod walk;

pub use text::means;
pub use walk::{Given, NoMeaning, Walk};
