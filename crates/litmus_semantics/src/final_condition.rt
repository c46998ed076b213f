//! Whether the condition of a litmus program holds where a run of it has ended.

pub mod condition;

pub use condition::{Finals, holds};
