//! What results of a litmus file are written with: texts and objects of JSON that are built piece by piece, where the
//! sites of a program stand in its text, its variables, schedules and settings, and how many files have which verdict.
#![tactic(auto)]

pub mod file_counts;
pub mod objects;
pub mod spots;
pub mod texts;
pub mod values;
pub mod variables;

pub use file_counts::FileCounts;
pub use objects::{ObjectBuilder, add_item};
pub use texts::{TextBuilder, add_text};
