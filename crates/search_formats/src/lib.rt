//! The program of one litmus file, searched, and what is found of it: as text, as JSON, as a row of CSV, or as herd7
//! writes its log.
#![tactic(auto)]

pub mod file;
pub mod herd;
pub mod pairs;
pub mod refusal;
pub mod rows;
pub mod several;
pub mod wanted;

pub use file::search_file;
pub use output_pieces::FileCounts;
pub use refusal::{Refusal, refused_text};
pub use several::{heading, last_line};
pub use wanted::{FileSearched, FileWanted, Format, Preemptions};
