//! The races of litmus files as one page of HTML, for people who would rather look.
#![tactic(auto)]

pub mod counts;
pub mod escape;
pub mod files;
pub mod laws;
pub mod listing;
pub mod looks;
pub mod marks;
pub mod page;
pub mod page_findings;
pub mod pairs;
pub mod sites;
pub mod values;
pub mod verdicts;

pub use page::page_bytes;
pub use values::{FileEnd, FileTold, Page, PairTold, RacesTold};
