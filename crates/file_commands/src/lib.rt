//! Commands over litmus files, over any desk: the check of files, their races, and searches of several. What a desk is,
//! why the program does not end well, and what a program is run under.
#![tactic(auto)]

pub mod advice;
pub mod check;
pub mod complaint;
pub mod desk;
pub mod failure;
pub mod files;
pub mod settings;
mod together;

pub use run_stats::Progress;
pub use search_output::SearchProgress;
