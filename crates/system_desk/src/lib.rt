//! The system as the program meets it: its words, its desk of files and streams, and whether colors are shown.
#![tactic(auto)]

pub mod color;
mod locale;
pub mod system;
mod unread;
mod whole_file;
pub mod words;
