//! What to write in the place of what is refused in a litmus text.
#![tactic(auto)]

mod common_notes;
mod note;
mod syntax_notes;
mod tables;
mod words;

pub use note::note_of;
