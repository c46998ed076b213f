//! The search of one part of the bounded executions of a litmus text, as a text that can be kept, and what the texts of all
//! parts make together: what a search of the whole writes.
//!
//! A part searches behind its share of the beginnings of bounded executions (`search_run`), and what is found behind
//! each is joined in their order (`search_output`). Its text (`part_file`) has all of that, and what the search went by.
//! Joined in the order of their numbers, the parts have found what one search finds, so the same function writes it.
#![tactic(auto)]

pub mod joined;
pub mod order;
pub mod part_file;
pub mod parted;
pub mod settings;
mod stops;

pub use joined::joined_text;
pub use parted::{PartSearched, search_part_text};
pub use settings::settings_of_part;
