//! `races` where a page is wanted too: the files are looked into one after the other, and what is found of them is
//! printed, and told by a page.
#![tactic(auto)]

mod looks;
pub mod page;

pub use page::carry_all_races;
