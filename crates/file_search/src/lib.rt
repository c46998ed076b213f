//! What is found in the text of a litmus file: its races, or what a search of its program finds, and what is printed of
//! that, with the places of its sites and the settings beside it.
#![tactic(auto)]

pub mod additions;
pub mod work;
