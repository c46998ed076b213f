//! `join`: the parts of a search are read, and what the whole search prints is printed.
#![tactic(auto)]

mod joining;
mod reading;
mod told;

pub use joining::carry_join;
pub use reading::PART_BYTES;
