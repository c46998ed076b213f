//! The two words of an index: the watch word, which says what is watched, and the pair word, in
//! which the setter of a watchpoint and the access that hits it name themselves to each other.
//!
//! Each call is one indivisible step on one of them, a line: its answer and the word after it, both
//! from the word before it.
#![tactic(auto)]

pub mod pair;
pub mod slot;

pub use pair::Pair;
pub use slot::{CONSUMED, EMPTY, Slot};
