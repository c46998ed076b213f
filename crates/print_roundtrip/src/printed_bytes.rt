//! What is true of the bytes of the printed form of litmus programs, and programs read back from it.

mod back;
pub mod laws;

pub use back::read_back;
