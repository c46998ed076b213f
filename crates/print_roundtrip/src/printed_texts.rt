//! What is true of the printed form of litmus programs and of their grammar. No code.

pub mod laws;
