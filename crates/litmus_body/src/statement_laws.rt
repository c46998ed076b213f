//! What is true of the readers of statements and blocks and of their grammar: what is read is spelled so, and what is
//! spelled so is read. No code.

pub mod laws;
