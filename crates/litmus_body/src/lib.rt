//! The parser of the bodies of litmus processes.
#![tactic(auto)]

pub mod call;
pub mod laws;
pub mod simple;
pub mod statement;
pub mod statement_laws;

pub use call::CHECK_SIZE;
pub use statement::read_block;
