//! A slow plain program that reads records by the definition of a check. It is run on the records that
//! checkers of some tasks make over one board, on rows worked by hand (`test_oracles`).

pub mod reading;

pub use reading::{Reading, read_check, read_on};
