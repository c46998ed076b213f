//! The verdict on a pair of sites, tried: a slow plain program that decides it of executions that are given, in place
//! of all executions of a program. Its contract is the definition of the verdict. It is run on examples worked by hand,
//! the rows of `test_oracles`.

pub mod events;
pub mod facts;
pub mod masks;
pub mod observed;
pub mod verdicts;

pub use observed::{Observed, Taking};
pub use verdicts::verdict;
