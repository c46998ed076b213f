//! A slow plain program that reads the records of a task by the definition of the written order, for whole texts with
//! their accesses: it decides each list of records. `test_texts` runs it on worked texts.

pub mod reading;

pub use reading::{Reading, read_on, read_text};
