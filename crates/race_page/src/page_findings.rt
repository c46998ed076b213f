//! What a page tells of a litmus file: the races of its program, as they stand in its text, with pictures.

pub mod file;
pub mod pictures;
pub mod told;

pub use file::{FileFound, file_findings};
