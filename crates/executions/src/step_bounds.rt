//! How many steps the tasks of a program make, at most. No code.

pub mod laws;
