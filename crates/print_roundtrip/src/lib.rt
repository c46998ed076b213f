//! Why the printed form of a program reads back as that program.
#![tactic(auto)]

pub mod printed_bytes;
pub mod printed_texts;
