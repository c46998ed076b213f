//! What is known of a litmus program before it runs, as tables: its accesses with their places in the text, its
//! variables, and what it has of that which is limited. No line of a table has more than 100 signs.
#![tactic(auto)]

pub mod accesses;
pub mod counts;
mod hex;
mod nesting;
mod operators;
pub mod rows;
pub mod tables;
pub mod text_pieces;
pub mod variables;

pub use rows::{Made, SiteRow, Spot};
pub use tables::program_table;
