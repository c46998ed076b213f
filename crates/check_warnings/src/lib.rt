//! What `check` warns of: text before the program that is passed over, tokens that C reads otherwise, registers that are 0
//! all the time, or have the name of a variable, and variables that are compared with a number that they never are.
#![tactic(auto)]

mod comparisons;
mod head_text;
mod other_readings;
mod registers;
mod same_names;
mod warnings;

pub use warnings::text_warnings;
