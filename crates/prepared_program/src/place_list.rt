//! Where a user places the variables of a program.

pub mod places;

pub use places::parse_places;
