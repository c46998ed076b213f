//! Where the variables of a litmus program stand in memory.

pub mod laws;
pub mod layout;
pub mod place;

pub use laws::{law_variables_are_aligned, law_variables_lie_in_one_cell};
pub use layout::{Layout, LayoutError};
pub use place::Place;
