//! What a litmus text says of the sites of a trace, for a picture of it.

mod fit;
mod labels;
mod source;

pub use source::{labels_of, test_of};
