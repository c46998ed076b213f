//! Where the value of an access is loaded from.

/// A cell, and the number of the access's first byte in it.
#[derive(Clone, Copy, PartialEq, Eq)]
pub struct Source {
    pub cell: usize,
    pub first: u64,
}
