//! Texts put together of pieces, numbers and blanks among them, and bytes as they are shown.

pub mod bytes;
pub mod pieces;

pub use bytes::{cut, shown};
pub use pieces::{blanks, joined, number, padded};
