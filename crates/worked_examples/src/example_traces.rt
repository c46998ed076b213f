//! The definition of a trace, tried: examples worked by hand, of which each says that a text is a
//! true trace, or that it fails at a line. An example that comes out otherwise shows that the
//! definition says something else than was meant. Nothing stands on this crate.

pub mod examples;
