//! The grammar of litmus texts, tried on small lists of symbols that were worked out by hand.

pub mod laws;
