//! The definitions, tried: for each definition of a history that no other crate computes, a plain
//! slow program whose contract is that definition. It is run on examples worked by hand, the rows of
//! `test_oracles`: one that comes out otherwise shows that the definition says something else than was
//! meant.

pub mod content;
pub mod marked;
mod moments;
pub mod race;

pub use content::content_after;
pub use marked::{counted_as_marked, silenced};
pub use race::{in_progress, true_race};
