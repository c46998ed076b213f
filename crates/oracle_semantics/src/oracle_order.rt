//! A slow plain program beside the definition of the written order, for texts of locks, registers, conditions and
//! loops: it reads the records of a task by its text, statement by statement. It makes no step. `test_texts`
//! runs it on worked texts.

pub mod locks;
pub mod text;
pub mod walk;

pub use text::spells;
pub use walk::{Given, NotSpelled, Walk};
