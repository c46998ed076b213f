//! What is written of litmus files that are checked: the tables of those that read, and what is told of the others.

mod file;
mod several;
mod told;

pub use file::{Comes, Files, file_comes};
pub use several::{last_line, unread_line};
pub use told::Lines;
