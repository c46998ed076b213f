//! The picture of a trace: which access was in progress when, what it watched and took, and what was reported.

mod columns;
mod draw;
mod error;
pub mod labels;
mod named;
mod parts;
mod rows;
pub mod told;
mod watches;
pub mod words;

pub use columns::{Column, TASKS};
pub use draw::{ACCESS_LIMIT, Picture, picture_of};
pub use error::PictureError;
pub use rows::{Mark, Row, rows_before};
pub use trace_replay::TraceError;
pub use watches::{Taking, Watch};
