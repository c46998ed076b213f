//! The shared words: all words of a run as one row of atomic words, on which many threads make
//! their steps at once, without a lock. Each task has a seat, the token of all that it has seen.
//! Between any two steps the words stand as after some legal list of steps, whose records of each
//! task are those that the task's seat holds.
#![tactic(auto)]

pub mod board;
pub mod gathered;
mod opening;
mod plays;
mod rule;
pub mod seat;
pub mod table;
mod view;
mod words;

pub use board::SharedBoard;
pub use gathered::Gathered;
pub use seat::TaskSeat;
pub use table::SharedTable;
