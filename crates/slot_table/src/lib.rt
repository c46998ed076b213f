//! The table: all the words that the tasks of a run share, and what is true of every list of steps
//! on them. A watchpoint stands at an index, which has a watch word and a pair word; beside the
//! indices there are the cells of memory, the lock words and the clock. A step is one operation on
//! one word.
#![tactic(auto)]

pub mod board;
pub mod discipline;
pub mod index;
pub mod index_order;
pub mod laws;
pub mod records;
pub mod replay;
pub mod step;

pub use board::{Board, BoardError, PlainBoard, Shape};
pub use index::{look_order, page_slot, try_order};
pub use records::Record;
pub use step::{Answer, Step};
