//! Lists of steps: who made each, and what it answered. A list grows at its head: its first record
//! is the latest.

use crate::step::{Answer, Step};

/// One step of a list.
#[derive(Clone, Copy)]
pub struct Record {
    pub task: u32,
    pub step: Step,
    pub answer: Answer,
}
