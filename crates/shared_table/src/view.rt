//! What a seat knows. Contracts alone see it: no value of these types is made.

use crate::opening::Opening;
use slot_table::Record;
use std::collections::LinkedList;

/// A task, and all records of its steps, the latest first.
pub struct Held {
    pub task: u32,
    pub records: LinkedList<Record>,
}

/// What the table was made for, and the records that a seat holds of each of its tasks.
pub struct View {
    pub opening: Opening,
    pub held: LinkedList<Held>,
}
