//! What is told of a list of steps.

use access_types::{Access, Moment};
use setup_access::Outcome;
use slot_table::Record;

/// An arming, by its index and its number.
#[derive(Clone, Copy)]
pub struct Armed {
    pub index: usize,
    pub number: usize,
}

/// What came of checking an access once, and the arming that its task has in hand since then.
#[derive(Clone, Copy)]
pub struct Came {
    pub access: Access,
    pub outcome: Outcome,
    pub arming: Option<Armed>,
}

/// A list of steps, the latest first, and what is told of it: the moments and the outcomes. Memory is 0 at first.
#[derive(Drop)]
pub struct ToldExecution {
    /// Plain writes are assumed to be made in one piece.
    pub atomic: bool,
    /// The accesses of the program.
    pub accesses: Vec<Access>,
    pub records: Vec<Record>,
    pub history: Vec<Moment>,
    /// How many moments were told by no step, by the first step, by the first two, and so on.
    pub moments: Vec<usize>,
    pub outcomes: Vec<Came>,
    /// All tasks have ended.
    pub ended: bool,
}
