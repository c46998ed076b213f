//! What is observed of an execution.

use access_types::{Moment, Report};
use value_filter::Reason;

/// A taking of a watchpoint: the tickets of the access that set it up and of the one that took it.
#[derive(Clone, Copy)]
pub struct Taking {
    pub setter: u32,
    pub finder: u32,
}

/// What is observed of one execution. Memory is 0 at first.
#[derive(Drop)]
pub struct Observed {
    pub history: Vec<Moment>,
    pub reports: Vec<Report>,
    /// The takings that setters dropped, each with the reason.
    pub dropped: Vec<(Taking, Reason)>,
    /// The takings of which finders told setters.
    pub taken: Vec<Taking>,
    /// The tickets of the accesses for which a watchpoint was armed.
    pub armed: Vec<u32>,
}
