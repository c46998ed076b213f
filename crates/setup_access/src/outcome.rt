//! What a check of an access comes to.

use access_types::ValueChange;
use slot::Pair;
use value_filter::Reason;

/// A watchpoint that a look-up found: where it is, and the word that was read there.
#[derive(Clone, Copy, PartialEq, Eq)]
pub struct Watchpoint {
    pub index: usize,
    pub word: u64,
}

/// What comes of looking once for a watchpoint and, where there is none, of setting one up. A pair has the
/// tickets of the setter and of the finder.
#[derive(Clone, Copy, Debug, PartialEq, Eq)]
pub enum Outcome {
    /// Nothing to count: the access isn't watched, or it has a mask and takes nothing.
    Nothing,
    /// A watchpoint was found, and it was gone or taken before this access could take it.
    Lost,
    /// A watchpoint was taken, and its setter told by whom.
    Told {
        pair: Pair,
    },
    /// No place was free for a watchpoint.
    Capacity,
    /// No watch word can stand for the access.
    Unencodable,
    /// Nobody hit the watchpoint, and no change was seen.
    Quiet,
    /// The watchpoint was hit, and this is reported, with the change of the bytes where one was seen.
    Report {
        pair: Pair,
        seen: Option<ValueChange>,
    },
    /// Nobody hit the watchpoint, and the bytes changed: a report of unknown origin.
    Unknown {
        old: u64,
        new: u64,
    },
    /// The watchpoint was hit, and this isn't reported.
    Dropped(Reason),
}
