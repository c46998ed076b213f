//! The lines of a trace.

use access_types::{Arm, Report, Stamped, Take};

/// A line of a trace, between its head and its end.
#[derive(Clone, Copy, Debug, PartialEq, Eq)]
pub enum Line {
    /// An access that has ended, with its stamps.
    Access(Stamped),
    /// An arming that is over.
    Arm(Arm),
    /// A taking that is over.
    Take(Take),
    /// A report. Of a race, the change that was seen stands in no line.
    Report(Report),
}
