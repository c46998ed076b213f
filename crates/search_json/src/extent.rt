//! How far a search went, and the status of its file.

ghost use Rattle.std.specs.Prelude.{◌≡◌, ◌==◌, length, not};
ghost use Rattle.search_json.specs.Extents as spec;

use search_text::SearchFindings;

/// How far a search went.
#[derive(Clone, Copy)]
pub struct Extent {
    /// Whether the preemptions of a schedule are bounded. Then schedules are counted, and nodes were visited; else
    /// states were.
    pub bounded: bool,
    /// How many were visited.
    pub visited: u64,
    /// Whether the search was stopped.
    pub stopped: bool,
}

/// Whether the numbers of schedules are known that have a report, or after which not all tasks have ended.
pub fn is_counted(extent: Extent) -> bool
    ensures { result ≡ spec.is_counted extent }
{
    extent.bounded && !extent.stopped
}

/// Whether there is a report.
pub fn has_reports(found: &SearchFindings) -> bool
    ensures { result ≡ not (length found.now.reports == 0) }
{
    found.reports().len() != 0
}

/// The exit status for a file that is searched.
pub fn status_of(raced: bool, stopped: bool) -> u8
    ensures { result ≡ spec.status_of raced stopped }
{
    if raced {
        2
    } else if stopped {
        75
    } else {
        0
    }
}
