//! How often a program is run, and who is told how far the runs have come.

/// How often a program is run, and how.
#[derive(Clone, Copy)]
pub struct Times {
    /// How many runs there are.
    pub runs: u64,
    /// How many turns the delay of a watch takes at most, at the end of each of which other threads may run.
    pub delay: u64,
    /// How many runs are made side by side.
    pub jobs: u64,
    /// Whether the first run with a report that is printed is the last.
    pub stop_at_first: bool,
    /// Whether runs in which a task gets stuck are counted; otherwise the first of them stops all.
    pub keep_going: bool,
    /// Whether reports of unknown origin are printed, and count as reports.
    pub unknown_origin: bool,
}

/// Who is told how far the runs have come.
pub trait Progress {
    /// So many runs of so many are over.
    fn ran(&self, runs: u64, of: u64);

    /// No run is made any more.
    fn over(&self);
}
