//! What is wanted of a file, and what comes of it.

/// How what a search of a litmus file finds is written.
#[derive(Clone, Copy)]
pub enum Format {
    Text,
    Json,
    Csv,
    Herd,
    /// As JSON, of one part of a search with a number of preemptions: its number, from 1, and how many parts there are.
    Part { part: u64, parts: u64 },
}

/// How many preemptions a schedule that is searched may have.
#[derive(Clone, Copy)]
pub enum Preemptions {
    AtMost(u64),
    Any,
}

/// What is wanted of the search of a file.
#[derive(Clone, Copy)]
pub struct FileWanted {
    pub preemptions: Preemptions,
    /// After how many nodes, or states where there is no bound, the search stops, though others remain.
    pub limit: u64,
    /// After how many seconds it stops, if these are bounded.
    pub seconds: Option<u64>,
    /// Whether a search of all schedules may leave steps out that others make up for.
    pub reduces: bool,
    pub format: Format,
    /// Whether reports of unknown origin are printed.
    pub unknown_origin: bool,
}

/// What comes of a file that is searched.
#[derive(Drop)]
pub struct FileSearched {
    pub output: Vec<u8>,
    /// Whether there is a report.
    pub raced: bool,
    /// Whether the search was stopped, at its limit or because its time was up.
    pub stopped: bool,
}
