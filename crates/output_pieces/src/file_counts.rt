//! How many files have which verdict.

/// What came of files: how many there are of each kind.
#[derive(Clone, Copy)]
pub struct FileCounts {
    pub free: usize,
    pub reported: usize,
    pub missed: usize,
    pub refused: usize,
    pub stopped: usize,
}
