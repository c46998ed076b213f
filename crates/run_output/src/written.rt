//! What is left of runs.

/// What is written of runs: their output, the trace of the last one that ended, if that is wanted and there is one; and
/// whether there was a report.
#[derive(Drop)]
pub struct Written {
    pub output: Vec<u8>,
    pub trace: Option<Vec<u8>>,
    pub raced: bool,
}
