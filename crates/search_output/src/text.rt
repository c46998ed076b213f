//! What a search of a litmus text leaves.

use run_output::Written;

/// What a search of a litmus text leaves.
#[derive(Drop)]
pub struct SearchText {
    /// What is written of what was searched, whether there is a report, and the trace that is kept, if it is wanted.
    pub written: Written,
    /// The search was stopped, at its limit or because its time was up.
    pub stopped: bool,
}
