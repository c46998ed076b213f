//! What each execution tells: the outcomes of its checks and that each taking has one answer, the history beside the
//! words that its steps are made on, the totals of its checks, and the headline of this project as one law.
#![tactic(auto)]

pub mod histories;
pub mod in_progress;
pub mod laws;
pub mod totals;
pub mod verdicts;
