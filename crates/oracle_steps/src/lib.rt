//! Slow plain programs that read the records of checks and accesses, and list bounded executions, by their definitions.
#![tactic(auto)]

pub mod oracle_accesses;
pub mod oracle_checks;
pub mod oracle_searched;
