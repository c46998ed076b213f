//! What an access's watch says of its bytes, and the verdict on it.
#![tactic(auto)]

pub mod values;
pub mod verdict;

pub use values::{change, law_seen_changes_differ, seen_change};
pub use verdict::{Change, Reason, Verdict, judge, law_verdicts_are_unique};
