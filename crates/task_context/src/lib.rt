//! What a task's KCSAN calls lead to: whether reports of it are on, and which of its accesses count
//! as marked.
#![tactic(auto)]

pub mod context;
pub mod laws;

pub use context::{Context, ContextError};
pub use laws::{
    law_accesses_are_judged_at_their_begin, law_counts_are_within_calls,
    law_histories_lead_to_one_context, law_other_moments_change_nothing,
};
