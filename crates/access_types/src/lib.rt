//! Memory accesses as KCSAN sees them: who makes them, which bytes they cover and what they do, and
//! the tickets that name them.
#![tactic(auto)]

pub mod access;
pub mod arms;
pub mod history;
pub mod kind;
pub mod list_copy;
pub mod report;
pub mod sites;
pub mod stamped;
pub mod takes;
pub mod tickets;

pub use access::{
    ADDRESS_END, Access, AccessError, SITES, TASKS, conflicts, law_limits_are_numbers, overlaps,
};
pub use arms::{Arm, ArmOutcome, HitResult};
pub use history::{Bytes, Happening, Mark, Moment};
pub use kind::{Claim, Kind, KindError, Operation, words};
pub use report::{Report, ValueChange};
pub use sites::Sites;
pub use stamped::Stamped;
pub use takes::Take;
pub use tickets::{law_tickets_differ, law_tickets_read_back, rep_of, site_of, task_of, ticket};
