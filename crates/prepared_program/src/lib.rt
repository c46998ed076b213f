//! What a litmus program comes to under the settings of its runs: where its variables stand, which accesses it can make,
//! and the lists of the options that name its variables and tasks.
#![tactic(auto)]

pub mod place_list;
pub mod program_layout;
pub mod program_sites;
pub mod step_schedule;
