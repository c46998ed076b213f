//! One task of a litmus program as a machine: which step it makes next, from its first statement to
//! its last.
#![tactic(auto)]

mod begins;
mod checks;
mod copies;
mod follows;
pub mod laws;
mod machine;
mod marks;
mod news;
pub mod run;
mod stage;
pub mod uses;

pub use laws::{
    law_machines_of_one_key_tell_the_same_accesses, law_machines_tell_accesses_in_progress,
    law_no_task_stops, law_one_step_is_next, law_too_long_a_wait_is_told_by_the_records,
};
pub use run::TaskRun;
pub use task_plan::task_points::{After, Before};
