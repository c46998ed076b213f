//! A whole litmus program, one step at a time: its tasks take turns on the words that they share.
#![tactic(auto)]

mod copies;
pub mod first;
pub mod laws;
pub mod logs;
pub mod ran;
mod readers;
mod schedules;
pub mod world;

pub use prepared_program::program_sites::{Prepared, RunError, Settings, sites_of};
pub use prepared_program::step_schedule::Schedule;
pub use ran::Ran;
pub use task_run::TaskRun;
pub use world::{Stepped, World};
