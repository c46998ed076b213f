//! A program on real threads, one a task, over the shared words and without a lock.
#![tactic(auto)]

mod columns;
mod first;
pub mod hooks;
pub mod laws;
pub mod result;
pub mod run;
mod seated;
mod terms;
mod threads;
mod together;

pub use hooks::{Gate, HookPoint, NoStall, Open, Stall};
pub use litmus_step::RunError;
pub use result::RunResult;
pub use run::{RunIndex, run_batch, run_once, run_prepared};
