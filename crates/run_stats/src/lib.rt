//! A litmus text, run on threads as often as it is asked, and what is found of the runs, taken together.
#![tactic(auto)]

pub mod delay;
pub mod hooks;
mod lots;
mod made;
pub mod runs;
mod starters;
pub mod tally;
pub mod times;
mod turns;

pub use delay::Delay;
pub use hooks::{Delays, Hooks};
pub use run_output::{EngineError, Written};
pub use runs::{run_text_often, run_text_with};
pub use times::{Progress, Times};
