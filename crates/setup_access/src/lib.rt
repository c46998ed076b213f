//! What KCSAN does at one access, from its begin to the point where memory is touched: it looks for a watchpoint and
//! takes it, or sets one up and watches. It says the next step, takes its answer, and knows no board or program.
//!
//! Of kernel/kcsan/core.c, in this order: `check_access` is in `pass`, `find_watchpoint` in `find`,
//! `kcsan_found_watchpoint` in `found`, `kcsan_setup_watchpoint` in `setup`, `kcsan_check_scoped_accesses` in
//! `stage`. All that tasks share of a watchpoint is one word and the pair beside it, and a step is one operation
//! on one of the two: so no step needs a lock, and whatever comes between two steps finds nothing half done.
#![tactic(auto)]

pub mod begun;
pub mod checker;
pub mod find;
pub mod found;
pub mod laws;
pub mod outcome;
pub mod outcomes;
pub mod pass;
pub mod rules;
pub mod setting;
pub mod setup;
pub mod source;
pub mod stage;
pub mod values;

pub use begun::Begun;
pub use checker::{Checker, CheckerError};
pub use outcome::{Outcome, Watchpoint};
pub use rules::Rules;
