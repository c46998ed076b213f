//! Which item of a place list or of a schedule doesn't read, and which place doesn't suit a program, for a person.

mod item;
mod misfits;
mod places;
mod schedules;

pub use misfits::misfit;
pub use places::place_fault;
pub use schedules::schedule_fault;
