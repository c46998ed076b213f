//! The headline, tried: a slow plain program that says of a list of steps, of the history and of the outcomes that are
//! told of it, whether the headline holds of them. It knows nothing of checkers. Tests run it on lists that programs
//! make, so it is seen that the definitions are met by real lists, and that others don't meet them.

pub mod answers;
pub mod armings;
pub mod changes;
pub mod endings;
pub mod headline;
pub mod meetings;
pub mod told;
pub mod totals;

pub use headline::holds;
pub use told::{Armed, Came, ToldExecution};
