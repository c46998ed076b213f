//! What an output is told of the source: behind each line that names a site, where that site stands; and behind the line
//! on deadlocks, which task waits for which lock, where, and who holds it.
#![tactic(auto)]

pub mod deadlocks;
pub mod lines;
pub mod located;
pub mod picture_source;
pub mod sites;

pub use located::with_places;
