//! The text that a search over schedules leaves: what is counted of the lists that were searched, and how it is
//! written.
#![tactic(auto)]

pub mod bounds;
pub mod counted;
pub mod firsts;
pub mod found;
pub mod joined;
pub mod laws;
pub mod locations;
pub mod printed;
pub mod schedules;
pub mod seen;
pub mod states;
pub mod stopped;
pub mod texts;
pub mod visited;
pub mod write;

pub use bounds::Asked;
pub use counted::ListCounts;
pub use found::{Ending, SearchFindings};
pub use joined::{FindingsParts, SeenText};
pub use locations::{Location, locations_of};
pub use prepared_program::step_schedule::Entry;
pub use report_text::{MemorySink, Sink, WriteError};
pub use seen::{Seen, Sightings};
pub use states::state_of;
pub use stopped::Stopped;
pub use visited::{Visited, write_states_search};
pub use write::write_search;
