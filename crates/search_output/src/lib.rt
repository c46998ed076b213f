//! What a search over schedules has found of a program, list by list, and what it leaves of a litmus text.
#![tactic(auto)]

pub mod findings;
pub mod joined;
pub mod laws;
pub mod progress;
pub mod state_findings;
pub mod text;

pub use findings::Findings;
pub use joined::FoundPart;
pub use progress::{SearchProgress, seconds_gone};
pub use search_text::{
    Asked, Ending, Entry, FindingsParts, ListCounts, MemorySink, SearchFindings, SeenText,
    Sightings, Sink, Stopped, Visited, WriteError,
};
pub use state_findings::StateFindings;
pub use text::SearchText;
