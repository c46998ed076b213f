//! What is written of the races of a litmus text, as text and as JSON.
#![tactic(auto)]

pub mod blocks;
pub mod counts;
pub mod file;
pub mod json;
pub mod reasons;
pub mod settings_text;
pub mod several;
pub mod sites;
pub mod table;
pub mod words;

pub use file::{FileRaces, Format, file_races};
pub use race_verdicts::RacesWanted;
pub use several::last_line;
pub use words::FileVerdict;
