//! What is found of a litmus file, as JSON, and how far its search went.
#![tactic(auto)]

pub mod extent;
pub mod json;
pub mod reports;
pub mod values;

pub use extent::{Extent, has_reports, is_counted, status_of};
pub use json::{json_text, refused_json};
pub use reports::Sources;
