//! The picture of a trace, as a file in SVG.
#![tactic(auto)]

mod bars;
mod captions;
mod lanes;
mod legend;
mod lines;
mod marks;
mod notes;
mod reports;
mod watches;
mod write;

pub use captions::Captions;
pub use write::{svg_bytes, write_captioned_svg, write_svg};
