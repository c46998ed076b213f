//! Why a litmus text is refused, as a person reads it: where, in words, with the line and a mark under what offends,
//! and what would stand there; and what to write in its place, or the form that is read there.

mod before;
mod excerpt;
mod expected;
mod form_note;
pub mod laws;
mod message;
mod reason;
mod token;

pub use message::refusal_text;
