//! What a person is told of a litmus text, a place list and a schedule: why and where one is refused, and what a
//! program comes to.
#![tactic(auto)]

pub mod check_output;
pub mod option_diagnostics;
pub mod refusal_text;
pub mod text_check;
