//! The parser of expressions in the bodies of litmus processes, and what their names mean.
#![tactic(auto)]

pub mod expression;
pub mod laws;
pub mod limits;
pub mod process;

pub use expression::OPERATORS;
pub use process::{
    NESTING, Parameter, Process, REGISTERS, Surroundings, Takes, address_or_offence, open_call,
    take_behind,
};
