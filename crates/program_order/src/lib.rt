//! The order in which a task of a litmus program makes its steps, from its first statement to its
//! last, and what is true of it.
#![tactic(auto)]

pub mod laws;
pub mod text_bounds;

pub use laws::{
    law_beginnings_are_in_the_written_order, law_parts_of_a_text_leave_the_scopes,
    law_the_written_order_keeps_the_discipline, law_what_is_done_is_meant,
};
