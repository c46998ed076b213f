//! What a litmus program means: the values of its expressions and of the bytes in memory, and what
//! its tasks do.
#![tactic(auto)]

pub mod expression;
pub mod final_condition;
pub mod laws;
pub mod same_text;
pub mod site;
pub mod value;

pub use expression::{evaluate, loading_value, pure_value};
pub use laws::{
    law_each_access_has_its_own_ticket, law_each_access_is_one_of_the_text, law_tickets_have_room,
};
pub use site::{Site, text_sites};
pub use value::{cut, sign_extended, size_of};
