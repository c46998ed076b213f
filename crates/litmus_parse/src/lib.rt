//! Litmus texts, read into programs: the initialization block, the parameters of processes, the condition, and the
//! whole over these and the bodies.
#![tactic(auto)]

mod answer;
mod condition;
mod declaration;
pub mod declaration_laws;
mod initialization;
pub mod laws;
pub mod limits;
mod text;

pub use answer::{Reading, Reason, Refused};
pub use condition::Condition;
pub use declaration::{Declarations, VARIABLES, name_of, unsupported_name};
pub use initialization::Header;
pub use litmus_lex::{Excess, Expected, Fault, Unread};
pub use litmus_print::print;
pub use litmus_syntax::{Limit, ParseError, Program};
pub use text::{FILE_BYTES, parse, read_text};
