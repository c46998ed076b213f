//! What is said of a litmus text that is checked and not run: its tables, its printed form and warnings, or why it is
//! refused.

mod call_list;
mod checked;

pub use call_list::calls;
pub use checked::{Check, check_text};
