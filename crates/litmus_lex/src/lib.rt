//! The tokens of litmus texts, the head that stands before them, and the reading of a whole source; the words of the
//! grammar, and a cursor over the tokens of a text.
#![tactic(auto)]

mod bytes;
pub mod cursor;
mod gap;
mod head;
mod laws;
mod lines;
mod next;
pub mod reason;
mod sign;
mod source;
mod token;
pub mod words;

pub use cursor::{Cursor, Excess, Refusal, Spot, tokens};
pub use head::{Head, read_head};
pub use laws::{law_a_text_has_one_reading, law_bytes_have_one_list_of_tokens};
pub use lines::{column_of, line_of};
pub use next::next_token;
pub use reason::{Expected, Fault, Unread};
pub use sign::Sign;
pub use source::{ReadError, Source, SourceFault, read_all};
pub use token::{Lexeme, Part, SourcePosition, Token};
pub use words::{CallWord, LoadWord, StoreWord, VariableType, Word, word_of};
