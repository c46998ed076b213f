//! What to write in the place of a call of the kernel or of C that isn't read, and tables of such lines by words.
#![tactic(auto)]

mod atomic_calls;
mod bit_calls;
mod call_notes;
mod lock_calls;
mod note_rows;
mod other_calls;
mod sequence_calls;
mod shared_lines;

pub use call_notes::call_note;
pub use note_rows::{NoteRow, begun_note, named_note};
pub use shared_lines::{bit_lock_note, jump_note, number_note, wait_note};
