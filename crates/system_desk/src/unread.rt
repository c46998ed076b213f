//! What a person is told at a terminal of a file that isn't read: why the system doesn't give it, or where and why its
//! text is refused.

use diagnostics::check_output::Lines;
use diagnostics::refusal_text::refusal_text;
use file_commands::complaint::Complaint;
use file_commands::failure::Failure;
use litmus_parse::read_text;
use program_table::text_pieces::{joined, shown};
use std::alloc::{AllocError, Global};
use std::io;

/// The complaint is of a file that can't be read.
pub fn is_of_reading(complaint: &Complaint) -> bool {
    match complaint {
        Complaint::Failure(failure) | Complaint::Explained(failure, _) => {
            *failure == Failure::CannotRead
        }
        Complaint::Usage(_)
        | Complaint::Overwrites(_)
        | Complaint::Unjoined(_)
        | Complaint::Warned(_) => false,
    }
}

/// An error in the system's words, without its number.
fn words_of(error: &str) -> &str {
    match error.split_once(" (os error ") {
        Some((words, _)) => words,
        None => error,
    }
}

/// The line that says why the file of this name can't be read.
pub fn reason_line(alloc: Global, name: &str, error: &io::Error) -> Result<Lines, AllocError> {
    let file = shown(alloc, name.as_bytes())?;
    let text = format!(in alloc; "{error}")?;
    let words = words_of(text.as_str());
    let bytes = joined(alloc, &[&file, b": ", words.as_bytes(), b"\n"])?;
    Ok(Lines { bytes })
}

/// The lines that `check` has, behind its first one, of a text that is refused, in a file of this name. Nothing where
/// the text isn't refused, or memory is.
pub fn refusal_lines(alloc: Global, name: &str, text: &[u8]) -> Option<Lines> {
    match read_text(alloc, text) {
        Ok(_) => None,
        Err(refused) => {
            let bytes = refusal_text(alloc, name.as_bytes(), text, refused).ok()?;
            if bytes.is_empty() {
                return None;
            }
            Some(Lines { bytes })
        }
    }
}
