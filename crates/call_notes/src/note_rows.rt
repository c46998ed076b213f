//! Tables of lines by words.

ghost use Rattle.std.specs.Prelude.{◌≡◌, map};
ghost use Rattle.call_notes.specs.NoteRows as spec;
ghost use Rattle.call_notes.specs.NoteRows.{row_of};

/// A word, or what words begin with, and the line on it.
#[derive(Clone, Copy)]
pub struct NoteRow(pub &'static str, pub &'static str);

/// The line of the first row that has this word, or else this one.
pub fn named_note(rows: &[NoteRow], word: &[u8], otherwise: &'static str) -> &'static str
    ensures { result.now ≡ spec.named_note (map row_of rows.now) word.now otherwise.now }
{
    match rows.split_first() {
        Some((row, others)) => {
            if word == row.0.as_bytes() {
                row.1
            } else {
                named_note(others, word, otherwise)
            }
        }
        None => otherwise,
    }
}

/// The line of the first row that this word begins with, or else this one.
pub fn begun_note(rows: &[NoteRow], word: &[u8], otherwise: &'static str) -> &'static str
    ensures { result.now ≡ spec.begun_note (map row_of rows.now) word.now otherwise.now }
{
    match rows.split_first() {
        Some((row, others)) => {
            if word.starts_with(row.0.as_bytes()) {
                row.1
            } else {
                begun_note(others, word, otherwise)
            }
        }
        None => otherwise,
    }
}
