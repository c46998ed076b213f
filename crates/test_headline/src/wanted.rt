//! What is wanted of a row.

use crate::row::number;

/// Whether that comes, word by word.
pub fn fits(wanted: &str, comes: &str) -> bool {
    let first = comes.split(' ').next().unwrap_or("");
    wanted.split(' ').count() == comes.split(' ').count()
        && wanted
            .split(' ')
            .zip(comes.split(' '))
            .all(|(wanted, word)| is_word(wanted, word, first))
}

/// Whether a word is the wanted one: `some` is a number above 0, and `part` one that is also below the first.
fn is_word(wanted: &str, word: &str, first: &str) -> bool {
    let count = number(word).unwrap_or(0);
    match wanted {
        "some" => count > 0,
        "part" => count > 0 && count < number(first).unwrap_or(0),
        _ => word == wanted,
    }
}
