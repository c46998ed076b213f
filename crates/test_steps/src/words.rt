//! Words of lines and texts.

use std::alloc::{AllocError, Global};
use test_rows::texts::Texts;

/// The words of a line with one blank between them, where `@NAME` stands for the words of the text of this name.
pub fn words_of(alloc: Global, texts: &Texts, line: &str) -> Result<Option<String>, AllocError> {
    let mut words = String::new(alloc);
    for word in line.split_whitespace() {
        match word.strip_prefix('@') {
            None => add_word(&mut words, word)?,
            Some(name) => match texts.get(name) {
                Some(text) => add_words(&mut words, text)?,
                None => return Ok(None),
            },
        }
    }
    Ok(Some(words))
}

/// Adds each word of a text.
fn add_words(words: &mut String, text: &str) -> Result<(), AllocError> {
    for word in text.split_whitespace() {
        add_word(words, word)?;
    }
    Ok(())
}

/// Adds a word, behind a blank where another one stands before it.
pub fn add_word(words: &mut String, word: &str) -> Result<(), AllocError> {
    if !words.is_empty() {
        words.push(' ')?;
    }
    words.push_str(word)?;
    Ok(())
}
