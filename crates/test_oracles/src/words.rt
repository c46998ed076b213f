//! The words of a row, and its numbers.

use std::alloc::{AllocError, AllocFailed};

/// Why nothing can be said of a row.
#[derive(Clone, Copy, Debug)]
pub enum Fault {
    /// The line is no row.
    NoRow,
    OutOfMemory,
}

impl From<AllocError> for Fault {
    fn from(_: AllocError) -> Fault {
        Fault::OutOfMemory
    }
}

impl<T: Drop> From<AllocFailed<T>> for Fault {
    fn from(_: AllocFailed<T>) -> Fault {
        Fault::OutOfMemory
    }
}

/// The words of a text that are still to be read, with a blank between two of them.
#[derive(Clone, Copy)]
pub struct Words<'t> {
    rest: &'t str,
}

impl<'t> Words<'t> {
    /// All words of a text.
    pub fn of(text: &'t str) -> Words<'t> {
        Words { rest: text }
    }

    /// The next word.
    pub fn word(&mut self) -> Result<&'t str, Fault> {
        if self.rest.is_empty() {
            return Err(Fault::NoRow);
        }
        let (word, rest) = self.rest.split_once(' ').unwrap_or((self.rest, ""));
        self.rest = rest;
        Ok(word)
    }

    /// The next word, a number.
    pub fn number(&mut self) -> Result<u64, Fault> {
        number_of(self.word()?)
    }

    /// The next word, a number below 2^32.
    pub fn small(&mut self) -> Result<u32, Fault> {
        small_of(self.word()?)
    }

    /// The next word, an index or how many there are of something.
    pub fn index(&mut self) -> Result<usize, Fault> {
        index_of(self.word()?)
    }

    /// There is no other word.
    pub fn end(&self) -> Result<(), Fault> {
        if self.rest.is_empty() {
            Ok(())
        } else {
            Err(Fault::NoRow)
        }
    }
}

/// The number of a word: decimal digits, or `0x` and hexadecimal digits.
pub fn number_of(word: &str) -> Result<u64, Fault> {
    let number = match word.strip_prefix("0x") {
        Some(digits) => u64::from_str_radix(digits, 16),
        None => u64::from_str_radix(word, 10),
    };
    number.ok().ok_or(Fault::NoRow)
}

/// A number below 2^32.
pub fn small_of(word: &str) -> Result<u32, Fault> {
    u32::try_from(number_of(word)?).ok().ok_or(Fault::NoRow)
}

/// An index, or how many there are of something.
pub fn index_of(word: &str) -> Result<usize, Fault> {
    usize::try_from(number_of(word)?).ok().ok_or(Fault::NoRow)
}
