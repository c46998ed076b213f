//! What is told on standard error.

use std::fmt;

/// Lines of bytes that can be shown, each with its end.
#[derive(Debug, Drop)]
pub struct Lines {
    pub bytes: Vec<u8>,
}

impl fmt::Display for Lines {
    fn fmt<W: fmt::Write>(&self, f: &mut fmt::Formatter<W>) -> fmt::Result {
        match str::from_utf8(&self.bytes) {
            Ok(text) => f.write_str(text),
            Err(_) => Err(fmt::Error),
        }
    }
}
