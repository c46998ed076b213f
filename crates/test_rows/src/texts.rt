//! Texts that rows call by a name.

use crate::escapes::unescaped;
use std::alloc::{AllocError, Global};

/// A text with its name.
#[derive(Drop)]
struct Named {
    name: String,
    text: String,
}

/// The texts so far, by name.
#[derive(Drop)]
pub struct Texts {
    alloc: Global,
    named: Vec<Named>,
}

impl Texts {
    /// No text.
    pub fn new(alloc: Global) -> Texts {
        Texts {
            alloc,
            named: Vec::new(alloc),
        }
    }

    /// Whether a line is kept: it begins a text, as `text NAME` or `text NAME TEXT`, or goes on with the last one, as
    /// `|LINE`.
    pub fn takes(&mut self, line: &str) -> Result<bool, AllocError> {
        if let Some(text) = line.strip_prefix("text ") {
            self.keep(text)?;
            return Ok(true);
        }
        if let Some(line) = line.strip_prefix('|') {
            self.go_on(line)?;
            return Ok(true);
        }
        Ok(false)
    }

    /// Keeps the text of a line: its name, a blank, and the text with its escapes.
    fn keep(&mut self, line: &str) -> Result<(), AllocError> {
        let (name, text) = line.split_once(' ').unwrap_or((line, ""));
        let name = String::from_str(self.alloc, name)?;
        let text = unescaped(self.alloc, text)?;
        self.named.push(Named { name, text })?;
        Ok(())
    }

    /// Adds a line, which may begin with a blank of its own, to the text that was kept last.
    fn go_on(&mut self, line: &str) -> Result<(), AllocError> {
        let line = unescaped(self.alloc, line.strip_prefix(' ').unwrap_or(line))?;
        if let Some(last) = self.named.last_mut() {
            last.text.push_str(&line)?;
            last.text.push('\n')?;
        }
        Ok(())
    }

    /// The text of a name.
    pub fn get(&self, name: &str) -> Option<&str> {
        let named = self.named.iter().find(|named| named.name.as_str() == name)?;
        Some(named.text.as_str())
    }

    /// The texts of names with `+` between them, one behind the other.
    pub fn join(&self, names: &str) -> Result<Option<String>, AllocError> {
        let mut whole = String::new(self.alloc);
        for name in names.split('+') {
            match self.get(name) {
                Some(text) => whole.push_str(text)?,
                None => return Ok(None),
            }
        }
        Ok(Some(whole))
    }
}
