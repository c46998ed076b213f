//! Blocks of lines: rows, and the texts that they call by a name.

use std::alloc::{AllocError, Global};

/// A line, the lines under it that begin with `|`, and what is wanted.
#[derive(Drop)]
pub struct Block {
    /// The first line, up to its ` => `.
    pub head: String,
    /// What stands behind each `|`, one line each.
    pub given: String,
    /// What stands behind the first line's ` => ` and behind each `=>` that begins a line, one line each.
    pub wanted: String,
}

impl Block {
    /// That of its first line.
    fn new(alloc: Global, line: &str) -> Result<Block, AllocError> {
        let (head, wanted) = line.split_once(" => ").unwrap_or((line, ""));
        let mut block = Block {
            head: String::from_str(alloc, head)?,
            given: String::new(alloc),
            wanted: String::new(alloc),
        };
        if !wanted.is_empty() {
            add_line(&mut block.wanted, wanted)?;
        }
        Ok(block)
    }

    /// The name of the text that it is, where it is one.
    fn name(&self) -> Option<&str> {
        self.head.strip_prefix("text ")
    }

    /// It is a text that rows call by its name.
    pub fn is_text(&self) -> bool {
        self.name().is_some()
    }

    /// It is the text of this name.
    fn is_named(&self, name: &str) -> bool {
        match self.name() {
            Some(own) => own == name,
            None => false,
        }
    }
}

/// The blocks so far.
#[derive(Drop)]
pub struct Blocks {
    alloc: Global,
    blocks: Vec<Block>,
}

impl Blocks {
    /// No block.
    pub fn new(alloc: Global) -> Blocks {
        Blocks {
            alloc,
            blocks: Vec::new(alloc),
        }
    }

    /// Whether a line goes on with the last block, to which it is added.
    pub fn go_on(&mut self, line: &str) -> Result<bool, AllocError> {
        if let Some(given) = line.strip_prefix('|') {
            if let Some(last) = self.blocks.last_mut() {
                add_line(&mut last.given, given.strip_prefix(' ').unwrap_or(given))?;
            }
            return Ok(true);
        }
        if let Some(wanted) = line.strip_prefix("=> ") {
            if let Some(last) = self.blocks.last_mut() {
                add_line(&mut last.wanted, wanted)?;
            }
            return Ok(true);
        }
        Ok(false)
    }

    /// Begins a block with its first line.
    pub fn begin(&mut self, line: &str) -> Result<(), AllocError> {
        self.blocks.push(Block::new(self.alloc, line)?)?;
        Ok(())
    }

    /// The last block.
    pub fn last(&self) -> Option<&Block> {
        self.blocks.last()
    }

    /// The text of a name.
    pub fn text(&self, name: &str) -> Option<&str> {
        let block = self.blocks.iter().find(|block| block.is_named(name))?;
        Some(block.given.as_str())
    }
}

/// Adds a line to a text.
fn add_line(text: &mut String, line: &str) -> Result<(), AllocError> {
    text.push_str(line)?;
    text.push('\n')?;
    Ok(())
}
