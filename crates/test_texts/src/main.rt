//! Reads rows from standard input: texts with what comes of them by their tokens, their printed form, their meaning,
//! their order and their accesses, and parts of a search. It prints those of which something else comes.
#![tactic(auto)]

mod accesses;
mod bends;
mod blocks;
mod fault;
mod happenings;
mod meaning;
mod numbers;
mod order;
mod parts;
mod row;
mod sample;
mod sources;
mod steps;
mod tokens;

use blocks::{Block, Blocks};
use row::outcome;
use std::alloc::{AllocError, Global};
use std::process::ExitCode;
use test_rows::{Rows, Tried, status_of_rows};

fn main(rt: HostRuntime) -> ExitCode {
    status_of_rows(&rt, &mut Blocks::new(rt.alloc()))
}

impl Rows for Blocks {
    fn try_line(&mut self, alloc: Global, line: &str) -> Result<Tried, AllocError> {
        if self.go_on(line)? {
            return Ok(Tried::Kept);
        }
        let tried = self.try_last(alloc)?;
        self.begin(line)?;
        Ok(tried)
    }

    fn try_last(&mut self, alloc: Global) -> Result<Tried, AllocError> {
        match self.last() {
            Some(block) if !block.is_text() => try_block(alloc, self, block),
            _ => Ok(Tried::Kept),
        }
    }
}

/// Tries the row of a block.
fn try_block(alloc: Global, blocks: &Blocks, block: &Block) -> Result<Tried, AllocError> {
    let comes = outcome(alloc, blocks, block)?;
    if comes == block.wanted {
        return Ok(Tried::AsSaid);
    }
    let (head, given, wanted) = (&block.head, &block.given, &block.wanted);
    Ok(Tried::Otherwise(format!(in alloc; "{head}\n{given}is to come:\n{wanted}comes:\n{comes}")?))
}
