//! Reads rows from standard input, each a litmus text whose tasks make their steps on plain words, with the steps,
//! their answers and what is left in the end, and prints those of which something else comes. With the word `growth` it
//! reads none: it makes one task, and says by its status where memory was refused (`tests/refuse_task`).
#![tactic(auto)]

mod growth;
mod notation;
mod play;
mod row;
mod words;

use growth::{BEFORE, status_of_growth};
use row::try_row;
use std::alloc::{AllocError, Global};
use std::process::ExitCode;
use std::{env, io};
use test_rows::texts::Texts;
use test_rows::{Rows, Tried, status_of_rows};

fn main(rt: HostRuntime) -> ExitCode {
    match is_asked_to_grow(&rt) {
        Ok(true) => status_of_growth(rt.alloc()),
        Ok(false) => status_of_rows(
            &rt,
            &mut Scenes {
                texts: Texts::new(rt.alloc()),
            },
        ),
        Err(_) => ExitCode::from(BEFORE),
    }
}

/// Whether the program was started with the word `growth`.
fn is_asked_to_grow(rt: &HostRuntime) -> io::Result<bool> {
    let words: Vec<String> = env::args(rt)?.collect(rt.alloc())?;
    Ok(words.iter().any(|word| word.as_str() == "growth"))
}

/// The texts so far, whose tasks rows play.
#[derive(Drop)]
struct Scenes {
    texts: Texts,
}

impl Rows for Scenes {
    fn try_line(&mut self, alloc: Global, line: &str) -> Result<Tried, AllocError> {
        if self.texts.takes(line)? {
            return Ok(Tried::Kept);
        }
        tried_again(alloc, &self.texts, line)
    }
}

/// Tries the row of a line. Where that is refused memory, it is tried a second time: where one growth of memory is
/// refused, so much has to be said of it, and the row comes out the same.
fn tried_again(alloc: Global, texts: &Texts, line: &str) -> Result<Tried, AllocError> {
    match try_row(alloc, texts, line) {
        Ok(tried) => Ok(tried),
        Err(AllocError) => try_row(alloc, texts, line),
    }
}
