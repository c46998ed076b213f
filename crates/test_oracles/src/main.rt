//! Reads rows from standard input and prints those of which something else comes: histories, with what the definitions
//! say of them; executions, with the verdict on a pair of sites; plays of some checkers over one board, move by move;
//! records, with what they are of a check; litmus texts, with their bounded executions, the pairs of their sites that
//! conflict, searches of their states, and worlds that are stopped after each step; and boards by their numbers.
#![tactic(auto)]

mod accesses;
mod boards;
mod checks;
mod conflicts;
mod definitions;
mod histories;
mod moves;
mod play;
mod programs;
mod searched;
mod searches;
mod setting;
mod steps;
mod stops;
mod verdicts;
mod words;

use histories::history_of;
use play::Play;
use std::alloc::{AllocError, Global};
use std::process::ExitCode;
use test_rows::texts::Texts;
use test_rows::{Rows, Tried, status_of_rows};
use words::Fault;

fn main(rt: HostRuntime) -> ExitCode {
    let mut questions = Questions {
        play: None,
        texts: Texts::new(rt.alloc()),
    };
    status_of_rows(&rt, &mut questions)
}

/// What rows ask, the play that they go on with, and the texts so far.
#[derive(Drop)]
struct Questions {
    play: Option<Play>,
    texts: Texts,
}

impl Rows for Questions {
    fn try_line(&mut self, alloc: Global, line: &str) -> Result<Tried, AllocError> {
        if self.texts.takes(line)? {
            return Ok(Tried::Kept);
        }
        match otherwise(alloc, &mut self.play, &self.texts, line) {
            Ok(None) => Ok(Tried::AsSaid),
            Ok(Some(comes)) => Tried::other(alloc, line, &comes),
            Err(Fault::NoRow) => Tried::no_row(alloc, line),
            Err(Fault::OutOfMemory) => Err(AllocError),
        }
    }
}

/// What comes of the row of a line, where it isn't what the row says.
fn otherwise(
    alloc: Global,
    play: &mut Option<Play>,
    texts: &Texts,
    line: &str,
) -> Result<Option<String>, Fault> {
    let (word, rest) = line.split_once(' ').ok_or(Fault::NoRow)?;
    match word {
        "play" => {
            *play = Some(Play::read(alloc, rest)?);
            Ok(None)
        }
        "task" => match play {
            Some(play) => play.otherwise(alloc, rest),
            None => Err(Fault::NoRow),
        },
        _ => other_answer(alloc, texts, word, rest),
    }
}

/// What comes of a question, where it isn't what the row says.
fn other_answer(
    alloc: Global,
    texts: &Texts,
    word: &str,
    rest: &str,
) -> Result<Option<String>, Fault> {
    let (asked, said) = rest.split_once(" => ").ok_or(Fault::NoRow)?;
    let comes = answer(alloc, texts, word, asked)?;
    Ok(if comes.as_str() == said {
        None
    } else {
        Some(comes)
    })
}

/// What comes of a question.
fn answer(alloc: Global, texts: &Texts, word: &str, asked: &str) -> Result<String, Fault> {
    let (asked, told) = asked.split_once(" | ").unwrap_or((asked, ""));
    match word {
        "pairs" | "states" | "alone" | "stops" | "counts" => {
            programs::answer(alloc, texts, word, asked)
        }
        "boards" => boards::answer(alloc, asked),
        "count" | "lists" => searched::answer(alloc, texts, word, asked),
        "checker" => checks::new_checker(alloc, asked),
        "records" => checks::reading(alloc, asked, told),
        "verdict" => verdicts::answer(alloc, asked, told),
        _ => definitions::answer(alloc, word, asked, &history_of(alloc, told)?),
    }
}
