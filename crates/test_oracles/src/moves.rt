//! The moves of a play, each with what is to come of it.

use crate::accesses::access_of;
use crate::steps::{answer_of, outcome_of, step_of};
use crate::words::{Fault, Words, index_of};
use access_types::Access;
use oracle_steps::oracle_checks::Reading;
use setup_access::Outcome;
use slot_table::{Answer, Step};
use std::alloc::{AllocError, Global};

/// What is done with a task.
#[derive(Clone, Copy)]
pub enum Act {
    /// Its access begins.
    Begin(Access),
    /// Its checker says a step, and the board answers.
    Make,
    /// The row makes this step for it.
    Memory(Step),
    /// The outcomes of its check so far are counted.
    Count,
    /// The outcome with this number is looked at.
    Look(usize),
    /// Its check is to be over or stuck.
    End,
    /// Its assertion is put in force.
    Open,
    /// The scope of its newest assertion ends.
    Close,
}

/// What comes of it.
#[derive(Clone, Copy, Debug, PartialEq, Eq)]
pub enum Came {
    /// Nothing that a row could tell.
    Nothing,
    /// This step was made, and answered so.
    Made(Step, Answer),
    /// There was no step that the board has.
    NoStep,
    /// So many outcomes have come so far.
    Count(usize),
    /// The outcome that has this number, if there is one.
    Outcome(Option<Outcome>),
    /// The check is over, with so many outcomes, and its records read as the whole of it, with the same outcomes.
    Over(usize),
    /// The wait had as many failed tries as the rules allow.
    Stuck,
    /// The check goes on with this step.
    GoesOn(Step),
    /// The check is over, and its records read otherwise.
    Reads(Reading),
    /// The check is over, and its records read with other outcomes.
    ReadsOtherOutcomes,
}

impl Came {
    /// What comes, and the text of the move of which it comes.
    pub fn at(&self, alloc: Global, text: &str) -> Result<String, AllocError> {
        format!(in alloc; "{self:?} at {text}")
    }
}

/// A move, and what is to come of it.
#[derive(Clone, Copy)]
pub struct Move {
    pub act: Act,
    pub comes: Came,
}

impl Move {
    /// The move of a text.
    pub fn read(text: &str) -> Result<Move, Fault> {
        match text.split_once(" = ") {
            Some((made, comes)) => Move::read_made(made, comes),
            None => Move::read_plain(text),
        }
    }

    /// The move of `STEP = ANSWER`, `memory STEP = ANSWER` or `outcome NUMBER = OUTCOME`.
    fn read_made(made: &str, comes: &str) -> Result<Move, Fault> {
        if let Some(step) = made.strip_prefix("memory ") {
            let step = step_of(step)?;
            return Ok(Move {
                act: Act::Memory(step),
                comes: Came::Made(step, answer_of(comes)?),
            });
        }
        if let Some(number) = made.strip_prefix("outcome ") {
            return Ok(Move {
                act: Act::Look(index_of(number)?),
                comes: Came::Outcome(Some(outcome_of(comes)?)),
            });
        }
        Ok(Move {
            act: Act::Make,
            comes: Came::Made(step_of(made)?, answer_of(comes)?),
        })
    }

    /// The move of `begin ACCESS`, `outcomes COUNT`, `over COUNT`, `stuck`, `open` or `close`.
    fn read_plain(text: &str) -> Result<Move, Fault> {
        let mut words = Words::of(text);
        let (act, comes) = match words.word()? {
            "begin" => (Act::Begin(access_of(words.word()?)?), Came::Nothing),
            "outcomes" => (Act::Count, Came::Count(words.index()?)),
            "over" => (Act::End, Came::Over(words.index()?)),
            "stuck" => (Act::End, Came::Stuck),
            "open" => (Act::Open, Came::Nothing),
            "close" => (Act::Close, Came::Nothing),
            _ => return Err(Fault::NoRow),
        };
        words.end()?;
        Ok(Move { act, comes })
    }
}
