//! Scripts: words, one behind the other, each with what comes of it. `STEP=ANSWER` is a step that the part itself
//! makes, `+STEP=ANSWER` one that another task makes, `QUESTION=ANSWER` what the part says of itself.

use crate::fault::Fault;
use crate::notation::{Phrase, push_answer, push_step};
use slot_table::{Answer, Board, PlainBoard, Step};
use std::alloc::{AllocError, Global};

/// A step, and its answer.
pub type Made = (Step, Answer);

/// What a word of a script asks.
#[derive(Clone, Copy)]
pub enum Asked<'t> {
    /// The next step that the part makes.
    Step,
    /// A step of another task, or what the part says of itself.
    Question(Phrase<'t>),
}

/// A part of a task that goes on word by word.
pub trait Scripted {
    /// Writes what comes at a word of the script.
    fn goes_on(&mut self, came: &mut String, word: &str) -> Result<(), Fault>;
}

/// What comes of a part by its script.
pub fn came_of<S: Scripted>(alloc: Global, script: &str, part: &mut S) -> Result<String, Fault> {
    let mut came = String::new(alloc);
    for word in script.split(' ') {
        part.goes_on(&mut came, word)?;
    }
    Ok(came)
}

/// What a word asks, and writes that behind what came so far; of a step, what comes of it says what it is.
pub fn begin_word<'t>(came: &mut String, word: &'t str) -> Result<Asked<'t>, AllocError> {
    push_blank(came)?;
    if matches!(word.as_bytes().first().copied(), Some(b'A'..=b'Z')) {
        return Ok(Asked::Step);
    }
    let question = word.split_inclusive('=').next().unwrap_or("");
    came.push_str(question)?;
    let question = question.strip_suffix('=').unwrap_or(question);
    Ok(Asked::Question(Phrase::read(question)))
}

/// Writes a blank behind what came so far, if anything came.
pub fn push_blank(came: &mut String) -> Result<(), AllocError> {
    if came.is_empty() {
        return Ok(());
    }
    came.push(' ')
}

/// Writes a step that was made, with its answer, or `none`.
pub fn push_made(came: &mut String, made: Option<Made>) -> Result<(), AllocError> {
    let Some((step, answer)) = made else {
        return push_step(came, None);
    };
    push_step(came, Some(step))?;
    came.push('=')?;
    push_answer(came, answer)
}

/// Another task makes a step.
pub fn make_other(
    came: &mut String,
    board: &mut PlainBoard,
    phrase: Phrase<'_>,
) -> Result<(), Fault> {
    let step = phrase.step()?;
    if !board.has(step) {
        return Err(Fault::NoRow);
    }
    push_answer(came, board.step(step))?;
    Ok(())
}
