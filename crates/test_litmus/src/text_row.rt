//! Rows of texts: what comes of them.

use crate::frame::{Kind, kind_of};
use diagnostics::refusal_text::refusal_text;
use litmus_lex::{column_of, line_of};
use litmus_parse::{ParseError, Program, Reading, Refused, parse, print, read_text};
use litmus_syntax::Statement;
use std::alloc::{AllocError, Global};
use test_rows::escapes::unescaped;

/// What is wanted of a text that only has to be read.
const READS: &str = "reads";

/// What comes of a text where there are other places than sites.
const OTHER_PLACES: &str = "reads, with other places than sites";

/// What comes of a refusal of which no text is said.
const NO_TEXT: &str = "refused, with bytes that are no text";

/// What is asked of a text.
#[derive(Clone, Copy)]
enum Question {
    /// Whether it reads.
    Reads,
    /// How it is printed.
    Prints,
    /// Which kinds of statements have its accesses.
    Sites,
    /// Where its accesses begin.
    Places,
    /// Where and why it is refused.
    Offends,
    /// What is said of the refusal.
    Says,
}

/// A text, what is asked of it, and what is to come of it.
#[derive(Drop)]
pub struct Row {
    text: String,
    question: Question,
    pub wanted: String,
}

impl Row {
    /// The row of a line: a word for its kind, a text, `=>`, and what comes of it.
    pub fn read(alloc: Global, line: &str) -> Result<Option<Row>, AllocError> {
        let Some((word, rest)) = line.split_once(' ') else {
            return Ok(None);
        };
        let (Some(kind), Some((text, wanted))) = (kind_of(word), rest.split_once(" => ")) else {
            return Ok(None);
        };
        let text = unescaped(alloc, text)?;
        let wanted = unescaped(alloc, wanted)?;
        let (frame, question, wanted) = match kind {
            Kind::Reads(frame) => (frame, Question::Reads, wanted),
            Kind::Sites(frame) => (frame, Question::Sites, wanted),
            Kind::Places(frame) => (frame, Question::Places, wanted),
            Kind::Offends(frame) => (frame, Question::Offends, wanted),
            Kind::Says(frame) => (frame, Question::Says, wanted),
            Kind::Prints(frame, printed) => (
                frame,
                Question::Prints,
                printed.round(alloc, &wanted)?,
            ),
        };
        Ok(Some(Row {
            text: frame.round(alloc, &text)?,
            question,
            wanted,
        }))
    }
}

/// What comes of a row's text.
pub fn outcome(alloc: Global, row: &Row) -> Result<String, AllocError> {
    let text = row.text.as_bytes();
    match read_text(alloc, text) {
        Err(refused) => refusal(alloc, row.question, text, &refused),
        Ok(reading) => {
            if has_other_places(alloc, &reading)? {
                return String::from_str(alloc, OTHER_PLACES);
            }
            reads(alloc, row.question, text, &reading)
        }
    }
}

/// What is said of a text that is refused.
fn said(alloc: Global, text: &[u8], refused: &Refused) -> Result<String, AllocError> {
    let mut placed = *refused;
    placed.at = placed.at.min(text.len());
    let bytes = refusal_text(alloc, b"t.litmus", text, placed)?;
    match str::from_utf8(&bytes) {
        Ok(message) => String::from_str(alloc, message),
        Err(_) => String::from_str(alloc, NO_TEXT),
    }
}

/// What comes of a text that is refused: the error, or the line, the column and the reason, or what is said of it.
fn refusal(
    alloc: Global,
    question: Question,
    text: &[u8],
    refused: &Refused,
) -> Result<String, AllocError> {
    if refused.error == ParseError::OutOfMemory {
        return Err(AllocError);
    }
    let error = refused.error;
    if matches!(question, Question::Says) {
        return said(alloc, text, refused);
    }
    if !matches!(question, Question::Offends) {
        return format!(in alloc; "{error}");
    }
    let mut shown = String::new(alloc);
    add_place(alloc, &mut shown, text, refused.at)?;
    let reason = refused.reason;
    shown.push_str(format!(in alloc; "{reason:?}")?.as_str())?;
    Ok(shown)
}

/// What comes of a text that is read.
fn reads(
    alloc: Global,
    question: Question,
    text: &[u8],
    reading: &Reading,
) -> Result<String, AllocError> {
    match question {
        Question::Reads | Question::Offends | Question::Says => String::from_str(alloc, READS),
        Question::Prints => printed(alloc, &reading.program),
        Question::Sites => sites(alloc, &reading.program),
        Question::Places => places(alloc, text, reading),
    }
}

/// Whether a task has places of more or fewer accesses than it has sites.
fn has_other_places(alloc: Global, reading: &Reading) -> Result<bool, AllocError> {
    let tasks = reading.program.tasks.as_slice();
    if tasks.len() != reading.places.len() {
        return Ok(true);
    }
    for (task, places) in tasks.iter().zip(reading.places.iter()) {
        if task.sites(alloc)?.len() != places.len() {
            return Ok(true);
        }
    }
    Ok(false)
}

/// The lines and columns of the accesses of each task, behind its number.
fn places(alloc: Global, text: &[u8], reading: &Reading) -> Result<String, AllocError> {
    let mut shown = String::new(alloc);
    for (task, places) in reading.places.iter().enumerate() {
        shown.push_str(format!(in alloc; "P{task} ")?.as_str())?;
        for at in places {
            add_place(alloc, &mut shown, text, *at)?;
        }
    }
    Ok(shown)
}

/// Adds the line and the column of a place, with a blank behind it.
fn add_place(alloc: Global, shown: &mut String, text: &[u8], at: usize) -> Result<(), AllocError> {
    let at = at.min(text.len());
    let line = line_of(text, at);
    let column = column_of(text, at);
    shown.push_str(format!(in alloc; "{line}:{column} ")?.as_str())
}

/// The kinds of the statements with an access, each with a blank behind it.
fn sites(alloc: Global, program: &Program) -> Result<String, AllocError> {
    let mut kinds = String::new(alloc);
    for task in program.tasks.as_slice() {
        for site in task.sites(alloc)? {
            kinds.push_str(kind_of_site(site))?;
        }
    }
    Ok(kinds)
}

/// What kind of statement it is.
fn kind_of_site(statement: &Statement) -> &'static str {
    match statement {
        Statement::Load(_) => "load ",
        Statement::Assign { .. } => "assignment ",
        Statement::Call(_) => "call ",
        Statement::If { .. } | Statement::IfElse { .. } => "branch ",
        Statement::For { .. } => "loop ",
    }
}

/// The printed text of a program, with a word more where that doesn't read back as the program.
fn printed(alloc: Global, program: &Program) -> Result<String, AllocError> {
    let Ok(text) = print(alloc, program) else {
        return Err(AllocError);
    };
    match parse(alloc, text.as_bytes()) {
        Err(ParseError::OutOfMemory) => Err(AllocError),
        Err(refusal) => format!(in alloc; "{text}and then {refusal}"),
        Ok(again) if again == *program => Ok(text),
        Ok(_) => format!(in alloc; "{text}and then another program"),
    }
}
