//! Rows: what is asked, and what is to come of it.

use crate::{failing, lines, replays, reports, trace};
use std::alloc::{AllocError, Global};
use test_rows::texts::Texts;

/// What is asked.
#[derive(Clone, Copy)]
enum Question {
    /// The head that a text begins with.
    Head,
    /// The line that a text is.
    Line,
    /// What is answered of a trace.
    Replay,
    /// What is answered of it with a part replaced.
    With,
    /// What is answered of each beginning of it.
    Cuts,
    /// How it is written.
    Written,
    /// What is left of it where a write fails.
    Failing,
    /// The text of a report.
    Report,
    /// The texts of reports, with how often each comes.
    Groups,
}

/// What is asked, of what, and what is to come of it.
#[derive(Clone, Copy)]
pub struct Row<'l> {
    question: Question,
    asked: &'l str,
    wanted: &'l str,
}

impl<'l> Row<'l> {
    /// The row of a line: a word for what is asked, of what it is asked, `=>`, and what is to come of it.
    pub fn read(line: &'l str) -> Option<Row<'l>> {
        let (word, rest) = line.split_once(' ')?;
        let (asked, wanted) = rest.split_once(" => ")?;
        Some(Row {
            question: question_of(word)?,
            asked,
            wanted,
        })
    }

    /// What comes of it, or none where it asks of nothing that is there.
    pub fn outcome(&self, alloc: Global, texts: &Texts) -> Result<Option<String>, AllocError> {
        match self.question {
            Question::Head => lines::head(alloc, self.asked),
            Question::Line => lines::line(alloc, self.asked),
            Question::Replay => replays::replayed(alloc, texts, self.asked),
            Question::With => replays::replayed_with(alloc, texts, self.asked),
            Question::Cuts => replays::cut(alloc, texts, self.asked),
            Question::Written => trace::written(alloc, texts, self.asked),
            Question::Failing => failing::failing(alloc, texts, self.asked),
            Question::Report => reports::reported(alloc, texts, self.asked),
            Question::Groups => reports::grouped(alloc, texts, self.asked),
        }
    }

    /// What is to come of it: of reports the texts of these names, else what the row says.
    pub fn wanted(&self, alloc: Global, texts: &Texts) -> Result<Option<String>, AllocError> {
        match self.question {
            Question::Report | Question::Groups => texts.join(self.wanted),
            _ => Ok(Some(String::from_str(alloc, self.wanted)?)),
        }
    }
}

/// What a word asks.
fn question_of(word: &str) -> Option<Question> {
    match word {
        "head" => Some(Question::Head),
        "line" => Some(Question::Line),
        "replay" => Some(Question::Replay),
        "with" => Some(Question::With),
        "cuts" => Some(Question::Cuts),
        "written" => Some(Question::Written),
        "failing" => Some(Question::Failing),
        "report" => Some(Question::Report),
        "groups" => Some(Question::Groups),
        _ => None,
    }
}

/// What stands between quotes.
pub fn quoted(text: &str) -> Option<&str> {
    text.strip_prefix('"')?.strip_suffix('"')
}

/// The number that a word is.
pub fn number(word: Option<&str>) -> Option<u64> {
    word?.parse().ok()
}
