//! Histories, as rows write them: `TASK WHAT`, with a comma between two moments.

use crate::accesses::{access_of, bytes_of};
use crate::words::{Fault, Words};
use access_types::{Happening, Mark, Moment};
use std::alloc::Global;

/// The moments of a text.
pub fn history_of(alloc: Global, text: &str) -> Result<Vec<Moment>, Fault> {
    let mut history = Vec::new(alloc);
    for moment in text.split(", ") {
        add_moment(&mut history, moment)?;
    }
    Ok(history)
}

/// Puts the moment of a text behind the others.
pub fn add_moment(history: &mut Vec<Moment>, text: &str) -> Result<(), Fault> {
    let Moment { task, happening } = moment_of(text)?;
    history.push(Moment { task, happening })?;
    Ok(())
}

/// The moment of a text.
fn moment_of(text: &str) -> Result<Moment, Fault> {
    let mut words = Words::of(text);
    let task = words.small()?;
    let happening = happening_of(&mut words)?;
    words.end()?;
    Ok(Moment { task, happening })
}

/// What happens, by the next words.
fn happening_of(words: &mut Words<'_>) -> Result<Happening, Fault> {
    match words.word()? {
        "begin" => Ok(Happening::Begin(access_of(words.word()?)?)),
        "end" => Ok(Happening::End(access_of(words.word()?)?)),
        "read" => Ok(Happening::Read(bytes_of(words.word()?)?, words.number()?)),
        "write" => Ok(Happening::Write(bytes_of(words.word()?)?, words.number()?)),
        "next" => Ok(Happening::Mark(Mark::Next(words.number()?))),
        word => Ok(Happening::Mark(mark_of(word)?)),
    }
}

/// The mark that a word calls for.
fn mark_of(word: &str) -> Result<Mark, Fault> {
    match word {
        "disable" => Ok(Mark::Disable),
        "enable" => Ok(Mark::Enable),
        "nest_open" => Ok(Mark::NestOpen),
        "nest_close" => Ok(Mark::NestClose),
        "flat_begin" => Ok(Mark::FlatBegin),
        "flat_end" => Ok(Mark::FlatEnd),
        _ => Err(Fault::NoRow),
    }
}
