//! What the definitions say of a history.

use crate::accesses::{access_of, bytes_of};
use crate::words::{Fault, Words};
use access_types::Moment;
use oracle_soundness::oracle_definitions::{
    content_after, counted_as_marked, in_progress, silenced, true_race,
};
use std::alloc::{AllocError, Global};

/// The answer to what a word asks of a history.
pub fn answer(alloc: Global, word: &str, asked: &str, history: &[Moment]) -> Result<String, Fault> {
    match word {
        "counted" => which_count(alloc, asked, history),
        "silenced" => which_are_silenced(alloc, asked, history),
        "race" => whether_they_race(alloc, asked, history),
        "progress" => when_in_progress(alloc, asked, history),
        "content" => contents(alloc, asked, history),
        _ => Err(Fault::NoRow),
    }
}

/// Adds an answer, behind a blank where it isn't the first.
pub fn tell(answers: &mut String, answer: &str) -> Result<(), AllocError> {
    if !answers.is_empty() {
        answers.push(' ')?;
    }
    answers.push_str(answer)
}

/// The word for an answer.
fn yes_or_no(answer: bool) -> &'static str {
    if answer { "yes" } else { "no" }
}

/// Plain writes are assumed atomic by the word `lax`, and not by `strict`.
pub fn is_lax(word: &str) -> Result<bool, Fault> {
    match word {
        "lax" => Ok(true),
        "strict" => Ok(false),
        _ => Err(Fault::NoRow),
    }
}

/// `RULE ACCESS ..`: which of the accesses count as marked.
fn which_count(alloc: Global, asked: &str, history: &[Moment]) -> Result<String, Fault> {
    let (rule, accesses) = asked.split_once(' ').ok_or(Fault::NoRow)?;
    let atomic = is_lax(rule)?;
    let mut answers = String::new(alloc);
    for access in accesses.split(' ') {
        let counts = counted_as_marked(alloc, atomic, history, &access_of(access)?)?;
        tell(&mut answers, yes_or_no(counts))?;
    }
    Ok(answers)
}

/// `ACCESS ..`: which of the accesses are silenced.
fn which_are_silenced(alloc: Global, asked: &str, history: &[Moment]) -> Result<String, Fault> {
    let mut answers = String::new(alloc);
    for access in asked.split(' ') {
        let is_silenced = silenced(alloc, history, &access_of(access)?)?;
        tell(&mut answers, yes_or_no(is_silenced))?;
    }
    Ok(answers)
}

/// `RULE ACCESS ACCESS`: whether the two race, which is to be the same both ways.
fn whether_they_race(alloc: Global, asked: &str, history: &[Moment]) -> Result<String, Fault> {
    let mut words = Words::of(asked);
    let atomic = is_lax(words.word()?)?;
    let first = access_of(words.word()?)?;
    let second = access_of(words.word()?)?;
    words.end()?;
    let one_way = true_race(alloc, atomic, history, &first, &second)?;
    let other_way = true_race(alloc, atomic, history, &second, &first)?;
    let answer = if one_way == other_way {
        yes_or_no(one_way)
    } else {
        "one way alone"
    };
    Ok(String::from_str(alloc, answer)?)
}

/// `ACCESS`: whether it is in progress, at first and after each moment.
fn when_in_progress(alloc: Global, asked: &str, history: &[Moment]) -> Result<String, Fault> {
    let access = access_of(asked)?;
    let mut answers = String::new(alloc);
    for k in 0..history.len() + 1 {
        tell(&mut answers, yes_or_no(in_progress(history, &access, k)))?;
    }
    Ok(answers)
}

/// `ADDRESS+SIZE`: what these bytes hold, at first and after each moment.
fn contents(alloc: Global, asked: &str, history: &[Moment]) -> Result<String, Fault> {
    let bytes = bytes_of(asked)?;
    let mut answers = String::new(alloc);
    for k in 0..history.len() + 1 {
        match content_after(history, k, bytes) {
            Some(value) => tell(&mut answers, &format!(in alloc; "{value:#x}")?)?,
            None => tell(&mut answers, "none")?,
        }
    }
    Ok(answers)
}
