//! Bounded executions of litmus texts, by the slow plain program that lists them by their definition:
//! `count NAME RULES SWITCHES => NUMBER`, or `lists NAME RULES SWITCHES => SCHEDULES`.

use crate::words::{Fault, Words, number_of};
use litmus_parse::{ParseError, parse};
use litmus_step::{RunError, Settings};
use oracle_steps::oracle_searched::searched_schedules;
use prepared_program::program_layout::Place;
use std::alloc::{AllocError, Global};
use test_rows::texts::Texts;
use watch_word::Layout;

impl From<ParseError> for Fault {
    fn from(error: ParseError) -> Fault {
        match error {
            ParseError::OutOfMemory => Fault::OutOfMemory,
            _ => Fault::NoRow,
        }
    }
}

impl From<RunError> for Fault {
    fn from(error: RunError) -> Fault {
        match error {
            RunError::OutOfMemory => Fault::OutOfMemory,
            _ => Fault::NoRow,
        }
    }
}

/// What comes of the words `NAME RULES SWITCHES`: how many bounded executions the text has, or which.
pub fn answer(alloc: Global, texts: &Texts, word: &str, asked: &str) -> Result<String, Fault> {
    let mut words = Words::of(asked);
    let text = texts.get(words.word()?).ok_or(Fault::NoRow)?;
    let rules = rules_of(words.word()?)?;
    let most = bound(words.word()?)?;
    words.end()?;
    let settings = settings(rules, Vec::new(alloc));
    let schedules = schedules(alloc, text, &settings, most)?;
    if word == "count" {
        return Ok(format!(in alloc; "{}", schedules.len())?);
    }
    Ok(in_words(alloc, &schedules)?)
}

/// How many preemptions there may be: a number, or `all` for any.
fn bound(word: &str) -> Result<Option<u64>, Fault> {
    if word == "all" {
        return Ok(None);
    }
    Ok(Some(number_of(word)?))
}

/// The rules of an execution.
#[derive(Clone, Copy)]
pub struct Rules {
    strict: bool,
    skip: u64,
    turns: u64,
}

/// What a word for the rules says: `usual`, `strict`, `skip=N`, where N accesses are skipped before one is watched, or
/// `turns=N`, where a wait is stuck after so many failed tries.
pub fn rules_of(word: &str) -> Result<Rules, Fault> {
    let (name, number) = word.split_once('=').unwrap_or((word, "0"));
    let number = number_of(number)?;
    let (strict, skip, turns) = match name {
        "usual" => (false, 0, 1000),
        "strict" => (true, 0, 1000),
        "skip" => (false, number, 1000),
        "turns" => (false, 0, number),
        _ => return Err(Fault::NoRow),
    };
    Ok(Rules {
        strict,
        skip,
        turns,
    })
}

/// The settings of these rules, with places.
pub fn settings(rules: Rules, places: Vec<Place>) -> Settings {
    Settings {
        slots: 64,
        skip: rules.skip,
        randomize: false,
        seed: 1,
        value_change_only: !rules.strict,
        plain_writes_atomic: !rules.strict,
        layout: Layout::W64,
        turns: rules.turns,
        places,
    }
}

/// The bounded executions of a text.
fn schedules(
    alloc: Global,
    text: &str,
    settings: &Settings,
    most: Option<u64>,
) -> Result<Vec<Vec<usize>>, Fault> {
    if settings.turns == 0 {
        return Err(Fault::NoRow);
    }
    let program = parse(alloc, text.as_bytes())?;
    match searched_schedules(alloc, &program, settings, most) {
        Ok(schedules) => Ok(schedules),
        Err(error) => Err(Fault::from(error)),
    }
}

/// Schedules with a blank between two of them.
fn in_words(alloc: Global, schedules: &[Vec<usize>]) -> Result<String, AllocError> {
    let mut words = String::new(alloc);
    for schedule in schedules {
        if !words.is_empty() {
            words.push(' ')?;
        }
        add_schedule(&mut words, schedule)?;
    }
    Ok(words)
}

/// Adds a schedule: which task makes how many steps, adjacent ones of one task joined.
fn add_schedule(words: &mut String, schedule: &[usize]) -> Result<(), AllocError> {
    let mut made: Option<(usize, u64)> = None;
    for task in schedule {
        match made {
            Some((last, steps)) if last == *task => made = Some((last, steps.saturating_add(1))),
            Some((last, steps)) => {
                write!(words, "{last}x{steps},")?;
                made = Some((*task, 1));
            }
            None => made = Some((*task, 1)),
        }
    }
    if let Some((last, steps)) = made {
        write!(words, "{last}x{steps}")?;
    }
    Ok(())
}
