//! What comes of litmus texts under settings.

ghost use Rattle.litmus_syntax.specs.Limits.{KeepsLimits};
ghost use Rattle.litmus_syntax.specs.Views.{program_of};

use crate::conflicts::pairs_of;
use crate::searched::{rules_of, settings};
use crate::searches::{alone, states};
use crate::stops::stopped;
use crate::words::{Fault, Words};
use litmus_parse::{Program, parse};
use prepared_program::place_list::parse_places;
use prepared_program::program_layout::Place;
use std::alloc::Global;
use test_rows::texts::Texts;

/// What comes of the words `NAME RULES PLACES ..`.
pub fn answer(alloc: Global, texts: &Texts, word: &str, asked: &str) -> Result<String, Fault> {
    let mut words = Words::of(asked);
    let text = texts.get(words.word()?).ok_or(Fault::NoRow)?;
    let program = parse(alloc, text.as_bytes())?;
    answer_of(alloc, &program, word, words)
}

/// What comes of a program by the words `RULES PLACES ..`.
fn answer_of(
    alloc: Global,
    program: &Program,
    word: &str,
    mut words: Words<'_>,
) -> Result<String, Fault>
    requires { KeepsLimits (program_of program.now) }
{
    let rules = rules_of(words.word()?)?;
    let settings = settings(rules, places_of(alloc, words.word()?)?);
    match word {
        "pairs" => pairs_of(alloc, program, &settings),
        "states" => states(alloc, program, &settings, words),
        "alone" => alone(alloc, program, &settings, words),
        _ => stopped(alloc, program, &settings, words, word == "counts"),
    }
}

/// Places with commas between them; `-` for none.
fn places_of(alloc: Global, text: &str) -> Result<Vec<Place>, Fault> {
    if text == "-" {
        return Ok(Vec::new(alloc));
    }
    parse_places(alloc, text)?.ok_or(Fault::NoRow)
}
