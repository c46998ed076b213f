//! Which texts are the same, whether two tasks stand at one place of theirs, and whether the same follows on two
//! accesses.

use crate::fault::{Fault, written};
use crate::notation::{Phrase, cut, push_flag};
use crate::plans::after_first;
use crate::process::{body_of, program_of, walk_of};
use crate::script::{Asked, begin_word};
use litmus_parse::Program;
use litmus_semantics::same_text::is_same_block;
use litmus_syntax::Statement;
use std::alloc::Global;
use task_plan::{Due, Walk};

/// What stands between two texts of a row.
const AND: &str = " and ";

/// Whether texts are the same exactly where they are spelled alike: `HEAD and TEXT and TEXT ..`.
pub fn apart(alloc: Global, start: &str) -> Result<String, Fault> {
    let (head, texts) = start.split_once(AND).ok_or(Fault::NoRow)?;
    let is_so = are_apart(alloc, head, texts)?;
    let mut came = String::new(alloc);
    push_flag(&mut came, is_so)?;
    Ok(came)
}

/// Texts are the same exactly where they are spelled alike.
fn are_apart(alloc: Global, head: &str, texts: &str) -> Result<bool, Fault> {
    let mut is_so = true;
    for one in texts.split(AND) {
        if !is_apart(alloc, head, one, texts)? {
            is_so = false;
        }
    }
    Ok(is_so)
}

/// A text is the same as those that are spelled as it is, and as no others.
fn is_apart(alloc: Global, head: &str, one: &str, texts: &str) -> Result<bool, Fault> {
    let mut is_so = true;
    for other in texts.split(AND) {
        if are_same(alloc, head, one, other)? != (one == other) {
            is_so = false;
        }
    }
    Ok(is_so)
}

/// Two texts behind one head are the same.
fn are_same(alloc: Global, head: &str, one: &str, other: &str) -> Result<bool, Fault> {
    let one = program_behind(alloc, head, one)?;
    is_same(alloc, body_of(&one)?, head, other)
}

/// A body is the same as that of a text behind a head.
fn is_same(alloc: Global, body: &[Statement], head: &str, text: &str) -> Result<bool, Fault> {
    let other = program_behind(alloc, head, text)?;
    Ok(is_same_block(body, body_of(&other)?))
}

/// The program of a text behind a head.
fn program_behind(alloc: Global, head: &str, text: &str) -> Result<Program, Fault> {
    let mut process = String::from_str(alloc, head)?;
    process.push(' ')?;
    process.push_str(text)?;
    process.push_str(" }")?;
    program_of(alloc, &process)
}

/// What comes of two processes with the same parameters: `PROCESS and BODY`.
pub fn places(alloc: Global, start: &str, script: &str) -> Result<String, Fault> {
    let (process, body) = start.split_once(AND).ok_or(Fault::NoRow)?;
    let one = program_of(alloc, process)?;
    compared_with(alloc, &one, process, body, script)
}

/// What comes of the program of a process and that of another body by a script.
fn compared_with(
    alloc: Global,
    one: &Program,
    process: &str,
    body: &str,
    script: &str,
) -> Result<String, Fault> {
    let other = program_with(alloc, process, body)?;
    compared(alloc, one, &other, script)
}

/// The program of a body with the parameters of another process.
fn program_with(alloc: Global, process: &str, body: &str) -> Result<Program, Fault> {
    let (parameters, _) = cut(process, '{')?;
    let mut other = String::from_str(alloc, parameters)?;
    other.push_str(body)?;
    program_of(alloc, &other)
}

/// What comes of two programs by a script.
fn compared(alloc: Global, one: &Program, other: &Program, script: &str) -> Result<String, Fault> {
    let mut came = String::new(alloc);
    for word in script.split(' ') {
        goes_on(alloc, &mut came, one, other, word)?;
    }
    Ok(came)
}

/// What comes at a word of a script.
fn goes_on(
    alloc: Global,
    came: &mut String,
    one: &Program,
    other: &Program,
    word: &str,
) -> Result<(), Fault> {
    let Asked::Question(phrase) = begin_word(came, word)? else {
        return Err(Fault::NoRow);
    };
    let is_same = match phrase.name {
        "at" => stand_alike(alloc, one, other, phrase)?,
        "follows" => follows_alike(alloc, one, other)?,
        _ => return Err(Fault::NoRow),
    };
    written(push_flag(came, is_same))
}

/// Two tasks stand at one place, each behind so many steps.
fn stand_alike(
    alloc: Global,
    one: &Program,
    other: &Program,
    steps: Phrase<'_>,
) -> Result<bool, Fault> {
    let one = walked(alloc, one, steps.number(0)?)?;
    let other = walked(alloc, other, steps.number(1)?)?;
    Ok(one.state_eq(&other))
}

/// Where a task stands behind so many steps, of which each condition holds; a last one isn't said to hold yet.
fn walked(alloc: Global, program: &Program, steps: u64) -> Result<Walk<'_>, Fault> {
    let mut walk = walk_of(alloc, body_of(program)?)?;
    pass(&mut walk, steps);
    Ok(walk)
}

/// A task makes so many steps.
fn pass(walk: &mut Walk<'_>, steps: u64) {
    let mut chooses = false;
    for _ in 0..steps {
        if chooses {
            walk.holds();
        }
        chooses = matches!(walk.go_on(), Due::Condition { .. });
    }
}

/// The same follows on the accesses of the first statements of two processes, if these make accesses.
fn follows_alike(alloc: Global, one: &Program, other: &Program) -> Result<bool, Fault> {
    match (after_first(alloc, one)?, after_first(alloc, other)?) {
        (Some(one), Some(other)) => Ok(one.is_as(&other)),
        _ => Err(Fault::NoRow),
    }
}
