//! What is found of a program, as herd7 writes its log.

ghost use Rattle.std.specs.Prelude.{◌≡◌, IfOk, OnOk, ◌++◌};
ghost use Rattle.std.specs.List.{flat_map};
ghost use Rattle.litmus_syntax.specs.Views.{program_of};
ghost use Rattle.search_text.specs.Write.{at_least, count_text, observation_line, observed, word_of};
ghost use Rattle.search_formats.specs.Herd as spec;

use litmus_print::append_condition;
use litmus_syntax::{Program, Quantifier};
use program_table::text_pieces::{joined, number};
use search_text::{SearchFindings, Sightings};
use std::alloc::{AllocError, Global};

/// What is asked of the final states of a test with this quantifier.
fn kind_word(quantifier: Quantifier) -> &'static str
    ensures { result.now ≡ spec.kind_word quantifier }
{
    match quantifier {
        Quantifier::Exists => "Allowed",
        Quantifier::NotExists => "Forbidden",
        Quantifier::Forall => "Required",
    }
}

/// Whether a condition is validated, whose proposition holds so often, and doesn't hold so often.
fn is_validated(quantifier: Quantifier, held: u64, failed: u64) -> bool
    ensures { result ≡ spec.is_validated quantifier held failed }
{
    match quantifier {
        Quantifier::Exists => held != 0,
        Quantifier::NotExists => held == 0,
        Quantifier::Forall => failed == 0,
    }
}

/// Adds the line of a final state.
fn add_state(text: &mut Vec<u8>, state: &[u8]) -> Result<(), AllocError>
    ensures { OnOk result (text.new.items ≡ text.old.items ++ spec.state_line state.now) }
{
    text.extend_from_slice(state)?;
    text.extend_from_slice(b"\n")
}

/// The lines of the final states.
fn state_lines(alloc: Global, states: &Sightings) -> Result<Vec<u8>, AllocError>
    ensures { IfOk result (λ text. text.items ≡ flat_map (λ sighting. spec.state_line sighting.0) states.now) }
{
    let mut text = Vec::new(alloc);
    for place in 0..states.len() {
        match states.get(place) {
            Some((state, _seen)) => add_state(&mut text, state)?,
            None => unreachable!(),
        }
    }
    Ok(text)
}

/// How many final states there are, and each of them.
#[tactic(auto, unfolding(crate::specs::Herd::states_text))]
fn states_text(alloc: Global, states: &Sightings) -> Result<Vec<u8>, AllocError>
    ensures { IfOk result (λ text. text.items ≡ spec.states_text states.now) }
{
    let count = number(alloc, states.len())?;
    let lines = state_lines(alloc, states)?;
    joined(alloc, &[b"States ", &count, b"\n", &lines])
}

/// The line that says whether the condition is validated.
fn validated_line(quantifier: Quantifier, held: u64, failed: u64) -> &'static str
    ensures { result.now ≡ spec.validated_line quantifier held failed }
{
    if is_validated(quantifier, held, failed) {
        "Ok\n"
    } else {
        "No\n"
    }
}

/// The line of the test.
#[tactic(auto, unfolding(crate::specs::Herd::test_line))]
fn test_line(alloc: Global, name: &str, kind: &str) -> Result<Vec<u8>, AllocError>
    ensures { IfOk result (λ text. text.items ≡ spec.test_line name.now kind.now) }
{
    joined(
        alloc,
        &[b"Test ", name.as_bytes(), b" ", kind.as_bytes(), b"\n"],
    )
}

/// The test, its final states, and whether its condition is validated.
fn front_text(
    alloc: Global,
    program: &Program,
    found: &SearchFindings,
) -> Result<Vec<u8>, AllocError>
    ensures { IfOk result (λ text. text.items ≡ spec.front_text (program_of program.now) found.now) }
{
    let quantifier = program.quantifier;
    let test = test_line(alloc, program.name.as_str(), kind_word(quantifier))?;
    let states = states_text(alloc, found.states())?;
    let validated = validated_line(quantifier, found.held(), found.failed());
    let text = joined(alloc, &[&test, &states, validated.as_bytes()])?;
    Ok(text)
}

/// How often the proposition of a condition holds, and doesn't.
#[tactic(auto, unfolding(crate::specs::Herd::witnesses))]
fn witnesses(alloc: Global, held: u64, failed: u64) -> Result<Vec<u8>, AllocError>
    ensures { IfOk result (λ text. text.items ≡ spec.witnesses held failed) }
{
    let held = number(alloc, held as usize)?;
    let failed = number(alloc, failed as usize)?;
    joined(
        alloc,
        &[
            b"Witnesses\nPositive: ",
            &held,
            b" Negative: ",
            &failed,
            b"\n",
        ],
    )
}

/// The line that says that there is a data race, where there is one.
fn flag_line(raced: bool) -> &'static str
    ensures { result.now ≡ spec.flag_line raced }
{
    if raced { "Flag data-race\n" } else { "" }
}

/// The condition of a program, in a line.
fn condition(alloc: Global, program: &Program) -> Result<Vec<u8>, AllocError>
    ensures { IfOk result (λ text. text.items ≡ spec.condition (program_of program.now)) }
{
    let mut text = String::new(alloc);
    append_condition(&mut text, program)?;
    Ok(text.into_bytes())
}

/// What stands before a number that rests at its last value.
fn at_least(count: u64) -> &'static str
    ensures { result.now ≡ at_least count }
{
    if count == u64::MAX { "at least " } else { "" }
}

/// A number that rests at its last value.
#[tactic(auto, unfolding(search_text::specs::Write::count_text))]
fn resting_count(alloc: Global, count: u64) -> Result<Vec<u8>, AllocError>
    ensures { IfOk result (λ text. text.items ≡ count_text count) }
{
    let digits = number(alloc, count as usize)?;
    joined(alloc, &[at_least(count).as_bytes(), &digits])
}

/// In which of so many and so many a proposition holds.
fn word(held: u64, failed: u64) -> &'static str
    ensures { result.now ≡ word_of held failed }
{
    if held == 0 {
        "Never"
    } else if failed == 0 {
        "Always"
    } else {
        "Sometimes"
    }
}

/// How often a proposition holds, and doesn't.
fn observed(alloc: Global, held: u64, failed: u64) -> Result<Vec<u8>, AllocError>
    ensures { IfOk result (λ text. text.items ≡ observed held failed) }
{
    let positive = resting_count(alloc, held)?;
    let negative = resting_count(alloc, failed)?;
    let text = joined(
        alloc,
        &[
            b" ",
            word(held, failed).as_bytes(),
            b" ",
            &positive,
            b" ",
            &negative,
            b"\n",
        ],
    )?;
    Ok(text)
}

/// The same of the proposition of the test of this name.
fn observation(alloc: Global, name: &str, held: u64, failed: u64) -> Result<Vec<u8>, AllocError>
    ensures { IfOk result (λ text. text.items ≡ observation_line name.now held failed) }
{
    let observed = observed(alloc, held, failed)?;
    let text = joined(alloc, &[b"Observation ", name.as_bytes(), &observed])?;
    Ok(text)
}

/// How often the proposition of the condition holds, whether there is a data race, and the condition.
fn back_text(
    alloc: Global,
    program: &Program,
    raced: bool,
    found: &SearchFindings,
) -> Result<Vec<u8>, AllocError>
    ensures { IfOk result (λ text. text.items ≡ spec.back_text (program_of program.now) raced found.now) }
{
    let (held, failed) = (found.held(), found.failed());
    let witnesses = witnesses(alloc, held, failed)?;
    let condition = condition(alloc, program)?;
    let observed = observation(alloc, program.name.as_str(), held, failed)?;
    let text = joined(
        alloc,
        &[
            &witnesses,
            flag_line(raced).as_bytes(),
            b"Condition ",
            &condition,
            &observed,
        ],
    )?;
    Ok(text)
}

/// What is found of a program, as herd7 writes its log, with one blank line behind it: whether there is a report, and
/// how schedules end.
pub fn herd_text(
    alloc: Global,
    program: &Program,
    raced: bool,
    found: &SearchFindings,
) -> Result<Vec<u8>, AllocError>
    ensures { IfOk result (λ text. text.items ≡ spec.herd_text (program_of program.now) raced found.now) }
{
    let front = front_text(alloc, program, found)?;
    let back = back_text(alloc, program, raced, found)?;
    let text = joined(alloc, &[&front, &back, b"\n"])?;
    Ok(text)
}
