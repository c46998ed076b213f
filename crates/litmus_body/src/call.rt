//! Calls of a process that give no value: barriers, locks, assertions, marks and checks.

ghost use Rattle.std.specs.Prelude.{◌≡◌, ◌≤◌, ◌<◌, OnOk};
ghost use Rattle.litmus_syntax.specs.Limits.{check_limit};
ghost use Rattle.litmus_lex.specs.Cursor.{count_left};
ghost use Rattle.litmus_lex.specs.Front.{Answers};
ghost use Rattle.litmus_expression.specs.Places.{place_of};
ghost use Rattle.litmus_expression.specs.States.{state_of};
ghost use Rattle.litmus_body.specs.CallReader as reader;
ghost use Rattle.litmus_body.specs.StatementReader as statements;

use crate::simple::take_starred;
use litmus_expression::{Process, Surroundings, Takes, open_call, take_behind};
use litmus_lex::{CallWord, Excess, Expected, Refusal, Sign};
use litmus_syntax::{Call, Mark};

/// The largest size of a check.
pub const CHECK_SIZE: u64 = 1_048_576;

/// Law: the largest size of a check is this number.
pub fn law_largest_check()
    ensures { CHECK_SIZE ≡ check_limit }
{}

/// Whether the call begins a scope.
pub fn is_scoped(call: &Call) -> bool
    ensures { result ≡ statements.is_scoped call.now }
{
    match call {
        Call::AssertWriter { scoped, .. } | Call::AssertAccess { scoped, .. } => *scoped,
        _ => false,
    }
}

/// A call, without its `;`.
#[tactic(auto, unfolding(crate::specs::CallReader::call_at))]
pub fn read_call(
    process: &mut Process<'_>,
    word: CallWord,
    around: &Surroundings,
) -> Result<Call, Refusal>
    ensures moves { OnOk result (count_left process.new.cursor < count_left process.old.cursor) }
    ensures reads { Answers result (λ call. (call, state_of process.new))
        (reader.call_at (place_of around.now).turns (place_of around.now).scopes word (state_of process.old)) }
{
    let at = process.cursor.at();
    count_call(process, word, around, at)?;
    open_call(&mut process.cursor)?;
    let call = call_of_word(process, word, around, at)?;
    take_behind(&mut process.cursor, call, Sign::CloseParen)
}

/// Counts the scope and the access of an assertion, which begins at the place.
fn count_call(
    process: &mut Process<'_>,
    word: CallWord,
    around: &Surroundings,
    at: usize,
) -> Result<(), Refusal>
    ensures stays { process.new.cursor ≡ process.old.cursor }
    ensures reads { Answers result (λ _. state_of process.new)
        (reader.count_call (place_of around.now).turns (place_of around.now).scopes word (state_of process.old)) }
{
    match word {
        CallWord::AssertWriter { scoped } | CallWord::AssertAccess { scoped } => {
            if scoped {
                let _ = around.asserting(at)?;
            }
            process.count_access_at(around, at)
        }
        CallWord::AssertBits => process.count_access_at(around, at),
        _ => Ok(()),
    }
}

/// What stands between the parentheses of a call that begins at the place.
#[tactic(auto, unfolding(crate::specs::CallReader::arguments, crate::specs::CallReader::target, crate::specs::SimpleReader::starred_variable))]
fn call_of_word(
    process: &mut Process<'_>,
    word: CallWord,
    around: &Surroundings,
    at: usize,
) -> Result<Call, Refusal>
    ensures moves { OnOk result (count_left process.new.cursor ≤ count_left process.old.cursor) }
    ensures reads { Answers result (λ call. (call, state_of process.new))
        (reader.arguments (place_of around.now).turns word (state_of process.old)) }
{
    match word {
        CallWord::Barrier(barrier) => Ok(Call::Barrier(barrier)),
        // No word has a count.
        CallWord::Mark(Mark::Next(_)) => Err(process.cursor.offence(Expected::Statement)),
        CallWord::Mark(mark) => Ok(Call::Mark(mark)),
        CallWord::AtomicNext => Ok(Call::Mark(Mark::Next(process.cursor.take_number()?))),
        CallWord::Lock => {
            let variable = process.take_variable(Takes::Locks)?;
            Ok(Call::Lock { variable })
        }
        CallWord::Unlock => {
            let variable = process.take_variable(Takes::Locks)?;
            Ok(Call::Unlock { variable })
        }
        CallWord::AssertWriter { scoped } => {
            let variable = take_starred(process, Takes::Memory)?;
            Ok(Call::AssertWriter { variable, scoped })
        }
        CallWord::AssertAccess { scoped } => {
            let variable = take_starred(process, Takes::Memory)?;
            Ok(Call::AssertAccess { variable, scoped })
        }
        CallWord::AssertBits => {
            let variable = take_starred(process, Takes::Memory)?;
            process.cursor.take(Sign::Comma)?;
            let mask = process.cursor.take_number()?;
            Ok(Call::AssertBits { variable, mask })
        }
        CallWord::Check { write } => read_check(process, write, around, at),
    }
}

/// `VAR , NUMBER` of a check that begins at the place. One of size 0 has no access.
#[tactic(auto, using(crate::proofs::Joined::check_joins))]
fn read_check(
    process: &mut Process<'_>,
    write: bool,
    around: &Surroundings,
    at: usize,
) -> Result<Call, Refusal>
    ensures moves { OnOk result (count_left process.new.cursor < count_left process.old.cursor) }
    ensures reads { Answers result (λ call. (call, state_of process.new))
        (reader.check (place_of around.now).turns write (state_of process.old)) }
{
    let variable = process.take_variable_before(Sign::Comma, Takes::Memory)?;
    let excess = process.cursor.excess(Excess::Check);
    let size = process.cursor.take_number()?;
    if size > CHECK_SIZE {
        return Err(excess);
    }
    if size > 0 {
        process.count_access_at(around, at)?;
    }
    Ok(Call::Check {
        write,
        variable,
        size,
    })
}
