//! Which armings a list of steps has, and which were taken. Lists have their latest record first.

ghost use Rattle.std.specs.Prelude.{◌≡◌, ◌≢◌, ◌↔◌, ℕ, AllPairs, Contains, IfOk, IsTrue, List, MatchOption, Option, Some};
ghost use Rattle.std.specs.Prelude.{if◌then◌else◌};
ghost use Rattle.std.specs.List.{cons_option};
ghost use Rattle.slot_table.specs.Armings.{armings_taken, last_arming_number, number_after, with_taken};
ghost use Rattle.slot_table.specs.declared.records.Record as spec;

use slot_table::{Answer, Record, Step};
use std::alloc::{AllocError, Global};

/// Whether the record is an arming at the index.
fn arms(made: &Record, index: usize) -> bool
    ensures { (number : ℕ) (before : Option ℕ)
        → number_after index made.now.step made.now.answer number before
        ≡ (if result then Some number else before) }
{
    match (made.step, made.answer) {
        (Step::Insert(at, _), Answer::Flag(true)) => at == index,
        _ => false,
    }
}

/// The number of the last arming at the index.
pub fn last_arming(mut records: &[Record], index: usize) -> Option<usize>
    ensures { result ≡ last_arming_number index records.entry.now }
{
    while let [latest, earlier @ ..] = records {
        if arms(latest, index) {
            return Some(earlier.len());
        }
        records = earlier;
    }
    None
}

/// The index at which the record takes a watchpoint, if it does.
fn takes(made: &Record) -> Option<usize>
    ensures { MatchOption result
        ((earlier : List spec.Record) (before : List ℕ)
        → with_taken made.now.step made.now.answer earlier before ≡ before)
        (λ index. (earlier : List spec.Record) (before : List ℕ)
        → with_taken made.now.step made.now.answer earlier before
        ≡ cons_option (last_arming_number index earlier) before) }
{
    match (made.step, made.answer) {
        (Step::TryConsume(index, _), Answer::Flag(true)) => Some(index),
        _ => None,
    }
}

/// The number of the arming that the record takes, if it does.
fn taken_by(made: &Record, earlier: &[Record]) -> Option<usize>
    ensures { (before : List ℕ)
        → with_taken made.now.step made.now.answer earlier.now before ≡ cons_option result before }
{
    match takes(made) {
        Some(index) => last_arming(earlier, index),
        None => None,
    }
}

/// The numbers of the armings that were taken, a number for each taking.
fn armings_taken(alloc: Global, mut records: &[Record]) -> Result<Vec<usize>, AllocError>
    ensures { IfOk result (λ taken. taken.items ≡ armings_taken records.entry.now) }
{
    let mut taken = Vec::new(alloc);
    while let [latest, earlier @ ..] = records {
        if let Some(number) = taken_by(latest, earlier) {
            taken.push(number)?;
        }
        records = earlier;
    }
    Ok(taken)
}

/// Whether the number is one of those.
fn is_one(numbers: &[usize], number: usize) -> bool
    ensures { IsTrue result ↔ Contains numbers.now number }
{
    numbers.contains(&number)
}

/// No two of the numbers are equal.
fn all_differ(mut numbers: &[usize]) -> bool
    ensures { IsTrue result → AllPairs ◌≢◌ numbers.entry.now }
{
    while let [first, rest @ ..] = numbers {
        if is_one(rest, *first) {
            return false;
        }
        numbers = rest;
    }
    true
}

/// No arming was taken twice.
pub fn taken_once(alloc: Global, records: &[Record]) -> Result<bool, AllocError>
    ensures { IfOk result (λ once. IsTrue once → AllPairs ◌≢◌ (armings_taken records.now)) }
{
    let taken = armings_taken(alloc, records)?;
    Ok(all_differ(taken.as_slice()))
}
