//! Which parts are a whole search.

ghost use Rattle.std.specs.Prelude.{◌≡◌, ◌<◌, ◌≤◌, ◌↔◌, ℕ, IsTrue, MatchOption, MatchResult, length};
ghost use Rattle.part_search.specs.part_file.Wholes.{AreOfOneFile, AreRight, AreWhole, GoByTheSame, IsFault, IsInRange, IsRight, IsWrong};
ghost use Rattle.part_search.specs.part_file.Wholes as spec;

use crate::part_file::part::{Part, PartSettings};
use prepared_program::program_layout::Place;

/// What is amiss with a part.
#[derive(Clone, Copy)]
pub enum PartFault {
    /// It is of another file than the first.
    OtherFile,
    /// Its search goes by other settings than that of the first, or is shared out among more or fewer.
    OtherSettings,
    /// Its number is none of those from 1 to that of all parts, or these are more than 65,536.
    OutOfRange,
    /// One before it has its number.
    Twice,
}

/// Why parts are no whole search.
#[derive(Clone, Copy)]
pub enum PartsFault {
    /// There is none.
    NoPart,
    /// This is amiss with the one at this place, counted from 0.
    At(usize, PartFault),
    /// None has this number.
    Missing(u64),
}

/// At most so many parts share a search.
pub const MOST_PARTS: u64 = 65_536;

/// Whether two parts are of one file.
fn are_of_one_file(first: &Part, part: &Part) -> bool
    ensures { IsTrue result ↔ AreOfOneFile first.now part.now }
{
    part.file.as_str() == first.file.as_str() && part.text.as_slice() == first.text.as_slice()
}

/// Whether two searches go by the same, but for the places.
fn are_same_settings(one: PartSettings, other: PartSettings) -> bool
    ensures { IsTrue result ↔ (one ≡ other) }
{
    one == other
}

/// Whether two places are the same.
fn is_same_place(one: &Place, other: &Place) -> bool
    ensures { IsTrue result ↔ (one.now ≡ other.now) }
{
    one.name.as_str() == other.name.as_str() && one.addr == other.addr
}

/// Whether these are the same places, in the same order.
fn are_same_places(ones: &[Place], others: &[Place]) -> bool
    ensures { IsTrue result ↔ (ones.now ≡ others.now) }
{
    if ones.len() != others.len() {
        return false;
    }
    for place in 0..ones.len() {
        if !is_same_place(&ones[place], &others[place]) {
            return false;
        }
    }
    true
}

/// Whether their searches go by the same, and are shared out among as many.
fn go_by_the_same(first: &Part, part: &Part) -> bool
    ensures { IsTrue result ↔ GoByTheSame first.now part.now }
{
    are_same_places(&part.places, &first.places)
        && are_same_settings(part.settings, first.settings)
        && part.parts == first.parts
}

/// Whether the number of a part is one of those that parts have.
fn is_in_range(part: &Part) -> bool
    ensures { IsTrue result ↔ IsInRange part.now }
{
    1 <= part.part && part.part <= part.parts && part.parts <= MOST_PARTS
}

/// Whether one of the parts has this number.
fn has_number(parts: &[Part], number: u64) -> bool
    ensures { result ≡ spec.has_number parts.now number }
{
    parts.iter().any(|part| part.part == number)
}

/// What is amiss with a part, given the first of all and those before it.
fn fault_of(first: &Part, before: &[Part], part: &Part) -> Option<PartFault>
    ensures { MatchOption result (IsRight first.now before.now part.now)
        (λ fault. IsWrong fault first.now before.now part.now) }
{
    if !are_of_one_file(first, part) {
        return Some(PartFault::OtherFile);
    }
    if !go_by_the_same(first, part) {
        return Some(PartFault::OtherSettings);
    }
    if !is_in_range(part) {
        return Some(PartFault::OutOfRange);
    }
    if has_number(before, part.part) {
        return Some(PartFault::Twice);
    }
    None
}

/// The first part with which something is amiss, and what that is.
fn first_wrong(first: &Part, parts: &[Part]) -> Option<(usize, PartFault)>
    ensures { MatchOption result (AreRight first.now parts.now (length parts.now))
        (λ found. spec.IsWrongAt first.now found.0 found.1 parts.now) }
{
    for place in 0..parts.len() {
        if let Some(fault) = fault_of(first, &parts[..place], &parts[place]) {
            return Some((place, fault));
        }
    }
    None
}

/// The first number from 1 to this one that no part has.
fn first_missing(parts: &[Part], count: u64) -> Option<u64>
    ensures { MatchOption result ((number : ℕ) → 1 ≤ number → number ≤ count → IsTrue (spec.has_number parts.now number))
        (λ number. spec.IsFirstMissing parts.now count number) }
{
    for before in 0..count {
        if !has_number(parts, before + 1) {
            return Some(before + 1);
        }
    }
    None
}

/// Whether the parts are a whole search, and if not, why. What is amiss with a part goes before a part that is missing.
pub fn check_parts(parts: &[Part]) -> Result<(), PartsFault>
    ensures { MatchResult result (λ _. AreWhole parts.now) (λ fault. IsFault fault parts.now) }
{
    let Some(first) = parts.first() else {
        return Err(PartsFault::NoPart);
    };
    if let Some((place, fault)) = first_wrong(first, parts) {
        return Err(PartsFault::At(place, fault));
    }
    match first_missing(parts, first.parts) {
        Some(number) => Err(PartsFault::Missing(number)),
        None => Ok(()),
    }
}
