//! The place list: names of variables, each with its address.

ghost use Rattle.std.specs.Prelude.{◌≡◌, ◌==◌, ◌≤◌, ◌↔◌, ℕ, List, IfOk, IsTrue, Some, map, option_map};
ghost use Rattle.std.specs.List.{list_all, slice_split};
ghost use Rattle.prepared_program.specs.declared.program_layout.place.Place.{Place};
ghost use Rattle.prepared_program.specs.place_list.Spelling.{Spells, SpellsDigits, SpellsName, SpellsNumber, SpellsPlace, is_part};

use crate::program_layout::Place;
use litmus_syntax::Name;
use std::alloc::{AllocError, Global};

/// The byte may stand in a name: a letter, a digit or `_`.
fn is_part(byte: u8) -> bool
    ensures { result ≡ is_part byte }
{
    byte == b'_' || byte.is_ascii_alphanumeric()
}

/// Letters, digits and `_` alone.
fn has_parts(text: &str) -> bool
    ensures { result ≡ list_all is_part text.now }
{
    text.bytes().all(is_part)
}

/// The text is a name: letters, digits and `_`, the first of which is no digit.
fn is_name(text: &str) -> bool
    ensures { IsTrue result ↔ SpellsName text.now }
{
    match text.as_bytes().first() {
        Some(first) => !first.is_ascii_digit() && has_parts(text),
        None => false,
    }
}

/// The number below 2^64 that digits spell. No sign is read.
fn numeral(digits: &str, radix: u32) -> Option<u64>
    requires { (2 ≤ radix) × (radix ≤ 16) }
    ensures { (n : ℕ) → SpellsDigits radix digits.now n ↔ (result ≡ Some n) }
{
    if digits.as_bytes().first().copied() == Some(b'+') {
        return None;
    }
    u64::from_str_radix(digits, radix).ok()
}

/// The number below 2^64 that the text spells: decimal digits, or `0x` and hexadecimal digits.
fn number(text: &str) -> Option<u64>
    ensures { (n : ℕ) → SpellsNumber text.now n ↔ (result ≡ Some n) }
{
    match text.split_once('x') {
        Some((zero, digits)) => {
            if zero == "0" {
                numeral(digits, 16)
            } else {
                None
            }
        }
        None => numeral(text, 10),
    }
}

/// The name and the address that the text `NAME=NUMBER` spells.
fn parts(text: &str) -> Option<(&str, u64)>
    ensures { (place : Place) → SpellsPlace text.now place
        ↔ (option_map (λ parts. record { name = parts.0.now; addr = parts.1 }) result ≡ Some place) }
{
    let (name, addr) = text.split_once('=')?;
    let addr = number(addr)?;
    if is_name(name) {
        Some((name, addr))
    } else {
        None
    }
}

/// The texts between the commas of a text.
fn items(alloc: Global, text: &str) -> Result<Vec<&str>, AllocError>
    ensures { IfOk result (λ items. map (λ item. item.now) items.items ≡ slice_split (λ byte. byte == 44) text.now) }
{
    text.split(',').collect(alloc)
}

/// The place of a name and an address.
fn place(alloc: Global, name: &str, addr: u64) -> Result<Place, AllocError>
    ensures { IfOk result (λ place. place ≡ record { name = name.now; addr = addr }) }
{
    let name = Name::from_string(String::from_str(alloc, name)?);
    Ok(Place { name, addr })
}

/// The places of the text: items `NAME=NUMBER` joined by commas, without blanks or signs. The empty text has no
/// place. `None`: the text spells no list of places.
pub fn parse_places(alloc: Global, text: &str) -> Result<Option<Vec<Place>>, AllocError>
    ensures { IfOk result (λ read. (places : List Place) → Spells text.now places
        ↔ (option_map (λ list. list.items) read ≡ Some places)) }
{
    let mut places = Vec::new(alloc);
    if text.is_empty() {
        return Ok(Some(places));
    }
    let items = items(alloc, text)?;
    for item in &items {
        match parts(item) {
            Some((name, addr)) => places.push(place(alloc, name, addr)?)?,
            None => return Ok(None),
        }
    }
    Ok(Some(places))
}
