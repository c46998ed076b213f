//! The fields of a line, read from the front of bytes: each answers what it read and the bytes after
//! it, or `None` where no such field stands there.

ghost use Rattle.std.specs.Prelude.{◌≡◌, ◌+◌, ◌*◌, ◌^◌, ◌<◌, ◌≤◌, codes, drop, length, take, IfNone, IfSome};
ghost use Rattle.trace_replay.specs.trace_lines.FieldReaders.{AreDigits, AreInLimits, behind_digits, decimal_at, digits_of, flag_at, hex_all, hex_at, hex_value, hit_at, is_number, kind_at, kind_of, letters_at};
ghost use Rattle.trace_replay.specs.trace_lines.FieldReaders.{name_at, name_of, next, operation_at, outcome_at, parted, past, past_in, repetition_at, result_at, small_value, ticket_at};
ghost use Rattle.trace_replay.specs.trace_lines.Reading.{seen, seen_rest};

use access_types::{ArmOutcome, Claim, HitResult, Kind, Operation};

/// An access by its task, its site and its repetition.
#[derive(Clone, Copy)]
pub(crate) struct AccessName {
    pub(crate) task: u32,
    pub(crate) site: u32,
    pub(crate) rep: u32,
}

/// The letters of an access: its kind, whether it counted as marked, and whether it was silenced.
#[derive(Clone, Copy)]
pub(crate) struct AccessLetters {
    pub(crate) kind: Kind,
    pub(crate) marked: bool,
    pub(crate) silenced: bool,
}

/// The bytes behind the word, where it stands at the front. Words are short, and so compared byte by byte.
pub(crate) fn past<'a>(bytes: &'a [u8], word: &[u8]) -> Option<&'a [u8]>
    ensures { seen_rest result ≡ past word.now bytes.now }
{
    if bytes.len() < word.len() {
        return None;
    }
    for i in 0..word.len() {
        if bytes[i] != word[i] {
            return None;
        }
    }
    Some(&bytes[word.len()..])
}

/// The end of a line, where all before it was there.
pub(crate) fn line_end(bytes: Option<&[u8]>) -> Option<&[u8]>
    ensures { seen_rest result ≡ past_in (codes "\n") (seen_rest bytes.entry) }
{
    past(bytes?, b"\n")
}

/// A blank, where all before it was there.
pub(crate) fn blank(bytes: Option<&[u8]>) -> Option<&[u8]>
    ensures { seen_rest result ≡ past_in (codes " ") (seen_rest bytes.entry) }
{
    past(bytes?, b" ")
}

/// A number in decimal behind a blank. Where it isn't there, or something before it wasn't, it is 0
/// with no bytes behind it: so a line's fields are read one behind another, and only at its end is it
/// asked whether all were there.
#[tactic(auto, unfolding(crate::specs::trace_lines::FieldReaders::next))]
pub(crate) fn next_decimal(bytes: Option<&[u8]>) -> (u64, Option<&[u8]>)
    ensures { (result.0, seen_rest result.1) ≡ next decimal_at (seen_rest bytes.entry) }
{
    match blank(bytes) {
        Some(rest) => parted(decimal(rest)),
        None => (0, None),
    }
}

/// The same for a number in hexadecimal.
#[tactic(auto, unfolding(crate::specs::trace_lines::FieldReaders::next))]
pub(crate) fn next_hexadecimal(bytes: Option<&[u8]>) -> (u64, Option<&[u8]>)
    ensures { (result.0, seen_rest result.1) ≡ next hex_at (seen_rest bytes.entry) }
{
    match blank(bytes) {
        Some(rest) => parted(hexadecimal(rest)),
        None => (0, None),
    }
}

/// A number and what is behind it, where it was there.
fn parted(found: Option<(u64, &[u8])>) -> (u64, Option<&[u8]>)
    ensures { (result.0, seen_rest result.1) ≡ parted (seen found.entry) }
{
    match found {
        Some((value, rest)) => (value, Some(rest)),
        None => (0, None),
    }
}

/// The same for a ticket.
#[tactic(auto, unfolding(crate::specs::trace_lines::FieldReaders::next))]
pub(crate) fn next_ticket(bytes: Option<&[u8]>) -> (u32, Option<&[u8]>)
    ensures { (result.0, seen_rest result.1) ≡ next ticket_at (seen_rest bytes.entry) }
{
    let found = match blank(bytes) {
        Some(rest) => ticket(rest),
        None => None,
    };
    match found {
        Some((value, rest)) => (value, Some(rest)),
        None => (0, None),
    }
}

/// A number in decimal, without leading zeros.
#[tactic(auto, unfolding(crate::specs::trace_lines::FieldReaders::decimal_at))]
pub(crate) fn decimal(bytes: &[u8]) -> Option<(u64, &[u8])>
    ensures { seen result ≡ decimal_at bytes.now }
{
    let (digits, rest) = bytes.split_at(digit_count(bytes));
    if is_number(digits) {
        Some((small_value(digits)?, rest))
    } else {
        None
    }
}

/// How many digits stand at the front.
fn digit_count(bytes: &[u8]) -> usize
    ensures within { result ≤ length bytes.now }
    ensures digits { take result bytes.now ≡ digits_of bytes.now }
    ensures rest { drop result bytes.now ≡ behind_digits bytes.now }
    ensures are_digits { AreDigits (take result bytes.now) }
{
    let mut len = 0;
    while len < bytes.len() && bytes[len].is_ascii_digit() {
        len += 1;
    }
    len
}

/// There are digits, with no leading zero.
fn is_number(digits: &[u8]) -> bool
    ensures { result ≡ is_number digits.now }
{
    match digits {
        [] => false,
        [_] => true,
        [first, _, ..] => *first != b'0',
    }
}

/// The value of the digits, if it is below 2^64.
fn small_value(digits: &[u8]) -> Option<u64>
    requires { AreDigits digits.now }
    ensures { result ≡ small_value digits.now }
{
    let mut value: u64 = 0;
    for digit in digits {
        let digit = char::from(*digit).to_digit(10)?;
        value = with_digit(value, digit)?;
    }
    Some(value)
}

/// The value with one digit more, if it is below 2^64.
fn with_digit(value: u64, digit: u32) -> Option<u64>
    ensures found { IfSome result (λ more. more ≡ value * 10 + digit) }
    ensures none { IfNone result (2 ^ 64 ≤ value * 10 + digit) }
{
    value.checked_mul(10)?.checked_add(u64::from(digit))
}

/// `0x` and a number in 16 lower-case hexadecimal digits.
#[tactic(auto, unfolding(crate::specs::trace_lines::FieldReaders::hex_at))]
pub(crate) fn hexadecimal(bytes: &[u8]) -> Option<(u64, &[u8])>
    ensures { seen result ≡ hex_at bytes.now }
{
    let rest = past(bytes, b"0x")?;
    if rest.len() < 16 {
        return None;
    }
    let (digits, rest) = rest.split_at(16);
    Some((hex_all(digits)?, rest))
}

/// The number that lower-case hexadecimal digits spell.
fn hex_all(digits: &[u8]) -> Option<u64>
    requires { length digits.now ≤ 16 }
    ensures { result ≡ hex_all 0 digits.now }
{
    let mut value: u64 = 0;
    for digit in digits {
        value = value * 16 + hex_value(*digit)?;
    }
    Some(value)
}

/// The value of a lower-case hexadecimal digit.
fn hex_value(digit: u8) -> Option<u64>
    ensures value { result ≡ hex_value digit }
    ensures limit { IfSome result (λ value. value < 16) }
{
    match digit {
        b'0'..=b'9' => Some((digit - b'0') as u64),
        b'a'..=b'f' => Some((digit - b'a') as u64 + 10),
        _ => None,
    }
}

/// An access by its task, its site and its repetition, where that is above 0.
#[tactic(auto, unfolding(crate::specs::trace_lines::FieldReaders::name_at))]
pub(crate) fn name(bytes: &[u8]) -> Option<(AccessName, &[u8])>
    ensures reads { seen result ≡ name_at bytes.now }
    ensures limits { IfSome result (λ found. AreInLimits found.0) }
{
    let (task, rest) = decimal(bytes)?;
    let (site, rest) = next_decimal(Some(rest));
    let (rep, rest) = repetition(rest?)?;
    Some((name_of(task, site, rep)?, rest))
}

/// The name of these numbers, where they are within the limits.
fn name_of(task: u64, site: u64, rep: u64) -> Option<AccessName>
    ensures reads { result ≡ name_of task site rep }
    ensures limits { IfSome result AreInLimits }
{
    if task < 16 && site < 256 && rep < 256 {
        Some(AccessName {
            task: task as u32,
            site: site as u32,
            rep: rep as u32,
        })
    } else {
        None
    }
}

/// A repetition above 0 behind a dot, or 0 where there is no dot.
#[tactic(auto, unfolding(crate::specs::trace_lines::FieldReaders::repetition_at))]
fn repetition(bytes: &[u8]) -> Option<(u64, &[u8])>
    ensures { seen result ≡ repetition_at bytes.now }
{
    let Some(rest) = past(bytes, b".") else {
        return Some((0, bytes));
    };
    let (rep, rest) = decimal(rest)?;
    if rep == 0 { None } else { Some((rep, rest)) }
}

/// A name, as a ticket.
#[tactic(auto, unfolding(crate::specs::trace_lines::FieldReaders::ticket_at))]
pub(crate) fn ticket(bytes: &[u8]) -> Option<(u32, &[u8])>
    ensures { seen result ≡ ticket_at bytes.now }
{
    let (name, rest) = name(bytes)?;
    Some((1 + name.task * 65536 + name.site * 256 + name.rep, rest))
}

/// The letters of an access.
#[tactic(auto, unfolding(crate::specs::trace_lines::FieldReaders::letters_at))]
pub(crate) fn letters(bytes: &[u8]) -> Option<(AccessLetters, &[u8])>
    ensures { seen result ≡ letters_at bytes.now }
{
    let (kind, rest) = kind(bytes)?;
    let (marked, rest) = flag(rest, b"c");
    let (silenced, rest) = flag(rest, b"s");
    Some((
        AccessLetters {
            kind,
            marked,
            silenced,
        },
        rest,
    ))
}

/// The letters of a kind.
#[tactic(auto, unfolding(crate::specs::trace_lines::FieldReaders::kind_at))]
fn kind(bytes: &[u8]) -> Option<(Kind, &[u8])>
    ensures { seen result ≡ kind_at bytes.now }
{
    let (operation, rest) = operation(bytes)?;
    let (asserts, rest) = flag(rest, b"a");
    let (declared, rest) = flag(rest, b"m");
    Some((kind_of(operation, asserts, declared)?, rest))
}

/// The kind of these letters.
fn kind_of(operation: Operation, asserts: bool, declared: bool) -> Option<Kind>
    ensures { result ≡ kind_of operation asserts declared }
{
    match (operation, asserts, declared) {
        (operation, false, false) => Some(Kind::Plain(operation)),
        (operation, false, true) => Some(Kind::Marked(operation)),
        (Operation::Read, true, false) => Some(Kind::Assert(Claim::NoWrites)),
        (Operation::Write, true, false) => Some(Kind::Assert(Claim::NoAccesses)),
        (_, true, _) => None,
    }
}

/// The letter of an operation.
#[tactic(auto, unfolding(crate::specs::trace_lines::FieldReaders::operation_at))]
fn operation(bytes: &[u8]) -> Option<(Operation, &[u8])>
    ensures { seen result ≡ operation_at bytes.now }
{
    if let Some(rest) = past(bytes, b"r") {
        return Some((Operation::Read, rest));
    }
    if let Some(rest) = past(bytes, b"w") {
        return Some((Operation::Write, rest));
    }
    Some((Operation::ReadWrite, past(bytes, b"u")?))
}

/// Whether the letter stands at the front, and what is behind it.
#[tactic(auto, unfolding(crate::specs::trace_lines::FieldReaders::flag_at))]
fn flag<'a>(bytes: &'a [u8], letter: &[u8]) -> (bool, &'a [u8])
    ensures { (result.0, result.1.now) ≡ flag_at letter.now bytes.now }
{
    match past(bytes, letter) {
        Some(rest) => (true, rest),
        None => (false, bytes),
    }
}

/// What became of an arming.
#[tactic(auto, unfolding(crate::specs::trace_lines::FieldReaders::outcome_at))]
pub(crate) fn outcome(bytes: &[u8]) -> Option<(ArmOutcome, &[u8])>
    ensures { seen result ≡ outcome_at bytes.now }
{
    if let Some(rest) = past(bytes, b"quiet") {
        return Some((ArmOutcome::Quiet, rest));
    }
    if let Some(rest) = past(bytes, b"origin") {
        return Some((ArmOutcome::Origin, rest));
    }
    hit(bytes)
}

/// A hit, by its finder and its result.
#[tactic(auto, unfolding(crate::specs::trace_lines::FieldReaders::hit_at))]
fn hit(bytes: &[u8]) -> Option<(ArmOutcome, &[u8])>
    ensures { seen result ≡ hit_at bytes.now }
{
    let (finder, rest) = ticket(bytes)?;
    let (result_of_hit, rest) = hit_result(rest)?;
    Some((
        ArmOutcome::Hit {
            finder,
            result: result_of_hit,
        },
        rest,
    ))
}

/// What became of a hit, behind a blank.
#[tactic(auto, unfolding(crate::specs::trace_lines::FieldReaders::result_at))]
fn hit_result(bytes: &[u8]) -> Option<(HitResult, &[u8])>
    ensures { seen result ≡ result_at bytes.now }
{
    if let Some(rest) = past(bytes, b" report") {
        return Some((HitResult::Report, rest));
    }
    if let Some(rest) = past(bytes, b" encoding") {
        return Some((HitResult::Encoding, rest));
    }
    if let Some(rest) = past(bytes, b" same") {
        return Some((HitResult::Same, rest));
    }
    Some((HitResult::Masked, past(bytes, b" masked")?))
}
