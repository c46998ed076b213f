//! Numbers in rows.

use crate::fault::Fault;
use std::alloc::Global;

/// The number that a text is: `0x` and hexadecimal digits, or decimal digits.
pub fn number(text: &str) -> Result<u64, Fault> {
    let number = match text.strip_prefix("0x") {
        Some(digits) => u64::from_str_radix(digits, 16),
        None => text.parse(),
    };
    number.ok().ok_or(Fault::NoRow)
}

/// The number that a text is, if it is below 2^32.
pub fn small(text: &str) -> Result<u32, Fault> {
    u32::try_from(number(text)?).ok().ok_or(Fault::NoRow)
}

/// The numbers that the words of a text are.
pub fn numbers(alloc: Global, text: &str) -> Result<Vec<u64>, Fault> {
    let mut numbers = Vec::new(alloc);
    for word in text.split_whitespace() {
        numbers.push(number(word)?)?;
    }
    Ok(numbers)
}
