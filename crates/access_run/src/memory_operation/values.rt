//! The values of an access's bytes in the word of their cell, and those that a change gives them.

ghost use Rattle.std.specs.Prelude.{◌≡◌, ◌+◌, ◌*◌, ◌^◌, ◌<◌, ◌≤◌};
ghost use Rattle.access_run.specs.memory_operation.Values as spec;

use crate::memory_operation::operation::Change;
use access_types::Access;
use litmus_semantics::{cut, sign_extended};
use setup_access::source::Source;
use setup_access::values::value_in;

/// The word with a value in the place of the access's bytes, which can hold it. Its other bytes
/// stay.
#[inline(always)]
pub(crate) fn with_value(access: &Access, source: Source, word: u64, value: u64) -> u64
    requires has_bytes { 0 < access.now.size }
    requires in_cell { source.first + access.now.size ≤ 8 }
    requires held { value < 2 ^ (8 * access.now.size) }
    ensures { result ≡ spec.with_value access.now source word value }
{
    let place = 1 << (8 * source.first);
    word - value_in(access, source, word) * place + value * place
}

/// The sum of a value of so many bytes, with its sign, and an amount.
#[inline(always)]
pub(crate) fn sum_of(size: u64, old: u64, amount: u64) -> u64
    ensures { result ≡ spec.sum_of size old amount }
{
    sign_extended(old, size).wrapping_add(amount)
}

/// The value that a change gives so many bytes, which hold `old`: what they can hold of it.
#[inline(always)]
pub(crate) fn new_value(size: u64, change: Change, old: u64) -> u64
    ensures value { result ≡ spec.new_value size change old }
    ensures held { result < 2 ^ (8 * size) }
{
    let value = match change {
        Change::Write(value) | Change::Exchange(value) => value,
        Change::AtomicAdd(amount) => sum_of(size, old, amount),
        Change::CompareExchange { replacement, .. } => replacement,
    };
    cut(value, size)
}

/// Whether a change is made where the bytes, so many, hold `old`: a `cmpxchg` only where that is
/// what they can hold of the expected value.
#[inline(always)]
pub(crate) fn is_wanted(size: u64, change: Change, old: u64) -> bool
    ensures { result ≡ spec.is_wanted size change old }
{
    match change {
        Change::CompareExchange { expected, .. } => old == cut(expected, size),
        _ => true,
    }
}
