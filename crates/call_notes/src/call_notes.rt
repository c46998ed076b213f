//! What to write in the place of a call of the kernel or of C that isn't read.

ghost use Rattle.std.specs.Prelude.{◌≡◌, drop};
ghost use Rattle.call_notes.specs.CallNotes as spec;

use crate::atomic_calls::{
    bits_line, builtin_line, count_line, decrease_line, exchange_line, increase_line,
};
use crate::bit_calls::{bit_line, bit_name_line};
use crate::lock_calls::{lock_line, lock_name_line, rcu_line, shared_lock_line, wait_line};
use crate::other_calls::{access_line, access_name_line, left_out_line, left_out_name_line};
use crate::sequence_calls::{latch_line, reading_line, writing_line};
use crate::shared_lines::ATOMIC;

/// The line on a call of another function.
const FUNCTION: &str =
    "note: no other function is called: write its statements in its place, with its variables as parameters of the process\n";

/// What stands behind so many bytes of a name.
fn behind(name: &[u8], count: usize) -> &[u8]
    ensures { result.now ≡ drop count name.now }
{
    if count <= name.len() {
        &name[count..]
    } else {
        &[]
    }
}

/// The line on a call of an atomic variable that does this.
#[tactic(auto, unfolding(crate::specs::CallNotes::operation_note))]
fn operation_note(operation: &[u8]) -> &'static str
    ensures { result.now ≡ spec.operation_note operation.now }
{
    let otherwise = bits_line(operation, ATOMIC);
    let otherwise = decrease_line(operation, otherwise);
    let otherwise = increase_line(operation, otherwise);
    exchange_line(operation, otherwise)
}

/// The line on a call of locks, bits and the like, or else this one.
#[tactic(auto, unfolding(crate::specs::CallNotes::kernel_note))]
fn kernel_note(name: &[u8], otherwise: &'static str) -> &'static str
    ensures { result.now ≡ spec.kernel_note name.now otherwise.now }
{
    let otherwise = bit_line(name, otherwise);
    let otherwise = wait_line(name, otherwise);
    let otherwise = shared_lock_line(name, otherwise);
    let otherwise = lock_line(name, otherwise);
    rcu_line(name, otherwise)
}

/// The line on a call of a sequence count, or else this one.
#[tactic(auto, unfolding(crate::specs::CallNotes::sequence_note))]
fn sequence_note(name: &[u8], otherwise: &'static str) -> &'static str
    ensures { result.now ≡ spec.sequence_note name.now otherwise.now }
{
    let otherwise = reading_line(name, otherwise);
    let otherwise = writing_line(name, otherwise);
    latch_line(name, otherwise)
}

/// The line on a call whose name begins as one of the kernel or of C.
#[tactic(auto, unfolding(crate::specs::CallNotes::other_note))]
fn other_note(name: &[u8]) -> &'static str
    ensures { result.now ≡ spec.other_note name.now }
{
    let otherwise = builtin_line(name, FUNCTION);
    let otherwise = access_line(name, otherwise);
    let otherwise = left_out_line(name, otherwise);
    let otherwise = sequence_note(name, otherwise);
    kernel_note(name, otherwise)
}

/// The line on a call that has no row of its name.
#[tactic(auto, unfolding(crate::specs::CallNotes::front_note))]
fn front_note(name: &[u8]) -> &'static str
    ensures { result.now ≡ spec.front_note name.now }
{
    if name.starts_with(b"atomic_long_") {
        return operation_note(behind(name, 12));
    }
    if name.starts_with(b"atomic64_") {
        return operation_note(behind(name, 9));
    }
    if name.starts_with(b"atomic_") {
        return operation_note(behind(name, 7));
    }
    if name.starts_with(b"refcount_") {
        return operation_note(behind(name, 9));
    }
    other_note(name)
}

/// The line that says why a call isn't read that the kernel's format or C has.
#[tactic(auto, unfolding(crate::specs::CallNotes::call_note))]
pub fn call_note(name: &[u8]) -> &'static str
    ensures { result.now ≡ spec.call_note name.now }
{
    let otherwise = access_name_line(name, front_note(name));
    let otherwise = left_out_name_line(name, otherwise);
    let otherwise = bit_name_line(name, otherwise);
    let otherwise = lock_name_line(name, otherwise);
    count_line(name, otherwise)
}
