//! Values in memory. A value is cut to the size of its variable when it is written, and its sign is
//! extended to 64 bits when it is read.

ghost use Rattle.std.specs.Prelude.{◌≡◌, ◌<◌, ◌≤◌, ◌^◌};
ghost use Rattle.litmus_semantics.specs.Values as spec;

use litmus_syntax::Contents;

/// How many bytes a variable has: by C's types for 64 bits, and a lock has none.
pub fn size_of(contents: Contents) -> u64
    ensures { result ≡ spec.size_of contents }
{
    match contents {
        Contents::Char(_) => 1,
        Contents::Short(_) => 2,
        Contents::Int(_) | Contents::Atomic(_) => 4,
        Contents::Long(_) => 8,
        Contents::Lock => 0,
    }
}

/// How many values so many bytes have.
fn values_in(size: u64) -> u64
    requires { size < 8 }
    ensures number { result ≡ 256 ^ size }
    ensures above_zero { 0 < result }
    ensures below { result ≤ 2 ^ 56 }
{
    256u64.pow(size as u32)
}

/// A value in so many bytes: what is above them is lost.
pub fn cut(value: u64, size: u64) -> u64
    ensures { result ≡ spec.cut size value }
{
    if size < 8 {
        value % values_in(size)
    } else {
        value
    }
}

/// The value of so many bytes, in 64 bits with its sign. What is above these bytes has no part in
/// it.
pub fn sign_extended(value: u64, size: u64) -> u64
    ensures { result ≡ spec.sign_extended size value }
{
    if size < 8 {
        let range = values_in(size);
        let low = value % range;
        if range <= 2 * low {
            low + (u64::MAX - range + 1)
        } else {
            low
        }
    } else {
        value
    }
}
