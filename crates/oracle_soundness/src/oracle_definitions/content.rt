//! What memory holds after so many moments.

ghost use Rattle.std.specs.Prelude.{◌≡◌, ◌≤◌, IfSome, length};
ghost use Rattle.access_types.specs.History.{after_moments, byte_of, content};

use access_types::{Bytes, Happening, Moment};

/// The byte at an address after the moments, where every byte is 0 at first.
pub(crate) fn byte_after(history: &[Moment], address: u64) -> u64
    ensures { result ≡ after_moments (λ _. 0) history.now address }
{
    let mut byte = 0;
    for moment in history {
        if let Happening::Write(bytes, value) = moment.happening {
            if bytes.addr <= address && address - bytes.addr < bytes.size {
                byte = byte_of_value(value, address - bytes.addr);
            }
        }
    }
    byte
}

/// The byte of a value at an offset, from the lowest on.
fn byte_of_value(value: u64, offset: u64) -> u64
    ensures { result ≡ byte_of value offset }
{
    let mut rest = value;
    for _ in 0..offset {
        rest /= 256;
    }
    rest % 256
}

/// The content of some bytes after k moments, where every byte is 0 at first; none where it doesn't
/// fit.
pub fn content_after(history: &[Moment], k: usize, bytes: Bytes) -> Option<u64>
    requires { k ≤ length history.now }
    ensures { IfSome result (λ value. value ≡ content (λ _. 0) history.now k bytes) }
{
    let mut value: u64 = 0;
    for offset in (0..bytes.size).rev() {
        let address = bytes.addr.checked_add(offset)?;
        value = value
            .checked_mul(256)?
            .checked_add(byte_after(&history[..k], address))?;
    }
    Some(value)
}
