//! Bytes as they are shown, whatever they are.

ghost use Rattle.std.specs.Prelude.{◌≡◌, ◌++◌, ◌<◌, ◌≤◌, IfOk, OnOk, false};
ghost use Rattle.std.specs.Fmt.{digit_glyph};
ghost use Rattle.program_table.specs.text_pieces.Shown as spec;

use crate::text_pieces::pieces::joined;
use std::alloc::{AllocError, Global};

/// The hexadecimal digit of this value.
fn digit(value: u8) -> u8
    requires { value < 16 }
    ensures { result ≡ digit_glyph false value }
{
    match value {
        0..10 => b'0' + value,
        _ => b'a' + (value - 10),
    }
}

/// Adds a byte as it is shown: a tab as a blank, and one that can't be shown by its number.
fn add_byte(text: &mut Vec<u8>, byte: u8) -> Result<(), AllocError>
    ensures { OnOk result (text.new.items ≡ text.old.items ++ spec.shown_byte byte) }
{
    if byte == b'\t' {
        return text.extend_from_slice(b" ");
    }
    if b' ' <= byte && byte <= b'~' {
        return text.extend_from_slice(&[byte]);
    }
    text.extend_from_slice(&[b'\\', b'x', digit(byte / 16), digit(byte % 16)])
}

/// Bytes as they are shown.
pub fn shown(alloc: Global, bytes: &[u8]) -> Result<Vec<u8>, AllocError>
    ensures { IfOk result (λ text. text.items ≡ spec.shown bytes.now) }
{
    let mut text = Vec::new(alloc);
    for byte in bytes {
        add_byte(&mut text, *byte)?;
    }
    Ok(text)
}

/// A name as it is shown where there is room for so many bytes: cut, with `..` behind it, where it is longer.
#[tactic(auto, unfolding(crate::specs::text_pieces::Shown::cut))]
pub fn cut(alloc: Global, name: &[u8], room: usize) -> Result<Vec<u8>, AllocError>
    requires { 2 ≤ room }
    ensures { IfOk result (λ text. text.items ≡ spec.cut name.now room) }
{
    if name.len() <= room {
        return Vec::from_slice(alloc, name);
    }
    joined(alloc, &[&name[..room - 2], b".."])
}
