//! Texts from files as they are written in HTML: none of their bytes opens a tag, ends the value of an attribute or
//! begins an entity of its own.

ghost use Rattle.std.specs.Prelude.{◌≡◌, ◌++◌, IfOk, OnOk};
ghost use Rattle.race_page.specs.Escape as spec;

use output_pieces::add_text;
use program_table::text_pieces::shown;
use std::alloc::{AllocError, Global};

/// Adds a byte: where it has a meaning in HTML the entity that stands for it, and where it can't be shown its number.
pub(crate) fn add_byte(text: &mut Vec<u8>, alloc: Global, byte: u8) -> Result<(), AllocError>
    ensures { OnOk result (text.new.items ≡ text.old.items ++ spec.escaped_byte byte) }
{
    match byte {
        b'&' => text.extend_from_slice(b"&amp;"),
        b'<' => text.extend_from_slice(b"&lt;"),
        b'>' => text.extend_from_slice(b"&gt;"),
        b'"' => text.extend_from_slice(b"&quot;"),
        b'\'' => text.extend_from_slice(b"&#39;"),
        b'\t' => text.extend_from_slice(b"\t"),
        b'\r' => text.extend_from_slice(b" "),
        _ => add_text(text, shown(alloc, &[byte])),
    }
}

/// A text as it is written in HTML.
pub fn escaped(alloc: Global, text: &[u8]) -> Result<Vec<u8>, AllocError>
    ensures { IfOk result (λ found. found.items ≡ spec.escaped text.now) }
{
    let mut found = Vec::new(alloc);
    for byte in text {
        add_byte(&mut found, alloc, *byte)?;
    }
    Ok(found)
}
