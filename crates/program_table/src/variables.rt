//! The lines of variables: type, address and initial value.

ghost use Rattle.std.specs.Prelude.{◌≡◌, IfOk, List};
ghost use Rattle.litmus_semantics.specs.Layout.{VariablePlace};
ghost use Rattle.prepared_program.specs.program_layout.Lays.{Lays};
ghost use Rattle.program_table.specs.Variables as spec;

use crate::hex::hexed;
use crate::text_pieces::{cut, joined, padded};
use access_types::Bytes;
use itoa::Buffer;
use litmus_syntax::{Contents, Variable};
use prepared_program::program_layout::Layout;
use std::alloc::{AllocError, Global};

/// The number in decimal, behind a `-` where it is below 0.
fn signed(alloc: Global, value: i64) -> Result<Vec<u8>, AllocError>
    ensures { IfOk result (λ text. text.items ≡ spec.signed value) }
{
    Vec::from_slice(alloc, Buffer::new().format(value).as_bytes())
}

/// The initial value of a variable, as it is written: where another variable is placed over it, its bytes may hold
/// another.
#[tactic(auto, unfolding(crate::specs::Variables::value_text))]
fn value_text(alloc: Global, contents: Contents) -> Result<Vec<u8>, AllocError>
    ensures { IfOk result (λ text. text.items ≡ spec.value_text contents) }
{
    match contents {
        Contents::Char(value) => signed(alloc, value as i64),
        Contents::Short(value) => signed(alloc, value as i64),
        Contents::Int(value) => signed(alloc, value as i64),
        Contents::Atomic(value) => signed(alloc, value as i64),
        Contents::Long(value) => signed(alloc, value),
        Contents::Lock => Vec::from_slice(alloc, b"free"),
    }
}

/// Where a variable with these bytes stands: a lock has none.
#[tactic(auto, unfolding(crate::specs::Variables::address_text))]
fn address_text(alloc: Global, bytes: Bytes) -> Result<Vec<u8>, AllocError>
    ensures { IfOk result (λ text. text.items ≡ spec.address_text bytes) }
{
    if bytes.size == 0 {
        return Vec::from_slice(alloc, b"none");
    }
    hexed(alloc, bytes.addr)
}

/// The line of a variable with these bytes.
#[tactic(auto, unfolding(crate::specs::Variables::variable_line))]
fn variable_line(alloc: Global, bytes: Bytes, variable: &Variable) -> Result<Vec<u8>, AllocError>
    ensures { IfOk result (λ text. text.items ≡ spec.variable_line bytes variable.now) }
{
    let name = cut(alloc, variable.name.as_str().as_bytes(), 32)?;
    let name = padded(alloc, &name, 34)?;
    let kind = padded(alloc, variable.contents.type_name().as_bytes(), 12)?;
    let address = address_text(alloc, bytes)?;
    let address = padded(alloc, &address, 20)?;
    let value = value_text(alloc, variable.contents)?;
    joined(alloc, &[&name, &kind, &address, &value, b"\n"])
}

/// The lines of variables that a layout places.
pub(crate) fn variable_lines(
    alloc: Global,
    layout: &Layout,
    variables: &[Variable],
) -> Result<Vec<u8>, AllocError>
    ensures { (places : List VariablePlace) → Lays places variables.now layout.now
        → IfOk result (λ lines. lines.items ≡ spec.lines_from places variables.now 0 variables.now) }
{
    let mut lines = Vec::new(alloc);
    for (number, variable) in variables.iter().enumerate() {
        let line = variable_line(alloc, layout.bytes_in(number), variable)?;
        lines.extend_from_slice(&line)?;
    }
    Ok(lines)
}
