//! The variables that are accessed at sites.

ghost use Rattle.std.specs.Prelude.{◌≡◌, ◌==◌, ◌∷◌, [], IfOk, List, codes};
ghost use Rattle.std.specs.List.{concat};
ghost use Rattle.litmus_semantics.specs.Layout.{VariablePlace};
ghost use Rattle.prepared_program.specs.program_layout.Lays.{Lays};
ghost use Rattle.program_table.specs.text_pieces.Shown.{cut};
ghost use Rattle.output_pieces.specs.Variables as spec;

use crate::texts::TextBuilder;
use access_types::Bytes;
use litmus_syntax::Variable;
use prepared_program::program_layout::Layout;
use program_table::text_pieces::{cut, joined};
use std::alloc::{AllocError, Global};

/// The number of the first variable with these bytes; where none has them, how many variables there are.
fn first_with(layout: &Layout, variables: &[Variable], bytes: Bytes) -> usize
    ensures { (places : List VariablePlace) → Lays places variables.now layout.now
        → result ≡ spec.first_with places variables.now bytes }
{
    for (number, _) in variables.iter().enumerate() {
        let own = layout.bytes_in(number);
        if own.addr == bytes.addr && own.size == bytes.size {
            return number;
        }
    }
    variables.len()
}

/// The number of the first variable at an address; where none stands there, how many variables there are.
fn first_at(layout: &Layout, variables: &[Variable], addr: u64) -> usize
    ensures { (places : List VariablePlace) → Lays places variables.now layout.now
        → result ≡ spec.first_at places variables.now addr }
{
    for (number, _) in variables.iter().enumerate() {
        if layout.bytes_in(number).addr == addr {
            return number;
        }
    }
    variables.len()
}

/// The number of the first variable with these bytes, or else of the first at their address, since an explicit check
/// may have another size; where none stands there, how many variables there are.
#[tactic(auto, unfolding(crate::specs::Variables::variable_of))]
pub fn variable_of(layout: &Layout, variables: &[Variable], bytes: Bytes) -> usize
    ensures { (places : List VariablePlace) → Lays places variables.now layout.now
        → result ≡ spec.variable_of places variables.now bytes }
{
    let number = first_with(layout, variables, bytes);
    if number < variables.len() {
        return number;
    }
    first_at(layout, variables, bytes.addr)
}

/// The name of a variable; `?` where there is none of this number.
pub fn name_of(variables: &[Variable], number: usize) -> &str
    ensures { result.now ≡ spec.name_of variables.now number }
{
    match variables.get(number) {
        Some(variable) => variable.name.as_str(),
        None => "?",
    }
}

/// The names of two variables, or that of both, where they are the same.
#[tactic(auto, unfolding(crate::specs::Variables::names_of))]
pub fn names_of(
    alloc: Global,
    variables: &[Variable],
    first: usize,
    second: usize,
) -> Result<Vec<u8>, AllocError>
    ensures { IfOk result (λ text. text.items ≡ spec.names_of variables.now first second) }
{
    let one = name_of(variables, first).as_bytes();
    if first == second {
        return Vec::from_slice(alloc, one);
    }
    let other = name_of(variables, second).as_bytes();
    joined(alloc, &[one, b", ", other])
}

/// Two names, each cut where it is long.
fn both_cut(alloc: Global, one: &[u8], other: &[u8]) -> Result<Vec<u8>, AllocError>
    ensures { IfOk result (λ text. text.items ≡ concat (cut one.now 12 ∷ codes ", " ∷ cut other.now 12 ∷ [])) }
{
    TextBuilder::new(alloc)
        .text(cut(alloc, one, 12))
        .piece(b", ")
        .text(cut(alloc, other, 12))
        .build()
}

/// The same, cut where the names are long.
#[tactic(auto, unfolding(crate::specs::Variables::label))]
pub fn label(
    alloc: Global,
    variables: &[Variable],
    first: usize,
    second: usize,
) -> Result<Vec<u8>, AllocError>
    ensures { IfOk result (λ text. text.items ≡ spec.label variables.now first second) }
{
    let one = name_of(variables, first).as_bytes();
    if first == second {
        return cut(alloc, one, 26);
    }
    both_cut(alloc, one, name_of(variables, second).as_bytes())
}
