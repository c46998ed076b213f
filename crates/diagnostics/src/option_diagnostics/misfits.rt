//! Which place doesn't suit the variables of a program.

ghost use Rattle.std.specs.Prelude.{◌≡◌, ◌≤◌, ◌<◌, ◌+◌, ◌^◌, IfNone, IfOk, IfSome, IsTrue, length};
ghost use Rattle.std.specs.Option.{option_map};
ghost use Rattle.diagnostics.specs.option_diagnostics.Misfits as spec;
ghost use Rattle.diagnostics.specs.option_diagnostics.Misfits.{IsMisfit};
ghost use Rattle.prepared_program.specs.program_layout.Places.{AreFit, has_name, named};

use litmus_semantics::size_of;
use litmus_syntax::{Name, Variable};
use prepared_program::program_layout::{Layout, LayoutError, Place};
use program_table::text_pieces::{joined, number, shown};
use std::alloc::{AllocError, Global};

/// No variable is placed above this address.
const HIGHEST: u64 = 1 << 62;

/// The variable has this name.
fn has_name(variable: &Variable, name: &Name) -> bool
    ensures { result ≡ has_name name.now variable.now }
{
    variable.name == *name
}

/// The variable of a name.
fn variable_of<'a>(variables: &'a [Variable], name: &Name) -> Option<&'a Variable>
    ensures { option_map (λ variable. variable.now) result ≡ named variables.now name.now }
{
    variables.iter().find(|variable| has_name(variable, name))
}

/// What is wrong with an address for a variable of so many bytes.
fn wrong_with(size: u64, addr: u64) -> &'static str
    ensures { result.now ≡ spec.wrong_with size addr }
{
    if size == 0 {
        return "is a lock, which has no address";
    }
    if addr % size != 0 {
        return "stands at no multiple of its size";
    }
    if addr > HIGHEST {
        return "stands above 0x4000000000000000";
    }
    "is placed twice"
}

/// What is wrong with a place, if it is the first that doesn't suit these variables.
fn wrong(variables: &[Variable], place: &Place) -> &'static str
    ensures { result.now ≡ spec.wrong (named variables.now place.now.name) place.now.addr }
{
    match variable_of(variables, &place.name) {
        Some(variable) => wrong_with(size_of(variable.contents), place.addr),
        None => "is no variable of the program",
    }
}

/// The line that names a place, by its number from 0, and says what is wrong with it.
#[tactic(auto, unfolding(crate::specs::option_diagnostics::Misfits::misfit_line))]
fn misfit_line(
    alloc: Global,
    variables: &[Variable],
    place: usize,
    item: &Place,
) -> Result<Vec<u8>, AllocError>
    requires { place + 1 < 2 ^ 64 }
    ensures { IfOk result (λ line. line.items ≡ spec.misfit_line variables.now place item.now) }
{
    let count = number(alloc, place + 1)?;
    let name = shown(alloc, item.name.as_str().as_bytes())?;
    let why = wrong(variables, item);
    joined(
        alloc,
        &[
            b"item ",
            &count,
            b": `",
            &name,
            b"` ",
            why.as_bytes(),
            b"\n",
        ],
    )
}

/// The places suit the variables.
fn suit(alloc: Global, variables: &[Variable], places: &[Place]) -> Result<bool, AllocError>
    requires { length variables.now ≤ 32 }
    ensures yes { IfOk result (λ suit. IsTrue suit → AreFit variables.now places.now) }
    ensures no { IfOk result (λ suit. AreFit variables.now places.now → IsTrue suit) }
{
    match Layout::new(alloc, variables, places) {
        Ok(_) => Ok(true),
        Err(LayoutError::BadPlace) => Ok(false),
        Err(LayoutError::OutOfMemory) => Err(AllocError),
    }
}

/// What is said of the first place that doesn't suit these variables, behind those before it: its number, its name and
/// why. None: all do.
pub fn misfit(
    alloc: Global,
    variables: &[Variable],
    places: &[Place],
) -> Result<Option<Vec<u8>>, AllocError>
    requires { length variables.now ≤ 32 }
    ensures found { IfOk result (λ said. IfSome said (λ line. IsMisfit variables.now places.now line.items)) }
    ensures none { IfOk result (λ said. IfNone said (AreFit variables.now places.now)) }
{
    for (number, place) in places.iter().enumerate() {
        if !suit(alloc, variables, &places[..number + 1])? {
            let line = misfit_line(alloc, variables, number, place)?;
            return Ok(Some(line));
        }
    }
    Ok(None)
}
