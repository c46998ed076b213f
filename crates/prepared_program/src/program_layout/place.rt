//! Places that are given for variables.

ghost use Rattle.std.specs.Prelude.{◌≡◌, ◌↔◌, IsTrue, find};
ghost use Rattle.std.specs.Option.{option_map};
ghost use Rattle.prepared_program.specs.program_layout.Places.{AreFit, IsFit, has_name, is_for, named};

use litmus_semantics::size_of;
use litmus_syntax::{Name, Variable};

/// The address of the variable of a name.
#[derive(Drop)]
pub struct Place {
    pub name: Name,
    pub addr: u64,
}

/// No variable is placed above this address.
/// The longest check from there on still ends below 2^63, so no range of bytes wraps.
const HIGHEST: u64 = 0x4000_0000_0000_0000;

/// The place is for the variable of this name.
fn is_for(place: &Place, name: &Name) -> bool
    ensures { result ≡ is_for name.now place.now }
{
    place.name == *name
}

/// The variable has this name.
fn has_name(variable: &Variable, name: &Name) -> bool
    ensures { result ≡ has_name name.now variable.now }
{
    variable.name == *name
}

/// The first place that is given for a name.
pub(crate) fn place_of<'a>(places: &'a [Place], name: &Name) -> Option<&'a Place>
    ensures { option_map (λ place. place.now) result ≡ find (is_for name.now) places.now }
{
    places.iter().find(|place| is_for(place, name))
}

/// The variable of a name.
fn named<'a>(variables: &'a [Variable], name: &Name) -> Option<&'a Variable>
    ensures { option_map (λ variable. variable.now) result ≡ named variables.now name.now }
{
    variables.iter().find(|variable| has_name(variable, name))
}

/// A place is fit for its variable: that has bytes, and stands at a multiple of its size, at 2^62 or below.
fn is_fit(variables: &[Variable], place: &Place) -> bool
    ensures { IsTrue result ↔ IsFit variables.now place.now }
{
    match named(variables, &place.name) {
        Some(variable) => {
            let size = size_of(variable.contents);
            // At a multiple of its size it lies in one cell, so one step loads it whole. A lock has no bytes to place.
            size != 0 && place.addr % size == 0 && place.addr <= HIGHEST
        }
        None => false,
    }
}

/// All places are fit for their variables, and no variable is placed twice.
pub(crate) fn are_fit(variables: &[Variable], places: &[Place]) -> bool
    ensures { IsTrue result ↔ AreFit variables.now places.now }
{
    match places.split_first() {
        Some((place, later)) => {
            is_fit(variables, place)
                && place_of(later, &place.name).is_none()
                && are_fit(variables, later)
        }
        None => true,
    }
}
