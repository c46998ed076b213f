//! The registers and variables that a condition names.

ghost use Rattle.std.specs.Prelude.{◌≡◌, [], OnOk, IfOk, fold};
ghost use Rattle.litmus_syntax.specs.Views.{proposition_of};
ghost use Rattle.search_text.specs.Locations as spec;
ghost use Rattle.search_text.specs.Locations.{atoms, named_too};

use litmus_syntax::Proposition;
use std::alloc::{AllocError, Global};

/// A register of a task, or a variable, by number.
#[derive(Clone, Copy, PartialEq, Eq)]
pub enum Location {
    Register { task: usize, register: usize },
    Variable { variable: usize },
}

/// Adds a location, unless it is there.
fn name(locations: &mut Vec<Location>, location: Location) -> Result<(), AllocError>
    ensures { OnOk result (locations.new.items ≡ named_too locations.old.items location) }
{
    if !locations.contains(&location) {
        locations.push(location)?;
    }
    Ok(())
}

/// Adds what the proposition names, in the order of its atoms.
fn name_all(locations: &mut Vec<Location>, proposition: &Proposition) -> Result<(), AllocError>
    ensures { OnOk result (locations.new.items ≡ fold named_too locations.old.items (atoms (proposition_of proposition.now))) }
{
    match proposition {
        Proposition::True => Ok(()),
        Proposition::False => Ok(()),
        Proposition::Register {
            task,
            register,
            value: _,
        } => name(
            locations,
            Location::Register {
                task: *task,
                register: *register,
            },
        ),
        Proposition::Variable { variable, value: _ } => name(
            locations,
            Location::Variable {
                variable: *variable,
            },
        ),
        Proposition::Not(inner) => name_all(locations, inner),
        Proposition::And(left, right) => {
            name_all(locations, left)?;
            name_all(locations, right)
        }
        Proposition::Or(left, right) => {
            name_all(locations, left)?;
            name_all(locations, right)
        }
    }
}

/// The registers and variables that the proposition names, each once, in the order of its atoms.
pub fn locations_of(alloc: Global, proposition: &Proposition) -> Result<Vec<Location>, AllocError>
    ensures { IfOk result (λ locations. locations.items ≡ spec.locations_of (proposition_of proposition.now)) }
{
    let mut locations = Vec::new(alloc);
    name_all(&mut locations, proposition)?;
    Ok(locations)
}
