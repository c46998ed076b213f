//! What is true of the accesses of a program.

ghost use Rattle.std.specs.Prelude.{◌≢◌, List, Some};
ghost use Rattle.access_types.specs.Access.{Access, IsInLimits};
ghost use Rattle.litmus_syntax.specs.Limits.{KeepsLimits};
ghost use Rattle.litmus_syntax.specs.Tree.{Program};
ghost use Rattle.prepared_program.specs.program_layout.Places.{AreFit, places_of};
ghost use Rattle.prepared_program.specs.declared.program_layout.place.Place.{Place};
ghost use Rattle.prepared_program.specs.program_sites.Sites.{IsOfProgram};

/// Law: an access of a program that keeps the limits, at places that fit, is within the limits of accesses, and a mask
/// of it has a bit.
pub fn law_accesses_are_in_limits()
    ensures { (program : Program) (places : List Place) → KeepsLimits program → AreFit program.variables places
        → (a : Access) → IsOfProgram program (places_of places) a → IsInLimits a × (a.mask ≢ Some 0) }
{}
