//! What is true of the cells that variables lie in.

ghost use Rattle.std.specs.Prelude.{◌≡◌, ◌≢◌, ◌≤◌, ℕ, List, Some, length, slice_get};
ghost use Rattle.litmus_semantics.specs.Layout.{bytes_at, cells_of};
ghost use Rattle.litmus_semantics.specs.Values.{size_of};
ghost use Rattle.litmus_syntax.specs.Limits.{HaveOwnNames};
ghost use Rattle.litmus_syntax.specs.declared.program.Variable.{Variable};
ghost use Rattle.prepared_program.specs.program_layout.Aligned.{AreAligned};
ghost use Rattle.prepared_program.specs.program_layout.Cells.{LieInOneCell};
ghost use Rattle.prepared_program.specs.program_layout.Places.{AreFit, places_of};
ghost use Rattle.prepared_program.specs.declared.program_layout.place.Place.{Place};

/// Law: where the places fit, and no two variables have one name, the bytes of each variable that has any lie in one
/// cell of memory.
pub fn law_variables_lie_in_one_cell()
    ensures { (variables : List Variable) (places : List Place) → AreFit variables places → HaveOwnNames variables
        → (number : ℕ) (variable : Variable) → slice_get variables number ≡ Some variable → size_of variable.contents ≢ 0
        → LieInOneCell (cells_of (places_of places) variables) (bytes_at (places_of places) number variable) }
{}

/// Law: where the places fit, and no two of up to 32 variables have one name, each variable but the locks stands at a
/// multiple of its size, at 2^62 at most.
pub fn law_variables_are_aligned()
    ensures { (variables : List Variable) (places : List Place) → AreFit variables places → HaveOwnNames variables
        → length variables ≤ 32 → AreAligned (places_of places) variables }
{}
