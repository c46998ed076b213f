//! What is true of records that differ in a stamp.

ghost use Rattle.std.specs.Prelude.{◌++◌, ◌∷◌, ℕ, List};
ghost use Rattle.slot_table.specs.declared.records.Record.{Record};
ghost use Rattle.litmus_syntax.specs.Tree.{Block};
ghost use Rattle.program_order.specs.Standing.{Setting};
ghost use Rattle.program_order.specs.WrittenOrder.{SpellsAll};
ghost use Rattle.executions.specs.timestamp_irrelevance.Stamps.{EndsSo, IsButStamp};

/// Law: stamps tell nothing. With another stamp in one of its records a task's text is spelled as before: the task ends
/// with the same registers, having done the same, and the same outcomes of its checks fall at the same records.
pub fn law_stamps_tell_nothing()
    ensures { (s : Setting) (registers : ℕ) (body : Block) (front : List Record) (one other : Record) (later : List Record)
        → IsButStamp one other → (whole : SpellsAll s registers body (front ++ one ∷ later))
        → EndsSo whole (front ++ other ∷ later) }
{}
