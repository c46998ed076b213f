//! How many steps there are, at most.

ghost use Rattle.std.specs.Prelude.{◌+◌, ◌*◌, ◌^◌, ◌<◌, ◌≤◌, ℕ, List, length, reverse};
ghost use Rattle.litmus_syntax.specs.Limits.{BodyKeepsLimits, KeepsLimits};
ghost use Rattle.litmus_syntax.specs.Tree.{Block};
ghost use Rattle.executions.specs.execution.Run.{Run};
ghost use Rattle.executions.specs.execution.Execution.{Execution};
ghost use Rattle.slot_table.specs.declared.records.Record.{Record};
ghost use Rattle.program_order.specs.Standing.{Setting};
ghost use Rattle.program_order.specs.Waits.{WithinTurns};
ghost use Rattle.program_order.specs.WrittenOrder.{WrittenOrder};

/// Law: a task whose text keeps the limits, and which goes on with no wait for longer than the turns, makes no more
/// than 2^25 steps for each turn and one, and a program no more than each of its tasks. So where the turns are a number
/// of 64 bits, a run has fewer than 2^96 steps.
pub fn law_few_steps_are_made()
    ensures task { (s : Setting) (registers : ℕ) (body : Block) (records : List Record) → BodyKeepsLimits body
        → WrittenOrder s registers body records → WithinTurns s.rules.turns (reverse records)
        → length records ≤ 2 ^ 25 * (s.rules.turns + 1) }
    ensures list { (run : Run) (records : List Record) → KeepsLimits run.program → Execution run records
        → length records ≤ length run.program.tasks * (2 ^ 25 * (run.rules.turns + 1)) }
    ensures all { (run : Run) (records : List Record) → KeepsLimits run.program → run.rules.turns < 2 ^ 64 → Execution run records
        → length records < 2 ^ 96 }
{}
