//! What is true of a task's machine, whatever it does.

ghost use Rattle.std.specs.Prelude.{◌≡◌, ◌↔◌, ◌^◌, ◌≤◌, ℕ, Contains, List, length};
ghost use Rattle.litmus_syntax.specs.Limits.{BlockScopes, block_rises};
ghost use Rattle.litmus_syntax.specs.Tree.{Block};
ghost use Rattle.setup_access.specs.declared.begun.Begun.{Begun};
ghost use Rattle.slot_table.specs.declared.records.Record.{Record};
ghost use Rattle.slot_table.specs.declared.step.Step.{Step};
ghost use Rattle.task_run.specs.Accesses.{in_progress_of};
ghost use Rattle.task_run.specs.Keys.{HaveOneKey};
ghost use Rattle.task_run.specs.Leads.{IsStuck, Leads};
ghost use Rattle.task_run.specs.Says.{IsStopped, Says};
ghost use Rattle.task_run.specs.declared.run.TaskRun.{TaskRun};
ghost use Rattle.program_order.specs.InProgress.{IsInProgressAs};
ghost use Rattle.program_order.specs.Standing.{Setting};
ghost use Rattle.program_order.specs.TaskObserved.{did_by};
ghost use Rattle.program_order.specs.Waits as waits;
ghost use Rattle.program_order.specs.WrittenOrder.{WrittenOrder};

/// Law: a machine is before one step at most.
pub fn law_one_step_is_next()
    ensures { (run : TaskRun) (one other : Step) → Says run one → Says run other → one ≡ other }
{}

/// Law: where a part of the text waits too long, the task is stuck by its records in the written order: the only step
/// that they go on with is a try too much.
pub fn law_too_long_a_wait_is_told_by_the_records()
    ensures { (s : Setting) (registers : ℕ) (body : Block) (records : List Record) (run : TaskRun)
        → (leads : Leads s registers body records run)
        → WrittenOrder s registers body records → IsStuck leads → waits.IsStuck s registers body records }
{}

/// Law: a task of a text that keeps the limits never stops for want of room.
pub fn law_no_task_stops()
    ensures { (s : Setting) (registers : ℕ) (body : Block) (records : List Record) (run : TaskRun) → Leads s registers body records run
        → WrittenOrder s registers body records → BlockScopes 0 body → block_rises body ≤ 2 ^ 32 → ¬ IsStopped run }
{}

/// Law: the accesses that a machine tells are those that its task, after the records that lead to the machine, has
/// begun and not ended, with what was decided of each as it began.
pub fn law_machines_tell_accesses_in_progress()
    ensures { (s : Setting) (registers : ℕ) (body : Block) (records : List Record) (machine : TaskRun)
        → Leads s registers body records machine → (written : WrittenOrder s registers body records) → (begun : Begun)
        → Contains (in_progress_of machine) begun ↔ IsInProgressAs s (did_by written (length records)) begun }
{}

/// Law: machines of one key tell the same accesses.
pub fn law_machines_of_one_key_tell_the_same_accesses()
    ensures { (one other : TaskRun) → HaveOneKey one other → in_progress_of one ≡ in_progress_of other }
{}
