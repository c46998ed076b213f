//! What is true of the steps of a task, whatever they are answered.

ghost use Rattle.std.specs.Prelude.{◌+◌, ◌++◌, ◌≤◌, ◌∷◌, [], ℕ, List, length};
ghost use Rattle.litmus_syntax.specs.Limits.{TaskKeepsLimits};
ghost use Rattle.litmus_syntax.specs.Tree.{Block, Task};
ghost use Rattle.access_run.specs.memory_operation.Leads.{GoesOn};
ghost use Rattle.setup_access.specs.Parts.{made};
ghost use Rattle.slot_table.specs.Answer.{Answers};
ghost use Rattle.slot_table.specs.declared.records.Record.{Record};
ghost use Rattle.slot_table.specs.declared.step.Answer.{Answer};
ghost use Rattle.slot_table.specs.declared.step.Step.{Step};
ghost use Rattle.task_plan.specs.task_laws.Begins.{block_begins};
ghost use Rattle.task_plan.specs.task_laws.StandingButWay.{begun_at, core_of};
ghost use Rattle.task_plan.specs.task_laws.Fits.{ArePlaced};
ghost use Rattle.task_plan.specs.task_laws.SameStep.{IsAlike};
ghost use Rattle.program_order.specs.Standing.{Setting, Standing};
ghost use Rattle.program_order.specs.WrittenOrder.{SpellsAll, StepsOfBlock, WrittenOrder};

/// Law: of a text within the limits, whose variables are placed: where a record of records in the written order
/// had another answer, the records up to it are in the written order too. So is what a task made with one step
/// more, by whatever answer, if all that completes it goes on with this step.
pub fn law_an_answer_leads_on()
    ensures another { (s : Setting) (task : Task) (records : List Record) (first other : Record) (later : List Record)
        → ArePlaced s → TaskKeepsLimits s.text.variables task → IsAlike first other
        → SpellsAll s (length task.registers) task.body (records ++ first ∷ later)
        → WrittenOrder s (length task.registers) task.body (records ++ other ∷ []) }
    ensures next { (s : Setting) (task : Task) (records : List Record) (step : Step) (answer : Answer)
        → ArePlaced s → TaskKeepsLimits s.text.variables task → Answers step answer
        → WrittenOrder s (length task.registers) task.body records
        → ((later : List Record) → SpellsAll s (length task.registers) task.body (records ++ later) → GoesOn s.text.task step later)
        → WrittenOrder s (length task.registers) task.body (records ++ made s.text.task step answer ∷ []) }
{}

/// Law: by whatever records a block is spelled, at each site no more accesses begin in it than it has room for.
pub fn law_accesses_begin_within_the_text()
    ensures { (s : Setting) (site : ℕ) (body : Block) (before : Standing) (records : List Record) (end : Standing) (rest : List Record)
        → StepsOfBlock s site body before records end rest → (at : ℕ)
        → begun_at at (core_of end) ≤ begun_at at (core_of before) + block_begins site body at }
{}
