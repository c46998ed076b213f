//! What is true of what a task keeps.

ghost use Rattle.std.specs.Prelude.{◌≡◌, ◌-◌, ◌^◌, ◌<◌, ℕ, List, count_by};
ghost use Rattle.access_types.specs.declared.history.Happening.{Happening};
ghost use Rattle.litmus_semantics.specs.Task.{begins_at, has_lock};
ghost use Rattle.slot_table.specs.declared.records.Record.{Record};
ghost use Rattle.task_plan.specs.SameProgress.{AreOther, StandAlike};
ghost use Rattle.task_plan.specs.Keeps.{Keeps};
ghost use Rattle.task_plan.specs.Plans.{planned_access};
ghost use Rattle.task_plan.specs.Views.{Plan};
ghost use Rattle.task_plan.specs.declared.progress.Progress.{Progress};
ghost use Rattle.program_order.specs.Standing.{Setting, Standing, doing};

/// Law: of standings that are alike the same is kept, and an access that is planned there is the same.
pub fn law_alike_is_kept_alike()
    ensures keeps { (variables : ℕ) (one other : Standing) (progress : Progress) → StandAlike one other
        → Keeps variables one progress → Keeps variables other progress }
    ensures plans { (s : Setting) (one other : Standing) (plan : Plan) (site : ℕ) → StandAlike one other
        → planned_access s one plan site ≡ planned_access s other plan site }
{}

/// Law: what is kept stays so while the task neither begins an access nor takes a lock or gives one back.
pub fn law_other_doings_are_not_kept()
    ensures { (variables : ℕ) (before : Standing) (progress : Progress) (later : List Record) (does : List Happening)
        → AreOther does → Keeps variables before progress → Keeps variables (doing before later does) progress }
{}

/// Law: standings of which the same is kept have the same registers and locks, and an access that is planned there
/// is the same, as long as its site's count hasn't come to the last number.
pub fn law_what_is_kept_is_of_one_standing()
    ensures registers { (variables : ℕ) (one other : Standing) (progress : Progress) → Keeps variables one progress
        → Keeps variables other progress → one.progress.registers ≡ other.progress.registers }
    ensures locks { (variables : ℕ) (one other : Standing) (progress : Progress) → Keeps variables one progress
        → Keeps variables other progress → (variable : ℕ) → has_lock variable one.progress.did ≡ has_lock variable other.progress.did }
    ensures accesses { (s : Setting) (variables : ℕ) (one other : Standing) (progress : Progress) (plan : Plan) (site : ℕ)
        → Keeps variables one progress → Keeps variables other progress → count_by (begins_at site) one.progress.did < 2 ^ 64 - 1
        → planned_access s one plan site ≡ planned_access s other plan site }
{}
