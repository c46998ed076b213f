//! What a task's accesses and its checks of scoped assertions do with an answer.

ghost use Rattle.std.specs.Prelude.{◌≡◌, ◌+◌, ◌-◌, ◌<◌, ◌↔◌, ◌++◌, ◌∷◌, [], ℕ, List, IsTrue, None, Option, Some, length, slice_get};
ghost use Rattle.std.specs.Arc.{arc_value};
ghost use Rattle.access_run.specs.Leads.{AccessLeads, AccessSays};
ghost use Rattle.access_run.specs.declared.memory_operation.operation.Operation.{Operation};
ghost use Rattle.setup_access.specs.Checker.{Doing};
ghost use Rattle.setup_access.specs.Leads as checks;
ghost use Rattle.setup_access.specs.OwnAccesses.{IsOwn};
ghost use Rattle.setup_access.specs.Parts.{made};
ghost use Rattle.setup_access.specs.Setting as settings;
ghost use Rattle.setup_access.specs.Shown.{context_of, outcomes_of};
ghost use Rattle.setup_access.specs.declared.begun.Begun.{Begun};
ghost use Rattle.slot_table.specs.Answer.{Answers};
ghost use Rattle.slot_table.specs.declared.records.Record.{Record};
ghost use Rattle.slot_table.specs.declared.step.Step.{Step};
ghost use Rattle.task_run.specs.Room.{room_of};

use crate::machine::Machine;
use access_run::AccessRun;
use setup_access::Outcome;
use slot_table::Answer;

/// What came of the answer of a check.
#[derive(Clone, Copy)]
pub(crate) struct Came {
    pub(crate) over: bool,
    pub(crate) fell: Option<Outcome>,
}

impl<'a> Machine<'a> {
    /// So many outcomes came of the checks of the part so far.
    pub(crate) fn outcome_count(&self) -> usize
        ensures { result ≡ length (outcomes_of self.now.checker) }
    {
        self.checker.outcomes().len()
    }

    /// The begin of the newest access is behind the task. Where it was before, nothing is written.
    fn has_begun(&mut self)
        ensures { self.new ≡ record self.old { begins = None } }
    {
        if self.begins.is_some() {
            self.begins = None;
        }
    }

    /// An access that is under way takes the answer.
    pub(crate) fn answers_access(&mut self, run: &mut AccessRun, answer: Answer)
        requires { (step : Step) × AccessSays run.old self.old.checker step × Answers step answer }
        ensures leads { (s : settings.Setting) (scopes : List Begun) (begun : Begun) (asked : ℕ) (operation : Option Operation)
            (records : List Record) (step : Step)
            → s.sites ≡ arc_value self.old.sites → AccessLeads s scopes begun asked operation records run.old self.old.checker
            → AccessSays run.old self.old.checker step
            → AccessLeads s scopes begun asked operation (records ++ made s.task step answer ∷ []) run.new self.new.checker }
        ensures context { context_of self.new.checker ≡ context_of self.old.checker }
        ensures kept { self.new ≡ record self.old { checker = self.new.checker; begins = self.new.begins } }
        ensures begun { self.new.begins ≡ None }
        ensures room { room_of self.new ≡ room_of self.old }
    {
        run.answer(&mut self.checker, answer, &*self.sites);
        self.has_begun();
    }

    /// The check that is under way takes the answer.
    pub(crate) fn answers_check(&mut self, answer: Answer) -> Came
        requires { (step : Step) × checks.Says self.old.checker step × Answers step answer }
        ensures leads { (s : settings.Setting) (scopes : List Begun) (doing : Doing) (asked : ℕ) (records : List Record) (step : Step)
            → s.sites ≡ arc_value self.old.sites → checks.Leads s scopes doing asked records self.old.checker → checks.Says self.old.checker step
            → checks.Leads s scopes doing asked (records ++ made s.task step answer ∷ []) self.new.checker }
        ensures over { (s : settings.Setting) (scopes : List Begun) (doing : Doing) (asked : ℕ) (records : List Record)
            → checks.Leads s scopes doing asked records self.new.checker
            → (IsTrue result.over ↔ checks.IsDone s scopes doing asked records) }
        ensures complete { (s : settings.Setting) (scopes : List Begun) (doing : Doing) (asked : ℕ) (records : List Record)
            → checks.Leads s scopes doing asked records self.new.checker → checks.IsDone s scopes doing asked records
            → checks.IsComplete s scopes doing asked records self.new.checker }
        ensures context { context_of self.new.checker ≡ context_of self.old.checker }
        ensures fell { result.fell ≡ slice_get (outcomes_of self.new.checker) (length (outcomes_of self.old.checker)) }
        ensures kept { self.new ≡ record self.old { checker = self.new.checker; begins = self.new.begins } }
        ensures begun { self.new.begins ≡ None }
        ensures room { room_of self.new ≡ room_of self.old }
    {
        let came = self.outcome_count();
        self.checker.answer(answer, &*self.sites);
        self.has_begun();
        Came {
            over: self.checker.is_over(),
            fell: self.checker.outcomes().get(came).copied(),
        }
    }

    /// The scoped assertion whose check is over is in force from now on.
    pub(crate) fn opened(&mut self)
        ensures opens { (s : settings.Setting) (scopes : List Begun) (begun : Begun) (asked : ℕ)
            → checks.Rests s scopes asked (Some begun) self.old.checker
            → IsOwn s begun.access → length scopes < 8 → checks.Rests s (scopes ++ begun ∷ []) asked None self.new.checker }
        ensures in_force { self.old.in_force < 8 → self.new.in_force ≡ self.old.in_force + 1 }
        ensures context { context_of self.new.checker ≡ context_of self.old.checker }
        ensures kept { self.new ≡ record self.old { checker = self.new.checker; in_force = self.new.in_force } }
        ensures room { room_of self.new ≡ room_of self.old }
    {
        // Not before its own check is over: that one doesn't check it again.
        self.checker.open_scoped();
        self.in_force = self.in_force.saturating_add(1);
    }

    /// The newest scoped assertion was in force up to now.
    pub(crate) fn closed(&mut self)
        ensures { self.new ≡ record self.old { in_force = self.old.in_force - 1 } }
    {
        self.in_force = self.in_force.saturating_sub(1);
    }
}
