//! How what is due in a task's text begins.

ghost use Rattle.std.specs.Prelude.{◌≡◌, ◌≢◌, ◌↔◌, ◌<◌, ◌≤◌, ℕ, List, IfOk, IsTrue, None, OnErr, true};
ghost use Rattle.std.specs.Arc.{arc_value};
ghost use Rattle.access_types.specs.Access.{IsInLimits};
ghost use Rattle.litmus_syntax.specs.Tree as tree;
ghost use Rattle.litmus_syntax.specs.Views.{assignment_of, expression_of, load_of, pure_of, statement_of};
ghost use Rattle.litmus_syntax.specs.declared.statement.Call.TheVariants.{Lock, Unlock};
ghost use Rattle.setup_access.specs.OwnAccesses.{IsOwn};
ghost use Rattle.slot_table.specs.declared.records.Record.{Record};
ghost use Rattle.access_run.specs.Leads.{HasCell};
ghost use Rattle.task_run.specs.Agrees.{Begins, IsFit};
ghost use Rattle.task_run.specs.Due.{ConditionDue, PartBegins, StatementDue};
ghost use Rattle.litmus_semantics.specs.Task as meaning;
ghost use Rattle.task_plan.specs.Plans.{call_plan, planned_access};
ghost use Rattle.task_plan.specs.Keeps.{Keeps};
ghost use Rattle.task_run.specs.Plans.{ChecksNoByte, LoadLeft, PlanLeft};
ghost use Rattle.task_run.specs.Room.{room_of};
ghost use Rattle.task_run.specs.Stands.{Stands, StandsBy};
ghost use Rattle.task_run.specs.Stops.{CanBegin, Stops};
ghost use Rattle.program_order.specs.text_bounds.Scopes.{is_scoped};
ghost use Rattle.task_plan.specs.Form.{HasNoBlock, IsOfForm};
ghost use Rattle.task_plan.specs.Views.{plan_of, taker_of};
ghost use Rattle.task_plan.specs.Cost.{walk_cost};
ghost use Rattle.task_plan.specs.Left.{DueLeft, WalkLeft};
ghost use Rattle.task_plan.specs.declared.due.Due.TheVariants as dues;
ghost use Rattle.program_order.specs.Standing.{BeginsNow, Setting, Standing, checks_of};

use crate::machine::{Beyond, Machine};
use crate::stage::TaskStage;
use access_run::AccessRun;
use access_run::memory_operation::{LockWait, Operation};
use access_types::{Access, Kind, TASKS};
use litmus_semantics::pure_value;
use litmus_syntax::{Assignment, Call, Expression, Load, Pure, Statement};
use setup_access::Begun;
use setup_access::checker::SCOPES;
use task_plan::follow::so_often;
use task_plan::progress::SITES;
use task_plan::{Due, Plan, Planner, Taker, Then, is_lock_at, load_in};

impl<'a> Machine<'a> {
    /// Goes on in the text to the next part that makes a step, or to the end: the stage becomes that of it.
    pub(crate) fn advance(&mut self, stage: &mut TaskStage<'a>)
        ensures begins { (s : Setting) (before : List Record → Standing) → StandsBy s before self.old
            → Begins s (WalkLeft s self.old.walk) before self.new stage.new }
        ensures room { room_of self.new ≡ room_of self.old }
    {
        loop {
            let due = self.walk.go_on();
            // A stage is large, so it is moved to its place at once.
            if let Some(next) = self.begins(due) {
                *stage = next;
                return;
            }
        }
    }

    /// What is due begins. It is over at once where there is no stage: it makes no step.
    pub(crate) fn begins(&mut self, due: Due<'a>) -> Option<TaskStage<'a>>
        requires form { IsOfForm due }
        ensures begins { (s : Setting) → PartBegins s (DueLeft s due.entry self.old.walk) self.old self.new result }
        ensures ends { due.entry ≡ dues.Ends → result ≢ None }
        ensures cost { walk_cost self.new.walk ≤ walk_cost self.old.walk }
        ensures room { room_of self.new ≡ room_of self.old }
    {
        match self.part(due) {
            Ok(stage) => stage,
            Err(Beyond) => Some(TaskStage::Stopped),
        }
    }

    /// The same, but for what needs too much: then nothing changes. Whatever completes it has the task pass a limit.
    fn part(&mut self, due: Due<'a>) -> Result<Option<TaskStage<'a>>, Beyond>
        requires form { IsOfForm due }
        ensures begins { IfOk result (λ stage. (s : Setting) → PartBegins s (DueLeft s due.entry self.old.walk) self.old self.new stage) }
        ensures unchanged { OnErr result (self.new ≡ self.old) }
        ensures stops { OnErr result ((s : Setting) → Stops s (DueLeft s due.entry self.old.walk) self.old) }
        ensures ends { IfOk result (λ stage. due.entry ≡ dues.Ends → stage ≢ None) }
        ensures cost { walk_cost self.new.walk ≤ walk_cost self.old.walk }
        ensures room { room_of self.new ≡ room_of self.old }
    {
        match due {
            Due::Statement { statement, site } => self.statement(statement, site),
            Due::Opens {
                kind,
                variable,
                site,
            } => self.opens(kind, variable, site),
            Due::Condition { condition, site } => self.condition(condition, site),
            Due::Sets { register, value } => {
                self.progress.assign(register, value);
                Ok(None)
            }
            Due::Closes => self.closes(),
            Due::Leaves => Ok(None),
            Due::Ends => Ok(Some(TaskStage::Over)),
        }
    }

    /// What the accesses of statements are planned by.
    fn planner(&self) -> Planner<'_>
        ensures layout { result.layout.now ≡ arc_value self.now.layout }
        ensures registers { (variables : ℕ) (before : Standing) → Keeps variables before self.now.progress
            → result.registers.now ≡ before.progress.registers }
    {
        Planner {
            layout: &*self.layout,
            registers: self.progress.registers(),
        }
    }

    /// A statement without a block begins, and that is no scoped assertion.
    fn statement(
        &mut self,
        statement: &'a Statement,
        site: usize,
    ) -> Result<Option<TaskStage<'a>>, Beyond>
        requires simple { HasNoBlock (statement_of statement.now) }
        ensures begins { IfOk result (λ stage. (s : Setting)
            → PartBegins s (StatementDue s (statement_of statement.now) site self.old.walk) self.old self.new stage) }
        ensures unchanged { OnErr result (self.new ≡ self.old) }
        ensures stops { OnErr result ((s : Setting) → Stops s (StatementDue s (statement_of statement.now) site self.old.walk) self.old) }
        ensures cost { self.new.walk ≡ self.old.walk }
        ensures room { room_of self.new ≡ room_of self.old }
    {
        match statement {
            Statement::Load(load) => self.loads(load, Taker::Nobody, site),
            Statement::Assign {
                data_race,
                assignment,
            } => self.assigns(assignment, *data_race, site),
            Statement::Call(call) => self.calls(*call, site),
            Statement::If { .. } | Statement::IfElse { .. } | Statement::For { .. } => Err(Beyond),
        }
    }

    /// A load begins, whose value is taken so.
    fn loads(
        &mut self,
        load: &Load,
        taker: Taker<'a>,
        site: usize,
    ) -> Result<Option<TaskStage<'a>>, Beyond>
        ensures begins { IfOk result (λ stage. (s : Setting)
            → PartBegins s (LoadLeft s self.old.walk site (load_of load.now) (taker_of taker.entry)) self.old self.new stage) }
        ensures unchanged { OnErr result (self.new ≡ self.old) }
        ensures stops { OnErr result ((s : Setting)
            → Stops s (LoadLeft s self.old.walk site (load_of load.now) (taker_of taker.entry)) self.old) }
        ensures cost { self.new.walk ≡ self.old.walk }
        ensures room { room_of self.new ≡ room_of self.old }
    {
        let plan = self.planner().load(load, taker);
        self.makes(plan, site)
    }

    /// The condition of an `if` begins. Without a load it is decided at once.
    fn condition(
        &mut self,
        condition: &'a Expression,
        site: usize,
    ) -> Result<Option<TaskStage<'a>>, Beyond>
        ensures begins { IfOk result (λ stage. (s : Setting)
            → PartBegins s (ConditionDue s (expression_of condition.now) site self.old.walk) self.old self.new stage) }
        ensures unchanged { OnErr result (self.new ≡ self.old) }
        ensures stops { OnErr result ((s : Setting) → Stops s (ConditionDue s (expression_of condition.now) site self.old.walk) self.old) }
        ensures cost { walk_cost self.new.walk ≤ walk_cost self.old.walk }
        ensures room { room_of self.new ≡ room_of self.old }
    {
        match condition {
            Expression::Pure(value) => {
                self.decides(value);
                Ok(None)
            }
            Expression::Loading(value) => {
                self.loads(load_in(value), Taker::Condition(value), site)
            }
        }
    }

    /// The condition of an `if` is decided, by an expression without a load.
    fn decides(&mut self, value: &Pure)
        ensures begins { (s : Setting) (site : ℕ)
            → PartBegins s (ConditionDue s (tree.pure (pure_of value.now)) site self.old.walk) self.old self.new None }
        ensures cost { walk_cost self.new.walk ≤ walk_cost self.old.walk }
        ensures room { room_of self.new ≡ room_of self.old }
    {
        if pure_value(value, self.progress.registers()) != 0 {
            self.walk.holds();
        }
    }

    /// An assignment begins, inside `data_race( )` or not.
    fn assigns(
        &mut self,
        assignment: &'a Assignment,
        data_race: bool,
        site: usize,
    ) -> Result<Option<TaskStage<'a>>, Beyond>
        ensures begins { IfOk result (λ stage. (s : Setting)
            → PartBegins s
            (StatementDue s (tree.assign data_race (assignment_of assignment.now)) site self.old.walk) self.old self.new stage) }
        ensures unchanged { OnErr result (self.new ≡ self.old) }
        ensures stops { OnErr result ((s : Setting)
            → Stops s (StatementDue s (tree.assign data_race (assignment_of assignment.now)) site self.old.walk) self.old) }
        ensures cost { self.new.walk ≡ self.old.walk }
        ensures room { room_of self.new ≡ room_of self.old }
    {
        match assignment {
            Assignment::Register { register, value } => {
                self.assigns_register(*register, value, data_race, site)
            }
            _ => match self.planner().assignment(assignment, data_race) {
                Some(plan) => self.makes(plan, site),
                None => Err(Beyond),
            },
        }
    }

    /// A register gets the value of an expression, inside `data_race( )` or not.
    fn assigns_register(
        &mut self,
        register: usize,
        value: &'a Expression,
        data_race: bool,
        site: usize,
    ) -> Result<Option<TaskStage<'a>>, Beyond>
        ensures begins { IfOk result (λ stage. (s : Setting)
            → PartBegins s
            (StatementDue s (tree.assign data_race (tree.to_register register (expression_of value.now))) site self.old.walk)
            self.old self.new stage) }
        ensures unchanged { OnErr result (self.new ≡ self.old) }
        ensures stops { OnErr result ((s : Setting)
            → Stops s
            (StatementDue s (tree.assign data_race (tree.to_register register (expression_of value.now))) site self.old.walk) self.old) }
        ensures cost { self.new.walk ≡ self.old.walk }
        ensures room { room_of self.new ≡ room_of self.old }
    {
        match value {
            Expression::Pure(value) => {
                self.assigns_at_once(register, value, data_race)?;
                Ok(None)
            }
            Expression::Loading(value) => {
                let taker = Taker::Register {
                    register,
                    value,
                    data_race,
                };
                self.loads(load_in(value), taker, site)
            }
        }
    }

    /// A register gets the value of an expression without a load, inside `data_race( )` or not.
    fn assigns_at_once(
        &mut self,
        register: usize,
        value: &Pure,
        data_race: bool,
    ) -> Result<(), Beyond>
        ensures begins { IfOk result (λ _. (s : Setting) (site : ℕ)
            → PartBegins s
            (StatementDue s (tree.assign data_race (tree.to_register register (tree.pure (pure_of value.now)))) site self.old.walk)
            self.old self.new None) }
        ensures unchanged { OnErr result (self.new ≡ self.old) }
        ensures stops { OnErr result ((s : Setting) → (site : ℕ)
            → Stops s
            (StatementDue s (tree.assign data_race (tree.to_register register (tree.pure (pure_of value.now)))) site self.old.walk)
            self.old) }
        ensures cost { self.new.walk ≡ self.old.walk }
        ensures room { room_of self.new ≡ room_of self.old }
    {
        self.disable(so_often(data_race))?;
        let value = pure_value(value, self.progress.registers());
        self.progress.assign(register, value);
        self.enable(so_often(data_race));
        Ok(())
    }

    /// A call begins.
    fn calls(&mut self, call: Call, site: usize) -> Result<Option<TaskStage<'a>>, Beyond>
        ensures begins { IfOk result (λ stage. (s : Setting)
            → PartBegins s (StatementDue s (tree.call call) site self.old.walk) self.old self.new stage) }
        ensures unchanged { OnErr result (self.new ≡ self.old) }
        ensures stops { OnErr result ((s : Setting) → Stops s (StatementDue s (tree.call call) site self.old.walk) self.old) }
        ensures cost { self.new.walk ≡ self.old.walk }
        ensures room { room_of self.new ≡ room_of self.old }
    {
        match call {
            Call::Lock { variable } => self.locks(variable),
            Call::Unlock { variable } => Ok(self.unlocks(variable)),
            Call::Mark(mark) => {
                self.marks(mark)?;
                Ok(None)
            }
            Call::Barrier(_) => Ok(None),
            Call::Check { .. }
            | Call::AssertWriter { .. }
            | Call::AssertAccess { .. }
            | Call::AssertBits { .. } => self.plans(call, site),
        }
    }

    /// The access of a check or an assertion begins. A check of no byte has none, and is over at once.
    fn plans(&mut self, call: Call, site: usize) -> Result<Option<TaskStage<'a>>, Beyond>
        requires planned { (text : meaning.Setting) → call_plan text call ≡ None → ChecksNoByte call }
        ensures begins { IfOk result (λ stage. (s : Setting)
            → PartBegins s (StatementDue s (tree.call call) site self.old.walk) self.old self.new stage) }
        ensures unchanged { OnErr result (self.new ≡ self.old) }
        ensures stops { OnErr result ((s : Setting) → Stops s (StatementDue s (tree.call call) site self.old.walk) self.old) }
        ensures cost { self.new.walk ≡ self.old.walk }
        ensures room { room_of self.new ≡ room_of self.old }
    {
        match self.planner().call(call) {
            Some(plan) => self.makes(plan, site),
            None => Ok(None),
        }
    }

    /// A lock is tried.
    fn locks(&mut self, variable: usize) -> Result<Option<TaskStage<'a>>, Beyond>
        ensures begins { IfOk result (λ stage. (s : Setting) (site : ℕ)
            → PartBegins s (StatementDue s (tree.call (Lock variable)) site self.old.walk) self.old self.new stage) }
        ensures unchanged { self.new ≡ self.old }
        ensures stops { OnErr result ((s : Setting) (site : ℕ)
            → Stops s (StatementDue s (tree.call (Lock variable)) site self.old.walk) self.old) }
        ensures room { room_of self.new ≡ room_of self.old }
    {
        if !is_lock_at(self.variables, variable) {
            return Err(Beyond);
        }
        let wait = LockWait::new(self.task, self.lock_number(variable));
        Ok(Some(TaskStage::Locking(wait, variable)))
    }

    /// A lock is given back; where the task hasn't it, no step is made and the call is counted.
    fn unlocks(&mut self, variable: usize) -> Option<TaskStage<'a>>
        ensures begins { (s : Setting) (site : ℕ)
            → PartBegins s (StatementDue s (tree.call (Unlock variable)) site self.old.walk) self.old self.new result }
        ensures cost { self.new.walk ≡ self.old.walk }
        ensures room { room_of self.new ≡ room_of self.old }
    {
        // To give back what another task holds would let two tasks in at once.
        if self.progress.has_lock(variable) {
            return Some(TaskStage::Unlocking(variable));
        }
        self.progress.counts_unbalanced();
        None
    }

    /// The access that is planned at a site, which begins now.
    fn access(&self, plan: Plan<'a>, site: usize) -> Result<Access, Beyond>
        ensures made { IfOk result (λ access. (0 < access.size) × (access.site ≡ site) × IsInLimits access
            × ((s : Setting) (before : Standing) → Stands s before self.now
            → access ≡ planned_access s before (plan_of plan.entry) site)) }
        ensures cannot { OnErr result ((s : Setting) (before : Standing) → Stands s before self.now
            → ¬ CanBegin (planned_access s before (plan_of plan.entry) site)) }
    {
        let rep = self.progress.begun_at(site);
        if self.task >= TASKS || site >= SITES || rep >= SITES as u64 || plan.bytes.size == 0 {
            return Err(Beyond);
        }
        let (addr, size) = (plan.bytes.addr, plan.bytes.size);
        let mask = plan.mask;
        match Access::new_rep(
            self.task,
            site as u32,
            rep as u32,
            addr,
            size,
            plan.kind,
            mask,
        ) {
            Ok(access) => Ok(access),
            Err(_) => Err(Beyond),
        }
    }

    /// The bytes of an access lie in one cell, if it touches them.
    fn has_cell(&self, access: &Access, operation: Option<Operation>) -> bool
        requires has_bytes { 0 < access.now.size }
        ensures { (s : Setting) (before : Standing) → Stands s before self.now
            → (IsTrue result ↔ HasCell (checks_of s) access.now operation) }
    {
        match operation {
            Some(_) => self.checker.source(access).is_some(),
            None => true,
        }
    }

    /// An access that begins now, with what is decided of it then.
    fn begun(&mut self, access: &Access) -> Begun
        requires has_bytes { 0 < access.now.size }
        ensures begins { (s : Setting) (before : Standing) → Stands s before self.old → IsOwn (checks_of s) access.now
            → BeginsNow s before access.now result }
        ensures unchanged { self.new ≡ self.old }
    {
        // On a copy: one of what `kcsan_atomic_next` left is used up once, where the checker begins the access.
        let mut context = *self.checker.context();
        let silenced = !context.enabled();
        let marked = context.counts_as_marked(access, self.rules.plain_writes_atomic);
        Begun {
            access: *access,
            marked,
            silenced,
        }
    }

    /// The access that is planned begins.
    fn makes(&mut self, plan: Plan<'a>, site: usize) -> Result<Option<TaskStage<'a>>, Beyond>
        ensures begins { IfOk result (λ stage. (s : Setting) → IsFit (plan_of plan.entry).follow (plan_of plan.entry).operation
            → PartBegins s (PlanLeft s self.old.walk site (plan_of plan.entry)) self.old self.new stage) }
        ensures unchanged { OnErr result (self.new ≡ self.old) }
        ensures stops { OnErr result ((s : Setting) → Stops s (PlanLeft s self.old.walk site (plan_of plan.entry)) self.old) }
        ensures cost { self.new.walk ≡ self.old.walk }
        ensures room { room_of self.new ≡ room_of self.old }
    {
        let access = self.access(plan, site)?;
        if !self.has_cell(&access, plan.operation) {
            return Err(Beyond);
        }
        // Whether an access is silenced is decided as it begins, so `data_race( )` comes before that.
        self.disable(plan.after.data_races())?;
        let begun = self.begun(&access);
        self.progress.begins_at(site);
        let run = AccessRun::begin(&mut self.checker, &access, plan.operation);
        self.begins = Some(begun);
        Ok(Some(TaskStage::Making(run, plan.after)))
    }

    /// A scoped assertion begins.
    fn opens(
        &mut self,
        kind: Kind,
        variable: usize,
        site: usize,
    ) -> Result<Option<TaskStage<'a>>, Beyond>
        requires scoped { is_scoped kind ≡ true }
        ensures begins { IfOk result (λ stage. (s : Setting)
            → PartBegins s (DueLeft s (dues.Opens kind variable site) self.old.walk) self.old self.new stage) }
        ensures unchanged { OnErr result (self.new ≡ self.old) }
        ensures stops { OnErr result ((s : Setting) → Stops s (DueLeft s (dues.Opens kind variable site) self.old.walk) self.old) }
        ensures cost { self.new.walk ≡ self.old.walk }
        ensures room { room_of self.new ≡ room_of self.old }
    {
        let plan = Plan {
            bytes: self.layout.bytes_in(variable),
            kind,
            mask: None,
            operation: None,
            after: Then::GoesOn,
        };
        let access = self.access(plan, site)?;
        if self.in_force >= SCOPES {
            return Err(Beyond);
        }
        let begun = self.begun(&access);
        self.progress.begins_at(site);
        self.checker.begin(&access);
        self.begins = Some(begun);
        Ok(Some(TaskStage::Opening))
    }

    /// The newest scoped assertion in force closes.
    fn closes(&mut self) -> Result<Option<TaskStage<'a>>, Beyond>
        ensures begins { IfOk result (λ stage. (s : Setting) → PartBegins s (DueLeft s dues.Closes self.old.walk) self.old self.new stage) }
        ensures unchanged { OnErr result (self.new ≡ self.old) }
        ensures stops { OnErr result ((s : Setting) → Stops s (DueLeft s dues.Closes self.old.walk) self.old) }
        ensures cost { self.new.walk ≡ self.old.walk }
        ensures room { room_of self.new ≡ room_of self.old }
    {
        if self.in_force == 0 {
            return Err(Beyond);
        }
        self.checker.close_scoped();
        Ok(Some(TaskStage::Closing))
    }
}
