//! What a task computes between its steps.

ghost use Rattle.std.specs.Prelude.{◌≡◌, ◌↔◌, ◌+◌, ◌-◌, ◌^◌, ◌<◌, ◌≤◌, [], ◌∷◌};
ghost use Rattle.std.specs.Prelude.{Bool, IsTrue, List, OnErr, OnOk, count_by, ℕ, take, if◌then◌else◌};
ghost use Rattle.access_types.specs.declared.history.Happening.TheVariants as happenings;
ghost use Rattle.access_types.specs.declared.history.Mark.{Mark};
ghost use Rattle.access_types.specs.declared.history.Mark.TheVariants.{Disable, Enable, FlatBegin, FlatEnd, NestClose, NestOpen, Next};
ghost use Rattle.setup_access.specs.Shown.{context_of};
ghost use Rattle.slot_table.specs.declared.records.Record.{Record};
ghost use Rattle.litmus_syntax.specs.Tree as tree;
ghost use Rattle.litmus_syntax.specs.declared.statement.Call.TheVariants as calls;
ghost use Rattle.task_run.specs.Due.{StatementDue};
ghost use Rattle.task_run.specs.Part.{disabled, enabled};
ghost use Rattle.task_run.specs.Room.{room_of};
ghost use Rattle.task_run.specs.Stands.{AfterMark, Stands};
ghost use Rattle.task_run.specs.Stops.{Stops};
ghost use Rattle.program_order.specs.Standing.{EndsNothing, Setting, Standing, counting, doing, is_lock, lock_number};

use crate::machine::{Beyond, Machine};
use access_types::Mark;

impl<'a> Machine<'a> {
    /// The number of a lock's word.
    pub(crate) fn lock_number(&self, variable: usize) -> usize
        ensures value { result ≡ count_by (λ v. is_lock v.contents) (take variable self.now.variables.now) }
        ensures stands { (s : Setting) (before : Standing) → Stands s before self.now → result ≡ lock_number s variable }
    {
        task_plan::lock_number(self.variables, variable)
    }

    /// How many more times reports can be turned off.
    fn disable_room(&mut self) -> u64
        ensures value { result ≡ 2 ^ 32 - (context_of self.old.checker).disable_count }
        ensures unchanged { self.new ≡ self.old }
    {
        self.checker.context().disable_room()
    }

    /// How many more regions can be nested.
    fn nest_room(&mut self) -> u64
        ensures value { result ≡ 2 ^ 32 - (context_of self.old.checker).nest_count }
        ensures unchanged { self.new ≡ self.old }
    {
        self.checker.context().nest_room()
    }

    /// Reports are turned off once more.
    fn turns_off(&mut self)
        requires { (context_of self.old.checker).disable_count < 2 ^ 32 }
        ensures stands { AfterMark Disable self.old self.new }
        ensures count { (context_of self.new.checker).disable_count ≡ (context_of self.old.checker).disable_count + 1 }
        ensures walk { self.new.walk ≡ self.old.walk }
        ensures room { room_of self.new ≡ room_of self.old }
    {
        self.checker.context().disable();
    }

    /// Reports are turned on again, and were on before or not.
    fn turns_on(&mut self) -> bool
        ensures stands { AfterMark Enable self.old self.new }
        ensures nothing { IsTrue result ↔ ((context_of self.old.checker).disable_count ≡ 0) }
        ensures progress { self.new.progress ≡ self.old.progress }
        ensures walk { self.new.walk ≡ self.old.walk }
        ensures room { room_of self.new ≡ room_of self.old }
    {
        self.checker.context().enable().is_err()
    }

    /// A region begins.
    fn nests(&mut self)
        requires { (context_of self.old.checker).nest_count < 2 ^ 32 }
        ensures stands { AfterMark NestOpen self.old self.new }
        ensures walk { self.new.walk ≡ self.old.walk }
        ensures room { room_of self.new ≡ room_of self.old }
    {
        self.checker.context().nest_begin();
    }

    /// A region ends, and the task was in none before or not.
    fn nest_ends(&mut self) -> bool
        ensures stands { AfterMark NestClose self.old self.new }
        ensures nothing { IsTrue result ↔ ((context_of self.old.checker).nest_count ≡ 0) }
        ensures progress { self.new.progress ≡ self.old.progress }
        ensures walk { self.new.walk ≡ self.old.walk }
        ensures room { room_of self.new ≡ room_of self.old }
    {
        self.checker.context().nest_end().is_err()
    }

    /// The flat region begins, or ends.
    fn flat(&mut self, begins: bool)
        ensures stands { AfterMark (if begins then FlatBegin else FlatEnd) self.old self.new }
        ensures walk { self.new.walk ≡ self.old.walk }
        ensures room { room_of self.new ≡ room_of self.old }
    {
        if begins {
            self.checker.context().flat_begin();
        } else {
            self.checker.context().flat_end();
        }
    }

    /// The next accesses count as marked, so many.
    pub(crate) fn marks_next(&mut self, count: u64)
        ensures stands { AfterMark (Next count) self.old self.new }
        ensures walk { self.new.walk ≡ self.old.walk }
        ensures room { room_of self.new ≡ room_of self.old }
    {
        self.checker.context().atomic_next(count);
    }

    /// Reports are turned off, so many times over.
    pub(crate) fn disable(&mut self, count: u64) -> Result<(), Beyond>
        ensures stands { OnOk result ((s : Setting) (before : Standing) (later : List Record) → Stands s before self.old
            → Stands s (disabled count before later) self.new) }
        ensures few { OnOk result (count ≤ 2 ^ 32) }
        ensures walk { self.new.walk ≡ self.old.walk }
        ensures unchanged { OnErr result (self.new ≡ self.old) }
        ensures many { OnErr result (2 ^ 32 < (context_of self.old.checker).disable_count + count) }
        ensures room { room_of self.new ≡ room_of self.old }
    {
        if count > self.disable_room() {
            return Err(Beyond);
        }
        for _ in 0..count {
            self.turns_off();
        }
        Ok(())
    }

    /// Reports are turned on again, so many times over.
    pub(crate) fn enable(&mut self, count: u64)
        ensures stands { (s : Setting) (before : Standing) (later : List Record) → Stands s before self.old
            → Stands s (enabled count before later) self.new }
        ensures walk { self.new.walk ≡ self.old.walk }
        ensures room { room_of self.new ≡ room_of self.old }
    {
        for _ in 0..count {
            let _ = self.turns_on();
        }
    }

    /// A call had nothing to end, or not.
    fn counts(&mut self, ends_nothing: bool)
        ensures stands { (s : Setting) (before : Standing) (later : List Record) (mark : Mark)
            → Stands s (doing before later (happenings.Mark mark ∷ [])) self.old
            → Stands s (doing (counting ends_nothing before) later (happenings.Mark mark ∷ [])) self.new }
        ensures walk { self.new.walk ≡ self.old.walk }
        ensures room { room_of self.new ≡ room_of self.old }
    {
        if ends_nothing {
            self.progress.counts_unbalanced();
        }
    }

    /// A KCSAN call is made. One that has nothing to end is counted.
    #[inline(always)]
    pub(crate) fn marks(&mut self, mark: Mark) -> Result<(), Beyond>
        ensures stands { OnOk result ((s : Setting) (before : Standing) → Stands s before self.old
            → (ends_nothing : Bool) × (IsTrue ends_nothing ↔ EndsNothing s before mark)
            × ((later : List Record) → Stands s (doing (counting ends_nothing before) later (happenings.Mark mark ∷ [])) self.new)) }
        ensures walk { self.new.walk ≡ self.old.walk }
        ensures unchanged { OnErr result (self.new ≡ self.old) }
        ensures stops { OnErr result ((s : Setting) (site : ℕ)
            → Stops s (StatementDue s (tree.call (calls.Mark mark)) site self.old.walk) self.old) }
        ensures room { room_of self.new ≡ room_of self.old }
    {
        match mark {
            Mark::Disable => {
                if self.disable_room() == 0 {
                    return Err(Beyond);
                }
                self.turns_off();
            }
            Mark::NestOpen => {
                if self.nest_room() == 0 {
                    return Err(Beyond);
                }
                self.nests();
            }
            Mark::Enable => {
                let ends_nothing = self.turns_on();
                self.counts(ends_nothing);
            }
            Mark::NestClose => {
                let ends_nothing = self.nest_ends();
                self.counts(ends_nothing);
            }
            Mark::FlatBegin => self.flat(true),
            Mark::FlatEnd => self.flat(false),
            Mark::Next(count) => self.marks_next(count),
        }
        Ok(())
    }
}
