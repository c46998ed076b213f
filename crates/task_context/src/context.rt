//! The context of a task: what its KCSAN calls have turned on and off, and so how its accesses count.

ghost use Rattle.std.specs.Prelude.{◌≡◌, ◌+◌, ◌-◌, ◌<◌, ◌^◌, ◌↔◌, ℕ, [], Bool, IsFalse, IsTrue, IsErrOf};
ghost use Rattle.std.specs.Prelude.{OnErr, OnOk, false, true};
ghost use Rattle.access_types.specs.History.{History};
ghost use Rattle.access_types.specs.Marked as marked;
ghost use Rattle.access_types.specs.Marked.{CountsAfter, EndsRaised, is_disable, is_enable};
ghost use Rattle.access_types.specs.Marked.{marks_of};
ghost use Rattle.access_types.specs.declared.history.Happening.TheVariants.{Begin};
ghost use Rattle.access_types.specs.declared.history.Mark.TheVariants.{Disable, Enable, FlatBegin};
ghost use Rattle.access_types.specs.declared.history.Mark.TheVariants.{FlatEnd, NestClose};
ghost use Rattle.access_types.specs.declared.history.Mark.TheVariants.{NestOpen, Next};
ghost use Rattle.task_context.specs.Context as spec;
ghost use Rattle.task_context.specs.Context.{idle};
ghost use Rattle.task_context.specs.History.{Follows, LeadsTo, MarkFollows};

use access_types::Access;
use std::marker::Model;
use thiserror::Error;

/// No count of a task is above this.
const ROOM: u64 = 1 << 32;

/// What a task's KCSAN calls have led to: one context a task. Under one context all calls of
/// `counts_as_marked` have the same setting for plain writes.
#[derive(Clone, Copy, Debug, PartialEq, Eq, Default)]
pub struct Context {
    disable_count: u64,
    nest_count: u64,
    in_flat: bool,
    atomic_next: u64,
}

/// Why a call is refused.
#[derive(Clone, Copy, Debug, PartialEq, Eq, Error)]
pub enum ContextError {
    #[error("nothing is open that the call would close")]
    Unbalanced,
}

impl Model for Context {
    ghost Value = { spec.Context };

    ghost view = { λ c. record {
      disable_count = c.disable_count;
      nest_count = c.nest_count;
      in_flat = c.in_flat;
      atomic_next = c.atomic_next;
    } };

    ghost inverse = { λ c. record {
      disable_count = c.disable_count;
      nest_count = c.nest_count;
      in_flat = c.in_flat;
      atomic_next = c.atomic_next;
    } };
}

impl Context {
    /// The context of a task that has done nothing yet.
    pub fn new() -> Context
        ensures value { result ≡ idle }
        ensures begins { (plain_writes_atomic : Bool) (task : ℕ)
            → LeadsTo plain_writes_atomic task [] result }
    {
        Context {
            disable_count: 0,
            nest_count: 0,
            in_flat: false,
            atomic_next: 0,
        }
    }

    /// How many more times reporting can be disabled.
    pub fn disable_room(&self) -> u64
        ensures value { result ≡ 2 ^ 32 - self.now.disable_count }
    {
        ROOM.saturating_sub(self.disable_count)
    }

    /// How many more regions can be nested.
    pub fn nest_room(&self) -> u64
        ensures value { result ≡ 2 ^ 32 - self.now.nest_count }
    {
        ROOM.saturating_sub(self.nest_count)
    }

    /// `kcsan_disable_current`: the task's accesses are silenced until a balancing `enable`.
    pub fn disable(&mut self)
        requires { self.old.disable_count < 2 ^ 32 }
        ensures value { self.new ≡ record self.old { disable_count = self.old.disable_count + 1 } }
        ensures follows { MarkFollows self.old Disable self.new }
    {
        self.disable_count += 1;
    }

    /// `kcsan_enable_current`: takes one `disable` back. Where there is none KCSAN warns, and keeps the count at 0 too.
    ///
    /// `Unbalanced`: there is none to take back. Nothing changes, and the refused call may stand in
    /// the history all the same.
    pub fn enable(&mut self) -> Result<(), ContextError>
        ensures unbalanced { IsErrOf result ContextError.Unbalanced ↔ (self.old.disable_count ≡ 0) }
        ensures unchanged { OnErr result (self.new ≡ self.old) }
        ensures value { OnOk result (self.new ≡ record self.old { disable_count = self.old.disable_count - 1 }) }
        ensures follows { MarkFollows self.old Enable self.new }
    {
        if self.disable_count == 0 {
            return Err(ContextError::Unbalanced);
        }
        self.disable_count -= 1;
        Ok(())
    }

    /// `kcsan_nestable_atomic_begin`: opens an atomic region, in which every access counts as
    /// marked.
    pub fn nest_begin(&mut self)
        requires { self.old.nest_count < 2 ^ 32 }
        ensures value { self.new ≡ record self.old { nest_count = self.old.nest_count + 1 } }
        ensures follows { MarkFollows self.old NestOpen self.new }
    {
        self.nest_count += 1;
    }

    /// `kcsan_nestable_atomic_end`: closes the region that `nest_begin` opened last.
    ///
    /// `Unbalanced`: none is open. Nothing changes, and the refused call may stand in the history
    /// all the same.
    pub fn nest_end(&mut self) -> Result<(), ContextError>
        ensures unbalanced { IsErrOf result ContextError.Unbalanced ↔ (self.old.nest_count ≡ 0) }
        ensures unchanged { OnErr result (self.new ≡ self.old) }
        ensures value { OnOk result (self.new ≡ record self.old { nest_count = self.old.nest_count - 1 }) }
        ensures follows { MarkFollows self.old NestClose self.new }
    {
        if self.nest_count == 0 {
            return Err(ContextError::Unbalanced);
        }
        self.nest_count -= 1;
        Ok(())
    }

    /// `kcsan_flat_atomic_begin`: opens the flat atomic region, also where it is open already.
    pub fn flat_begin(&mut self)
        ensures value { self.new ≡ record self.old { in_flat = true } }
        ensures follows { MarkFollows self.old FlatBegin self.new }
    {
        self.in_flat = true;
    }

    /// `kcsan_flat_atomic_end`: closes the flat atomic region, however often it was opened.
    pub fn flat_end(&mut self)
        ensures value { self.new ≡ record self.old { in_flat = false } }
        ensures follows { MarkFollows self.old FlatEnd self.new }
    {
        self.in_flat = false;
    }

    /// `kcsan_atomic_next`: the next `count` accesses count as marked, of those that could be
    /// plain. What was left of an earlier call is forgotten.
    pub fn atomic_next(&mut self, count: u64)
        ensures value { self.new ≡ record self.old { atomic_next = count } }
        ensures follows { MarkFollows self.old (Next count) self.new }
    {
        self.atomic_next = count;
    }

    /// Whether the access, which begins now and is of this context's task, counts as marked. One
    /// that `atomic_next` counts takes one of what is left.
    #[inline(always)]
    pub fn counts_as_marked(&mut self, access: &Access, plain_writes_atomic: bool) -> bool
        ensures counts { (before : History)
            → LeadsTo plain_writes_atomic access.now.task before self.old
            → (IsTrue result ↔ CountsAfter plain_writes_atomic access.now before) }
        ensures kept { self.new ≡ record self.old { atomic_next = self.new.atomic_next } }
        ensures follows { Follows plain_writes_atomic access.now.task self.old (Begin access.now)
            self.new }
    {
        if access.kind().is_marked() {
            return true;
        }
        // As in KCSAN's is_atomic(): so an assertion means the same within atomic regions, as those of seqlocks.
        if access.kind().is_assertion() {
            return false;
        }
        // Before `atomic_next`, as in KCSAN: a write that counts anyway takes nothing of what is left.
        if is_atomic_write(access, plain_writes_atomic) {
            return true;
        }
        if self.atomic_next > 0 {
            self.atomic_next -= 1;
            return true;
        }
        // The two kinds of regions are independent: a reader's section of a seqlock, which is flat, may lie in a
        // writer's, which nests.
        self.nest_count > 0 || self.in_flat
    }

    /// Whether an access that begins now is heard: it is silenced while a `disable` isn't taken
    /// back.
    #[inline(always)]
    pub fn enabled(&self) -> bool
        ensures { (plain_writes_atomic : Bool) (task : ℕ) (before : History)
            → LeadsTo plain_writes_atomic task before self.now
            → (IsFalse result ↔ EndsRaised is_disable is_enable (marks_of task before)) }
    {
        self.disable_count == 0
    }
}

/// A plain write that the machine makes in one piece, where plain writes are assumed atomic: not
/// compound, of at most 8 bytes, at a multiple of its size.
#[inline(always)]
fn is_atomic_write(access: &Access, plain_writes_atomic: bool) -> bool
    ensures { result ≡ marked.is_atomic_write plain_writes_atomic access.now }
{
    let (kind, size) = (access.kind(), access.size());
    let is_write = kind.write() && !kind.is_assertion() && !kind.is_compound();
    plain_writes_atomic && is_write && size > 0 && size <= 8 && access.addr() % size == 0
}
