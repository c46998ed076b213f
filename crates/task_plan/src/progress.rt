//! How far a task has come, as far as its next steps depend on it.

ghost use Rattle.std.specs.Prelude.{◌≡◌, ◌<◌, ℕ, List, [], ◌∷◌, true, IfOk, IsTrue, if◌then◌else◌, count_by};
ghost use Rattle.access_types.specs.Access.{Access};
ghost use Rattle.access_types.specs.declared.history.Happening.TheVariants.{Begin, Lock, Unlock};
ghost use Rattle.litmus_semantics.specs.Task.{begins_at, has_lock};
ghost use Rattle.slot_table.specs.declared.records.Record.{Record};
ghost use Rattle.task_plan.specs.Counts.{up_to_last};
ghost use Rattle.task_plan.specs.Keeps.{Keeps};
ghost use Rattle.task_plan.specs.Room.{room_of};
ghost use Rattle.program_order.specs.Standing.{Standing, counting, doing, registered};
ghost use Rattle.program_order.specs.WrittenOrder.{at_first};

use access_types::list_copy::copied;
use std::alloc::{AllocError, Global};

/// A task has no more sites than this, and tickets tell so many accesses at one apart.
pub const SITES: usize = 256;

/// What a task keeps of what it did.
#[derive(Drop)]
pub struct Progress {
    /// The values of its registers, by number.
    registers: Vec<u64>,
    /// How many accesses began, by site.
    begun: Vec<u64>,
    /// The task has the lock, by the number of its variable.
    held: Vec<bool>,
    /// How many calls had nothing to end.
    unbalanced: u64,
}

impl Progress {
    /// That of a task with so many registers in a program of so many variables, which has done
    /// nothing yet. It takes all its room: without it there is an error.
    pub fn new(alloc: Global, registers: usize, variables: usize) -> Result<Progress, AllocError>
        ensures { IfOk result (Keeps variables (at_first registers)) }
    {
        Ok(Progress {
            registers: vec![in alloc; 0; registers]?,
            begun: vec![in alloc; 0; SITES]?,
            held: vec![in alloc; false; variables]?,
            unbalanced: 0,
        })
    }

    /// The same for a second task that did the same, with as much room. A step of one leaves the other; without memory
    /// for it there is an error.
    pub fn copy(&self, alloc: Global) -> Result<Progress, AllocError>
        ensures keeps { (variables : ℕ) (before : Standing) → Keeps variables before self.now → IfOk result (Keeps variables before) }
        ensures room { IfOk result (λ copy. room_of copy ≡ room_of self.now) }
    {
        Ok(Progress {
            registers: copied(alloc, &self.registers)?,
            begun: copied(alloc, &self.begun)?,
            held: copied(alloc, &self.held)?,
            unbalanced: self.unbalanced,
        })
    }

    /// Both have the same registers, as many accesses begun at each site, and the same locks. How many calls had
    /// nothing to end may differ.
    pub fn keeps_as(&self, other: &Progress) -> bool
        ensures registers { IsTrue result → self.now.registers.items ≡ other.now.registers.items }
        ensures begun { IsTrue result → self.now.begun.items ≡ other.now.begun.items }
        ensures locks { IsTrue result → self.now.held.items ≡ other.now.held.items }
        ensures same { self.now.registers.items ≡ other.now.registers.items → self.now.begun.items ≡ other.now.begun.items
            → self.now.held.items ≡ other.now.held.items → IsTrue result }
    {
        self.registers == other.registers && self.begun == other.begun && self.held == other.held
    }

    /// The values of the registers, by number.
    #[inline(always)]
    pub fn registers(&self) -> &[u64]
        ensures { (variables : ℕ) (before : Standing) → Keeps variables before self.now → result.now ≡ before.progress.registers }
    {
        self.registers.as_slice()
    }

    /// A register gets a value; one that isn't there has none.
    #[inline(always)]
    pub fn assign(&mut self, register: usize, value: u64)
        ensures keeps { (variables : ℕ) (before : Standing) (later : List Record) → Keeps variables before self.old
            → Keeps variables (registered before later register value) self.new }
        ensures room { room_of self.new ≡ room_of self.old }
    {
        if let Some(place) = self.registers.get_mut(register) {
            *place = value;
        }
    }

    /// How many accesses began at a site.
    #[inline(always)]
    pub fn begun_at(&self, site: usize) -> u64
        ensures { (variables : ℕ) (before : Standing) → Keeps variables before self.now
            → result ≡ up_to_last (count_by (begins_at site) before.progress.did) }
    {
        match self.begun.get(site) {
            Some(count) => *count,
            None => 0,
        }
    }

    /// An access of a site begins.
    #[inline(always)]
    pub fn begins_at(&mut self, site: usize)
        requires { site < 256 }
        ensures keeps { (variables : ℕ) (before : Standing) (a : Access) (later : List Record) → Keeps variables before self.old
            → a.site ≡ site → Keeps variables (doing before later (Begin a ∷ [])) self.new }
        ensures room { room_of self.new ≡ room_of self.old }
    {
        if let Some(count) = self.begun.get_mut(site) {
            *count = count.saturating_add(1);
        }
    }

    /// The task has the lock of this variable.
    #[inline(always)]
    pub fn has_lock(&self, variable: usize) -> bool
        ensures { (variables : ℕ) (before : Standing) → Keeps variables before self.now
            → result ≡ has_lock variable before.progress.did }
    {
        match self.held.get(variable) {
            Some(held) => *held,
            None => false,
        }
    }

    /// The task takes the lock of this variable, or gives it back.
    #[inline(always)]
    pub fn set_lock(&mut self, variable: usize, held: bool)
        ensures keeps { (variables : ℕ) (before : Standing) (later : List Record) → Keeps variables before self.old → variable < variables
            → Keeps variables (doing before later ((if held then Lock variable else Unlock variable) ∷ [])) self.new }
        ensures room { room_of self.new ≡ room_of self.old }
    {
        if let Some(place) = self.held.get_mut(variable) {
            *place = held;
        }
    }

    /// How many calls had nothing to end; counted up to the last number that there is.
    #[inline(always)]
    pub fn unbalanced(&self) -> u64
        ensures { (variables : ℕ) (before : Standing) → Keeps variables before self.now → result ≡ up_to_last before.unbalanced }
    {
        self.unbalanced
    }

    /// A call had nothing to end.
    #[inline(always)]
    pub fn counts_unbalanced(&mut self)
        ensures keeps { (variables : ℕ) (before : Standing) → Keeps variables before self.old
            → Keeps variables (counting true before) self.new }
        ensures room { room_of self.new ≡ room_of self.old }
    {
        self.unbalanced = self.unbalanced.saturating_add(1);
    }
}
