//! How often each access of a trace armed.

ghost use Rattle.std.specs.Prelude.{◌≡◌, ◌++◌, ◌∷◌, ◌<◌, ◌-◌, ◌^◌, [], ℕ, List, OnOk};
ghost use Rattle.trace_replay.specs.Armings.{AreArmings, armings_of};

use crate::accesses::TICKETS;
use crate::table::Table;
use std::alloc::{AllocError, Global};

/// How many armings each access had, by its ticket.
#[derive(Drop)]
pub struct Armings {
    by_ticket: Table<u64>,
}

impl Armings {
    /// No access armed. The counts take their memory from this allocator.
    pub fn new(alloc: Global) -> Armings
        ensures { AreArmings [] result }
    {
        Armings {
            by_ticket: Table::new(alloc, TICKETS, 0),
        }
    }

    /// How often the access of the ticket armed.
    pub fn of(&self, ticket: u32) -> u64
        ensures { result ≡ armings_of self.now ticket }
    {
        self.by_ticket.at(u64::from(ticket))
    }

    /// The access of the ticket armed once more. The only error is want of memory.
    pub fn add(&mut self, ticket: u32) -> Result<(), AllocError>
        requires { armings_of self.old ticket < 2 ^ 64 - 1 }
        ensures { (tickets : List ℕ) → AreArmings tickets self.old → OnOk result (AreArmings (tickets ++ ticket ∷ []) self.new) }
    {
        let before = self.of(ticket);
        self.by_ticket.set(u64::from(ticket), before + 1)
    }
}
