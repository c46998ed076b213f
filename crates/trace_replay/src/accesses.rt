//! The accesses of a trace, by their tickets.

ghost use Rattle.std.specs.Prelude.{◌≡◌, ◌++◌, ◌∷◌, ◌↔◌, ◌<◌, [], List, IsTrue, OnOk, Some, length};
ghost use Rattle.access_types.specs.Stamped as spec;
ghost use Rattle.trace_replay.specs.Accesses.{AreKept, IsNamed, IsNew};

use crate::table::Table;
use access_types::{Stamped, ticket};
use std::alloc::{AllocError, Global};

/// The tickets of traces are below this: the last is of task 15, site 255 and repetition 255.
pub const TICKETS: u64 = 1_048_577;

/// The accesses of a trace so far, by their tickets, and the stamps that stood.
#[derive(Drop)]
pub struct Accesses {
    /// In the order of their lines.
    list: Vec<Stamped>,
    /// By the ticket of each access 1 more than its place in the list, and by any other number 0.
    places: Table<usize>,
    /// By each number, whether it stood as a stamp.
    stamps: Table<bool>,
}

impl Accesses {
    /// No access. They take their memory from this allocator. Stamps below `room` are looked up without hash: a run
    /// gives its stamps one after the other from 0 on, and so they are below the number of bytes of its trace.
    pub fn new(alloc: Global, room: u64) -> Accesses
        ensures { AreKept [] result }
    {
        Accesses {
            list: Vec::new(alloc),
            places: Table::new(alloc, TICKETS, 0),
            stamps: Table::new(alloc, room, false),
        }
    }

    /// How many there are.
    pub fn len(&self) -> usize
        ensures { (all : List spec.Stamped) → AreKept all self.now → result ≡ length all }
    {
        self.list.len()
    }

    /// The access that the ticket names.
    pub fn named(&self, ticket: u32) -> Option<Stamped>
        ensures { (all : List spec.Stamped) → AreKept all self.now
            → (s : spec.Stamped) → (result ≡ Some s) ↔ IsNamed all ticket s }
    {
        let place = self.places.at(u64::from(ticket));
        if place == 0 {
            return None;
        }
        self.list.get(place - 1).copied()
    }

    /// Neither the access nor a stamp of it stood before.
    pub fn is_new(&self, stamped: &Stamped) -> bool
        ensures { (all : List spec.Stamped) → AreKept all self.now → IsTrue result ↔ IsNew all stamped.now }
    {
        if self.places.at(u64::from(ticket(&stamped.access()))) != 0 {
            return false;
        }
        let begin_stood = self.stamps.at(stamped.begin());
        let end_stood = self.stamps.at(stamped.end());
        if begin_stood {
            return false;
        }
        !end_stood
    }

    /// Keeps one access more. The only error is want of memory.
    pub fn add(&mut self, stamped: &Stamped) -> Result<(), AllocError>
        ensures { (all : List spec.Stamped) → AreKept all self.old → IsNew all stamped.now → 0 < stamped.now.access.size
            → OnOk result (AreKept (all ++ stamped.now ∷ []) self.new) }
    {
        self.list.push(*stamped)?;
        self.places
            .set(u64::from(ticket(&stamped.access())), self.list.len())?;
        self.stamps.set(stamped.begin(), true)?;
        self.stamps.set(stamped.end(), true)
    }
}
