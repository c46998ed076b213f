//! The accesses of a trace, by their tickets.

ghost use Rattle.std.specs.Prelude.{List, IfOk};
ghost use Rattle.access_types.specs.Stamped as spec;
ghost use Rattle.trace_replay.specs.Accesses.{IsNamed};
ghost use Rattle.timeline.specs.picture.Named.{AreNamed};
ghost use Rattle.timeline.specs.picture.Watches.{IsFinderOf};

use access_types::{ArmOutcome, Stamped, ticket};
use std::alloc::{AllocError, Global};
use std::collections::BTreeMap;

/// Accesses by their tickets.
#[derive(Drop)]
pub(crate) struct Named {
    by_ticket: BTreeMap<u32, Stamped>,
}

impl Named {
    /// The accesses. The only error is want of memory.
    pub(crate) fn new(alloc: Global, accesses: &[Stamped]) -> Result<Named, AllocError>
        ensures { IfOk result (AreNamed accesses.now) }
    {
        let mut by_ticket = BTreeMap::new(alloc);
        for access in accesses {
            by_ticket.insert(ticket(&access.access()), *access)?;
        }
        Ok(Named { by_ticket })
    }

    /// The access that the ticket names.
    pub(crate) fn the(&self, ticket: u32) -> Stamped
        requires { (accesses : List spec.Stamped) × (s : spec.Stamped) × AreNamed accesses self.now × IsNamed accesses ticket s }
        ensures { (accesses : List spec.Stamped) → AreNamed accesses self.now → IsNamed accesses ticket result }
    {
        *self.by_ticket.get(&ticket).unwrap()
    }

    /// The access that took a watchpoint that came to this end, if one did.
    pub(crate) fn finder(&self, outcome: ArmOutcome) -> Option<Stamped>
        ensures { (accesses : List spec.Stamped) → AreNamed accesses self.now → IsFinderOf accesses outcome result }
    {
        match outcome {
            ArmOutcome::Quiet | ArmOutcome::Origin => None,
            ArmOutcome::Hit { finder, .. } => self.by_ticket.get(&finder).copied(),
        }
    }
}
