//! Accesses by ticket: a pair word and a report name an access by its ticket, and the site table of
//! a program has the access that is meant.

ghost use Rattle.std.specs.Prelude.{◌≡◌, IfSome, None, OnErr, OnOk};
ghost use Rattle.std.specs.FinMap as map;
ghost use Rattle.std.specs.Option.{option_copied};
ghost use Rattle.access_types.specs.Ticket.{ticket_number};

use crate::access::Access;
use crate::tickets::ticket;
use std::alloc::{AllocError, Global};
use std::collections::HashMap;
use std::marker::Model;

/// The accesses of a program, each under its ticket.
#[derive(Drop)]
pub struct Sites {
    accesses: HashMap<u32, Access>,
}

impl Model for Sites {
    ghost use Rattle.std.specs.Coded.{coded_ℕ};
    ghost use Rattle.std.specs.FinMap as map;
    ghost use Rattle.access_types.specs.Sites.{AccessMap, StandUnderTickets, map_of};
    ghost use Rattle.access_types.specs.contracts.access.Access as access;

    ghost Value = { AccessMap };

    ghost coded = { map.code coded_ℕ access.the_row.coded };

    ghost view = { λ sites. map_of sites.accesses.entries };

    ghost invariant = { λ sites. StandUnderTickets (map_of sites.accesses.entries) };
}

impl Sites {
    /// No accesses. Those that are added later take their memory from this allocator.
    pub fn new(alloc: Global) -> Sites
        ensures { result ≡ map.empty }
    {
        Sites {
            accesses: HashMap::new(alloc),
        }
    }

    /// Adds an access whose ticket isn't there yet.
    ///
    /// The only error is want of memory.
    pub fn add(&mut self, access: &Access) -> Result<(), AllocError>
        requires new_ticket { map.get self.old (ticket_number access.now) ≡ None }
        ensures added { OnOk result
            (self.new ≡ map.insert self.old (ticket_number access.now) access.now) }
        ensures unchanged { OnErr result (self.new ≡ self.old) }
    {
        self.accesses.insert(ticket(access), *access)?;
        Ok(())
    }

    /// The access that the ticket names, if it is there.
    pub fn get(&self, ticket: u32) -> Option<&Access>
        ensures access { option_copied result ≡ map.get self.now ticket }
        ensures named { IfSome result (λ access. ticket_number access.now ≡ ticket) }
    {
        self.accesses.get(&ticket)
    }
}
