//! Tickets name accesses in pair words and reports. A site runs at most 256 times, each time with
//! its own repetition, so a ticket names one access of a run.

ghost use Rattle.std.specs.Prelude.{◌≡◌, ◌<◌};
ghost use Rattle.access_types.specs.Access as spec;
ghost use Rattle.access_types.specs.Access.{IsInLimits};
ghost use Rattle.access_types.specs.Ticket.{rep_in, site_in, task_in, ticket_number, AreOneTurn};
ghost use Rattle.access_types.specs.Ticket.{ReadsBack};

use crate::access::Access;

/// The number that names an access: 1 + task x 65536 + site x 256 + repetition. It begins at 1, since a half of a
/// pair word that is 0 names nobody.
pub fn ticket(access: &Access) -> u32
    ensures value { result ≡ ticket_number access.now }
    ensures above_zero { 0 < result }
{
    1 + access.task() * 65536 + access.site() * 256 + access.rep()
}

/// The task of the access that the ticket names.
pub fn task_of(ticket: u32) -> u32
    requires { 0 < ticket }
    ensures { result ≡ task_in ticket }
{
    (ticket - 1) / 65536
}

/// The site of the access that the ticket names.
pub fn site_of(ticket: u32) -> u32
    requires { 0 < ticket }
    ensures value { result ≡ site_in ticket }
    ensures limit { result < 256 }
{
    (ticket - 1) / 256 % 256
}

/// The repetition of the access that the ticket names.
pub fn rep_of(ticket: u32) -> u32
    requires { 0 < ticket }
    ensures value { result ≡ rep_in ticket }
    ensures limit { result < 256 }
{
    (ticket - 1) % 256
}

/// Law: an access's ticket is above 0 and below 2^32, and gives its task, site and repetition back.
pub fn law_tickets_read_back()
    ensures { (a : spec.Access) → IsInLimits a → ReadsBack a }
{}

/// Law: accesses that differ in task, site or repetition have different tickets.
pub fn law_tickets_differ()
    ensures { (a b : spec.Access) → IsInLimits a → IsInLimits b → ticket_number a ≡ ticket_number b
        → AreOneTurn a b }
{}
