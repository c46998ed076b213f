//! What happens in executions at two sites: reports, takings and armings, by tickets, and writes.

ghost use Rattle.std.specs.Prelude.{◌↔◌, Any, IsTrue};
ghost use Rattle.oracle_soundness.specs.oracle_races.Searched.{Happens};
ghost use Rattle.oracle_soundness.specs.oracle_races.Shown.{IsDropped, IsOrigin, IsReported, IsTaking};
ghost use Rattle.oracle_soundness.specs.oracle_races.Shown.{Names, NamesEither};

use crate::oracle_races::masks::site_writes;
use crate::oracle_races::observed::{Observed, Taking};
use access_types::Report;
use races::report::ticket_site;
use races::{SiteName, SitePair};
use value_filter::Reason;

/// What may happen in an execution to accesses at two sites.
#[derive(Clone, Copy)]
pub enum Event {
    /// A report of two sides names both.
    Reported,
    /// A report of unknown origin names one.
    Origin,
    /// A taking between the two is dropped for this reason.
    Dropped(Reason),
    /// There is a taking between the two.
    Taken,
    /// A watchpoint is armed for one.
    Armed,
    /// An access at this site writes.
    Writes(SiteName),
}

/// The ticket names an access at the site.
fn names(ticket: u32, site: SiteName) -> bool
    ensures { IsTrue result ↔ Names site ticket }
{
    ticket > 0 && ticket_site(ticket) == site
}

/// The ticket names an access at one of the sites.
fn names_either(ticket: u32, pair: SitePair) -> bool
    ensures { IsTrue result ↔ NamesEither pair ticket }
{
    names(ticket, pair.first) || names(ticket, pair.second)
}

/// The taking is between accesses at the two sites.
fn is_between(taking: Taking, pair: SitePair) -> bool
    ensures { IsTrue result ↔ IsTaking pair taking }
{
    let Taking { setter, finder } = taking;
    (names(setter, pair.first) && names(finder, pair.second))
        || (names(finder, pair.first) && names(setter, pair.second))
}

/// The report is of two sides and names the two sites.
fn is_of_both(report: &Report, pair: SitePair) -> bool
    ensures { IsTrue result ↔ IsReported pair report.now }
{
    match *report {
        Report::Two { setter, finder, .. } => is_between(Taking { setter, finder }, pair),
        Report::Unknown { .. } => false,
    }
}

/// The report is of unknown origin and names one of the sites.
fn is_of_origin(report: &Report, pair: SitePair) -> bool
    ensures { IsTrue result ↔ IsOrigin pair report.now }
{
    matches!(*report, Report::Unknown { setter, .. } if names_either(setter, pair))
}

/// The taking is between the two sites, and is dropped for this reason.
fn is_dropped(dropped: &(Taking, Reason), pair: SitePair, reason: Reason) -> bool
    ensures { IsTrue result ↔ IsDropped pair reason dropped.now }
{
    dropped.1 == reason && is_between(dropped.0, pair)
}

/// The event happens in the execution.
fn happens(told: &Observed, pair: SitePair, event: Event) -> bool
    ensures { IsTrue result ↔ Happens pair event told.now }
{
    match event {
        Event::Reported => told.reports.iter().any(|report| is_of_both(report, pair)),
        Event::Origin => told.reports.iter().any(|report| is_of_origin(report, pair)),
        Event::Dropped(why) => told.dropped.iter().any(|it| is_dropped(it, pair, why)),
        Event::Taken => told.taken.iter().any(|taking| is_between(*taking, pair)),
        Event::Armed => told.armed.iter().any(|ticket| names_either(*ticket, pair)),
        Event::Writes(site) => site_writes(&told.history, site),
    }
}

/// The event happens in one of the executions.
pub fn some_happens(executions: &[Observed], pair: SitePair, event: Event) -> bool
    ensures { IsTrue result ↔ Any (Happens pair event) executions.now }
{
    for told in executions {
        if happens(told, pair, event) {
            return true;
        }
    }
    false
}
