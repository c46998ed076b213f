//! Whether the accesses of a trace can be those of sites.

ghost use Rattle.std.specs.Prelude.{◌≡◌, ◌==◌, IfOk, count_by, map};
ghost use Rattle.std.specs.List.{find};
ghost use Rattle.std.specs.Option.{option_copied};
ghost use Rattle.source_places.specs.picture_source.Fit as spec;

use access_types::{Stamped, words};
use litmus_semantics::Site;
use races::PlacedSite;
use std::alloc::{AllocError, Global};
use timeline::picture::{Mark, Row};

/// How an access stands to its site: whether it can be of it, the address of the variable there without a place list,
/// and the address that the trace has.
#[derive(Clone, Copy)]
pub(crate) struct Standing {
    fits: bool,
    home: u64,
    addr: u64,
}

/// The access that a row is about: of a report the one that had set its watchpoint up.
fn subject(mark: &Mark) -> Stamped
    ensures { result ≡ spec.subject mark.now }
{
    match mark {
        Mark::Begin(stamped) | Mark::End(stamped) => *stamped,
        Mark::Race { setter, .. } | Mark::Origin { setter, .. } => *setter,
    }
}

/// The access is of the site of this name.
fn is_of(placed: &PlacedSite, stamped: &Stamped) -> bool
    ensures { result ≡ spec.is_of stamped.now placed.now }
{
    let access = stamped.access();
    placed.name.task == access.task() && placed.name.site == access.site()
}

/// The site of the access.
fn site_of<'a>(sites: &'a [PlacedSite], stamped: &Stamped) -> Option<&'a PlacedSite>
    ensures { option_copied result ≡ find (spec.is_of stamped.now) sites.now }
{
    sites.iter().find(|placed| is_of(placed, stamped))
}

/// Accesses at the site are told in the same words, and have as many bytes. A trace says nothing of scopes.
fn is_alike(site: &Site, stamped: &Stamped) -> bool
    ensures { result ≡ spec.is_alike site.now stamped.now }
{
    let access = stamped.access();
    words(&site.kind) == words(&access.kind()) && site.bytes.size == access.size()
}

/// How the access stands to its site.
fn standing_of(sites: &[PlacedSite], stamped: &Stamped) -> Standing
    ensures { result ≡ spec.standing_of sites.now stamped.now }
{
    match site_of(sites, stamped) {
        Some(placed) => Standing {
            fits: is_alike(&placed.site, stamped),
            home: placed.site.bytes.addr,
            addr: stamped.access().addr(),
        },
        None => Standing {
            fits: false,
            home: 0,
            addr: 0,
        },
    }
}

/// How the accesses of rows stand to their sites.
fn standings(alloc: Global, sites: &[PlacedSite], rows: &[Row]) -> Result<Vec<Standing>, AllocError>
    ensures { IfOk result (λ found. found.items ≡ spec.standings sites.now rows.now) }
{
    let mut found = Vec::new(alloc);
    for row in rows {
        found.push(standing_of(sites, &subject(&row.mark)))?;
    }
    Ok(found)
}

/// The first access to the variable with this address.
fn first_at(all: &[Standing], home: u64) -> Option<&Standing>
    ensures { option_copied result ≡ find (spec.is_at home) all.now }
{
    all.iter().find(|first| first.home == home)
}

/// The address of the first access to the variable with this address.
fn first_addr(all: &[Standing], home: u64) -> u64
    ensures { result ≡ spec.first_addr all.now home }
{
    match first_at(all, home) {
        Some(first) => first.addr,
        None => 0,
    }
}

/// The access can't be of its site, or its address isn't that of the first access to the same variable.
fn strays(all: &[Standing], own: &Standing) -> bool
    ensures { result ≡ spec.strays all.now own.now }
{
    !own.fits || first_addr(all, own.home) != own.addr
}

/// No access strays.
fn none_strays(all: &[Standing]) -> bool
    ensures { result ≡ (count_by (spec.strays all.now) all.now == 0) }
{
    all.iter().filter(|own| strays(all, own)).count() == 0
}

/// The accesses of these rows can be those of the sites.
pub(crate) fn fits(alloc: Global, sites: &[PlacedSite], rows: &[Row]) -> Result<bool, AllocError>
    ensures { IfOk result (λ fits. fits ≡ spec.fits sites.now rows.now) }
{
    let found = standings(alloc, sites, rows)?;
    Ok(none_strays(&found))
}
