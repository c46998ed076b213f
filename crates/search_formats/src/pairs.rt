//! The pairs of sites that reports tell of.

ghost use Rattle.std.specs.Prelude.{◌≡◌, IfOk, OnOk, fold, length};
ghost use Rattle.search_formats.specs.Pairs as spec;

use access_types::{Access, Report, Sites};
use std::alloc::{AllocError, Global};

/// A site of a task: the number of the task, and that of the access in its text, both from 0.
#[derive(Clone, Copy)]
pub struct ReportedSite {
    pub task: u32,
    pub site: u32,
}

/// The sites of the two accesses of a report.
#[derive(Clone, Copy)]
pub struct ReportedPair {
    pub setter: ReportedSite,
    pub finder: ReportedSite,
}

/// The site of an access.
fn site_of(access: &Access) -> ReportedSite
    ensures { result ≡ spec.site_of access.now }
{
    ReportedSite {
        task: access.task(),
        site: access.site(),
    }
}

/// The sites of the accesses of a report that has two, which its tickets name.
fn pair_of(report: &Report, sites: &Sites) -> Option<ReportedPair>
    ensures { result ≡ spec.pair_of sites.now report.now }
{
    let Report::Two { setter, finder, .. } = *report else {
        return None;
    };
    match (sites.get(setter), sites.get(finder)) {
        (Some(setter), Some(finder)) => Some(ReportedPair {
            setter: site_of(setter),
            finder: site_of(finder),
        }),
        _ => None,
    }
}

/// The two are one site.
fn is_site(one: ReportedSite, other: ReportedSite) -> bool
    ensures { result ≡ spec.is_site one other }
{
    one.task == other.task && one.site == other.site
}

/// The two are one pair of sites, whichever of them armed.
fn is_pair(one: ReportedPair, other: ReportedPair) -> bool
    ensures { result ≡ spec.is_pair one other }
{
    (is_site(one.setter, other.setter) && is_site(one.finder, other.finder))
        || (is_site(one.setter, other.finder) && is_site(one.finder, other.setter))
}

/// A pair is one of these.
fn is_among(pairs: &[ReportedPair], pair: ReportedPair) -> bool
    ensures { result ≡ spec.is_among pairs.now pair }
{
    pairs.iter().any(|other| is_pair(pair, *other))
}

/// Adds the pair of a report, if it has one that isn't there yet.
fn add_pair(pairs: &mut Vec<ReportedPair>, pair: Option<ReportedPair>) -> Result<(), AllocError>
    ensures { OnOk result (pairs.new.items ≡ spec.pair_too pairs.old.items pair) }
{
    let Some(pair) = pair else {
        return Ok(());
    };
    if is_among(pairs.as_slice(), pair) {
        return Ok(());
    }
    pairs.push(pair)?;
    Ok(())
}

/// The pairs of sites of reports of two accesses, each once.
fn pairs_of(
    alloc: Global,
    reports: &[Report],
    sites: &Sites,
) -> Result<Vec<ReportedPair>, AllocError>
    ensures { IfOk result (λ pairs. pairs.items ≡ spec.pairs_of sites.now reports.now) }
{
    let mut pairs = Vec::new(alloc);
    for report in reports {
        add_pair(&mut pairs, pair_of(report, sites))?;
    }
    Ok(pairs)
}

/// How many pairs of sites reports of two accesses tell of.
pub(crate) fn pair_count(
    alloc: Global,
    reports: &[Report],
    sites: &Sites,
) -> Result<usize, AllocError>
    ensures { IfOk result (λ count. count ≡ length (spec.pairs_of sites.now reports.now)) }
{
    let pairs = pairs_of(alloc, reports, sites)?;
    Ok(pairs.len())
}
