//! The rows of a picture: what began, ended or was reported, by stamps.

ghost use Rattle.std.specs.Prelude.{◌≡◌, IfOk, List, max};
ghost use Rattle.std.specs.List.{AllByRecursion, AllZip, flat_map};
ghost use Rattle.std.specs.List.Sorted.{IsNonDecreasingBy};
ghost use Rattle.access_types.specs.Stamped as spec;
ghost use Rattle.timeline.specs.picture.Named.{AreNamed};
ghost use Rattle.timeline.specs.picture.Ordered as order;
ghost use Rattle.timeline.specs.picture.Rows.{AreRows, IsRowOf, place, rank, rows_of};
ghost use Rattle.timeline.specs.picture.Sound.{ReportHolds};

use crate::picture::named::Named;
use access_types::{Report, Stamped};
use std::alloc::{AllocError, Global};

/// What stands in a row.
#[derive(Clone, Copy)]
pub enum Mark {
    /// An access begins.
    Begin(Stamped),
    /// An access ends.
    End(Stamped),
    /// The two are reported as a race.
    Race { setter: Stamped, finder: Stamped },
    /// The bytes of the access were seen to change, from one value to another, and nobody told why.
    Origin { setter: Stamped, old: u64, new: u64 },
}

/// A row, at a stamp of the trace's clock.
#[derive(Clone, Copy)]
pub struct Row {
    pub stamp: u64,
    pub mark: Mark,
}

impl Mark {
    /// At one stamp, what is reported comes behind what begins or ends: so it stands where its accesses are drawn.
    fn rank(&self) -> u64
        ensures { result ≡ rank self.now }
    {
        match self {
            Mark::Begin(_) | Mark::End(_) => 0,
            Mark::Race { .. } | Mark::Origin { .. } => 1,
        }
    }
}

impl Row {
    /// Where it comes among rows.
    fn place(&self) -> u128
        ensures { result ≡ place self.now }
    {
        2 * (self.stamp as u128) + self.mark.rank() as u128
    }
}

/// The rows of accesses: their begins and their ends.
fn access_rows(alloc: Global, accesses: &[Stamped]) -> Result<Vec<Row>, AllocError>
    ensures { IfOk result (λ rows. rows.items ≡ flat_map rows_of accesses.now) }
{
    let mut rows = Vec::new(alloc);
    for access in accesses {
        rows.push(Row {
            stamp: access.begin(),
            mark: Mark::Begin(*access),
        })?;
        rows.push(Row {
            stamp: access.end(),
            mark: Mark::End(*access),
        })?;
    }
    Ok(rows)
}

/// The row of a race: where the later of the two begins.
fn race_row(setter: Stamped, finder: Stamped) -> Row
    ensures stamp { result.stamp ≡ max setter.begin finder.begin }
    ensures mark { result.mark ≡ Mark.Race setter finder }
{
    Row {
        stamp: setter.begin().max(finder.begin()),
        mark: Mark::Race { setter, finder },
    }
}

/// The row of a change of unknown origin: where its access begins.
fn origin_row(setter: Stamped, old: u64, new: u64) -> Row
    ensures stamp { result.stamp ≡ setter.begin }
    ensures mark { result.mark ≡ Mark.Origin setter old new }
{
    Row {
        stamp: setter.begin(),
        mark: Mark::Origin { setter, old, new },
    }
}

/// The row of a report, where the later of its accesses begins: both are in progress there.
fn report_row(named: &Named, report: &Report) -> Row
    requires { (accesses : List spec.Stamped) × AreNamed accesses named.now × ReportHolds accesses report.now }
    ensures { (accesses : List spec.Stamped) → AreNamed accesses named.now → ReportHolds accesses report.now
        → IsRowOf accesses report.now result }
{
    match *report {
        Report::Two { setter, finder, .. } => race_row(named.the(setter), named.the(finder)),
        Report::Unknown { setter, old, new } => origin_row(named.the(setter), old, new),
    }
}

/// The rows of reports.
fn report_rows(alloc: Global, named: &Named, reports: &[Report]) -> Result<Vec<Row>, AllocError>
    requires { (accesses : List spec.Stamped) × AreNamed accesses named.now × AllByRecursion (ReportHolds accesses) reports.now }
    ensures { (accesses : List spec.Stamped) → AreNamed accesses named.now → AllByRecursion (ReportHolds accesses) reports.now
        → IfOk result (λ rows. AllZip (IsRowOf accesses) reports.now rows.items) }
{
    let mut rows = Vec::new(alloc);
    for report in reports {
        let Row { stamp, mark } = report_row(named, report);
        rows.push(Row { stamp, mark })?;
    }
    Ok(rows)
}

/// The rows of accesses and reports, by their stamps, and at one stamp by their ranks.
pub(crate) fn rows(
    alloc: Global,
    named: &Named,
    accesses: &[Stamped],
    reports: &[Report],
) -> Result<Vec<Row>, AllocError>
    requires { AreNamed accesses.now named.now × AllByRecursion (ReportHolds accesses.now) reports.now }
    ensures { IfOk result (λ rows. AreRows accesses.now reports.now rows.items) }
{
    let mut rows = access_rows(alloc, accesses)?;
    let of_reports = report_rows(alloc, named, reports)?;
    rows.extend_from_slice(&of_reports)?;
    rows.sort_by_key(
        |row: &Row| -> u128
            ensures { result ≡ place row.now }
        { row.place() },
    )?;
    Ok(rows)
}

/// How many of the rows stand before the stamp.
pub fn rows_before(rows: &[Row], stamp: u64) -> usize
    requires { IsNonDecreasingBy (λ row. row.stamp) rows.now }
    ensures { result ≡ order.rows_before rows.now stamp }
{
    rows.partition_point(|row| row.stamp < stamp)
}
