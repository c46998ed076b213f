//! The reports of a run that are printed.

ghost use Rattle.std.specs.Prelude.{◌≡◌, IfOk};
ghost use Rattle.report_text.specs.printed_reports.Printed as spec;

use access_types::{Report, Sites};
use std::alloc::{AllocError, Global};

/// The report is of unknown origin, of an access that asserts nothing.
fn is_hidden(report: &Report, sites: &Sites) -> bool
    ensures { result ≡ spec.is_hidden sites.now report.now }
{
    match *report {
        Report::Two { .. } => false,
        Report::Unknown { setter, .. } => match sites.get(setter) {
            Some(setter) => !setter.kind().is_assertion(),
            None => false,
        },
    }
}

/// Whether a report is printed.
fn is_printed(report: &Report, sites: &Sites, unknown: bool) -> bool
    ensures { result ≡ spec.is_printed unknown sites.now report.now }
{
    unknown || !is_hidden(report, sites)
}

/// Those of the reports that are printed, where those of unknown origin are wanted or not. Their tickets name accesses
/// among the sites. As where the kernel is built without CONFIG_KCSAN_REPORT_RACE_UNKNOWN_ORIGIN, those of assertions
/// are printed in any case.
pub fn printed_reports(
    alloc: Global,
    reports: &[Report],
    sites: &Sites,
    unknown: bool,
) -> Result<Vec<Report>, AllocError>
    ensures { IfOk result (λ printed. printed.items ≡ spec.printed_reports unknown sites.now reports.now) }
{
    let mut printed = Vec::new(alloc);
    for report in reports {
        if is_printed(report, sites, unknown) {
            printed.push(*report)?;
        }
    }
    Ok(printed)
}
