//! The texts of the reports of a list.

ghost use Rattle.std.specs.Prelude.{◌≡◌, IfOk, OnOk, map};
ghost use Rattle.report_text.specs.Groups.{first_seen, seen_too};
ghost use Rattle.report_text.specs.ReportOf.{report_text};
ghost use Rattle.search_text.specs.Texts.{texts_in};

use access_types::{Report, Sites};
use report_text::{MemorySink, write_report};
use std::alloc::{AllocError, Global};

/// The text of a report, of the accesses that its tickets name among the sites. Where one names none, the report has no
/// text.
fn text_of(alloc: Global, report: &Report, sites: &Sites) -> Result<Vec<u8>, AllocError>
    ensures { IfOk result (λ text. text.items ≡ report_text sites.now report.now) }
{
    let mut sink = MemorySink::new(alloc);
    match write_report(report, sites, &mut sink) {
        Ok(()) => Ok(sink.into_bytes()),
        Err(_) => Err(AllocError),
    }
}

/// Adds a text, unless it is there.
fn add_text(texts: &mut Vec<Vec<u8>>, text: Vec<u8>) -> Result<(), AllocError>
    ensures { OnOk result (texts_in texts.new.items ≡ seen_too (texts_in texts.old.items) text.items) }
{
    if texts.contains(&text) {
        return Ok(());
    }
    texts.push(text)?;
    Ok(())
}

/// The texts of reports, each once, in the order in which they are first met.
pub fn texts_of(
    alloc: Global,
    reports: &[Report],
    sites: &Sites,
) -> Result<Vec<Vec<u8>>, AllocError>
    ensures { IfOk result (λ texts. texts_in texts.items ≡ first_seen (map (report_text sites.now) reports.now)) }
{
    let mut texts = Vec::new(alloc);
    for report in reports {
        add_text(&mut texts, text_of(alloc, report, sites)?)?;
    }
    Ok(texts)
}
