//! Reports of the accesses of a trace, and how they are written.

use crate::trace::Trace;
use crate::trace_row::number;
use access_types::{Report, Sites, ValueChange, ticket};
use report_text::{Groups, MemorySink, write_report};
use std::alloc::{AllocError, Global};
use test_rows::texts::Texts;

/// The text of a report: `NAME REPORT`, of the accesses in the trace of this name.
pub fn reported(alloc: Global, texts: &Texts, asked: &str) -> Result<Option<String>, AllocError> {
    let Some((name, report)) = asked.split_once(' ') else {
        return Ok(None);
    };
    let (Some(sites), Some(report)) = (sites_of(alloc, texts, name)?, report_of(report)) else {
        return Ok(None);
    };
    let mut sink = MemorySink::new(alloc);
    if write_report(&report, &sites, &mut sink).is_err() {
        return Err(AllocError);
    }
    Ok(Some(String::from_utf8_lossy(alloc, sink.bytes())?))
}

/// The texts of reports, equal ones counted: `NAME REPORT, REPORT`, of the accesses in the trace of this name.
pub fn grouped(alloc: Global, texts: &Texts, asked: &str) -> Result<Option<String>, AllocError> {
    let Some((name, reports)) = asked.split_once(' ') else {
        return Ok(None);
    };
    let Some(sites) = sites_of(alloc, texts, name)? else {
        return Ok(None);
    };
    let Some(groups) = groups_of(alloc, &sites, reports)? else {
        return Ok(None);
    };
    let mut sink = MemorySink::new(alloc);
    if groups.write(&mut sink).is_err() {
        return Err(AllocError);
    }
    Ok(Some(String::from_utf8_lossy(alloc, sink.bytes())?))
}

/// The reports, equal ones counted, where all their accesses are there.
fn groups_of(alloc: Global, sites: &Sites, reports: &str) -> Result<Option<Groups>, AllocError> {
    let mut groups = Groups::new(alloc);
    for report in reports.split(", ") {
        let Some(report) = report_of(report) else {
            return Ok(None);
        };
        if !is_added(&mut groups, sites, report)? {
            return Ok(None);
        }
    }
    Ok(Some(groups))
}

/// Counts a report, where its accesses are there, and says whether they are.
fn is_added(groups: &mut Groups, sites: &Sites, report: Report) -> Result<bool, AllocError> {
    match report {
        Report::Two { setter, finder, .. }
            if sites.get(setter).is_some() && sites.get(finder).is_some() => {
            groups.add(&report, sites)?;
        }
        Report::Unknown { setter, .. } if sites.get(setter).is_some() => {
            groups.add(&report, sites)?;
        }
        _ => return Ok(false),
    }
    Ok(true)
}

/// The accesses in the trace of a name, where each is there once.
fn sites_of(alloc: Global, texts: &Texts, name: &str) -> Result<Option<Sites>, AllocError> {
    let Some(text) = texts.get(name) else {
        return Ok(None);
    };
    let Some(trace) = Trace::read(alloc, text)? else {
        return Ok(None);
    };
    let mut sites = Sites::new(alloc);
    for stamped in trace.accesses() {
        let access = stamped.access();
        if sites.get(ticket(&access)).is_none() {
            sites.add(&access)?;
        } else {
            return Ok(None);
        }
    }
    Ok(Some(sites))
}

/// The report of words: `two SETTER FINDER OLD NEW` or `unknown SETTER OLD NEW`.
fn report_of(text: &str) -> Option<Report> {
    let mut words = text.split(' ');
    match words.next()? {
        "two" => {
            let setter = ticket_in(words.next())?;
            let finder = ticket_in(words.next())?;
            let old = number(words.next())?;
            let new = number(words.next())?;
            let seen = Some(ValueChange { old, new });
            Some(Report::Two {
                setter,
                finder,
                seen,
            })
        }
        "unknown" => Some(Report::Unknown {
            setter: ticket_in(words.next())?,
            old: number(words.next())?,
            new: number(words.next())?,
        }),
        _ => None,
    }
}

/// The ticket that a word is.
fn ticket_in(word: Option<&str>) -> Option<u32> {
    u32::try_from(number(word)?).ok()
}
