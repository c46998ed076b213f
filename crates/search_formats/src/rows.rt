//! What is found of a file, as a row of CSV.

ghost use Rattle.std.specs.Prelude.{◌≡◌, IfOk, map};
ghost use Rattle.csv.specs.Writing.{default_writer, row_text};
ghost use Rattle.search_formats.specs.Rows as spec;

use crate::pairs::pair_count;
use access_types::Sites;
use csv::{Error, WriterBuilder};
use program_table::text_pieces::number;
use search_json::{Extent, has_reports, is_counted, status_of};
use search_text::SearchFindings;
use search_text::seen::Seen;
use std::alloc::{AllocError, Global};

/// The numbers of a row.
#[derive(Clone, Copy)]
pub struct RowCounts {
    pub status: u8,
    pub reports: usize,
    pub pairs: usize,
    pub states: usize,
    pub stuck: u64,
    pub positive: u64,
    pub negative: u64,
}

/// A row with these fields, or why the writer fails.
fn written_row(alloc: Global, fields: &[&[u8]]) -> Result<Vec<u8>, Error>
    ensures { IfOk result (λ text. text.items ≡ row_text default_writer (map (λ field. field.now) fields.now)) }
{
    let mut writer = WriterBuilder::new().from_writer(Vec::new(alloc));
    writer.write_fields(fields)?;
    match writer.into_inner() {
        Ok(text) => Ok(text),
        Err(error) => Err(error.into_error()),
    }
}

/// A row with these fields. A writer into memory fails for want of memory alone.
fn row_bytes(alloc: Global, fields: &[&[u8]]) -> Result<Vec<u8>, AllocError>
    ensures { IfOk result (λ text. text.items ≡ row_text default_writer (map (λ field. field.now) fields.now)) }
{
    match written_row(alloc, fields) {
        Ok(text) => Ok(text),
        Err(_) => Err(AllocError),
    }
}

/// The row of a file with these numbers.
#[tactic(auto, unfolding(crate::specs::Rows::row))]
fn row(alloc: Global, name: &str, counts: RowCounts) -> Result<Vec<u8>, AllocError>
    ensures { IfOk result (λ text. text.items ≡ spec.row name.now counts) }
{
    let status = number(alloc, counts.status as usize)?;
    let reports = number(alloc, counts.reports)?;
    let pairs = number(alloc, counts.pairs)?;
    let states = number(alloc, counts.states)?;
    let stuck = number(alloc, counts.stuck as usize)?;
    let positive = number(alloc, counts.positive as usize)?;
    let negative = number(alloc, counts.negative as usize)?;
    row_bytes(
        alloc,
        &[
            name.as_bytes(),
            &status,
            &reports,
            &pairs,
            &states,
            &stuck,
            &positive,
            &negative,
            b"",
        ],
    )
}

/// After how many schedules not all tasks have ended; 1 where there are some and their number isn't known.
fn stuck_count(stuck: &Option<Seen>, counted: bool) -> u64
    ensures { result ≡ spec.stuck_count stuck.now counted }
{
    match stuck {
        None => 0,
        Some(seen) => { if counted { seen.times() } else { 1 } }
    }
}

/// What is found of a file of this name, as a row of CSV: the reports of the first, and how the schedules of the other
/// end.
#[tactic(auto, unfolding(crate::specs::Rows::csv_text))]
pub fn csv_text(
    alloc: Global,
    name: &str,
    sites: &Sites,
    reported: &SearchFindings,
    ended: &SearchFindings,
    extent: Extent,
) -> Result<Vec<u8>, AllocError>
    ensures { IfOk result (λ text. text.items ≡ spec.csv_text name.now sites.now reported.now ended.now extent) }
{
    let pairs = pair_count(alloc, reported.known(), sites)?;
    let counts = RowCounts {
        status: status_of(has_reports(reported), extent.stopped),
        reports: reported.reports().len(),
        pairs,
        states: ended.states().len(),
        stuck: stuck_count(ended.stuck(), is_counted(extent)),
        positive: ended.held(),
        negative: ended.failed(),
    };
    row(alloc, name, counts)
}

/// The row of a file that isn't searched.
#[tactic(auto, unfolding(crate::specs::Rows::refused_row))]
pub(crate) fn refused_row(
    alloc: Global,
    name: &str,
    status: u8,
    why: &[u8],
) -> Result<Vec<u8>, AllocError>
    ensures { IfOk result (λ text. text.items ≡ spec.refused_row name.now status why.now) }
{
    let status = number(alloc, status as usize)?;
    row_bytes(
        alloc,
        &[name.as_bytes(), &status, b"", b"", b"", b"", b"", b"", why],
    )
}
