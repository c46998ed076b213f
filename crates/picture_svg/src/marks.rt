//! The rows of a picture.

ghost use Rattle.std.specs.Prelude.{◌≡◌};
ghost use Rattle.std.specs.List.Sorted.{IsNonDecreasingBy};
ghost use Rattle.report_text.specs.Sink.{Writes};
ghost use Rattle.picture_svg.specs.Marks as spec;

use crate::bars::write_bar;
use crate::lanes::Lanes;
use crate::lines::row_top;
use crate::notes::write_note;
use crate::reports::{write_origin, write_race};
use report_text::{Sink, WriteError};
use timeline::picture::labels::Label;
use timeline::picture::{Mark, Picture, Row, rows_before};

/// Writes what is drawn of the row at this place among the rows: an access where it begins, what became of its
/// watchpoints where it ends, and a report.
fn write_row<K: Sink>(
    sink: &mut K,
    picture: &Picture,
    labels: &[Label<'_>],
    lanes: &Lanes,
    place: usize,
    row: &Row,
) -> Result<(), WriteError>
    requires { IsNonDecreasingBy (λ row. row.stamp) picture.now.rows.items }
    ensures { Writes K.written K.failures result (spec.row_marks picture.now labels.now lanes.now place row.now) sink.old sink.new }
{
    let top = row_top(place);
    match &row.mark {
        Mark::Begin(stamped) => {
            let bottom = rows_before(&picture.rows, stamped.end());
            write_bar(sink, labels, lanes, stamped, place, bottom)
        }
        Mark::End(stamped) => {
            let x = lanes.start(stamped.access().task());
            write_note(sink, &picture.watches, stamped, x, top)
        }
        Mark::Race { setter, finder } => write_race(sink, lanes, setter, finder, top),
        Mark::Origin { setter, old, new } => write_origin(sink, lanes, setter, *old, *new, top),
    }
}

/// Writes what is drawn of the rows.
pub(crate) fn write_rows<K: Sink>(
    sink: &mut K,
    picture: &Picture,
    labels: &[Label<'_>],
    lanes: &Lanes,
) -> Result<(), WriteError>
    requires { IsNonDecreasingBy (λ row. row.stamp) picture.now.rows.items }
    ensures { Writes K.written K.failures result (spec.rows_marks picture.now labels.now lanes.now 0 picture.now.rows.items)
        sink.old sink.new }
{
    for (place, row) in picture.rows.iter().enumerate() {
        write_row(sink, picture, labels, lanes, place, row)?;
    }
    Ok(())
}
