//! What is drawn of a trace that is accepted.

ghost use Rattle.std.specs.Global.{Global as Heap};
ghost use Rattle.std.specs.Prelude.{◌≡◌, ◌⊎◌, IfErr, IfOk, None, Some, Vec, false};
ghost use Rattle.std.specs.Option.{option_map};
ghost use Rattle.litmus_command.specs.Show.{IsDrawn, IsDrawnBy, IsNotDrawn, IsPictureDrawn, IsUnsuited};
ghost use Rattle.litmus_syntax.specs.Limits.{KeepsLimits};
ghost use Rattle.litmus_syntax.specs.Views.{program_of};
ghost use Rattle.source_places.specs.picture_source.Source.{AreLabelsIn};
ghost use Rattle.picture_text.specs.Text.{detailed_picture};
ghost use Rattle.timeline.specs.picture.Drawn.{IsUndrawn};
ghost use Rattle.timeline.specs.picture.Ordered.{IsOrdered};
ghost use Rattle.timeline.specs.declared.picture.labels.Label as label;
ghost use Rattle.file_commands.specs.declared.failure.Failure.TheVariants as failures;

use file_commands::failure::Failure;
use litmus_parse::{Reading, read_text};
use picture_svg::svg_bytes;
use picture_text::{Details, Style, write_detailed_picture};
use report_text::MemorySink;
use run_output::{EngineError, Written};
use source_places::picture_source::{labels_of, test_of};
use std::alloc::{AllocError, Global};
use timeline::picture::labels::Label;
use timeline::picture::{Picture, PictureError, picture_of};

/// How a trace is to be drawn.
#[derive(Clone, Copy)]
pub struct Wanted {
    pub style: Style,
    /// With the index of each watchpoint.
    pub slots: bool,
    /// As SVG too.
    pub svg: bool,
}

/// The picture as text.
fn text_of(
    alloc: Global,
    picture: &Picture,
    labels: &[Label<'_>],
    wanted: Wanted,
) -> Result<Vec<u8>, AllocError>
    requires { IsOrdered picture.now }
    ensures { IfOk result (λ text. text.items ≡ detailed_picture labels.now wanted.slots wanted.style picture.now) }
{
    let mut sink = MemorySink::new(alloc);
    let slots = wanted.slots;
    match write_detailed_picture(picture, Details { labels, slots }, wanted.style, &mut sink) {
        Ok(()) => Ok(sink.into_bytes()),
        Err(_) => Err(AllocError),
    }
}

/// Draws a picture, with the name of its test, and with what is known of sites: as text, and where that is wanted as SVG
/// too, which stands in place of a run's trace.
fn drawn_picture(
    alloc: Global,
    picture: &Picture,
    test: &[u8],
    labels: &[Label<'_>],
    wanted: Wanted,
) -> Result<Written, AllocError>
    requires { IsOrdered picture.now }
    ensures drawn { IfOk result (λ written. IsPictureDrawn picture.now test.now labels.now wanted written.output.items
        (option_map (λ svg. svg.items) written.trace)) }
    ensures unraced { IfOk result (λ written. written.raced ≡ false) }
{
    let text = text_of(alloc, picture, labels, wanted)?;
    let svg = match wanted.svg {
        true => Some(svg_bytes(alloc, picture, test, labels)?),
        false => None,
    };
    Ok(Written {
        output: text,
        raced: false,
        trace: svg,
    })
}

/// Draws a trace of which nothing more is known.
pub fn drawn(alloc: Global, bytes: &[u8], wanted: Wanted) -> Result<Written, PictureError>
    ensures drawn { IfOk result (λ written. IsDrawn bytes.now None wanted written.output.items
        (option_map (λ svg. svg.items) written.trace)) }
    ensures unraced { IfOk result (λ written. written.raced ≡ false) }
    ensures undrawn { IfErr result (IsUndrawn bytes.now) }
{
    let picture = picture_of(alloc, bytes)?;
    let written = drawn_picture(alloc, &picture, &[], &[], wanted)?;
    Ok(written)
}

/// Draws a picture with what a program says of the trace that is read of this text.
fn drawn_reading(
    alloc: Global,
    picture: &Picture,
    text: &[u8],
    reading: &Reading,
    wanted: Wanted,
) -> Result<Written, Failure>
    requires ordered { IsOrdered picture.now }
    requires limits { KeepsLimits (program_of reading.now.program) }
    ensures drawn { IfOk result (λ written. (labels : Vec label.Label Heap)
        × AreLabelsIn reading.now.program text.now picture.now.rows.items (Some labels)
        × IsPictureDrawn picture.now reading.now.program.name labels.items wanted written.output.items
        (option_map (λ svg. svg.items) written.trace)) }
    ensures unraced { IfOk result (λ written. written.raced ≡ false) }
    ensures undrawn { IfErr result (λ failure. (failure ≡ failures.OutOfMemory)
        ⊎ ((failure ≡ failures.OtherSource) × AreLabelsIn reading.now.program text.now picture.now.rows.items None)) }
{
    match labels_of(alloc, text, reading, &picture.rows)? {
        None => Err(Failure::OtherSource),
        Some(labels) => {
            let test = test_of(&reading.program);
            let written = drawn_picture(alloc, picture, test, &labels, wanted)?;
            Ok(written)
        }
    }
}

/// Draws a picture with what a litmus text says of the trace.
fn drawn_text(
    alloc: Global,
    picture: &Picture,
    text: &[u8],
    wanted: Wanted,
) -> Result<Written, Failure>
    requires { IsOrdered picture.now }
    ensures drawn { IfOk result (λ written. IsDrawnBy text.now picture.now wanted written.output.items
        (option_map (λ svg. svg.items) written.trace)) }
    ensures unraced { IfOk result (λ written. written.raced ≡ false) }
    ensures undrawn { IfErr result (IsUnsuited text.now picture.now) }
{
    match read_text(alloc, text) {
        Ok(reading) => drawn_reading(alloc, picture, text, &reading, wanted),
        Err(refused) => Err(Failure::Engine(EngineError::Text(refused.error))),
    }
}

/// Draws a trace with what a litmus text says of it.
pub fn drawn_with(
    alloc: Global,
    bytes: &[u8],
    text: &[u8],
    wanted: Wanted,
) -> Result<Written, Failure>
    ensures drawn { IfOk result (λ written. IsDrawn bytes.now (Some text.now) wanted written.output.items
        (option_map (λ svg. svg.items) written.trace)) }
    ensures unraced { IfOk result (λ written. written.raced ≡ false) }
    ensures undrawn { IfErr result (IsNotDrawn bytes.now (Some text.now)) }
{
    let picture = picture_of(alloc, bytes)?;
    drawn_text(alloc, &picture, text, wanted)
}
