//! What the signs of a picture mean.

ghost use Rattle.std.specs.Prelude.{◌≡◌};
ghost use Rattle.report_text.specs.Sink.{Writes};
ghost use Rattle.picture_svg.specs.Legend.{legend};

use report_text::pieces::{Piece, write_pieces};
use report_text::{Sink, WriteError};

/// The end of the rows, and below them, over the ends of the lanes, two lines with a sample of each sign and what it
/// means.
const SIGNS: &str = "</svg>\n\
<svg y=\"100%\" overflow=\"visible\">\n\
<rect class=\"page\" y=\"-3.5em\" width=\"100%\" height=\"3.5em\"/>\n\
<g class=\"plain\"><rect x=\"1em\" y=\"-3em\" width=\"1em\" height=\"1em\"/>\
<text x=\"2.3em\" y=\"-2.2em\"><tspan>plain access</tspan></text></g>\n\
<g class=\"marked\"><rect x=\"9em\" y=\"-3em\" width=\"1em\" height=\"1em\"/>\
<text x=\"10.3em\" y=\"-2.2em\"><tspan>marked access</tspan></text></g>\n\
<g class=\"assertion\"><rect x=\"17em\" y=\"-3em\" width=\"1em\" height=\"1em\"/>\
<text x=\"18.3em\" y=\"-2.2em\"><tspan>assertion</tspan></text></g>\n\
<g class=\"watch\"><rect x=\"1.4em\" y=\"-1.5em\" width=\"0.2em\" height=\"1em\"/>\
<text x=\"2.3em\" y=\"-0.7em\"><tspan>watchpoint</tspan></text></g>\n\
<g class=\"take\"><line x1=\"10em\" y1=\"-1em\" x2=\"9em\" y2=\"-1em\" marker-end=\"url(#tip)\"/>\
<text x=\"10.3em\" y=\"-0.7em\"><tspan>taking</tspan></text></g>\n\
<g class=\"race\"><line x1=\"17em\" y1=\"-1em\" x2=\"18em\" y2=\"-1em\"/>\
<text x=\"18.3em\" y=\"-0.7em\"><tspan>report</tspan></text></g>\n\
</svg>\n</svg>\n";

/// Writes the end of the rows, and the legend.
pub(crate) fn write_legend<K: Sink>(sink: &mut K) -> Result<(), WriteError>
    ensures { Writes K.written K.failures result legend sink.old sink.new }
{
    write_pieces(sink, &[Piece::Text(SIGNS)])
}
