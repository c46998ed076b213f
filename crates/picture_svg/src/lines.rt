//! Rows and lines of text of a picture. Lengths are in em: a row is two em high, and lines of text are .55 em apart.

ghost use Rattle.std.specs.Prelude.{◌≡◌};
ghost use Rattle.report_text.specs.Pieces.{text_of};
ghost use Rattle.picture_svg.specs.Lines as spec;

use report_text::pieces::Piece;

/// The end of a line of text.
pub(crate) const LINE_END: &str = "</tspan></text>";

/// Where the row at this place among the rows begins.
pub(crate) fn row_top(place: usize) -> u64
    ensures { result ≡ spec.row_top place }
{
    (place as u64).saturating_mul(2)
}

/// The beginning of a line of text, right of what stands in the lane at x, and so far below the top of a row.
pub(crate) fn line_start(x: u64, top: u64, below: &'static str) -> [Piece; 7]
    ensures { text_of result ≡ spec.line_start x top below.now }
{
    [
        Piece::Text("<text x=\""),
        Piece::Decimal(x),
        Piece::Text(".3em\" dx=\"1em\" y=\""),
        Piece::Decimal(top),
        Piece::Text("em\" dy=\""),
        Piece::Text(below),
        Piece::Text("em\"><tspan>"),
    ]
}
