//! How long texts are, up to a limit: as lanes and lines need it.

ghost use Rattle.std.specs.Prelude.{◌≡◌, ◌≤◌, false, length};
ghost use Rattle.std.specs.Fmt.{digits};
ghost use Rattle.access_types.specs.ReportText.{hex};
ghost use Rattle.report_text.specs.Pieces.{piece_text, text_of, text_of_parts};
ghost use Rattle.timeline.specs.Lengths.{len_of};
ghost use Rattle.timeline.specs.Texts.{shortened};

use crate::texts::ROOM;
use itoa::Buffer;
use report_text::pieces::Piece;

/// A text counts as at most so long.
pub const LONGEST: u64 = 200;

/// How many hexadecimal digits the number has.
fn hex_digits(number: u64) -> u64
    ensures exact { result ≡ length (digits 16 false number) }
    ensures few { result ≤ 16 }
{
    let mut rest = number;
    let mut count = 1;
    while rest >= 16 {
        rest /= 16;
        count += 1;
    }
    count
}

/// How many digits the number has in hexadecimal, in at least so many.
fn hex_len(width: usize, number: u64) -> u64
    ensures { result ≡ len_of (hex width number) }
{
    (width as u64).max(hex_digits(number)).min(LONGEST)
}

/// How many bytes the piece spells.
fn piece_len(piece: Piece) -> u64
    ensures { result ≡ len_of (piece_text piece) }
{
    match piece {
        Piece::Text(text) => (text.len() as u64).min(LONGEST),
        Piece::Decimal(number) => Buffer::new().format(number).len() as u64,
        Piece::Hex(width, number) => hex_len(width, number),
    }
}

/// How many bytes the pieces spell.
pub fn pieces_len(pieces: &[Piece]) -> u64
    ensures { result ≡ len_of (text_of pieces.now) }
{
    let mut len = 0;
    for piece in pieces {
        len = LONGEST.min(len + piece_len(*piece));
    }
    len
}

/// How many bytes the parts spell.
pub fn parts_len(parts: &[&[Piece]]) -> u64
    ensures { result ≡ len_of (text_of_parts parts.now) }
{
    let mut len = 0;
    for part in parts {
        len = LONGEST.min(len + pieces_len(part));
    }
    len
}

/// How many bytes a text has.
pub fn text_len(text: &[u8]) -> u64
    ensures { result ≡ len_of text.now }
{
    (text.len() as u64).min(LONGEST)
}

/// How many bytes of a text are shown where there is room for 62.
pub fn short_len(text: &[u8]) -> u64
    ensures { result ≡ len_of (shortened text.now) }
{
    text.len().min(ROOM) as u64
}
