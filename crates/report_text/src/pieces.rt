//! Texts as pieces, one after the other, so that a line is written without memory of its own.

ghost use Rattle.std.specs.Prelude.{◌≡◌, replicate};
ghost use Rattle.access_types.specs.ReportText.{hex};
ghost use Rattle.report_text.specs.Pieces.{piece_text, text_of, text_of_parts};
ghost use Rattle.report_text.specs.Sink.{Writes};

use crate::hex::{MOST_DIGITS, hex_digits};
use crate::sink::{Sink, WriteError, write_all};
use itoa::Buffer;

/// A piece of a line.
#[derive(Clone, Copy)]
pub enum Piece {
    /// A text as it stands.
    Text(&'static str),
    /// A number in decimal.
    Decimal(u64),
    /// A number in hexadecimal, in at least so many digits.
    Hex(usize, u64),
}

/// Writes the parts, one after the other.
pub fn write_parts<K: Sink>(sink: &mut K, parts: &[&[Piece]]) -> Result<(), WriteError>
    ensures { Writes K.written K.failures result (text_of_parts parts.now) sink.old sink.new }
{
    for part in parts {
        write_pieces(sink, part)?;
    }
    Ok(())
}

/// Writes the pieces, one after the other.
pub fn write_pieces<K: Sink>(sink: &mut K, pieces: &[Piece]) -> Result<(), WriteError>
    ensures { Writes K.written K.failures result (text_of pieces.now) sink.old sink.new }
{
    for piece in pieces {
        write_piece(sink, *piece)?;
    }
    Ok(())
}

/// Writes the piece.
fn write_piece<K: Sink>(sink: &mut K, piece: Piece) -> Result<(), WriteError>
    ensures { Writes K.written K.failures result (piece_text piece) sink.old sink.new }
{
    match piece {
        Piece::Text(text) => write_all(sink, text.as_bytes()),
        Piece::Decimal(number) => write_all(sink, Buffer::new().format(number).as_bytes()),
        Piece::Hex(width, number) => write_hex(sink, width, number),
    }
}

/// Writes the number in hexadecimal, in at least so many digits.
fn write_hex<K: Sink>(sink: &mut K, width: usize, number: u64) -> Result<(), WriteError>
    ensures { Writes K.written K.failures result (hex width number) sink.old sink.new }
{
    let mut buffer = [0; MOST_DIGITS];
    let start = hex_digits(number, &mut buffer);
    write_zeros(sink, width.saturating_sub(MOST_DIGITS - start))?;
    write_all(sink, &buffer[start..])
}

/// Writes the digit 0 so many times.
fn write_zeros<K: Sink>(sink: &mut K, count: usize) -> Result<(), WriteError>
    ensures { Writes K.written K.failures result (replicate count 48) sink.old sink.new }
{
    for counter in 0..count {
        write_all(sink, b"0")?;
    }
    Ok(())
}
