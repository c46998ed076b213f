//! Texts from elsewhere, as names and statements, and how they are written.

ghost use Rattle.std.specs.Prelude.{◌≡◌};
ghost use Rattle.report_text.specs.Pieces.{text_of};
ghost use Rattle.report_text.specs.Sink.{Writes};
ghost use Rattle.timeline.specs.Texts as spec;

use report_text::pieces::{Piece, write_pieces};
use report_text::{Sink, WriteError, write_all};

/// What a text is written into.
#[derive(Clone, Copy)]
pub enum Markup {
    /// A text without markup.
    Plain,
    /// XML, where what would be markup is escaped.
    Xml,
}

/// The byte, or `?` if it is no printable sign of ASCII.
fn printable(byte: u8) -> u8
    ensures { result ≡ spec.printable byte }
{
    match byte {
        b' '..=b'~' => byte,
        _ => b'?',
    }
}

/// Writes a byte, or `?` if it is no printable sign of ASCII.
fn write_plain<K: Sink>(sink: &mut K, byte: u8) -> Result<(), WriteError>
    ensures { Writes K.written K.failures result (spec.plain_byte byte) sink.old sink.new }
{
    write_all(sink, &[printable(byte)])
}

/// Writes a byte as it stands in XML.
fn write_escaped<K: Sink>(sink: &mut K, byte: u8) -> Result<(), WriteError>
    ensures { Writes K.written K.failures result (spec.escaped_byte byte) sink.old sink.new }
{
    match byte {
        b'&' => write_all(sink, b"&amp;"),
        b'<' => write_all(sink, b"&lt;"),
        b'>' => write_all(sink, b"&gt;"),
        _ => write_plain(sink, byte),
    }
}

/// Writes a byte.
fn write_byte<K: Sink>(sink: &mut K, markup: Markup, byte: u8) -> Result<(), WriteError>
    ensures { Writes K.written K.failures result (spec.byte_text markup byte) sink.old sink.new }
{
    match markup {
        Markup::Plain => write_plain(sink, byte),
        Markup::Xml => write_escaped(sink, byte),
    }
}

/// Writes a text from elsewhere, with `?` for each byte that is no printable sign of ASCII.
pub fn write_text<K: Sink>(sink: &mut K, markup: Markup, text: &[u8]) -> Result<(), WriteError>
    ensures { Writes K.written K.failures result (spec.spelled markup text.now) sink.old sink.new }
{
    for byte in text {
        write_byte(sink, markup, *byte)?;
    }
    Ok(())
}

/// A text in a line with others is shown with so many signs at most.
pub(crate) const ROOM: usize = 62;

/// Writes a text from elsewhere in 62 signs: where it has more, it is cut, and `..` stands behind it.
pub fn write_shortened<K: Sink>(sink: &mut K, markup: Markup, text: &[u8]) -> Result<(), WriteError>
    ensures { Writes K.written K.failures result (spec.short markup text.now) sink.old sink.new }
{
    if text.len() <= ROOM {
        return write_text(sink, markup, text);
    }
    write_text(sink, markup, &text[..ROOM - 2])?;
    write_all(sink, b"..")
}

/// Writes a text from elsewhere, or what stands in its place, where it isn't known, and so is empty.
pub fn write_known<K: Sink>(
    sink: &mut K,
    markup: Markup,
    text: &[u8],
    otherwise: &[Piece],
) -> Result<(), WriteError>
    ensures { Writes K.written K.failures result (spec.known_or (spec.spelled markup) (text_of otherwise.now) text.now)
        sink.old sink.new }
{
    match text {
        [] => write_pieces(sink, otherwise),
        _ => write_text(sink, markup, text),
    }
}
