//! The lines in which an access is told: what it does, and where it stands.

ghost use Rattle.std.specs.Prelude.{◌≡◌};
ghost use Rattle.report_text.specs.Sink.{Writes};
ghost use Rattle.timeline.specs.Lengths.{len_of};
ghost use Rattle.timeline.specs.Texts.{short, shortened};
ghost use Rattle.timeline.specs.picture.Told as spec;

use crate::lengths::{LONGEST, parts_len, pieces_len, short_len};
use crate::picture::labels::{Label, variable_of};
use crate::picture::words::{address, doing, site_words, size_words};
use crate::texts::{Markup, write_shortened};
use access_types::Stamped;
use report_text::pieces::{Piece, write_parts, write_pieces};
use report_text::{Sink, WriteError};

/// How long the name of the variable is, or the address, where the name isn't known.
fn object_len(labels: &[Label<'_>], stamped: &Stamped) -> u64
    ensures { result ≡ len_of (spec.object shortened labels.now stamped.now) }
{
    match variable_of(labels, stamped) {
        [] => pieces_len(&address(stamped)),
        name => short_len(name),
    }
}

/// How long the first line is.
pub fn first_len(labels: &[Label<'_>], stamped: &Stamped) -> u64
    ensures { result ≡ len_of (spec.first_line shortened labels.now stamped.now) }
{
    let doing = doing(stamped);
    let size = size_words(stamped);
    let rest = parts_len(&[&doing[..], &[Piece::Text(", ")], &size[..]]);
    LONGEST.min(rest + object_len(labels, stamped))
}

/// How long the second line is.
pub fn second_len(stamped: &Stamped) -> u64
    ensures { result ≡ len_of (spec.second_line stamped.now) }
{
    pieces_len(&site_words(stamped))
}

/// Writes the name of the variable, or the address, where the name isn't known.
fn write_object<K: Sink>(
    sink: &mut K,
    markup: Markup,
    labels: &[Label<'_>],
    stamped: &Stamped,
) -> Result<(), WriteError>
    ensures { Writes K.written K.failures result (spec.object (short markup) labels.now stamped.now) sink.old sink.new }
{
    match variable_of(labels, stamped) {
        [] => write_pieces(sink, &address(stamped)),
        name => write_shortened(sink, markup, name),
    }
}

/// Writes the first line.
pub fn write_first<K: Sink>(
    sink: &mut K,
    markup: Markup,
    labels: &[Label<'_>],
    stamped: &Stamped,
) -> Result<(), WriteError>
    ensures { Writes K.written K.failures result (spec.first_line (short markup) labels.now stamped.now) sink.old sink.new }
{
    let doing = doing(stamped);
    let size = size_words(stamped);
    write_pieces(sink, &doing)?;
    write_object(sink, markup, labels, stamped)?;
    write_parts(sink, &[&[Piece::Text(", ")], &size[..]])
}
