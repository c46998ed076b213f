//! The text of a file with line numbers, in which each site is marked by its worst verdict. What is marked begins where
//! the site begins, and ends with the statement, the line or where the next site begins.

ghost use Rattle.std.specs.Prelude.{◌≡◌, ◌++◌, ◌≤◌, IfOk, None, OnOk, length, slice_index_or};
ghost use Rattle.race_page.specs.Listing as spec;
ghost use Rattle.race_page.specs.Marks.{mark_at};

use crate::escape::add_byte;
use crate::marks::marks_of;
use crate::values::PairTold;
use crate::verdicts::{said_class, said_words};
use output_pieces::{TextBuilder, add_text};
use race_output::words::Said;
use std::alloc::{AllocError, Global};

/// Where the writing of a text stands.
#[derive(Clone, Copy)]
pub enum Place {
    /// In no line: at the front of the next one, or at the end of the text.
    Between,
    /// In a line.
    Line,
    /// In a line, in what is marked by this verdict.
    Marked(Said),
}

/// Where a byte of a line stands, where a mark may begin at it.
fn place_in(place: Place, mark: Option<Said>) -> Place
    ensures { result ≡ spec.place_in place mark }
{
    match (mark, place) {
        (Some(said), _) => Place::Marked(said),
        (None, Place::Marked(said)) => Place::Marked(said),
        (None, Place::Between | Place::Line) => Place::Line,
    }
}

/// The place behind a byte at which a mark may begin.
fn next_place(place: Place, mark: Option<Said>, byte: u8) -> Place
    ensures { result ≡ spec.next_place place mark byte }
{
    match byte {
        b'\n' => Place::Between,
        b';' => Place::Line,
        _ => place_in(place, mark),
    }
}

/// What ends a mark. The words of the verdict stand behind it, since a colour alone tells too little.
fn mark_end(alloc: Global, said: Said) -> Result<Vec<u8>, AllocError>
    ensures { IfOk result (λ text. text.items ≡ spec.mark_end said) }
{
    TextBuilder::new(alloc)
        .piece(b"</mark><small class=\"")
        .words(said_class(said))
        .piece(b"\">")
        .words(said_words(said))
        .piece(b"</small>")
        .build()
}

/// What ends the mark at a place, if one is open there.
fn closing(alloc: Global, place: Place) -> Result<Vec<u8>, AllocError>
    ensures { IfOk result (λ text. text.items ≡ spec.closing place) }
{
    match place {
        Place::Marked(said) => mark_end(alloc, said),
        Place::Between | Place::Line => Ok(Vec::new(alloc)),
    }
}

/// What begins a mark behind so many bytes of the text of the file of this number.
fn mark_begin(alloc: Global, file: usize, at: usize, said: Said) -> Result<Vec<u8>, AllocError>
    ensures { IfOk result (λ text. text.items ≡ spec.mark_begin file at said) }
{
    TextBuilder::new(alloc)
        .piece(b"<mark class=\"")
        .words(said_class(said))
        .piece(b"\" id=\"f")
        .number(file)
        .piece(b"s")
        .number(at)
        .piece(b"\">")
        .build()
}

/// Begins a line, where none is open.
fn begin_line(lines: &mut Vec<u8>, place: Place) -> Result<(), AllocError>
    ensures { OnOk result (lines.new.items ≡ lines.old.items ++ spec.line_begin place) }
{
    match place {
        Place::Between => lines.extend_from_slice(b"<li>"),
        Place::Line | Place::Marked(_) => Ok(()),
    }
}

/// Begins a mark, if there is one, where another may be open.
fn begin_mark(
    lines: &mut Vec<u8>,
    alloc: Global,
    file: usize,
    at: usize,
    place: Place,
    mark: Option<Said>,
) -> Result<(), AllocError>
    ensures { OnOk result (lines.new.items ≡ lines.old.items ++ spec.opening file at place mark) }
{
    let Some(said) = mark else {
        return Ok(());
    };
    add_text(lines, closing(alloc, place))?;
    add_text(lines, mark_begin(alloc, file, at, said))
}

/// Adds a byte that ends no line, in a line that is open. The end of a statement ends what is marked.
fn add_in_line(
    lines: &mut Vec<u8>,
    alloc: Global,
    file: usize,
    at: usize,
    place: Place,
    mark: Option<Said>,
    byte: u8,
) -> Result<(), AllocError>
    ensures { OnOk result (lines.new.items ≡ lines.old.items ++ spec.in_line file at place mark byte) }
{
    begin_mark(lines, alloc, file, at, place, mark)?;
    add_byte(lines, alloc, byte)?;
    if byte == b';' {
        add_text(lines, closing(alloc, place_in(place, mark)))?;
    }
    Ok(())
}

/// Ends the line that is open.
fn end_line(lines: &mut Vec<u8>, alloc: Global, place: Place) -> Result<(), AllocError>
    ensures { OnOk result (lines.new.items ≡ lines.old.items ++ spec.line_end place) }
{
    add_text(lines, closing(alloc, place))?;
    lines.extend_from_slice(b"</li>\n")
}

/// Adds a byte of a text.
fn add_piece(
    lines: &mut Vec<u8>,
    alloc: Global,
    file: usize,
    at: usize,
    place: Place,
    mark: Option<Said>,
    byte: u8,
) -> Result<(), AllocError>
    ensures { OnOk result (lines.new.items ≡ lines.old.items ++ spec.piece file at place mark byte) }
{
    begin_line(lines, place)?;
    if byte == b'\n' {
        return end_line(lines, alloc, place);
    }
    add_in_line(lines, alloc, file, at, place, mark, byte)
}

/// Ends the last line, if it is open.
fn end_text(lines: &mut Vec<u8>, alloc: Global, place: Place) -> Result<(), AllocError>
    ensures { OnOk result (lines.new.items ≡ lines.old.items ++ spec.text_end place) }
{
    match place {
        Place::Between => Ok(()),
        Place::Line | Place::Marked(_) => end_line(lines, alloc, place),
    }
}

/// The lines of a text with these marks.
fn lines_of(
    alloc: Global,
    file: usize,
    text: &[u8],
    marks: &[Option<Said>],
) -> Result<Vec<u8>, AllocError>
    requires { length text.now ≤ length marks.now }
    ensures { IfOk result (λ lines. lines.items
        ≡ spec.lines_from file (λ at. slice_index_or marks.now at None) Place.Between 0 text.now) }
{
    let mut lines = Vec::new(alloc);
    let mut place = Place::Between;
    for (at, byte) in text.iter().enumerate() {
        add_piece(&mut lines, alloc, file, at, place, marks[at], *byte)?;
        place = next_place(place, marks[at], *byte);
    }
    end_text(&mut lines, alloc, place)?;
    Ok(lines)
}

/// The lines of a text, in which the sites of these pairs are marked.
fn marked_lines(
    alloc: Global,
    file: usize,
    text: &[u8],
    pairs: &[PairTold],
) -> Result<Vec<u8>, AllocError>
    ensures { IfOk result (λ lines. lines.items ≡ spec.lines_from file (mark_at pairs.now) Place.Between 0 text.now) }
{
    let marks = marks_of(alloc, text.len(), pairs)?;
    let lines = lines_of(alloc, file, text, &marks)?;
    Ok(lines)
}

/// The text of the file of this number, in which the sites of these pairs are marked.
pub(crate) fn listing(
    alloc: Global,
    file: usize,
    text: &[u8],
    pairs: &[PairTold],
) -> Result<Vec<u8>, AllocError>
    ensures { IfOk result (λ found. found.items ≡ spec.listing file text.now pairs.now) }
{
    if text.is_empty() {
        return Ok(Vec::new(alloc));
    }
    TextBuilder::new(alloc)
        .piece(b"<ol>\n")
        .text(marked_lines(alloc, file, text, pairs))
        .piece(b"</ol>\n")
        .build()
}
