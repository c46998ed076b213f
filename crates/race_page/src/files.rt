//! The files of a page: the rows of the table, and a section for each.

ghost use Rattle.std.specs.Prelude.{◌≡◌, [], IfOk};
ghost use Rattle.race_page.specs.Files as spec;

use crate::counts::{count_cells, searched_text};
use crate::escape::escaped;
use crate::listing::listing;
use crate::pairs::pairs_text;
use crate::values::{FileEnd, FileTold, RacesTold};
use crate::verdicts::{file_text, strong};
use output_pieces::{TextBuilder, add_text};
use std::alloc::{AllocError, Global};

/// Why a file was refused, in its row.
fn refused_cells(alloc: Global, why: &[u8]) -> Result<Vec<u8>, AllocError>
    ensures { IfOk result (λ text. text.items ≡ spec.refused_cells why.now) }
{
    TextBuilder::new(alloc)
        .piece(b"<td>")
        .text(strong(alloc, "refused", "refused"))
        .piece(b"</td><td colspan=\"6\">")
        .text(escaped(alloc, why))
        .piece(b"</td>")
        .build()
}

/// What was found of a file, in its row.
fn found_cells(alloc: Global, races: &RacesTold) -> Result<Vec<u8>, AllocError>
    ensures { IfOk result (λ text. text.items ≡ spec.found_cells races.now) }
{
    TextBuilder::new(alloc)
        .piece(b"<td>")
        .text(file_text(alloc, races.verdict))
        .piece(b"</td>")
        .text(count_cells(alloc, &races.pairs))
        .build()
}

/// What came of a file, in its row.
fn end_cells(alloc: Global, end: &FileEnd) -> Result<Vec<u8>, AllocError>
    ensures { IfOk result (λ text. text.items ≡ spec.end_cells end.now) }
{
    match end {
        FileEnd::Found(races) => found_cells(alloc, races),
        FileEnd::Refused(why) => refused_cells(alloc, why),
    }
}

/// The row of the file of this number, whose name leads to its section.
fn file_row(alloc: Global, number: usize, file: &FileTold) -> Result<Vec<u8>, AllocError>
    ensures { IfOk result (λ text. text.items ≡ spec.file_row number file.now) }
{
    TextBuilder::new(alloc)
        .piece(b"<tr><th scope=\"row\"><a href=\"#f")
        .number(number)
        .piece(b"\">")
        .text(escaped(alloc, &file.name))
        .piece(b"</a></th>")
        .text(end_cells(alloc, &file.end))
        .piece(b"</tr>\n")
        .build()
}

/// The rows of files.
pub(crate) fn file_rows(alloc: Global, files: &[FileTold]) -> Result<Vec<u8>, AllocError>
    ensures { IfOk result (λ text. text.items ≡ spec.each_from spec.file_row 0 files.now) }
{
    let mut rows = Vec::new(alloc);
    for (number, file) in files.iter().enumerate() {
        add_text(&mut rows, file_row(alloc, number, file))?;
    }
    Ok(rows)
}

/// Why a file was refused, above its text.
fn refused_text(
    alloc: Global,
    number: usize,
    text: &[u8],
    why: &[u8],
) -> Result<Vec<u8>, AllocError>
    ensures { IfOk result (λ found. found.items ≡ spec.refused_text number text.now why.now) }
{
    TextBuilder::new(alloc)
        .piece(b"<p>")
        .text(strong(alloc, "refused", "refused"))
        .piece(b" ")
        .text(escaped(alloc, why))
        .piece(b"</p>\n")
        .text(listing(alloc, number, text, &[]))
        .build()
}

/// What was found of a file, with its text.
fn found_text(
    alloc: Global,
    number: usize,
    text: &[u8],
    races: &RacesTold,
) -> Result<Vec<u8>, AllocError>
    ensures { IfOk result (λ found. found.items ≡ spec.found_text number text.now races.now) }
{
    let pairs = races.pairs.as_slice();
    TextBuilder::new(alloc)
        .piece(b"<p>")
        .text(file_text(alloc, races.verdict))
        .piece(b" pairs that conflict: ")
        .number(pairs.len())
        .piece(b"</p>\n")
        .text(listing(alloc, number, text, pairs))
        .text(pairs_text(alloc, number, text, pairs))
        .text(searched_text(alloc, races))
        .build()
}

/// What came of a file, with its text.
fn end_text(alloc: Global, number: usize, text: &[u8], end: &FileEnd) -> Result<Vec<u8>, AllocError>
    ensures { IfOk result (λ found. found.items ≡ spec.end_text number text.now end.now) }
{
    match end {
        FileEnd::Found(races) => found_text(alloc, number, text, races),
        FileEnd::Refused(why) => refused_text(alloc, number, text, why),
    }
}

/// The section of the file of this number.
fn file_section(alloc: Global, number: usize, file: &FileTold) -> Result<Vec<u8>, AllocError>
    ensures { IfOk result (λ text. text.items ≡ spec.file_section number file.now) }
{
    TextBuilder::new(alloc)
        .piece(b"<section id=\"f")
        .number(number)
        .piece(b"\">\n<h2>")
        .text(escaped(alloc, &file.name))
        .piece(b"</h2>\n<nav><a href=\"#\">all files</a></nav>\n")
        .text(end_text(alloc, number, &file.text, &file.end))
        .piece(b"</section>\n")
        .build()
}

/// The sections of files.
pub(crate) fn file_sections(alloc: Global, files: &[FileTold]) -> Result<Vec<u8>, AllocError>
    ensures { IfOk result (λ text. text.items ≡ spec.each_from spec.file_section 0 files.now) }
{
    let mut sections = Vec::new(alloc);
    for (number, file) in files.iter().enumerate() {
        add_text(&mut sections, file_section(alloc, number, file))?;
    }
    Ok(sections)
}
