//! A site of a pair, as a row of a table.

ghost use Rattle.std.specs.Prelude.{◌≡◌, ◌≤◌, IfOk, IfSome, length};
ghost use Rattle.output_pieces.specs.Spots.{within};
ghost use Rattle.race_page.specs.Sites as spec;

use crate::escape::escaped;
use access_types::words;
use output_pieces::TextBuilder;
use output_pieces::spots::{spot_text, statement_at};
use race_output::sites::SiteTold;
use std::alloc::{AllocError, Global};

/// A place, if it lies in the text or at its end.
fn place_within(text: &[u8], at: Option<usize>) -> Option<usize>
    ensures place { result ≡ within text.now at }
    ensures inside { IfSome result (λ at. at ≤ length text.now) }
{
    match at {
        Some(at) if at <= text.len() => Some(at),
        _ => None,
    }
}

/// The line and the column of a place, which lead to the mark there in the text of the file of this number.
fn spot_link(alloc: Global, file: usize, text: &[u8], at: usize) -> Result<Vec<u8>, AllocError>
    requires { at ≤ length text.now }
    ensures { IfOk result (λ found. found.items ≡ spec.spot_link file text.now at) }
{
    TextBuilder::new(alloc)
        .piece(b"<a href=\"#f")
        .number(file)
        .piece(b"s")
        .number(at)
        .piece(b"\">")
        .text(spot_text(alloc, text, Some(at)))
        .piece(b"</a>")
        .build()
}

/// The line and the column of a place, where it is known.
fn spot(alloc: Global, file: usize, text: &[u8], at: Option<usize>) -> Result<Vec<u8>, AllocError>
    requires { IfSome at (λ at. at ≤ length text.now) }
    ensures { IfOk result (λ found. found.items ≡ spec.spot file text.now at) }
{
    match at {
        Some(at) => spot_link(alloc, file, text, at),
        None => Vec::from_slice(alloc, b"-"),
    }
}

/// The statement of a place, where it is known.
fn statement(alloc: Global, text: &[u8], at: Option<usize>) -> Result<Vec<u8>, AllocError>
    requires { IfSome at (λ at. at ≤ length text.now) }
    ensures { IfOk result (λ found. found.items ≡ spec.statement text.now at) }
{
    match at {
        Some(at) => escaped(alloc, statement_at(text, at)),
        None => Ok(Vec::new(alloc)),
    }
}

/// What a site is called.
fn site_name(alloc: Global, site: SiteTold) -> Result<Vec<u8>, AllocError>
    ensures { IfOk result (λ found. found.items ≡ spec.site_name site) }
{
    TextBuilder::new(alloc)
        .piece(b"P")
        .number(site.task)
        .piece(b" site ")
        .number(site.site)
        .build()
}

/// The row of a site of the file of this number.
pub(crate) fn site_row(
    alloc: Global,
    file: usize,
    text: &[u8],
    site: SiteTold,
) -> Result<Vec<u8>, AllocError>
    ensures { IfOk result (λ found. found.items ≡ spec.site_row file text.now site) }
{
    let at = place_within(text, site.at);
    TextBuilder::new(alloc)
        .piece(b"<tr><td>")
        .text(site_name(alloc, site))
        .piece(b"</td><td>")
        .text(spot(alloc, file, text, at))
        .piece(b"</td><td>")
        .words(words(&site.kind))
        .piece(b"</td><td><code>")
        .text(statement(alloc, text, at))
        .piece(b"</code></td></tr>\n")
        .build()
}
