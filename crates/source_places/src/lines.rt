//! The lines of an output, each that names a site with where that stands behind it.

ghost use Rattle.std.specs.Prelude.{◌≡◌, ◌++◌, ◌∷◌, ℕ, IfOk, List, OnOk, map};
ghost use Rattle.source_places.specs.Lines as spec;
ghost use Rattle.source_places.specs.Lines.{place_of};

use program_table::text_pieces::{cut, joined};
use std::alloc::{AllocError, Global};

/// How many columns a line has at most to which a place is added.
const COLUMNS: usize = 100;

/// The line of a report that names a site, without the number of a repetition, and what stands behind it where places
/// are wanted.
#[derive(Drop)]
pub struct SitePlace {
    pub line: Vec<u8>,
    pub place: Vec<u8>,
}

/// Behind the name of a site stands nothing, or the number of a repetition.
fn is_over(rest: &[u8]) -> bool
    ensures { result ≡ spec.is_over rest.now }
{
    rest.is_empty() || rest.starts_with(b" repeat ")
}

/// The line names the site that this line names.
fn names(line: &[u8], own: &[u8]) -> bool
    ensures { result ≡ spec.names line.now own.now }
{
    line.starts_with(own) && is_over(&line[own.len()..])
}

/// The line with a place behind it, cut where it is long.
fn with_place(alloc: Global, line: &[u8], place: &[u8]) -> Result<Vec<u8>, AllocError>
    ensures { IfOk result (λ text. text.items ≡ spec.with_place line.now place.now) }
{
    let whole = joined(alloc, &[line, place])?;
    cut(alloc, &whole, COLUMNS)
}

/// The line, with the place of the site behind it that it names, if it names one.
fn placed(alloc: Global, places: &[SitePlace], line: &[u8]) -> Result<Vec<u8>, AllocError>
    ensures { IfOk result (λ text. text.items ≡ spec.placed (map place_of places.now) line.now) }
{
    match places.split_first() {
        Some((own, others)) => {
            if names(line, &own.line) {
                with_place(alloc, line, &own.place)
            } else {
                placed(alloc, others, line)
            }
        }
        None => Vec::from_slice(alloc, line),
    }
}

/// Adds a line with its place.
fn add_line(
    text: &mut Vec<u8>,
    alloc: Global,
    places: &[SitePlace],
    line: &[u8],
) -> Result<(), AllocError>
    ensures { OnOk result (text.new.items ≡ text.old.items ++ spec.placed (map place_of places.now) line.now) }
{
    let own = placed(alloc, places, line)?;
    text.extend_from_slice(&own)?;
    Ok(())
}

/// Goes on with a byte, behind the line so far: where it ends that line, the line is added with its place.
fn add_byte(
    text: &mut Vec<u8>,
    line: &mut Vec<u8>,
    alloc: Global,
    places: &[SitePlace],
    byte: u8,
) -> Result<(), AllocError>
    ensures { (more : List ℕ) → OnOk result
        (text.new.items ++ spec.placed_from (map place_of places.now) line.new.items more
        ≡ text.old.items ++ spec.placed_from (map place_of places.now) line.old.items (byte ∷ more)) }
{
    if byte != b'\n' {
        line.push(byte)?;
        return Ok(());
    }
    add_line(text, alloc, places, line)?;
    text.push(b'\n')?;
    line.clear();
    Ok(())
}

/// Adds what the bytes of an output are with places.
fn add_all(
    text: &mut Vec<u8>,
    line: &mut Vec<u8>,
    alloc: Global,
    places: &[SitePlace],
    output: &[u8],
) -> Result<(), AllocError>
    ensures { OnOk result
        (text.new.items ++ spec.placed (map place_of places.now) line.new.items
        ≡ text.old.items ++ spec.placed_from (map place_of places.now) line.old.items output.now) }
{
    for byte in output {
        add_byte(text, line, alloc, places, *byte)?;
    }
    Ok(())
}

/// The output, with the place of the site behind each line that names one.
pub fn located(alloc: Global, places: &[SitePlace], output: &[u8]) -> Result<Vec<u8>, AllocError>
    ensures { IfOk result (λ text. text.items ≡ spec.located (map place_of places.now) output.now) }
{
    let mut text = Vec::new(alloc);
    let mut line = Vec::new(alloc);
    add_all(&mut text, &mut line, alloc, places, output)?;
    add_line(&mut text, alloc, places, &line)?;
    Ok(text)
}
