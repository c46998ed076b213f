//! What is said of the places of sites.

ghost use Rattle.std.specs.Prelude.{◌≡◌, ◌≤◌, ◌++◌, ◌∷◌, [], IfOk, List, OnOk, length, map};
ghost use Rattle.litmus_semantics.specs.Layout.{VariablePlace};
ghost use Rattle.prepared_program.specs.program_layout.Lays.{Lays};
ghost use Rattle.source_places.specs.Lines.{place_of};
ghost use Rattle.source_places.specs.Sites as spec;

use crate::lines::SitePlace;
use litmus_syntax::Variable;
use output_pieces::TextBuilder;
use output_pieces::spots::{place_of as begin_of, spot_text, statement_at};
use output_pieces::variables::{name_of, variable_of};
use prepared_program::program_layout::Layout;
use program_table::text_pieces::shown;
use races::{PlacedSite, SiteName};
use std::alloc::{AllocError, Global};

/// Where the sites of a program stand: the name of its file, its text, where the access of each site begins there as far
/// as that is known, its variables, and their bytes.
#[derive(Clone, Copy)]
pub struct Sources<'a> {
    pub file: &'a [u8],
    pub text: &'a [u8],
    pub places: &'a [Vec<usize>],
    pub variables: &'a [Variable],
    pub layout: &'a Layout,
}

/// The line of a report that names a site.
#[tactic(auto, unfolding(crate::specs::Sites::site_line))]
fn site_line(alloc: Global, name: SiteName) -> Result<Vec<u8>, AllocError>
    ensures { IfOk result (λ text. text.items ≡ spec.site_line name) }
{
    TextBuilder::new(alloc)
        .piece(b" P")
        .number(name.task as usize)
        .piece(b" site ")
        .number(name.site as usize)
        .build()
}

/// What is said of an access that begins here, to a variable of this name.
#[tactic(auto, unfolding(crate::specs::Sites::spot))]
fn spot(
    alloc: Global,
    file: &[u8],
    text: &[u8],
    variable: &str,
    at: usize,
) -> Result<Vec<u8>, AllocError>
    requires { at ≤ length text.now }
    ensures { IfOk result (λ said. said.items ≡ spec.spot file.now text.now variable.now at) }
{
    TextBuilder::new(alloc)
        .piece(b" at ")
        .text(shown(alloc, file))
        .piece(b":")
        .text(spot_text(alloc, text, Some(at)))
        .piece(b" ")
        .words(variable)
        .piece(b": ")
        .text(shown(alloc, statement_at(text, at)))
        .build()
}

/// What is said of where a site stands: nothing, where that isn't known.
fn place_words(
    alloc: Global,
    sources: Sources<'_>,
    placed: &PlacedSite,
) -> Result<Vec<u8>, AllocError>
    ensures { (places : List VariablePlace) → Lays places sources.entry.variables.now sources.entry.layout.now
        → IfOk result (λ text. text.items ≡ spec.place_words places sources.entry.variables.now sources.entry.file.now
        sources.entry.text.now (map (λ own. own.items) sources.entry.places.now) placed.now) }
{
    match begin_of(sources.text, sources.places, placed.name) {
        None => Ok(Vec::new(alloc)),
        Some(at) => {
            let number = variable_of(sources.layout, sources.variables, placed.site.bytes);
            let name = name_of(sources.variables, number);
            spot(alloc, sources.file, sources.text, name, at)
        }
    }
}

/// The line that names a site, and what is said of where that stands.
fn site_place(
    alloc: Global,
    sources: Sources<'_>,
    placed: &PlacedSite,
) -> Result<SitePlace, AllocError>
    ensures { (places : List VariablePlace) → Lays places sources.entry.variables.now sources.entry.layout.now
        → IfOk result (λ own. place_of own ≡ spec.site_place places sources.entry.variables.now sources.entry.file.now
        sources.entry.text.now (map (λ own. own.items) sources.entry.places.now) placed.now) }
{
    let line = site_line(alloc, placed.name)?;
    let place = place_words(alloc, sources, placed)?;
    Ok(SitePlace { line, place })
}

/// Adds the place of a site.
fn add_place(
    found: &mut Vec<SitePlace>,
    alloc: Global,
    sources: Sources<'_>,
    placed: &PlacedSite,
) -> Result<(), AllocError>
    ensures { (places : List VariablePlace) → Lays places sources.entry.variables.now sources.entry.layout.now
        → OnOk result (map place_of found.new.items ≡ map place_of found.old.items ++ spec.site_place places
        sources.entry.variables.now sources.entry.file.now sources.entry.text.now
        (map (λ own. own.items) sources.entry.places.now) placed.now ∷ []) }
{
    let own = site_place(alloc, sources, placed)?;
    found.push(own)?;
    Ok(())
}

/// The places of these sites.
pub fn site_places(
    alloc: Global,
    sources: Sources<'_>,
    sites: &[PlacedSite],
) -> Result<Vec<SitePlace>, AllocError>
    ensures { (places : List VariablePlace) → Lays places sources.entry.variables.now sources.entry.layout.now
        → IfOk result (λ found. map place_of found.items ≡ map (spec.site_place places sources.entry.variables.now
        sources.entry.file.now sources.entry.text.now (map (λ own. own.items) sources.entry.places.now)) sites.now) }
{
    let mut found = Vec::new(alloc);
    for placed in sites {
        add_place(&mut found, alloc, sources, placed)?;
    }
    Ok(found)
}
