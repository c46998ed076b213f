//! What is known of sites: their variables and their statements.

ghost use Rattle.std.specs.Prelude.{◌≡◌, IfOk, List, map};
ghost use Rattle.litmus_semantics.specs.Layout.{VariablePlace};
ghost use Rattle.prepared_program.specs.program_layout.Lays.{Lays};
ghost use Rattle.source_places.specs.picture_source.Labels as spec;
ghost use Rattle.source_places.specs.picture_source.Labels.{said_by};

use litmus_syntax::Variable;
use output_pieces::spots::{place_of, statement_at};
use output_pieces::variables::{name_of, variable_of};
use prepared_program::program_layout::Layout;
use races::{PlacedSite, SiteName};
use std::alloc::{AllocError, Global};
use timeline::picture::labels::Label;

/// A program as its text has it: the text, where the access of each site begins there as far as that is known, its
/// variables, and their bytes.
#[derive(Clone, Copy)]
pub(crate) struct Sources<'a, 'b> {
    pub(crate) text: &'a [u8],
    pub(crate) places: &'b [Vec<usize>],
    pub(crate) variables: &'a [Variable],
    pub(crate) layout: &'b Layout,
}

/// The statement of a site: nothing, where it isn't known where that begins.
fn statement_of<'a>(text: &'a [u8], places: &[Vec<usize>], name: SiteName) -> &'a [u8]
    ensures { result.now ≡ spec.statement_of text.now (map (λ own. own.items) places.now) name }
{
    match place_of(text, places, name) {
        None => &[],
        Some(at) => statement_at(text, at),
    }
}

/// What is known of a site.
fn label<'a>(sources: Sources<'a, '_>, placed: &PlacedSite) -> Label<'a>
    ensures { (places : List VariablePlace) → Lays places sources.entry.variables.now sources.entry.layout.now
        → said_by result ≡ spec.site_says places sources.entry.variables.now sources.entry.text.now
        (map (λ own. own.items) sources.entry.places.now) placed.now }
{
    let number = variable_of(sources.layout, sources.variables, placed.site.bytes);
    Label {
        task: placed.name.task,
        site: placed.name.site,
        variable: name_of(sources.variables, number).as_bytes(),
        statement: statement_of(sources.text, sources.places, placed.name),
    }
}

/// What is known of these sites.
pub(crate) fn labels<'a>(
    alloc: Global,
    sources: Sources<'a, '_>,
    sites: &[PlacedSite],
) -> Result<Vec<Label<'a>>, AllocError>
    ensures { (places : List VariablePlace) → Lays places sources.entry.variables.now sources.entry.layout.now
        → IfOk result (λ labels. map said_by labels.items ≡ map (spec.site_says places sources.entry.variables.now
        sources.entry.text.now (map (λ own. own.items) sources.entry.places.now)) sites.now) }
{
    let mut found = Vec::new(alloc);
    for placed in sites {
        found.push(label(sources, placed))?;
    }
    Ok(found)
}
