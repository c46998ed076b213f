//! The sites of a pair, as they are told of.

ghost use Rattle.std.specs.Prelude.{◌≡◌, ◌↔◌, ◌≤◌, Contains, IfSome, length, map};
ghost use Rattle.executions.specs.execution.Run.{Run};
ghost use Rattle.race_output.specs.Sites as spec;
ghost use Rattle.race_output.specs.Sites.{AreSourcesOf};
ghost use Rattle.races.specs.Pairs.{HasSite, first_at};
ghost use Rattle.races.specs.Verdicts as verdicts;
ghost use Rattle.races.specs.declared.placed.PlacedSite.{PlacedSite};

use access_types::{Bytes, Kind, Operation};
use litmus_semantics::Site;
use litmus_syntax::Variable;
use output_pieces::spots::place_of;
use output_pieces::variables::variable_of;
use prepared_program::program_layout::Layout;
use races::{HowMarked, PlacedSite, SiteName};

/// A site as it is told of.
#[derive(Clone, Copy)]
pub struct SiteTold {
    pub task: usize,
    pub site: usize,
    /// Where its access begins in the text, if that is known.
    pub at: Option<usize>,
    pub kind: Kind,
    /// The number of the variable that is accessed.
    pub variable: usize,
    /// How its accesses count as marked where they do.
    pub how: HowMarked,
}

/// By what sites are told of: the text of a program, where its sites begin there as far as that is known, its sites,
/// its variables and where these stand, and whether aligned plain writes count as marked.
#[derive(Clone, Copy)]
pub struct Sources<'a> {
    pub text: &'a [u8],
    pub places: &'a [Vec<usize>],
    pub sites: &'a [PlacedSite],
    pub variables: &'a [Variable],
    pub layout: &'a Layout,
    pub plain_writes_atomic: bool,
}

/// The site of a name among these; where it isn't there, a read of no bytes.
fn site_named(sites: &[PlacedSite], name: SiteName) -> Site
    ensures { (run : Run) → ((placed : PlacedSite) → Contains sites.now placed ↔ HasSite run placed.name placed.site)
        → result ≡ spec.site_in run name }
{
    for placed in sites {
        if placed.name.task == name.task && placed.name.site == name.site {
            return placed.site;
        }
    }
    Site {
        bytes: Bytes { addr: 0, size: 0 },
        kind: Kind::Plain(Operation::Read),
        mask: None,
        times: 0,
    }
}

/// Accesses at the site are plain writes that the machine makes in one piece.
fn is_atomic_write(site: &Site) -> bool
    ensures { result ≡ spec.is_atomic_write site.now }
{
    let kind = site.kind;
    let size = site.bytes.size;
    let is_write = kind.write() && !kind.is_assertion() && !kind.is_compound();
    is_write && size > 0 && size <= 8 && site.bytes.addr % size == 0
}

/// How the accesses of a site count as marked where they do.
fn how_marked(plain_writes_atomic: bool, name: SiteName, site: &Site) -> HowMarked
    ensures { result ≡ verdicts.how_marked plain_writes_atomic (first_at name site.now) }
{
    if site.kind.is_marked() {
        HowMarked::Form
    } else if plain_writes_atomic && is_atomic_write(site) {
        HowMarked::AlignedWrite
    } else {
        HowMarked::RegionOrNext
    }
}

/// The site of this name, as it is told of.
#[tactic(auto, unfolding(crate::specs::Sites::told_of))]
pub fn told_of(sources: Sources<'_>, name: SiteName) -> SiteTold
    ensures told { (run : Run) → AreSourcesOf run sources.entry.sites.now sources.entry.variables.now
        sources.entry.layout.now sources.entry.plain_writes_atomic
        → result ≡ spec.told_of run sources.entry.text.now (map (λ own. own.items) sources.entry.places.now) name }
    ensures within { IfSome result.at (λ at. at ≤ length sources.entry.text.now) }
{
    let site = site_named(sources.sites, name);
    SiteTold {
        task: name.task as usize,
        site: name.site as usize,
        at: place_of(sources.text, sources.places, name),
        kind: site.kind,
        variable: variable_of(sources.layout, sources.variables, site.bytes),
        how: how_marked(sources.plain_writes_atomic, name, &site),
    }
}
