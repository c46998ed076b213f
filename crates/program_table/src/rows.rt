//! The accesses of a program by their sites, with the lines and columns at which they stand in its text.

ghost use Rattle.std.specs.Prelude.{◌≡◌, ◌<◌, IfOk, length, map};
ghost use Rattle.litmus_syntax.specs.Limits.{BodyKeepsLimits};
ghost use Rattle.litmus_syntax.specs.Sites.{sites_of};
ghost use Rattle.litmus_syntax.specs.Views.{block_of};
ghost use Rattle.program_table.specs.Rows as spec;
ghost use Rattle.program_table.specs.Words.{AreWords};

use access_types::{Access, Sites};
use litmus_lex::{column_of, line_of};
use litmus_semantics::text_sites;
use litmus_syntax::Task;
use std::alloc::{AllocError, Global};
use watch_word::{Layout, encode_in};

/// Where an access stands in a text.
#[derive(Clone, Copy)]
pub enum Spot {
    Unknown,
    /// Each from 1.
    At { line: usize, column: usize },
}

/// The first access that a task makes at a site.
#[derive(Clone, Copy)]
pub enum Made {
    /// None: a loop of no turns stands round it.
    Never,
    /// Its watch word, if it can be watched.
    First { access: Access, word: Option<u64> },
}

/// A site of a task, by their numbers: where its access stands in the text, and the first access that is made there.
#[derive(Clone, Copy)]
pub struct SiteRow {
    pub task: usize,
    pub site: usize,
    pub spot: Spot,
    pub made: Made,
}

/// The text of a program, where the accesses of its sites begin there as far as that is known, what these are, and the
/// layout of their watch words.
#[derive(Clone, Copy)]
pub struct Listed<'a> {
    pub text: &'a [u8],
    pub places: &'a [Vec<usize>],
    pub sites: &'a Sites,
    pub layout: Layout,
}

/// Where the access of a site stands.
fn spot_of(text: &[u8], places: &[Vec<usize>], task: usize, site: usize) -> Spot
    ensures { result ≡ spec.spot_of text.now (spec.place_in (map (λ own. own.items) places.now) task site) }
{
    let Some(own) = places.get(task) else {
        return Spot::Unknown;
    };
    match own.get(site) {
        Some(at) if *at <= text.len() => Spot::At {
            line: line_of(text, *at),
            column: column_of(text, *at),
        },
        _ => Spot::Unknown,
    }
}

/// The watch word of an access, if it can be watched.
fn word_of(layout: Layout, access: &Access) -> Option<u64>
    ensures { (words : AreWords layout) → result ≡ words.of access.now }
{
    encode_in(layout, access)
}

/// The first access of a task at a site.
fn first_access(layout: Layout, sites: &Sites, task: usize, site: usize) -> Made
    requires task { task < 16 }
    requires site { site < 256 }
    ensures { (words : AreWords layout) → result ≡ spec.first_access words.of sites.now task site }
{
    match sites.get((1 + task * 65536 + site * 256) as u32) {
        Some(access) => Made::First {
            access: *access,
            word: word_of(layout, access),
        },
        None => Made::Never,
    }
}

/// The row of a site.
#[tactic(auto, unfolding(crate::specs::Rows::row_of))]
pub fn row_of(program: Listed<'_>, task: usize, site: usize) -> SiteRow
    requires task { task < 16 }
    requires site { site < 256 }
    ensures { (words : AreWords program.entry.layout)
        → result ≡ spec.row_of program.entry.text.now (map (λ own. own.items) program.entry.places.now) words.of program.entry.sites.now task site }
{
    SiteRow {
        task,
        site,
        spot: spot_of(program.text, program.places, task, site),
        made: first_access(program.layout, program.sites, task, site),
    }
}

/// How many sites a task has.
pub fn site_count(alloc: Global, task: &Task) -> Result<usize, AllocError>
    requires { BodyKeepsLimits (block_of task.now.body.items) }
    ensures { IfOk result (λ count. count ≡ length (sites_of (block_of task.now.body.items))) }
{
    let sites = text_sites(alloc, task.body.as_slice(), &[])?;
    Ok(sites.len())
}
