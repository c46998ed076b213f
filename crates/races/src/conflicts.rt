//! The pairs of sites of a program whose accesses conflict.

ghost use Rattle.std.specs.Prelude.{◌≡◌, ◌↔◌, [], AllPairs, Contains, IfOk, IsTrue, OnOk};
ghost use Rattle.access_types.specs.Access.{Breaks, Overlap};
ghost use Rattle.litmus_syntax.specs.Limits.{KeepsLimits};
ghost use Rattle.litmus_syntax.specs.Views.{program_of};
ghost use Rattle.prepared_program.specs.declared.program_sites.settings.Settings.{Settings};
ghost use Rattle.prepared_program.specs.program_sites.Prepared.{IsPrepared, IsReady, sites_in};
ghost use Rattle.races.specs.Lists.{AddsInOrder};
ghost use Rattle.races.specs.Pairs.{Conflicts, first_at, run_with};
ghost use Rattle.races.specs.Placed.{AreOfSitesBefore, ComesBefore, ConflictsWith, IsPairAmong, IsPairWith};
ghost use Rattle.races.specs.Placed.{PlacedBefore};

use crate::pair::SitePair;
use crate::placed::{PlacedSite, placed_sites};
use litmus_syntax::Program;
use prepared_program::program_sites::Prepared;
use std::alloc::{AllocError, Global};

/// Accesses at the two sites share a byte, and one of the two writes or asserts that nobody accesses.
fn sites_conflict(first: &PlacedSite, second: &PlacedSite) -> bool
    ensures { IsTrue result
        ↔ (Overlap (first_at first.now.name first.now.site) (first_at second.now.name second.now.site)
        × Breaks (first_at first.now.name first.now.site) (first_at second.now.name second.now.site)) }
{
    let a = first.site.bytes;
    let b = second.site.bytes;
    // Offsets from the two addresses, since a sum might wrap.
    let start = a.addr.max(b.addr);
    start - a.addr < a.size
        && start - b.addr < b.size
        && (first.site.kind.write() || second.site.kind.write())
}

/// The second site is of a later task than the first one, and accesses at the two conflict.
fn conflicts_with(first: &PlacedSite, second: &PlacedSite) -> bool
    ensures { IsTrue result ↔ ConflictsWith first.now second.now }
{
    first.name.task < second.name.task && sites_conflict(first, second)
}

/// Adds the pairs of a site and one of a later task that conflicts with it.
fn add_pairs_with(
    pairs: &mut Vec<SitePair>,
    first: &PlacedSite,
    sites: &[PlacedSite],
) -> Result<(), AllocError>
    requires sites { AllPairs PlacedBefore sites.now }
    requires order { AllPairs ComesBefore pairs.old.items }
    requires before { AreOfSitesBefore first.now pairs.old.items }
    ensures { OnOk result (AddsInOrder ComesBefore pairs.old.items pairs.new.items (IsPairWith first.now sites.now)) }
{
    for second in sites {
        if conflicts_with(first, second) {
            pairs.push(SitePair {
                first: first.name,
                second: second.name,
            })?;
        }
    }
    Ok(())
}

/// Adds all pairs of these sites that conflict.
fn add_pairs(pairs: &mut Vec<SitePair>, sites: &[PlacedSite]) -> Result<(), AllocError>
    requires sites { AllPairs PlacedBefore sites.now }
    requires none { pairs.old.items ≡ [] }
    ensures { OnOk result (AddsInOrder ComesBefore [] pairs.new.items (IsPairAmong sites.now)) }
{
    for first in sites {
        add_pairs_with(pairs, first, sites)?;
    }
    Ok(())
}

/// The pairs of sites of a program whose accesses conflict, by their first sites in order, then by their second ones.
pub fn conflicting_pairs(
    alloc: Global,
    program: &Program,
    prepared: &Prepared,
) -> Result<Vec<SitePair>, AllocError>
    requires limits { KeepsLimits (program_of program.now) }
    requires ready { IsReady program.now prepared.now }
    ensures pairs { (settings : Settings) → IsPrepared program.now settings prepared.now
        → IfOk result (λ pairs. (pair : SitePair) → Contains pairs.items pair
        ↔ Conflicts (run_with program.now settings (sites_in prepared.now)) pair) }
    ensures order { IfOk result (λ pairs. AllPairs ComesBefore pairs.items) }
{
    let sites = placed_sites(alloc, program, prepared)?;
    let mut pairs = Vec::new(alloc);
    add_pairs(&mut pairs, sites.as_slice())?;
    Ok(pairs)
}
