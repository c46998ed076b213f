//! The sites of a program, in the order of its tasks and of their texts.

ghost use Rattle.std.specs.Prelude.{◌≡◌, ◌≤◌, ◌↔◌, [], ℕ, AllPairs, Contains, IfOk, OnOk, Some, length, map, slice_get};
ghost use Rattle.litmus_semantics.specs.TextSites.{bytes_among};
ghost use Rattle.litmus_syntax.specs.Limits.{KeepsLimits};
ghost use Rattle.litmus_syntax.specs.Tree as tree;
ghost use Rattle.litmus_syntax.specs.Views.{program_of, task_of};
ghost use Rattle.prepared_program.specs.declared.program_sites.settings.Settings.{Settings};
ghost use Rattle.prepared_program.specs.program_sites.Prepared.{IsPrepared, IsReady, sites_in};
ghost use Rattle.races.specs.Lists.{AddsInOrder};
ghost use Rattle.races.specs.Pairs.{HasSite, run_with};
ghost use Rattle.races.specs.Placed.{AreOfTasksBelow, IsListed, IsSiteBy, IsSiteOf, PlacedBefore};

use crate::pair::SiteName;
use access_types::Bytes;
use litmus_semantics::{Site, text_sites};
use litmus_syntax::{Program, Task};
use prepared_program::program_sites::Prepared;
use std::alloc::{AllocError, Global};

/// A site of a program, and what is accessed there.
#[derive(Clone, Copy)]
pub struct PlacedSite {
    pub name: SiteName,
    pub site: Site,
}

/// Adds the sites of a task.
fn add_sites(found: &mut Vec<PlacedSite>, task: u32, sites: &[Site]) -> Result<(), AllocError>
    requires few { length sites.now ≤ 256 }
    requires order { AllPairs PlacedBefore found.old.items }
    requires below { AreOfTasksBelow task found.old.items }
    ensures { OnOk result (AddsInOrder PlacedBefore found.old.items found.new.items (IsSiteOf task sites.now)) }
{
    for (number, site) in sites.iter().enumerate() {
        let name = SiteName {
            task,
            site: number as u32,
        };
        found.push(PlacedSite { name, site: *site })?;
    }
    Ok(())
}

/// Adds the sites of all tasks, whose variables have these bytes.
fn add_tasks(
    found: &mut Vec<PlacedSite>,
    alloc: Global,
    tasks: &[Task],
    bytes: &[Bytes],
) -> Result<(), AllocError>
    requires tasks { length tasks.now ≤ 16 }
    requires listed { (number : ℕ) (task : tree.Task) → slice_get (map task_of tasks.now) number ≡ Some task
        → IsListed (bytes_among bytes.now) task }
    requires none { found.old.items ≡ [] }
    ensures { OnOk result
        (AddsInOrder PlacedBefore [] found.new.items (IsSiteBy (bytes_among bytes.now) (map task_of tasks.now))) }
{
    for (number, task) in tasks.iter().enumerate() {
        let sites = text_sites(alloc, task.body.as_slice(), bytes)?;
        add_sites(found, number as u32, sites.as_slice())?;
    }
    Ok(())
}

/// The sites of a program that is made ready, in the order of its tasks and of their texts.
pub fn placed_sites(
    alloc: Global,
    program: &Program,
    prepared: &Prepared,
) -> Result<Vec<PlacedSite>, AllocError>
    requires limits { KeepsLimits (program_of program.now) }
    requires ready { IsReady program.now prepared.now }
    ensures sites { (settings : Settings) → IsPrepared program.now settings prepared.now
        → IfOk result (λ found. (placed : PlacedSite) → Contains found.items placed
        ↔ HasSite (run_with program.now settings (sites_in prepared.now)) placed.name placed.site) }
    ensures order { IfOk result (λ found. AllPairs PlacedBefore found.items) }
{
    let bytes = prepared.layout.all_bytes(alloc)?;
    let mut found = Vec::new(alloc);
    add_tasks(
        &mut found,
        alloc,
        program.tasks.as_slice(),
        bytes.as_slice(),
    )?;
    Ok(found)
}
