//! All accesses that a program can make: at each site of a task one for each time that it can begin there.

ghost use Rattle.std.specs.Prelude.{◌≡◌, ◌+◌, ◌^◌, ◌<◌, ◌≤◌, ◌↔◌, ◌⊎◌, IfErr, IfOk, IsErrOf, OnOk};
ghost use Rattle.access_types.specs.Access.{proper_mask};
ghost use Rattle.litmus_semantics.specs.TextSites.{AllLoopsFit, block_by, bytes_among};
ghost use Rattle.litmus_syntax.specs.Limits.{KeepsLimits};
ghost use Rattle.litmus_syntax.specs.Views.{block_of, program_of};
ghost use Rattle.prepared_program.specs.program_layout.Places.{AreFit, places_of};
ghost use Rattle.prepared_program.specs.program_sites.Added.{Adds, AllBelow, HaveAccesses, IsAt, IsProper, IsRepetition, first_ticket};
ghost use Rattle.prepared_program.specs.program_sites.Sites.{AreSitesOf};

use crate::program_layout::{Layout, Place};
use crate::program_sites::error::RunError;
use access_types::{Access, Bytes, Sites};
use litmus_semantics::{Site, text_sites};
use litmus_syntax::{Program, Task};
use std::alloc::{AllocError, Global};

/// Adds the accesses of a task at a site: one for each time that it can begin there.
fn add_site(sites: &mut Sites, task: u32, number: u32, site: Site) -> Result<(), AllocError>
    requires task_limit { task < 16 }
    requires site_limit { number < 256 }
    requires times { site.times ≤ 256 }
    requires proper { IsProper site }
    requires below { AllBelow sites.old (first_ticket task number) }
    ensures { OnOk result (Adds sites.old sites.new (IsRepetition task number site)) }
{
    let Bytes { addr, size } = site.bytes;
    // Each repetition has its own ticket: who reads a ticket in a pair word finds here which access it names.
    for rep in 0..site.times {
        match Access::new_rep(task, number, rep as u32, addr, size, site.kind, site.mask) {
            Ok(access) => sites.add(&access)?,
            Err(_) => unreachable!(),
        }
    }
    Ok(())
}

/// Adds the accesses of a task, whose variables have these bytes.
fn add_task(
    sites: &mut Sites,
    alloc: Global,
    number: u32,
    task: &Task,
    bytes: &[Bytes],
) -> Result<(), AllocError>
    requires task_limit { number < 16 }
    requires loops { AllLoopsFit 1 (block_of task.now.body.items) }
    requires accesses { HaveAccesses (block_by (bytes_among bytes.now) (block_of task.now.body.items)) }
    requires below { AllBelow sites.old (first_ticket number 0) }
    ensures { OnOk result
        (Adds sites.old sites.new (IsAt number (block_by (bytes_among bytes.now) (block_of task.now.body.items)))) }
{
    let text = text_sites(alloc, task.body.as_slice(), bytes)?;
    for (site_number, site) in text.iter().enumerate() {
        add_site(sites, number, site_number as u32, *site)?;
    }
    Ok(())
}

/// All accesses that a program can make, by their tickets, with places for some of its variables.
///
/// `BadPlace`: a place is no multiple of its variable's size or is above 2^62, its name is unknown, a lock's, or
/// placed twice.
pub fn sites_of(alloc: Global, program: &Program, places: &[Place]) -> Result<Sites, RunError>
    requires { KeepsLimits (program_of program.now) }
    ensures sites { IfOk result (AreSitesOf (program_of program.now) (places_of places.now)) }
    ensures bad_place { IsErrOf result RunError.BadPlace ↔ (AreFit program.now.variables places.now → ⊥) }
    ensures errors { IfErr result (λ error. (error ≡ RunError.BadPlace) ⊎ (error ≡ RunError.OutOfMemory)) }
{
    let layout = Layout::new(alloc, program.variables.as_slice(), places)?;
    let bytes = layout.all_bytes(alloc)?;
    let mut sites = Sites::new(alloc);
    for (number, task) in program.tasks.as_slice().iter().enumerate() {
        add_task(&mut sites, alloc, number as u32, task, bytes.as_slice())?;
    }
    Ok(sites)
}
