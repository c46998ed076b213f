//! Worlds of a program before its first step.

ghost use Rattle.std.specs.Prelude.{◌≡◌, [], IfOk};
ghost use Rattle.litmus_step.specs.Runs.{run_of};
ghost use Rattle.litmus_step.specs.Steps.{LeadsTo};
ghost use Rattle.litmus_syntax.specs.Limits.{KeepsLimits};
ghost use Rattle.litmus_syntax.specs.Views.{program_of};
ghost use Rattle.litmus_syntax.specs.declared.program.Program as syntax;
ghost use Rattle.prepared_program.specs.declared.program_sites.settings.Settings.{Settings};
ghost use Rattle.prepared_program.specs.program_sites.Prepared.{IsPrepared, IsReady, sites_in};
ghost use Rattle.race_verdicts.specs.Firsts.{AreFirsts, unwatched_settings};

use litmus_step::World;
use litmus_syntax::Program;
use prepared_program::program_sites::Prepared;
use setup_access::Rules;
use std::alloc::{AllocError, Global};
use std::sync::Arc;

/// A program before its first step, and the same where no access is watched.
#[derive(Drop)]
pub struct Firsts<'a> {
    pub world: World<'a>,
    pub unwatched: World<'a>,
}

/// The same program, in whose runs no access is watched: a sampler is never asked so often.
fn without_watching(alloc: Global, prepared: &Prepared) -> Result<Prepared, AllocError>
    ensures prepared { (program : syntax.Program) (settings : Settings) → IsPrepared program settings prepared.now
        → IfOk result (IsPrepared program (unwatched_settings settings)) }
    ensures sites { IfOk result (λ unwatched. sites_in unwatched ≡ sites_in prepared.now) }
{
    let cells = prepared.cells.as_slice().to_vec(alloc)?;
    let words = prepared.words.as_slice().to_vec(alloc)?;
    let accesses = prepared.accesses.as_slice().to_vec(alloc)?;
    Ok(Prepared {
        layout: Arc::try_clone(&prepared.layout)?,
        locks: prepared.locks,
        cells,
        words,
        sites: Arc::try_clone(&prepared.sites)?,
        accesses,
        rules: Rules {
            skip: u64::MAX,
            randomize: false,
            ..prepared.rules
        },
    })
}

/// A program that is made ready, before its first step.
fn first_world<'a>(
    alloc: Global,
    program: &'a Program,
    prepared: &Prepared,
) -> Result<World<'a>, AllocError>
    requires limits { KeepsLimits (program_of program.now) }
    requires ready { IsReady program.now prepared.now }
    ensures { (settings : Settings) → IsPrepared program.now settings prepared.now
        → IfOk result (LeadsTo (run_of program.now settings (sites_in prepared.now)) []) }
{
    World::prepared(alloc, program, prepared)
}

impl<'a> Firsts<'a> {
    /// Of a program that is made ready.
    pub fn new(
        alloc: Global,
        program: &'a Program,
        prepared: &Prepared,
    ) -> Result<Firsts<'a>, AllocError>
        requires limits { KeepsLimits (program_of program.now) }
        requires ready { IsReady program.now prepared.now }
        ensures { (settings : Settings) → IsPrepared program.now settings prepared.now
            → IfOk result (AreFirsts (run_of program.now settings (sites_in prepared.now))) }
    {
        let without = without_watching(alloc, prepared)?;
        let world = first_world(alloc, program, prepared)?;
        let unwatched = first_world(alloc, program, &without)?;
        Ok(Firsts { world, unwatched })
    }
}
