//! The runs of a litmus text.

ghost use Rattle.std.specs.Prelude.{◌≤◌, IfErr, IfOk};
ghost use Rattle.std.specs.Option.{option_map};
ghost use Rattle.litmus_syntax.specs.Limits.{KeepsLimits};
ghost use Rattle.litmus_syntax.specs.Views.{program_of};
ghost use Rattle.run_stats.specs.Errors.{IsRefused, Stops};
ghost use Rattle.run_stats.specs.Output.{Leave, TextLeaves};

use crate::hooks::{Delays, Hooks};
use crate::lots::largest_batch;
use crate::made::{Plan, made_of};
use crate::starters::Starters;
use crate::times::{Progress, Times};
use litmus_parse::{Program, parse};
use litmus_step::{Prepared, Settings};
use run_output::{EngineError, Written, trace_if};
use std::alloc::Global;
use std::sync::Wait;
use std::thread::Threads;

/// Runs a program on threads, as often as is asked for, and keeps what is written of the runs.
fn run_often<R: Threads + Wait + Sync, P: Progress, H: Hooks>(
    rt: &R,
    alloc: Global,
    program: &Program,
    settings: &Settings,
    times: Times,
    traced: bool,
    progress: &P,
    hooks: &H,
) -> Result<Written, EngineError>
    requires limits { KeepsLimits (program_of program.now) }
    requires jobs { 1 ≤ times.jobs }
    ensures leaves { IfOk result (λ left. Leave program.now settings.now times traced left.raced left.output.items
        (option_map (λ trace. trace.items) left.trace)) }
    ensures stops { IfErr result (Stops times.keep_going program.now settings.now) }
{
    let prepared = Prepared::new(alloc, program, settings)?;
    let plan = Plan {
        program,
        settings,
        prepared: &prepared,
        times,
        starters: Starters::new(prepared.sites(), settings.plain_writes_atomic),
        largest: largest_batch(prepared.accesses.as_slice()),
        hooks,
    };
    let made = made_of(rt, alloc, &plan, progress)?;
    progress.over();
    Ok(Written {
        output: made.output(alloc, times.keep_going)?,
        trace: trace_if(traced, alloc, settings, made.last())?,
        raced: made.raced(),
    })
}

/// Runs the program of a litmus text on threads, as often as is asked for, and keeps what is written of the runs: the
/// trace of the last one that ended only where that is wanted.
pub fn run_text_often<R: Threads + Wait + Sync, P: Progress>(
    rt: &R,
    alloc: Global,
    text: &[u8],
    settings: &Settings,
    times: Times,
    traced: bool,
    progress: &P,
) -> Result<Written, EngineError>
    requires jobs { 1 ≤ times.jobs }
    ensures leaves { IfOk result (λ left. TextLeaves text.now settings.now times traced left.raced left.output.items
        (option_map (λ trace. trace.items) left.trace)) }
    ensures refused { IfErr result (IsRefused times.keep_going text.now settings.now) }
{
    run_text_with(rt, alloc, text, settings, times, traced, progress, &Delays)
}

/// Runs the program of a litmus text as [`run_text_often`] does, where each run calls what these hooks give it.
pub fn run_text_with<R: Threads + Wait + Sync, P: Progress, H: Hooks>(
    rt: &R,
    alloc: Global,
    text: &[u8],
    settings: &Settings,
    times: Times,
    traced: bool,
    progress: &P,
    hooks: &H,
) -> Result<Written, EngineError>
    requires jobs { 1 ≤ times.jobs }
    ensures leaves { IfOk result (λ left. TextLeaves text.now settings.now times traced left.raced left.output.items
        (option_map (λ trace. trace.items) left.trace)) }
    ensures refused { IfErr result (IsRefused times.keep_going text.now settings.now) }
{
    let program = parse(alloc, text)?;
    run_often(
        rt, alloc, &program, settings, times, traced, progress, hooks,
    )
}
