//! The engine: a litmus text, stepped under a schedule, and what is written of that.

ghost use Rattle.std.specs.Prelude.{◌≡◌, ◌≤◌, ◌<◌, ◌==◌, ◌↔◌, [], List, Any, IfErr, IfOk, IfSome, IsErrOf, is_some, length, not};
ghost use Rattle.std.specs.Option.{option_map};
ghost use Rattle.litmus_command.specs.Engine.{IsRefused, Leaves, Stops, StopsReady, TextLeaves};
ghost use Rattle.litmus_parse.specs.Text.{IsTextByte, file_bytes};
ghost use Rattle.prepared_program.specs.program_sites.Prepared.{IsPrepared};
ghost use Rattle.litmus_step.specs.Runs.{run_of};
ghost use Rattle.litmus_step.specs.Steps.{LeadsTo};
ghost use Rattle.litmus_syntax.specs.Limits.{KeepsLimits};
ghost use Rattle.litmus_syntax.specs.Views.{program_of};
ghost use Rattle.prepared_program.specs.program_sites.Prepared.{sites_in};
ghost use Rattle.report_text.specs.printed_reports.Printed.{printed_reports};
ghost use Rattle.run_output.specs.Output.{IsOutput, output_text};
ghost use Rattle.run_output.specs.Traces.{IsToBeAccepted, IsTraceOf};
ghost use Rattle.run_output.specs.declared.error.EngineError.TheVariants.{SinkFailed, Text};
ghost use Rattle.executions.specs.execution.Reports.{reports_of};
ghost use Rattle.executions.specs.execution.Run.{Run};
ghost use Rattle.executions.specs.execution.Execution.{AllHaveEnded};
ghost use Rattle.slot_table.specs.declared.records.Record.{Record};
ghost use Rattle.prepared_program.specs.step_schedule.Schedule.{entries_of};

use access_types::{Report, Sites};
use litmus_parse::{Limit, ParseError, Program, parse};
use litmus_step::{Prepared, Settings, World};
use prepared_program::step_schedule::Schedule;
use report_text::MemorySink;
use report_text::printed_reports::printed_reports;
use run_output::{EngineError, RunFindings, Written, found_of, trace_if, write_output};
use std::alloc::{AllocError, Global};

/// Steps the program of a litmus text under a schedule to its end, and keeps what is written of the run: its trace only
/// where that is wanted, and its reports of unknown origin only where they are.
pub fn run_text(
    alloc: Global,
    text: &[u8],
    settings: &Settings,
    schedule: &Schedule,
    traced: bool,
    unknown: bool,
) -> Result<Written, EngineError>
    ensures leaves { IfOk result (λ written. TextLeaves unknown text.now settings.now (entries_of schedule.now) written.raced
        written.output.items (option_map (λ trace. trace.items) written.trace)) }
    ensures traced { IfOk result (λ written. is_some written.trace ≡ traced) }
    ensures unwritten { IsErrOf result SinkFailed → ⊥ }
    ensures refused { IfErr result (IsRefused text.now settings.now (entries_of schedule.now)) }
    ensures file_limit { IsErrOf result (Text (ParseError.Limit Limit.File)) ↔ (file_bytes < length text.now) }
    ensures not_ascii { IsErrOf result (Text ParseError.NotAscii) ↔
        ((length text.now ≤ file_bytes) × Any (λ byte. ¬ IsTextByte byte) text.now) }
{
    let program = parse(alloc, text)?;
    run_program(alloc, &program, settings, schedule, traced, unknown)
}

/// Steps a program under a schedule to its end, and keeps what is written of the run: its trace only where that is
/// wanted.
fn run_program(
    alloc: Global,
    program: &Program,
    settings: &Settings,
    schedule: &Schedule,
    traced: bool,
    unknown: bool,
) -> Result<Written, EngineError>
    requires { KeepsLimits (program_of program.now) }
    ensures leaves { IfOk result (λ written. Leaves unknown program.now settings.now (entries_of schedule.now) written.raced
        written.output.items (option_map (λ trace. trace.items) written.trace)) }
    ensures traced { IfOk result (λ written. is_some written.trace ≡ traced) }
    ensures stops { IfErr result (Stops program.now settings.now (entries_of schedule.now)) }
{
    let prepared = Prepared::new(alloc, program, settings)?;
    let mut world = World::prepared(alloc, program, &prepared)?;
    run_ready(
        alloc, program, settings, &prepared, &mut world, schedule, traced, unknown,
    )
}

/// Steps a program that is made ready, from its first step on, under a schedule to its end, and keeps what is written
/// of the run: its trace only where that is wanted.
///
/// `OutOfMemory`: all tasks have ended, and there is no room for what is written.
pub fn run_ready(
    alloc: Global,
    program: &Program,
    settings: &Settings,
    prepared: &Prepared,
    world: &mut World<'_>,
    schedule: &Schedule,
    traced: bool,
    unknown: bool,
) -> Result<Written, EngineError>
    requires limits { KeepsLimits (program_of program.now) }
    requires ready { IsPrepared program.now settings.now prepared.now }
    requires begins { LeadsTo (run_of program.now settings.now (sites_in prepared.now)) [] world.old }
    ensures leaves { IfOk result (λ written. Leaves unknown program.now settings.now (entries_of schedule.now) written.raced
        written.output.items (option_map (λ trace. trace.items) written.trace)) }
    ensures traced { IfOk result (λ written. is_some written.trace ≡ traced) }
    ensures stops { IfErr result (StopsReady program.now settings.now (entries_of schedule.now)) }
{
    world.run(schedule)?;
    let written = render_run(alloc, program, settings, prepared, world, traced, unknown)?;
    Ok(written)
}

/// The output of a run of which this is found, with these reports.
fn output_with(
    alloc: Global,
    reports: &[Report],
    sites: &Sites,
    found: &RunFindings,
) -> Result<Vec<u8>, AllocError>
    ensures { IfOk result (λ output. output.items ≡ output_text sites.now reports.now found.now) }
{
    let mut sink = MemorySink::new(alloc);
    match write_output(reports, sites, found, &mut sink) {
        Ok(()) => Ok(sink.into_bytes()),
        Err(_) => Err(AllocError),
    }
}

/// What is written of a run of a program that led to this world: its trace only where that is wanted, and its reports
/// of unknown origin only where they are.
fn render_run(
    alloc: Global,
    program: &Program,
    settings: &Settings,
    prepared: &Prepared,
    world: &World<'_>,
    traced: bool,
    unknown: bool,
) -> Result<Written, AllocError>
    requires limits { KeepsLimits (program_of program.now) }
    requires ready { IsPrepared program.now settings.now prepared.now }
    ensures output { (records : List Record)
        → (leads : LeadsTo (run_of program.now settings.now (sites_in prepared.now)) records world.now)
        → IfOk result (λ written. IsOutput leads.list (printed_reports unknown (sites_in prepared.now) (reports_of leads.list))
        written.output.items) }
    ensures trace { (run : Run) (records : List Record) → (leads : LeadsTo run records world.now)
        → IfOk result (λ written. IfSome written.trace (λ trace. IsTraceOf settings.now leads.list (reports_of leads.list) trace.items)) }
    ensures accepted { (run : Run) (records : List Record) → LeadsTo run records world.now → AllHaveEnded run records
        → run.rules.slots ≡ settings.now.slots → run.rules.layout ≡ settings.now.layout → settings.now.slots ≤ 1024
        → IfOk result (λ written. IfSome written.trace (λ trace. IsToBeAccepted trace.items)) }
    ensures traced { IfOk result (λ written. is_some written.trace ≡ traced) }
    ensures raced { (run : Run) (records : List Record) → (leads : LeadsTo run records world.now)
        → IfOk result (λ written. written.raced
        ≡ not (length (printed_reports unknown (sites_in prepared.now) (reports_of leads.list)) == 0)) }
{
    let found = found_of(alloc, program, prepared, world)?;
    let reports = world.reports();
    let printed = printed_reports(alloc, reports, prepared.sites(), unknown)?;
    let shown = printed.as_slice();
    let output = output_with(alloc, shown, prepared.sites(), &found)?;
    let trace = trace_if(traced, alloc, settings, Some(world))?;
    Ok(Written {
        output,
        trace,
        raced: !shown.is_empty(),
    })
}
