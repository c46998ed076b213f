//! The whole output of a run.

ghost use Rattle.std.specs.Prelude.{◌≡◌, IfOk, List};
ghost use Rattle.std.specs.List.{flat_map};
ghost use Rattle.report_text.specs.ReportOf.{report_text};
ghost use Rattle.report_text.specs.Sink.{Writes};
ghost use Rattle.litmus_step.specs.Runs.{run_of};
ghost use Rattle.litmus_syntax.specs.Limits.{KeepsLimits};
ghost use Rattle.litmus_syntax.specs.Views.{program_of};
ghost use Rattle.prepared_program.specs.program_sites.Prepared.{IsPrepared, sites_in};
ghost use Rattle.prepared_program.specs.declared.program_sites.settings.Settings as terms;
ghost use Rattle.run_output.specs.Output.{IsOutput, output_text};
ghost use Rattle.slot_table.specs.declared.records.Record.{Record};

use crate::finals::found_of;
use crate::lines::{write_condition, write_counters};
use access_types::{Report, Sites};
use litmus_step::{Prepared, Ran};
use litmus_syntax::Program;
use report_text::{MemorySink, Sink, WriteError, write_report};
use std::alloc::{AllocError, Global};
use task_log::Counters;

/// What was found in a run.
#[derive(Clone, Copy)]
pub struct RunFindings {
    /// How often each thing came of a check.
    pub counters: Counters,
    /// How many calls had nothing to end.
    pub unbalanced: u64,
    /// Whether the condition held.
    pub held: bool,
}

/// Writes the reports in order, of the accesses that their tickets name among the sites.
fn write_reports<K: Sink>(reports: &[Report], sites: &Sites, sink: &mut K) -> Result<(), WriteError>
    ensures { Writes K.written K.failures result (flat_map (report_text sites.now) reports.now) sink.old sink.new }
{
    for report in reports {
        write_report(report, sites, sink)?;
    }
    Ok(())
}

/// Writes the reports in order, of the accesses that their tickets name among the sites, then the line of counters and
/// the line on the condition.
///
/// `SinkFailed`: the sink failed in this call, and holds a beginning of the text.
pub fn write_output<K: Sink>(
    reports: &[Report],
    sites: &Sites,
    found: &RunFindings,
    sink: &mut K,
) -> Result<(), WriteError>
    ensures { Writes K.written K.failures result (output_text sites.now reports.now found.now) sink.old sink.new }
{
    write_reports(reports, sites, sink)?;
    write_counters(&found.counters, found.unbalanced, sink)?;
    write_condition(u64::from(found.held), 1, sink)
}

/// The output of a run of a program that is made ready.
pub fn output_of<R: Ran>(
    alloc: Global,
    program: &Program,
    prepared: &Prepared,
    ran: &R,
) -> Result<Vec<u8>, AllocError>
    requires { KeepsLimits (program_of program.now) }
    ensures { (settings : terms.Settings) (records : List Record)
        → (comes : R.comes_of ran.now (run_of program.now settings (sites_in prepared.now)) records) → IsPrepared program.now settings prepared.now
        → IfOk result (λ output. IsOutput (R.list_of ran.now (run_of program.now settings (sites_in prepared.now)) records comes)
        (R.reports_in ran.now) output.items) }
{
    let found = found_of(alloc, program, prepared, ran)?;
    let mut sink = MemorySink::new(alloc);
    match write_output(ran.reports(), prepared.sites(), &found, &mut sink) {
        Ok(()) => Ok(sink.into_bytes()),
        Err(_) => Err(AllocError),
    }
}
