//! What is found of runs, taken together.

ghost use Rattle.std.specs.Prelude.{◌≡◌, ◌++◌, ◌∷◌, ◌↔◌, [], All, Bool, List, IfOk, IsTrue, OnOk, fold, map};
ghost use Rattle.access_types.specs.Sites.{AccessMap};
ghost use Rattle.prepared_program.specs.program_sites.Prepared.{IsPrepared, sites_in};
ghost use Rattle.prepared_program.specs.declared.program_sites.settings.Settings as terms;
ghost use Rattle.litmus_syntax.specs.Limits.{KeepsLimits};
ghost use Rattle.litmus_syntax.specs.Views.{program_of};
ghost use Rattle.litmus_syntax.specs.declared.program.Program as tree;
ghost use Rattle.report_text.specs.Groups.{counted};
ghost use Rattle.report_text.specs.ReportOf.{NamesAccesses, report_text};
ghost use Rattle.report_text.specs.Sink.{Writes};
ghost use Rattle.run_stats.specs.Output.{found_text};
ghost use Rattle.run_stats.specs.Runs.{OneRun};
ghost use Rattle.run_stats.specs.Tally.{Tallies};
ghost use Rattle.runner.specs.Result.{IsRunOnce};

use access_types::{Report, Sites};
use litmus_parse::Program;
use litmus_step::Prepared;
use report_text::printed_reports::printed_reports;
use report_text::{Groups, Sink, WriteError};
use run_output::{found_of, write_condition, write_counters};
use runner::RunResult;
use soundness::laws::law_the_headline_holds;
use std::alloc::{AllocError, Global};
use task_log::Counters;

/// What is found of the runs so far.
#[derive(Drop)]
pub(crate) struct Tally {
    groups: Groups,
    counters: Counters,
    unbalanced: u64,
    held: u64,
    raced: bool,
}

/// Counts reports, one after the other.
fn count_reports(groups: &mut Groups, reports: &[Report], sites: &Sites) -> Result<(), AllocError>
    requires { All (NamesAccesses sites.now) reports.now }
    ensures { OnOk result (groups.new ≡ fold counted groups.old (map (report_text sites.now) reports.now)) }
{
    for report in reports {
        groups.add(report, sites)?;
    }
    Ok(())
}

impl Tally {
    /// Of no run.
    pub(crate) fn new(alloc: Global) -> Tally
        ensures { (unknown : Bool) (program : tree.Program) (settings : terms.Settings) (sites : AccessMap)
            → Tallies unknown program settings sites [] result }
    {
        Tally {
            groups: Groups::new(alloc),
            counters: Counters::new(),
            unbalanced: 0,
            held: 0,
            raced: false,
        }
    }

    /// Whether something was reported.
    pub(crate) fn raced(&self) -> bool
        ensures { result ≡ self.now.raced }
    {
        self.raced
    }

    /// Adds what is found of one run more, of its reports those that are printed, where those of unknown origin are
    /// wanted or not. Both counts stop at the largest number that there is: so they need no bound on how many runs
    /// there are, and never begin again at 0.
    pub(crate) fn add(
        &mut self,
        alloc: Global,
        program: &Program,
        prepared: &Prepared,
        ended: &RunResult,
        unknown: bool,
    ) -> Result<(), AllocError>
        requires limits { KeepsLimits (program_of program.now) }
        requires names { All (NamesAccesses (sites_in prepared.now)) ended.now.reports.items }
        ensures { (settings : terms.Settings) (runs : List (OneRun program.now settings))
            → Tallies unknown program.now settings (sites_in prepared.now) runs self.old → IsPrepared program.now settings prepared.now
            → IsRunOnce program.now settings ended.now
            → OnOk result ((one : OneRun program.now settings) × (one.result ≡ ended.now)
            × Tallies unknown program.now settings (sites_in prepared.now) (runs ++ one ∷ []) self.new) }
    {
        law_the_headline_holds();
        let found = found_of(alloc, program, prepared, ended)?;
        let sites = prepared.sites();
        let printed = printed_reports(alloc, ended.reports(), sites, unknown)?;
        let shown = printed.as_slice();
        count_reports(&mut self.groups, shown, sites)?;
        self.raced = self.raced || !shown.is_empty();
        self.counters.add(&found.counters);
        self.unbalanced = self.unbalanced.saturating_add(found.unbalanced);
        self.held = self.held.saturating_add(u64::from(found.held));
        Ok(())
    }

    /// Writes each distinct report with how often it was seen, the summed counters, and in how many of so many runs the
    /// condition held.
    pub(crate) fn write<K: Sink>(&self, runs: u64, sink: &mut K) -> Result<(), WriteError>
        ensures { Writes K.written K.failures result (found_text self.now.groups self.now.counters self.now.unbalanced self.now.held runs)
            sink.old sink.new }
    {
        self.groups.write(sink)?;
        write_counters(&self.counters, self.unbalanced, sink)?;
        write_condition(self.held, runs, sink)
    }
}
