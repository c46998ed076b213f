//! What is kept of the steps of all tasks.

ghost use Rattle.std.specs.Prelude.{◌≡◌, IfOk, List, Option, vec_capacity};
ghost use Rattle.litmus_step.specs.Kept.{Added, AreLogs, IsNotedIn};
ghost use Rattle.litmus_syntax.specs.Limits.{KeepsLimits};
ghost use Rattle.executions.specs.execution.Run.{Run};
ghost use Rattle.executions.specs.execution.Execution.{Execution};
ghost use Rattle.log_correctness.specs.Lists.{AreAccesses, AreArms, AreTakes};
ghost use Rattle.log_correctness.specs.Totals.{CountsList};
ghost use Rattle.slot_table.specs.declared.records.Record.{Record};
ghost use Rattle.task_log.specs.Keeps.{room_in};

use crate::laws::{law_logs_count_the_list, law_logs_give_what_the_list_has};
use access_types::{Arm, Report, Stamped, Take};
use std::alloc::{AllocError, Global};
use task_log::{Counters, Noted, TaskLog};

/// A report, if there is one, is kept where there is room for it.
#[inline(always)]
fn add(reports: &mut Vec<Report>, report: Option<Report>)
    ensures added { Added report (vec_capacity reports.old) reports.old.items reports.new.items }
    ensures room { vec_capacity reports.new ≡ vec_capacity reports.old }
{
    let Some(report) = report else {
        return;
    };
    if reports.len() < reports.capacity() {
        reports.push_reserved(report);
    }
}

/// A step of a task is noted, and what is reported at it is kept.
#[inline(always)]
pub fn note(log: &mut TaskLog, reports: &mut Vec<Report>, noted: &Noted)
    ensures noted { (report : Option Report) × IsNotedIn log.old noted.now log.new report
        × Added report (vec_capacity reports.old) reports.old.items reports.new.items }
    ensures room { vec_capacity reports.new ≡ vec_capacity reports.old }
    ensures log { room_in log.new ≡ room_in log.old }
{
    let report = log.note(noted);
    add(reports, report);
}

/// How often each thing came of the checks of all tasks.
pub fn counters_of(logs: &[TaskLog]) -> Counters
    ensures { (run : Run) (records : List Record) → (list : Execution run records) → AreLogs list logs.now → CountsList list result }
{
    law_logs_count_the_list();
    let mut counters = Counters::new();
    for log in logs {
        counters.add(&log.counters());
    }
    counters
}

/// The accesses that have ended, by task, and then in the order of their begins.
pub fn accesses_of(alloc: Global, logs: &[TaskLog]) -> Result<Vec<Stamped>, AllocError>
    ensures { (run : Run) (records : List Record) → (list : Execution run records) → KeepsLimits run.program → AreLogs list logs.now
        → IfOk result (λ all. AreAccesses list all.items) }
{
    law_logs_give_what_the_list_has();
    let mut all = Vec::new(alloc);
    for log in logs {
        all.extend_from_slice(log.accesses(alloc)?.as_slice())?;
    }
    Ok(all)
}

/// The armings that are over, by task, and then in the order of their removes.
pub fn arms_of(alloc: Global, logs: &[TaskLog]) -> Result<Vec<Arm>, AllocError>
    ensures { (run : Run) (records : List Record) → (list : Execution run records) → KeepsLimits run.program → AreLogs list logs.now
        → IfOk result (λ all. AreArms list all.items) }
{
    law_logs_give_what_the_list_has();
    let mut all = Vec::new(alloc);
    for log in logs {
        all.extend_from_slice(log.arms())?;
    }
    Ok(all)
}

/// The takings that are over, by task, and then in the order of their tells.
pub fn takes_of(alloc: Global, logs: &[TaskLog]) -> Result<Vec<Take>, AllocError>
    ensures { (run : Run) (records : List Record) → (list : Execution run records) → KeepsLimits run.program → AreLogs list logs.now
        → IfOk result (λ all. AreTakes list all.items) }
{
    law_logs_give_what_the_list_has();
    let mut all = Vec::new(alloc);
    for log in logs {
        all.extend_from_slice(log.takes())?;
    }
    Ok(all)
}
