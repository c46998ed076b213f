//! The trace of a run, which is accepted where all its tasks have ended.

ghost use Rattle.std.specs.Prelude.{◌≡◌, ◌≤◌, ◌&&◌, IfOk, IfSome, List, is_some};
ghost use Rattle.executions.specs.execution.Run.{Run};
ghost use Rattle.executions.specs.execution.Execution.{AllHaveEnded};
ghost use Rattle.run_output.specs.Traces.{IsToBeAccepted, IsTraceOf};
ghost use Rattle.slot_table.specs.declared.records.Record.{Record};

use crate::masks::masks_are_low;
use accepted_traces::laws::law_traces_in_either_order_are_true;
use litmus_step::{Ran, Settings};
use report_text::{MemorySink, write_trace};
use std::alloc::{AllocError, Global};

/// The trace of a run, in version 2: its accesses that have ended, the armings and takings that are over, and its
/// reports, under these settings. Once all its tasks have ended, `replay` accepts it, memory aside.
pub fn trace_of<R: Ran>(alloc: Global, settings: &Settings, ran: &R) -> Result<Vec<u8>, AllocError>
    ensures written { (run : Run) (records : List Record) → (comes : R.comes_of ran.now run records)
        → IfOk result (λ trace. IsTraceOf settings.now (R.list_of ran.now run records comes) (R.reports_in ran.now) trace.items) }
    ensures accepted { (run : Run) (records : List Record) → R.comes_of ran.now run records → AllHaveEnded run records
        → run.rules.slots ≡ settings.now.slots → run.rules.layout ≡ settings.now.layout → settings.now.slots ≤ 1024
        → IfOk result (λ trace. IsToBeAccepted trace.items) }
{
    law_traces_in_either_order_are_true();
    let accesses = ran.accesses(alloc)?;
    let arms = ran.arms(alloc)?;
    let takes = ran.takes(alloc)?;
    masks_are_low(accesses.as_slice());
    let mut sink = MemorySink::new(alloc);
    match write_trace(
        settings.slots,
        settings.layout,
        accesses.as_slice(),
        arms.as_slice(),
        takes.as_slice(),
        ran.reports(),
        &mut sink,
    ) {
        Ok(()) => Ok(sink.into_bytes()),
        Err(_) => Err(AllocError),
    }
}

/// The trace of a run, if it is wanted and there is such a run.
pub fn trace_if<R: Ran>(
    wanted: bool,
    alloc: Global,
    settings: &Settings,
    ran: Option<&R>,
) -> Result<Option<Vec<u8>>, AllocError>
    ensures written { IfSome ran.entry (λ one. (run : Run) (records : List Record) → (comes : R.comes_of one.now run records)
        → IfOk result (λ trace. IfSome trace (λ bytes. IsTraceOf settings.now (R.list_of one.now run records comes) (R.reports_in one.now) bytes.items))) }
    ensures accepted { IfSome ran.entry (λ one. (run : Run) (records : List Record) → R.comes_of one.now run records → AllHaveEnded run records
        → run.rules.slots ≡ settings.now.slots → run.rules.layout ≡ settings.now.layout → settings.now.slots ≤ 1024
        → IfOk result (λ trace. IfSome trace (λ bytes. IsToBeAccepted bytes.items))) }
    ensures wanted { IfOk result (λ trace. is_some trace ≡ (wanted && is_some ran.entry)) }
{
    match ran {
        Some(ran) if wanted => Ok(Some(trace_of(alloc, settings, ran)?)),
        _ => Ok(None),
    }
}
