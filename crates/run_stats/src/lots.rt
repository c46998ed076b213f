//! How many runs are made at a time.

ghost use Rattle.std.specs.Prelude.{◌≤◌, ◌<◌, ◌+◌, ◌*◌, ◌^◌};

use crate::times::Times;

/// How many accesses the tasks of all runs of a batch can begin at most, but for a batch of one run: what is kept of
/// them has its room before the first is made.
const ACCESSES: usize = 16_384;

/// How many runs a batch has at most: so many that starting and joining its threads is little beside its runs.
const MOST: u64 = 64;

/// How many runs of a program a batch has at most, by how many accesses each of its tasks can begin.
pub(crate) fn largest_batch(accesses: &[usize]) -> u64 {
    let mut all: usize = 0;
    for of_task in accesses {
        all = all.saturating_add(*of_task);
    }
    (ACCESSES / all.max(1)) as u64
}

/// Batches of as many runs each, which are made side by side.
#[derive(Clone, Copy)]
pub(crate) struct Lot {
    pub(crate) batches: usize,
    pub(crate) runs: usize,
}

impl Lot {
    /// The batches that are made next after so many runs, at most so large: as many as there are jobs, and each with
    /// about as many runs as each job has made. So where the first run with a report is the last, or a stuck one, at
    /// most about half of the runs are made for nothing.
    pub(crate) fn after(run: u64, times: Times, largest: u64) -> Lot
        requires left { run < times.runs }
        requires jobs { 1 ≤ times.jobs }
        ensures some { 1 ≤ result.batches * result.runs }
        ensures few { run + result.batches * result.runs ≤ times.runs }
        ensures fits { run + result.batches * result.runs < 2 ^ 64 }
    {
        let left = times.runs - run;
        let jobs = times.jobs.min(left);
        let wanted = (run / jobs).min(MOST - 1) + 1;
        let runs = wanted.min(largest.max(1)).min(left / jobs);
        Lot {
            batches: jobs as usize,
            runs: runs as usize,
        }
    }
}
