//! What a run calls on the way of its tasks.

ghost use Rattle.std.specs.Prelude.{◌≡◌};

use slot_table::{Answer, Step};
use std::thread;
use task_run::{After, Before, TaskRun};

/// A point on a task's way.
#[derive(Clone, Copy, PartialEq, Eq)]
pub enum HookPoint {
    /// Directly before the clock step of the begin of an access.
    Begin,
    /// Directly before the stall of a watchpoint.
    Armed,
    /// Directly after a finder has told.
    Taken,
    /// Directly after the clock step of the end of an access.
    End,
}

/// The delay between the two loads of a watch, as KCSAN's `udelay` there, and what a task does that waits for a lock. A
/// delay makes it likelier that a conflicting access comes while the watch lasts.
pub trait Stall: Sync {
    /// A task has set up the watchpoint at an index.
    fn stall(&self, task: usize, index: usize);

    /// A lock that a task wants isn't free, and the task will try again.
    fn wait(&self, _task: usize) {
        thread::yield_now();
    }

    /// A task makes no step more.
    fn over(&self, _task: usize) {}
}

/// Where a test may hold a task.
pub trait Gate: Sync {
    /// A task comes to a point.
    fn pass(&self, task: usize, point: HookPoint);
}

/// A stall that is lent does what it does where it stands.
impl<S: Stall> Stall for &S {
    fn stall(&self, task: usize, index: usize) {
        (**self).stall(task, index);
    }

    fn wait(&self, task: usize) {
        (**self).wait(task);
    }

    fn over(&self, task: usize) {
        (**self).over(task);
    }
}

/// A gate that is lent holds where it stands.
impl<G: Gate> Gate for &G {
    fn pass(&self, task: usize, point: HookPoint) {
        (**self).pass(task, point);
    }
}

/// A stall that spends no time.
#[derive(Clone, Copy)]
pub struct NoStall;

impl Stall for NoStall {
    fn stall(&self, _task: usize, _index: usize) {}
}

/// A gate that holds nobody.
#[derive(Clone, Copy)]
pub struct Open;

impl Gate for Open {
    fn pass(&self, _task: usize, _point: HookPoint) {}
}

/// What comes before a step of a task.
pub(crate) fn comes_to<S: Stall, G: Gate>(stall: &S, gate: &G, task: usize, before: Before) {
    match before {
        Before::Begin => gate.pass(task, HookPoint::Begin),
        Before::Stall { index } => {
            gate.pass(task, HookPoint::Armed);
            stall.stall(task, index);
        }
        Before::Other => {}
    }
}

/// What comes after a step of a task.
pub(crate) fn has_passed<G: Gate>(gate: &G, task: usize, after: After) {
    match after {
        After::Told { .. } => gate.pass(task, HookPoint::Taken),
        After::Ended => gate.pass(task, HookPoint::End),
        After::Other => {}
    }
}

/// What follows on a step that is a failed try of a wait: of a lock that isn't free, or of a pair word whose other half
/// is still empty, which is loaded again next.
pub(crate) fn waits<S: Stall>(
    stall: &S,
    task: usize,
    step: Step,
    answer: Answer,
    run: &TaskRun<'_>,
) {
    match (step, answer) {
        (Step::LockTry(_, _), Answer::Flag(false)) => stall.wait(task),
        // Whether its half stood there the task knows: it loads again if not. It only yields, and waits for no delay to
        // end: a finder would then tell, and write, when the delay of the setter is over.
        (Step::PairLoad(_), _) => {
            if run.next() == Some(step) {
                thread::yield_now();
            }
        }
        _ => {}
    }
}
