//! Which task starts first in which run.

ghost use Rattle.std.specs.Prelude.{◌<◌};

use access_types::{Access, Kind, Operation, SITES, Sites, TASKS, law_limits_are_numbers, ticket};
use task_context::Context;

/// The tasks of a program that may set up a watchpoint. Who starts first is often over before the last begins, so one
/// that sets up none would be over before there is any: those that may start first in turn, from run to run.
#[derive(Clone, Copy)]
pub(crate) struct Starters {
    /// A bit for each.
    tasks: u64,
}

/// The first access of a task at a site, if the program has one there.
fn access_at(sites: &Sites, task: u32, site: u32) -> Option<&Access>
    requires task { task < 16 }
    requires site { site < 256 }
{
    match Access::new(task, site, 0, 1, Kind::Plain(Operation::Read), None) {
        Ok(named) => sites.get(ticket(&named)),
        Err(_) => None,
    }
}

/// Whether a task may set up a watchpoint: some access of it doesn't count as marked where no region is atomic.
fn may_watch(sites: &Sites, task: u32, plain_writes_atomic: bool) -> bool
    requires { task < 16 }
{
    law_limits_are_numbers();
    for site in 0..SITES {
        if let Some(access) = access_at(sites, task, site) {
            // In which regions an access runs is known only in a run. Within one more count as marked, so this names
            // rather a task too many than one too few.
            if !Context::new().counts_as_marked(access, plain_writes_atomic) {
                return true;
            }
        }
    }
    false
}

impl Starters {
    /// Those of a program with these accesses.
    pub(crate) fn new(sites: &Sites, plain_writes_atomic: bool) -> Starters {
        law_limits_are_numbers();
        let mut tasks = 0;
        for task in 0..TASKS {
            if may_watch(sites, task, plain_writes_atomic) {
                tasks |= 1u64.wrapping_shl(task);
            }
        }
        Starters { tasks }
    }

    fn has(self, task: u64) -> bool {
        self.tasks.wrapping_shr((task % 64) as u32) % 2 == 1
    }

    /// The task that starts first in the run of a number, of so many tasks: from the one whose turn it is on the next
    /// that may set up a watchpoint, or itself where none may.
    pub(crate) fn first(self, number: u64, tasks: u64) -> usize {
        let turn = number.checked_rem(tasks).unwrap_or(0);
        for task in (turn..tasks).chain(0..turn) {
            if self.has(task) {
                return task as usize;
            }
        }
        turn as usize
    }
}
