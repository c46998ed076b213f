//! How long a task waits at a watchpoint that it has set up.

ghost use Rattle.std.specs.Prelude.{◌≡◌};

use crate::turns::{soon, turns_until};
use crossbeam_utils::atomic::AtomicCell;
use runner::{Gate, HookPoint, Stall};
use std::thread;

/// After so many turns nobody waits any more for a task that hasn't come: its thread may not have started. The number
/// is a choice: threads were seen to take some ten times 64 turns to start. With fewer a run would go on without a slow
/// thread, and with more it would wait longer for one that never starts.
const PATIENCE: u64 = 100_000;

/// The delay of one run: at most so many turns, in each of which a word is loaded, again and again up to 64 times, and
/// then other threads may run. Without that it is over before another task, which may have no processor yet, comes to
/// the watchpoint. The turns count from when each task has come to its first access: a thread may take longer to start
/// than all of them. It ends early once no other task can come: each delays too, waits for a lock, or makes no step
/// more.
///
/// Also it has the others wait with their first access until the task that starts first has set up a watchpoint or
/// ended an access: a thread that starts later may be sooner there.
///
/// Of no turns, each task only waits with its first access until all have come: of runs that are made by the same
/// threads one thread would otherwise be through with all of them before another has started.
#[derive(Drop)]
pub struct Delay {
    most: u64,
    tasks: u64,
    first: usize,
    /// A bit for each task that has come.
    here: AtomicCell<u64>,
    /// 1 once the others may make their first accesses.
    open: AtomicCell<u64>,
    /// How many tasks delay.
    delaying: AtomicCell<u64>,
    /// How many tasks delay, wait for a lock, or make no step more.
    away: AtomicCell<u64>,
    /// How many turns tasks have delayed.
    turns: AtomicCell<u64>,
}

impl Delay {
    /// That of at most so many turns, in a run of so many tasks of which this one starts first.
    pub fn new(most: u64, tasks: u64, first: usize) -> Delay
        ensures most { result.most ≡ most }
        ensures tasks { result.tasks ≡ tasks }
    {
        Delay {
            most,
            tasks,
            first,
            here: AtomicCell::new(0),
            open: AtomicCell::new(0),
            delaying: AtomicCell::new(0),
            away: AtomicCell::new(0),
            turns: AtomicCell::new(0),
        }
    }

    /// How many turns all tasks together have delayed so far, each with a yield at its end.
    pub fn turns(&self) -> u64 {
        self.turns.load()
    }

    /// A task has come.
    fn comes(&self, task: usize) {
        let bit = 1u64.wrapping_shl((task % 64) as u32);
        if self.here.load() & bit == 0 {
            self.here.fetch_or(bit);
        }
    }

    /// Where it is the task that starts first, the others may make their first accesses.
    fn opens(&self, task: usize) {
        if task == self.first && self.open.load() == 0 {
            self.open.store(1);
        }
    }

    /// A task other than the one that starts first waits for it.
    fn awaits_first(&self, task: usize) {
        if task == self.first {
            return;
        }
        if turns_until(PATIENCE, || soon(|| self.open.load() == 1)) < PATIENCE {
            return;
        }
        // It opens for all and for good: whoever starts first may never come, and is so waited for once a run.
        self.open.store(1);
    }

    /// Whether all tasks have come.
    fn has_all(&self) -> bool {
        self.here.load().count_ones() as u64 >= self.tasks
    }

    /// Waits until all tasks have come. Where one doesn't, nobody waits for it again.
    fn awaits_all(&self) {
        if turns_until(PATIENCE, || soon(|| self.has_all())) < PATIENCE {
            return;
        }
        self.here.store(u64::MAX);
    }

    /// A task has come, and waits until all have.
    fn meets(&self, task: usize) {
        if self.has_all() {
            return;
        }
        self.comes(task);
        self.awaits_all();
    }
}

impl Stall for Delay {
    fn stall(&self, task: usize, _index: usize) {
        // Without a delay no watch waits: a conflicting access comes in it only as the machine has it.
        if self.most == 0 {
            return;
        }
        self.opens(task);
        self.awaits_all();
        self.delaying.fetch_add(1);
        self.away.fetch_add(1);
        let turns = turns_until(self.most, || soon(|| self.away.load() >= self.tasks));
        self.turns.fetch_add(turns);
        self.away.fetch_sub(1);
        self.delaying.fetch_sub(1);
    }

    /// A task that waits for a lock may wait for the delays of many others, each of which would use up as many of its
    /// tries as it has turns: so it tries again only once nobody delays, or after as many turns.
    fn wait(&self, task: usize) {
        // Whoever waits for a lock can't come to an access before it is free, and its holder may be waiting for this
        // task: so it counts as come, and holds nobody back. The holder may also wait for a task whose thread hasn't
        // started yet: to try again before that has come would use up failed tries.
        self.opens(task);
        self.meets(task);
        self.away.fetch_add(1);
        for _ in 0..self.most.max(1) {
            thread::yield_now();
            if self.delaying.load() == 0 {
                break;
            }
        }
        self.away.fetch_sub(1);
    }

    fn over(&self, task: usize) {
        self.comes(task);
        self.opens(task);
        self.away.fetch_add(1);
    }
}

impl Gate for Delay {
    fn pass(&self, task: usize, point: HookPoint) {
        match point {
            HookPoint::Begin if self.most == 0 => self.meets(task),
            HookPoint::Begin => {
                self.comes(task);
                self.awaits_first(task);
            }
            // Its access may have set up no watchpoint, as a marked or skipped one: the others are not held for that.
            HookPoint::End => self.opens(task),
            HookPoint::Armed | HookPoint::Taken => {}
        }
    }
}
