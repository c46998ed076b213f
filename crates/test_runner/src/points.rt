//! What a run calls on the way of its tasks, and when.

use crate::runs::{RACE, parsed, settings, wait};
use crate::same::same;
use runner::{Gate, HookPoint, NoStall, Stall, run_once};
use std::sync::atomic::{AtomicU64, Ordering};

/// At which place among the calls of a task each call came last; 0 where it didn't.
#[derive(Drop)]
struct Places {
    calls: AtomicU64,
    begin: AtomicU64,
    armed: AtomicU64,
    stall: AtomicU64,
    taken: AtomicU64,
    end: AtomicU64,
    over: AtomicU64,
}

impl Places {
    fn new() -> Places {
        Places {
            calls: AtomicU64::new(0),
            begin: AtomicU64::new(0),
            armed: AtomicU64::new(0),
            stall: AtomicU64::new(0),
            taken: AtomicU64::new(0),
            end: AtomicU64::new(0),
            over: AtomicU64::new(0),
        }
    }

    /// One more call comes.
    fn comes(&self, place: &AtomicU64) {
        let before = self.calls.fetch_add(1, Ordering::SeqCst);
        place.store(before.wrapping_add(1), Ordering::SeqCst);
    }

    fn passes(&self, point: HookPoint) {
        match point {
            HookPoint::Begin => self.comes(&self.begin),
            HookPoint::Armed => self.comes(&self.armed),
            HookPoint::Taken => self.comes(&self.taken),
            HookPoint::End => self.comes(&self.end),
        }
    }

    /// The places of begin, armed, stall, taken, end and over.
    fn all(&self) -> [u64; 6] {
        [
            self.begin.load(Ordering::SeqCst),
            self.armed.load(Ordering::SeqCst),
            self.stall.load(Ordering::SeqCst),
            self.taken.load(Ordering::SeqCst),
            self.end.load(Ordering::SeqCst),
            self.over.load(Ordering::SeqCst),
        ]
    }
}

/// The reader of a race is held between its watchpoint and its stall until the writer has told, and the writer behind
/// its tell until the reader's access has ended: each could go on only behind that step of the other.
#[derive(Drop)]
struct Crossing {
    reader: Places,
    writer: Places,
    ran_out: AtomicU64,
}

impl Crossing {
    fn new() -> Crossing {
        Crossing {
            reader: Places::new(),
            writer: Places::new(),
            ran_out: AtomicU64::new(0),
        }
    }

    fn of(&self, task: usize) -> &Places {
        if task == 0 {
            &self.reader
        } else {
            &self.writer
        }
    }

    fn hold(&self, place: &AtomicU64) {
        if !wait(place, 1) {
            self.ran_out.fetch_add(1, Ordering::SeqCst);
        }
    }
}

impl Gate for Crossing {
    fn pass(&self, task: usize, point: HookPoint) {
        self.of(task).passes(point);
        match (task, point) {
            (0, HookPoint::Armed) => self.hold(&self.writer.taken),
            (1, HookPoint::Begin) => self.hold(&self.reader.armed),
            (1, HookPoint::Taken) => self.hold(&self.reader.end),
            _ => {}
        }
    }
}

impl Stall for Crossing {
    fn stall(&self, task: usize, _index: usize) {
        let places = self.of(task);
        places.comes(&places.stall);
    }

    fn over(&self, task: usize) {
        let places = self.of(task);
        places.comes(&places.over);
    }
}

/// The reader begins once the writer has come to its begin, which waits for the end of the reader's access; and that
/// end waits for the writer's.
#[derive(Drop)]
struct InTurn {
    crossing: Crossing,
}

impl Gate for InTurn {
    fn pass(&self, task: usize, point: HookPoint) {
        let crossing = &self.crossing;
        crossing.of(task).passes(point);
        match (task, point) {
            (0, HookPoint::Begin) => crossing.hold(&crossing.writer.begin),
            (1, HookPoint::Begin) => crossing.hold(&crossing.reader.end),
            (0, HookPoint::End) => crossing.hold(&crossing.writer.end),
            _ => {}
        }
    }
}

#[test]
fn hooks_come_in_their_order(rt: HostRuntime) {
    let alloc = rt.alloc();
    let program = parsed(&rt, alloc, RACE);
    let strict = settings(alloc, true, 1_000_000_000);
    let crossing = Crossing::new();
    let ran = run_once(&rt, alloc, &program, &strict, &crossing, &crossing).expect(&rt, "a run");
    same(&rt, ran.reports().len(), 1);
    same(&rt, crossing.reader.all(), [1, 2, 3, 0, 4, 5]);
    same(&rt, crossing.writer.all(), [1, 0, 0, 2, 3, 4]);
    same(&rt, crossing.ran_out.load(Ordering::SeqCst), 0);
}

#[test]
fn begins_and_ends_stand_beside_their_steps(rt: HostRuntime) {
    let alloc = rt.alloc();
    let program = parsed(&rt, alloc, RACE);
    let strict = settings(alloc, true, 1_000_000_000);
    let in_turn = InTurn {
        crossing: Crossing::new(),
    };
    let ran = run_once(&rt, alloc, &program, &strict, &NoStall, &in_turn).expect(&rt, "a run");
    let accesses = ran.accesses(alloc).expect(&rt, "memory");
    let [one, other] = accesses.as_slice() else {
        assert!(rt; false, "two accesses");
        return;
    };
    same(
        &rt,
        [one.begin(), one.end(), other.begin(), other.end()],
        [0, 1, 2, 3],
    );
    same(&rt, in_turn.crossing.ran_out.load(Ordering::SeqCst), 0);
}
