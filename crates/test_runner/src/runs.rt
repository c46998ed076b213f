//! Programs on real threads.

ghost use Rattle.std.specs.Prelude.{◌≤◌};
ghost use Rattle.litmus_syntax.specs.Limits.{KeepsLimits};
ghost use Rattle.litmus_syntax.specs.Views.{program_of};

use crate::same::same;
use litmus_parse::{Program, parse};
use litmus_step::{Prepared, Settings};
use run_stats::{Delay, Progress, Times, Written, run_text_often};
use runner::{
    Gate, HookPoint, NoStall, Open, RunError, RunIndex, RunResult, Stall, run_once, run_prepared,
};
use std::alloc::{AllocError, Global};
use std::process::Abort;
use std::sync::Wait;
use std::sync::atomic::{AtomicU64, Ordering};
use std::thread;
use std::thread::Threads;
use watch_word::Layout;

/// Both tasks want the lock.
const LOCKED: &str =
    "C behind\n\n{}\n\nP0(int *x, spinlock_t *l)\n{\n\tspin_lock(l);\n\tWRITE_ONCE(*x, 1);\n\tspin_unlock(l);\n}\n\nP1(int *y, spinlock_t *l)\n{\n\tWRITE_ONCE(*y, 1);\n\tspin_lock(l);\n\tspin_unlock(l);\n}\n\nexists (true)\n";

/// For how many turns a task is held at most.
const HOLD: u32 = 100_000_000;

/// How often the same program is run.
const RUNS: u32 = 10;

pub(crate) const RACE: &str =
    "C race\n\n{}\n\nP0(int *x)\n{\n\tint r0;\n\n\tr0 = *x;\n}\n\nP1(int *x)\n{\n\t*x = 1;\n}\n\nexists (0:r0=1)\n";

const OWN_WRITE_READ: &str =
    "C own\n\n{}\n\nP0(int *x)\n{\n\tint r0;\n\n\tWRITE_ONCE(*x, 7);\n\tr0 = READ_ONCE(*x);\n}\n\nexists (0:r0=7)\n";

const LOCKED_INCREMENTS: &str =
    "C locked\n\n{}\n\nP0(int *x, spinlock_t *l)\n{\n\tspin_lock(l);\n\t(*x)++;\n\tspin_unlock(l);\n}\n\nP1(int *x, spinlock_t *l)\n{\n\tspin_lock(l);\n\t(*x)++;\n\tspin_unlock(l);\n}\n\nexists (x=2)\n";

/// Each of the last two tasks waits for a lock that it has itself.
pub(crate) const TWO_STUCK: &str =
    "C stuck\n\n{}\n\nP0(int *x)\n{\n\tWRITE_ONCE(*x, 1);\n}\n\nP1(spinlock_t *a)\n{\n\tspin_lock(a);\n\tspin_lock(a);\n}\n\nP2(spinlock_t *b)\n{\n\tspin_lock(b);\n\tspin_lock(b);\n}\n\nexists (true)\n";

/// The program that a text spells.
pub(crate) fn parsed<R: Abort>(rt: &R, alloc: Global, text: &str) -> Program
    ensures { KeepsLimits (program_of result) }
{
    parse(alloc, text.as_bytes()).expect(rt, "a program")
}

/// Every access is watched that may be; a strict run reports hits without a change of the value, and holds no plain
/// write for marked.
pub(crate) fn settings(alloc: Global, strict: bool, turns: u64) -> Settings {
    Settings {
        slots: 64,
        skip: 0,
        randomize: false,
        seed: 1,
        value_change_only: !strict,
        plain_writes_atomic: !strict,
        layout: Layout::W64,
        turns,
        places: Vec::new(alloc),
    }
}

/// Sixteen tasks, each of which makes this statement; where it is empty, each reads a variable of its own.
fn sixteen<R: Abort>(rt: &R, alloc: Global, statement: &str) -> String {
    let mut text = String::new(alloc);
    if push_sixteen(&mut text, statement).is_err() {
        assert!(rt; false, "memory");
    }
    text
}

/// Writes sixteen tasks.
fn push_sixteen(text: &mut String, statement: &str) -> Result<(), AllocError> {
    text.push_str("C sixteen\n\n{}\n\n")?;
    for task in 0..16 {
        write!(text, "P{task}(int *x{task}, int *x)\n{{\n\tint r0;\n\n\t")?;
        if statement.is_empty() {
            write!(text, "r0 = *x{task};")?;
        } else {
            text.push_str(statement)?;
        }
        text.push_str("\n}\n\n")?;
    }
    text.push_str("exists (true)\n")
}

/// The first register of a task at the end.
fn register(ran: &RunResult, task: usize) -> Option<u64> {
    if task < ran.tasks() {
        return ran.registers(task).first().copied();
    }
    None
}

/// Waits until this has come about so often, and answers whether it has.
pub(crate) fn wait(count: &AtomicU64, least: u64) -> bool {
    for _ in 0..HOLD {
        if count.load(Ordering::SeqCst) >= least {
            return true;
        }
        thread::yield_now();
    }
    false
}

/// The writer of a race begins once the reader has armed, and the reader's stall holds until the writer has told.
#[derive(Drop)]
pub(crate) struct Meeting {
    armed: AtomicU64,
    told: AtomicU64,
    pub(crate) ran_out: AtomicU64,
}

impl Meeting {
    pub(crate) fn new() -> Meeting {
        Meeting {
            armed: AtomicU64::new(0),
            told: AtomicU64::new(0),
            ran_out: AtomicU64::new(0),
        }
    }

    pub(crate) fn hold(&self, count: &AtomicU64) {
        if !wait(count, 1) {
            self.ran_out.fetch_add(1, Ordering::SeqCst);
        }
    }
}

impl Gate for Meeting {
    fn pass(&self, task: usize, point: HookPoint) {
        match (task, point) {
            (0, HookPoint::Armed) => {
                self.armed.fetch_add(1, Ordering::SeqCst);
            }
            (1, HookPoint::Begin) => self.hold(&self.armed),
            (1, HookPoint::Taken) => {
                self.told.fetch_add(1, Ordering::SeqCst);
            }
            _ => {}
        }
    }
}

impl Stall for Meeting {
    fn stall(&self, task: usize, _index: usize) {
        if task == 0 {
            self.hold(&self.told);
        }
    }
}

/// The second task begins once the first makes no step more.
#[derive(Drop)]
struct Behind {
    over: AtomicU64,
    ran_out: AtomicU64,
}

impl Gate for Behind {
    fn pass(&self, task: usize, point: HookPoint) {
        if (task, point) == (1, HookPoint::Begin) && !wait(&self.over, 1) {
            self.ran_out.fetch_add(1, Ordering::SeqCst);
        }
    }
}

impl Stall for Behind {
    fn stall(&self, _task: usize, _index: usize) {}

    fn over(&self, task: usize) {
        if task == 0 {
            self.over.store(1, Ordering::SeqCst);
        }
    }
}

/// Each task begins once all sixteen are there.
#[derive(Drop)]
struct Start {
    there: AtomicU64,
    ran_out: AtomicU64,
}

impl Gate for Start {
    fn pass(&self, _task: usize, point: HookPoint) {
        if point == HookPoint::Begin {
            self.there.fetch_add(1, Ordering::SeqCst);
            if !wait(&self.there, 16) {
                self.ran_out.fetch_add(1, Ordering::SeqCst);
            }
        }
    }
}

/// Nobody is told how far runs have come.
pub(crate) struct Unseen;

impl Progress for Unseen {
    fn ran(&self, _runs: u64, _of: u64) {}

    fn over(&self) {}
}

/// A thousand runs at the default delay.
pub(crate) const THOUSAND: Times = Times {
    runs: 1000,
    delay: 64,
    jobs: 1,
    stop_at_first: false,
    keep_going: false,
    unknown_origin: true,
};

/// A stall that is over at once, and counts how often it came.
#[derive(Drop)]
struct Counted {
    stalls: AtomicU64,
}

impl Stall for Counted {
    fn stall(&self, _task: usize, _index: usize) {
        self.stalls.fetch_add(1, Ordering::SeqCst);
    }
}

#[test]
fn stall_holds_until_told(rt: HostRuntime) {
    let alloc = rt.alloc();
    let program = parsed(&rt, alloc, RACE);
    let meeting = Meeting::new();
    let strict = settings(alloc, true, 1_000_000_000);
    let ran = run_once(&rt, alloc, &program, &strict, &meeting, &meeting).expect(&rt, "a run");
    let counters = ran.counters();
    same(
        &rt,
        (counters.arms, counters.taken, counters.two_sided),
        (1, 1, 1),
    );
    same(&rt, ran.reports().len(), 1);
    same(&rt, meeting.ran_out.load(Ordering::SeqCst), 0);
}

#[test]
fn all_begin(rt: HostRuntime) {
    let alloc = rt.alloc();
    let text = sixteen(&rt, alloc, "r0 = READ_ONCE(*x);");
    let program = parsed(&rt, alloc, text.as_str());
    let start = Start {
        there: AtomicU64::new(0),
        ran_out: AtomicU64::new(0),
    };
    let settings = settings(alloc, false, 1_000_000_000);
    let ran = run_once(&rt, alloc, &program, &settings, &NoStall, &start).expect(&rt, "a run");
    same(&rt, ran.tasks(), 16);
    same(&rt, start.there.load(Ordering::SeqCst), 16);
    same(&rt, start.ran_out.load(Ordering::SeqCst), 0);
}

#[test]
fn own_write_read(rt: HostRuntime) {
    let alloc = rt.alloc();
    let program = parsed(&rt, alloc, OWN_WRITE_READ);
    let settings = settings(alloc, false, 1000);
    for _ in 0..RUNS {
        let ran = run_once(&rt, alloc, &program, &settings, &NoStall, &Open).expect(&rt, "a run");
        same(&rt, register(&ran, 0), Some(7));
        same(&rt, ran.counters().arms, 0);
    }
}

#[test]
fn locked_increments(rt: HostRuntime) {
    let alloc = rt.alloc();
    let program = parsed(&rt, alloc, LOCKED_INCREMENTS);
    let settings = settings(alloc, false, 1_000_000_000);
    for _ in 0..RUNS {
        let ran = run_once(&rt, alloc, &program, &settings, &NoStall, &Open).expect(&rt, "a run");
        same(&rt, ran.memory().first().copied(), Some(2));
        let counters = ran.counters();
        same(&rt, (counters.arms, counters.quiet), (2, 2));
    }
}

#[test]
fn full_slots_sixteen(rt: HostRuntime) {
    let alloc = rt.alloc();
    let text = sixteen(&rt, alloc, "");
    let program = parsed(&rt, alloc, text.as_str());
    let settings = settings(alloc, false, 1_000_000_000);
    for _ in 0..RUNS {
        let ran = run_once(&rt, alloc, &program, &settings, &NoStall, &Open).expect(&rt, "a run");
        let counters = ran.counters();
        same(&rt, counters.arms, counters.quiet);
        same(&rt, counters.arms.saturating_add(counters.capacity), 16);
        same(&rt, ran.accesses(alloc).expect(&rt, "memory").len(), 16);
        assert!(rt; ran.reports().is_empty());
    }
}

#[test]
fn the_smallest_stuck_task_is_named(rt: HostRuntime) {
    let alloc = rt.alloc();
    let program = parsed(&rt, alloc, TWO_STUCK);
    let settings = settings(alloc, false, 3);
    for _ in 0..RUNS {
        let refused = run_once(&rt, alloc, &program, &settings, &NoStall, &Open).err();
        same(&rt, refused, Some(RunError::Stuck { task: 1 }));
    }
}

/// A task of this program gets stuck where the lock isn't free at its first try. In these runs it is.
#[test]
fn no_task_is_stuck_without_a_failed_try(rt: HostRuntime) {
    let alloc = rt.alloc();
    let program = parsed(&rt, alloc, LOCKED);
    let settings = settings(alloc, false, 1);
    for _ in 0..RUNS {
        let behind = Behind {
            over: AtomicU64::new(0),
            ran_out: AtomicU64::new(0),
        };
        let ran = run_once(&rt, alloc, &program, &settings, &behind, &behind).expect(&rt, "a run");
        same(&rt, ran.tasks(), 2);
        same(&rt, behind.ran_out.load(Ordering::SeqCst), 0);
    }
}

#[test]
fn each_arming_stalls_once(rt: HostRuntime) {
    let alloc = rt.alloc();
    let program = parsed(&rt, alloc, LOCKED_INCREMENTS);
    let settings = settings(alloc, false, 1_000_000_000);
    let counted = Counted {
        stalls: AtomicU64::new(0),
    };
    let ran = run_once(&rt, alloc, &program, &settings, &counted, &Open).expect(&rt, "a run");
    same(&rt, ran.counters().arms, 2);
    same(&rt, counted.stalls.load(Ordering::SeqCst), 2);
}

#[test]
fn a_delay_counts_its_turns(rt: HostRuntime) {
    let delay = Delay::new(64, 2, 1);
    delay.pass(1, HookPoint::End);
    delay.pass(0, HookPoint::Begin);
    delay.pass(1, HookPoint::Begin);
    delay.stall(0, 0);
    same(&rt, delay.turns(), 64);
    delay.over(1);
    delay.stall(0, 0);
    same(&rt, delay.turns(), 64);
    let none = Delay::new(0, 2, 0);
    none.stall(0, 0);
    same(&rt, none.turns(), 0);
    let alone = Delay::new(64, 2, 0);
    alone.stall(0, 0);
    same(&rt, alone.turns(), 64);
}

#[test]
fn any_task_may_start_first(rt: HostRuntime) {
    let alloc = rt.alloc();
    let text = sixteen(
        &rt,
        alloc,
        "r0 = READ_ONCE(*x); WRITE_ONCE(*x, 7); r0 = READ_ONCE(*x);",
    );
    let program = parsed(&rt, alloc, text.as_str());
    let settings = settings(alloc, false, 1_000_000_000);
    let prepared = Prepared::new(alloc, &program, &settings).expect(&rt, "a program that can run");
    for first in 0..18 {
        let turn = RunIndex { number: 5, first };
        let ran = run_prepared(
            &rt, alloc, &program, &settings, &prepared, turn, &NoStall, &Open,
        )
        .expect(&rt, "a run");
        for task in 0..16 {
            same(&rt, register(&ran, task), Some(7));
        }
        same(&rt, ran.accesses(alloc).expect(&rt, "memory").len(), 48);
        same(&rt, ran.number(), 5);
    }
}

/// The program of a text, so often run.
pub(crate) fn ran_often<R: Threads + Wait + Sync + Abort>(
    rt: &R,
    alloc: Global,
    text: &str,
    turns: u64,
    times: Times,
) -> Written
    requires { 1 ≤ times.jobs }
{
    let settings = settings(alloc, false, turns);
    run_text_often(rt, alloc, text.as_bytes(), &settings, times, true, &Unseen).expect(rt, "runs")
}

/// Whether a text has another one in it.
pub(crate) fn has(text: &[u8], part: &str) -> bool {
    match str::from_utf8(text) {
        Ok(text) => text.contains(part),
        Err(_) => false,
    }
}

#[test]
fn the_race_is_found(rt: HostRuntime) {
    let found = ran_often(&rt, rt.alloc(), RACE, 1_000_000, THOUSAND);
    assert!(rt; found.raced);
    assert!(rt; has(found.output.as_slice(), " of 1000 runs\n"));
    let times = Times {
        jobs: 4,
        ..THOUSAND
    };
    let apart = ran_often(&rt, rt.alloc(), RACE, 1_000_000, times);
    assert!(rt; apart.raced);
    assert!(rt; has(apart.output.as_slice(), " of 1000 runs\n"));
}

#[test]
fn the_first_race_is_the_last_run(rt: HostRuntime) {
    for jobs in [1, 3] {
        let times = Times {
            jobs,
            stop_at_first: true,
            ..THOUSAND
        };
        let found = ran_often(&rt, rt.alloc(), RACE, 1_000_000, times);
        assert!(rt; found.raced);
        assert!(rt; has(found.output.as_slice(), " two-sided 1 "));
        let trace = found.trace.unwrap_or(Vec::new(rt.alloc()));
        assert!(rt; has(trace.as_slice(), "\nrace "));
    }
}
