//! Many runs, of which each is made once.

use crate::runs::{
    Meeting, RACE, THOUSAND, TWO_STUCK, Unseen, has, parsed, ran_often, settings, wait,
};
use crate::same::same;
use litmus_step::Prepared;
use run_stats::{Hooks, Progress, Times, run_text_with};
use runner::{Gate, HookPoint, NoStall, Open, RunError, RunIndex, Stall, run_batch};
use std::sync::atomic::{AtomicU64, Ordering};
use trace_replay::{Accepted, replay};

/// One plain read, which is watched, beside 200 marked reads of something else, which aren't.
const BESIDE: &str =
    "C beside\n\n{}\n\nP0(int *x)\n{\n\tint r0;\n\n\tr0 = *x;\n}\n\nP1(int *y)\n{\n\tint r0;\n\tint i;\n\n\tfor (i = 0; i < 200; i++) {\n\t\tr0 = READ_ONCE(*y);\n\t}\n}\n\nexists (true)\n";

/// The trace of a run in which the race is found.
const ONE_RACE: Accepted = Accepted::Second {
    accesses: 2,
    arms: 1,
    takes: 1,
    reports: 1,
};

/// What is counted over all runs that are asked for.
#[derive(Drop)]
struct Counts {
    runs: AtomicU64,
    reader_begins: AtomicU64,
    writer_begins: AtomicU64,
    /// The delays that were asked for, added up.
    loads: AtomicU64,
    ran_out: AtomicU64,
    /// Of how many runs it was told after each that they are over, added up in hundreds, and of how many in all, in
    /// ones; and that there are no more, in ten thousands.
    told: AtomicU64,
}

/// Each run has a meeting of its own, and all are counted. Behind the first so many nobody is held any more.
#[derive(Drop)]
struct Meetings<'a> {
    most: u64,
    counts: &'a Counts,
}

/// The meeting of one run, and what is counted over all. The reader is held until the writer's access has ended, so
/// that it sees the value change in each run.
#[derive(Drop)]
struct CountedMeeting<'a> {
    holds: bool,
    meeting: Meeting,
    written: AtomicU64,
    counts: &'a Counts,
}

impl Counts {
    fn new() -> Counts {
        Counts {
            runs: AtomicU64::new(0),
            reader_begins: AtomicU64::new(0),
            writer_begins: AtomicU64::new(0),
            loads: AtomicU64::new(0),
            ran_out: AtomicU64::new(0),
            told: AtomicU64::new(0),
        }
    }
}

impl Progress for Counts {
    fn ran(&self, runs: u64, of: u64) {
        let told = runs.saturating_mul(100).saturating_add(of);
        self.told.fetch_add(told, Ordering::SeqCst);
    }

    fn over(&self) {
        self.told.fetch_add(10_000, Ordering::SeqCst);
    }
}

impl<'a> Hooks for Meetings<'a> {
    type OfRun = CountedMeeting<'a>;

    ghost asks = { λ run loads. Unit {0} };

    fn of_run(&self, loads: u64, _tasks: u64, _first: usize) -> CountedMeeting<'a> {
        self.counts.loads.fetch_add(loads, Ordering::SeqCst);
        CountedMeeting {
            holds: self.counts.runs.fetch_add(1, Ordering::SeqCst) < self.most,
            meeting: Meeting::new(),
            written: AtomicU64::new(0),
            counts: self.counts,
        }
    }
}

impl<'a> Gate for CountedMeeting<'a> {
    fn pass(&self, task: usize, point: HookPoint) {
        if point == HookPoint::Begin {
            let begins = if task == 0 {
                &self.counts.reader_begins
            } else {
                &self.counts.writer_begins
            };
            begins.fetch_add(1, Ordering::SeqCst);
        }
        if self.holds {
            self.meeting.pass(task, point);
        }
        if (task, point) == (1, HookPoint::End) {
            self.written.store(1, Ordering::SeqCst);
        }
    }
}

impl<'a> Stall for CountedMeeting<'a> {
    fn stall(&self, task: usize, index: usize) {
        if self.holds {
            self.meeting.stall(task, index);
            self.meeting.hold(&self.written);
        }
    }

    fn over(&self, _task: usize) {
        let ran_out = self.meeting.ran_out.swap(0, Ordering::SeqCst);
        self.counts.ran_out.fetch_add(ran_out, Ordering::SeqCst);
    }
}

/// Of the second of three runs the writer begins only once the reader has begun in the third.
#[derive(Drop)]
struct ReaderAhead<'a> {
    counts: &'a Counts,
}

/// What one of these runs calls.
#[derive(Drop)]
struct RunOf<'a> {
    number: u64,
    counts: &'a Counts,
}

impl<'a> Hooks for ReaderAhead<'a> {
    type OfRun = RunOf<'a>;

    ghost asks = { λ run loads. Unit {0} };

    fn of_run(&self, _loads: u64, _tasks: u64, _first: usize) -> RunOf<'a> {
        RunOf {
            number: self.counts.runs.fetch_add(1, Ordering::SeqCst),
            counts: self.counts,
        }
    }
}

impl<'a> Gate for RunOf<'a> {
    fn pass(&self, task: usize, point: HookPoint) {
        if (task, point) == (0, HookPoint::Begin) {
            self.counts.reader_begins.fetch_add(1, Ordering::SeqCst);
        }
        if (task, point, self.number) == (1, HookPoint::Begin, 1)
            && !wait(&self.counts.reader_begins, 3)
        {
            self.counts.ran_out.fetch_add(1, Ordering::SeqCst);
        }
    }
}

impl<'a> Stall for RunOf<'a> {
    fn stall(&self, _task: usize, _index: usize) {}
}

/// Runs whose reports are thrown away, or one that is counted for many, would begin more accesses or fewer.
#[test]
fn each_run_that_is_asked_for_is_made_once(rt: HostRuntime) {
    let alloc = rt.alloc();
    let strict = settings(alloc, true, 1_000_000_000);
    for jobs in [1, 3] {
        let counts = Counts::new();
        let hooks = Meetings {
            most: 3,
            counts: &counts,
        };
        let times = Times {
            runs: 3,
            delay: 9,
            jobs,
            ..THOUSAND
        };
        let left = run_text_with(
            &rt,
            alloc,
            RACE.as_bytes(),
            &strict,
            times,
            true,
            &counts,
            &hooks,
        )
        .expect(&rt, "runs");
        assert!(rt; left.raced);
        assert!(rt; has(left.output.as_slice(), "\nseen 3 times\n"));
        assert!(rt; has(left.output.as_slice(), " two-sided 3 "));
        let trace = left.trace.unwrap_or(Vec::new(alloc));
        same(
            &rt,
            replay(alloc, trace.as_slice()).expect(&rt, "a trace"),
            ONE_RACE,
        );
        same(&rt, counts.runs.load(Ordering::SeqCst), 3);
        same(&rt, counts.reader_begins.load(Ordering::SeqCst), 3);
        same(&rt, counts.writer_begins.load(Ordering::SeqCst), 3);
        same(&rt, counts.loads.load(Ordering::SeqCst), 27);
        same(&rt, counts.ran_out.load(Ordering::SeqCst), 0);
        same(&rt, counts.told.load(Ordering::SeqCst), 10_609);
    }
}

/// One run that is counted as stuck for many would begin fewer accesses.
#[test]
fn each_stuck_run_is_made_once(rt: HostRuntime) {
    let alloc = rt.alloc();
    let settings = settings(alloc, false, 3);
    let counts = Counts::new();
    let hooks = Meetings {
        most: 0,
        counts: &counts,
    };
    let times = Times {
        runs: 3,
        keep_going: true,
        ..THOUSAND
    };
    let left = run_text_with(
        &rt,
        alloc,
        TWO_STUCK.as_bytes(),
        &settings,
        times,
        false,
        &Unseen,
        &hooks,
    )
    .expect(&rt, "runs");
    assert!(rt; has(left.output.as_slice(), "\nstuck in 3 of 3 runs\n"));
    same(&rt, counts.runs.load(Ordering::SeqCst), 3);
    same(&rt, counts.reader_begins.load(Ordering::SeqCst), 3);
}

/// Of three runs the last two are one batch: a thread goes on with the next run while another is held in this one. With
/// threads of its own for each run it couldn't.
#[test]
fn the_runs_of_a_batch_have_the_same_threads(rt: HostRuntime) {
    let alloc = rt.alloc();
    let settings = settings(alloc, false, 1_000_000);
    let counts = Counts::new();
    let hooks = ReaderAhead { counts: &counts };
    let times = Times {
        runs: 3,
        ..THOUSAND
    };
    let text = RACE.as_bytes();
    let left = run_text_with(&rt, alloc, text, &settings, times, false, &Unseen, &hooks).expect(
        &rt, "runs",
    );
    assert!(rt; has(left.output.as_slice(), " of 3 runs\n"));
    same(&rt, counts.reader_begins.load(Ordering::SeqCst), 3);
    same(&rt, counts.ran_out.load(Ordering::SeqCst), 0);
}

/// The access of the first task is watched until the second, of 200 accesses, makes no step more: so its end draws the
/// last stamp.
#[test]
fn a_long_delay_lasts_until_nobody_can_come(rt: HostRuntime) {
    let alloc = rt.alloc();
    let times = Times {
        runs: 1,
        delay: 1_000_000_000,
        ..THOUSAND
    };
    for _ in 0..10 {
        let left = ran_often(&rt, alloc, BESIDE, 1_000_000, times);
        let trace = left.trace.unwrap_or(Vec::new(alloc));
        assert!(rt; has(trace.as_slice(), " 401\naccess 1 0 "));
    }
}

/// The turn of a number in which a task starts first.
fn turn(number: u64, first: usize) -> RunIndex {
    RunIndex { number, first }
}

/// Each run of a batch has words, a gate and a stall of its own: in each the race is found once.
#[test]
fn a_batch_makes_each_of_its_runs(rt: HostRuntime) {
    let alloc = rt.alloc();
    let program = parsed(&rt, alloc, RACE);
    let strict = settings(alloc, true, 1_000_000_000);
    let prepared = Prepared::new(alloc, &program, &strict).expect(&rt, "a program that can run");
    let turns = [turn(7, 1), turn(8, 0), turn(9, 1)];
    let meetings = [Meeting::new(), Meeting::new(), Meeting::new()];
    let all = run_batch(
        &rt, alloc, &program, &strict, &prepared, &turns, &meetings, &meetings,
    )
    .expect(&rt, "a batch");
    same(&rt, all.len(), 3);
    let mut number = 7;
    for ran in all {
        let ran = ran.expect(&rt, "a run");
        same(&rt, ran.number(), number);
        same(&rt, ran.reports().len(), 1);
        same(&rt, ran.counters().two_sided, 1);
        number = number.saturating_add(1);
    }
    for meeting in &meetings {
        same(&rt, meeting.ran_out.load(Ordering::SeqCst), 0);
    }
}

/// A stuck run is one of its own: the threads go on with the next.
#[test]
fn a_batch_goes_on_behind_a_stuck_run(rt: HostRuntime) {
    let alloc = rt.alloc();
    let program = parsed(&rt, alloc, TWO_STUCK);
    let settings = settings(alloc, false, 3);
    let prepared = Prepared::new(alloc, &program, &settings).expect(&rt, "a program that can run");
    let turns = [turn(0, 0), turn(1, 2)];
    let stalls = [NoStall, NoStall];
    let gates = [Open, Open];
    let all = run_batch(
        &rt, alloc, &program, &settings, &prepared, &turns, &stalls, &gates,
    )
    .expect(&rt, "a batch");
    same(&rt, all.len(), 2);
    for ran in all {
        same(&rt, ran.err(), Some(RunError::Stuck { task: 1 }));
    }
}

/// Runs in batches of many sizes, without a delay and with one: all are counted, and with a delay some find the race.
#[test]
fn batches_are_as_many_runs_as_are_asked_for(rt: HostRuntime) {
    for (delay, jobs) in [(64, 1), (0, 1), (64, 3), (0, 3)] {
        let times = Times {
            runs: 200,
            delay,
            jobs,
            ..THOUSAND
        };
        let left = ran_often(&rt, rt.alloc(), RACE, 1_000_000, times);
        assert!(rt; has(left.output.as_slice(), " of 200 runs\n"));
        assert!(rt; left.raced || delay == 0);
    }
}
