//! Checks of three tasks that meet on the shared words, each on a thread of its own.

ghost use Rattle.std.specs.Prelude.{◌≡◌, ◌<◌, [], All};
ghost use Rattle.std.specs.Thread.{IsSync};

use crate::same::same;
use crate::words::{Gate, Player, opened, wait};
use access_types::{Access, Kind, Operation, Sites, ticket};
use setup_access::{Checker, Outcome, Rules};
use shared_table::{SharedTable, TaskSeat};
use slot_table::Step;
use std::alloc::Global;
use std::process::Abort;
use std::sync::atomic::Ordering;
use std::thread;
use std::thread::Threads;
use watch_word::Layout;

/// Every access is watched that may be, and a hit is reported also where the value stays.
const RULES: Rules = Rules {
    slots: 64,
    skip: 0,
    randomize: false,
    seed: 1,
    value_change_only: false,
    plain_writes_atomic: false,
    layout: Layout::W64,
    turns: 1_000_000_000,
};

/// The address of the only cell.
const CELL: u64 = 0x10000;

/// How many steps a check has at most.
const STEPS: u32 = 100_000_000;

/// The access of a task: the first reads the cell, and the others write it.
fn access_of<R: Abort>(rt: &R, task: u32) -> Access
    requires { task < 16 }
    ensures { 0 < result.size }
{
    let operation = if task == 0 {
        Operation::Read
    } else {
        Operation::Write
    };
    Access::new(task, 0, CELL, 4, Kind::Plain(operation), None).expect(rt, "an access")
}

/// The accesses of the three tasks.
fn all_accesses<R: Abort>(rt: &R, alloc: Global) -> Sites {
    let mut sites = Sites::new(alloc);
    for task in 0..3 {
        let access = access_of(rt, task);
        if sites.get(ticket(&access)).is_none() {
            sites.add(&access).expect(rt, "memory");
        }
    }
    sites
}

/// A finder holds its try until both have loaded the setter's word.
fn comes_to<R: Abort>(rt: &R, step: Step, gate: &Gate) {
    if let Step::TryConsume(_, _) = step {
        gate.loaded.fetch_add(1, Ordering::SeqCst);
        assert!(rt; wait(&gate.loaded, 2), "the other hasn't loaded it");
    }
}

/// The setter, which has armed and loaded the value, stalls until a finder has told.
fn has_made<R: Abort>(rt: &R, step: Step, gate: &Gate) {
    match step {
        Step::Name(_, _) => {
            gate.armed.fetch_add(1, Ordering::SeqCst);
        }
        Step::CellLoad(_) => assert!(rt; wait(&gate.told, 1), "nobody told"),
        Step::Tell(_, _) => {
            gate.told.fetch_add(1, Ordering::SeqCst);
        }
        _ => {}
    }
}

/// Makes the steps of a check.
fn check<R: Abort>(
    rt: &R,
    player: &mut Player<'_>,
    checker: &mut Checker,
    sites: &Sites,
    gate: &Gate,
)
    ensures { player.new.table.now ≡ player.old.table.now }
{
    'steps: for _ in 0..STEPS {
        let Some(step) = checker.next() else {
            return;
        };
        comes_to(rt, step, gate);
        let answer = player.step(rt, step);
        checker.answer(answer, sites);
        has_made(rt, step, gate);
    }
}

/// Counts what came of a check.
fn count(outcomes: &[Outcome], gate: &Gate) {
    let came = match outcomes {
        [Outcome::Told { .. }] => &gate.through,
        [Outcome::Lost] => &gate.lost,
        [Outcome::Report { .. }] => &gate.heard,
        _ => return,
    };
    came.fetch_add(1, Ordering::SeqCst);
}

/// Checks the access of a task at its seat, a finder once the setter has armed, and hands the seat back.
fn checked<R: Abort>(
    rt: &R,
    alloc: Global,
    table: &SharedTable,
    seat: TaskSeat,
    gate: &Gate,
) -> TaskSeat
    requires here { seat.table ≡ table.now }
    requires begins { seat.records ≡ [] }
    ensures { result.table ≡ table.now }
{
    let task = seat.task();
    assert!(rt; task < 3, "there are three tasks");
    assert!(rt;
        task == 0 || wait(&gate.armed, 1),
        "no watchpoint is set up"
    );
    let sites = all_accesses(rt, alloc);
    let mut checker = Checker::new(alloc, task, &RULES, &[CELL]).expect(rt, "memory");
    checker.begin(&access_of(rt, task));
    let mut player = Player::new(alloc, table, seat);
    check(rt, &mut player, &mut checker, &sites, gate);
    count(checker.outcomes(), gate);
    player.into_seat()
}

/// Checks at all of these seats at once, each on a thread of its own.
fn all_checked<R: Abort + Threads + Sync>(
    rt: &R,
    alloc: Global,
    table: &SharedTable,
    seats: Vec<TaskSeat>,
    gate: &Gate,
) -> Vec<TaskSeat>
    requires { All (λ seat. (seat.table ≡ table.now) × (seat.records ≡ [])) seats.items }
    ensures { All (λ seat. seat.table ≡ table.now) result.items }
{
    let seats = thread::map_vec(
        rt,
        seats,
        &|seat: TaskSeat| -> TaskSeat
            requires { (seat.table ≡ table.now) × (seat.records ≡ []) × IsSync R.row }
            ensures { result.table ≡ table.entry.now }
        { checked(rt, alloc, table, seat, gate) },
    );
    seats.expect(rt, "memory")
}

#[test]
fn two_finders(rt: HostRuntime) {
    let (table, seats) = opened(rt.alloc(), 3, &[0]).expect(&rt, "a table");
    let gate = Gate::new();
    let seats = all_checked(&rt, rt.alloc(), &table, seats, &gate);
    assert!(rt; table.gather(seats).is_some(), "a check is unfinished");
    same(&rt, gate.heard.load(Ordering::SeqCst), 1);
    same(&rt, gate.through.load(Ordering::SeqCst), 1);
    same(&rt, gate.lost.load(Ordering::SeqCst), 1);
}
