//! Threads on the shared words. Each step is tested against the discipline before it is made.

ghost use Rattle.std.specs.Prelude.{◌≡◌, ◌≤◌, [], All, IfOk, reverse};
ghost use Rattle.std.specs.Thread.{IsSync};
ghost use Rattle.slot_table.specs.Answer.{Answers};
ghost use Rattle.slot_table.specs.Records.{records_of};

use crate::same::{same, same_at};
use shared_table::{Gathered, SharedBoard, SharedTable, TaskSeat};
use slot_table::discipline::allows;
use slot_table::{Answer, Board, BoardError, Record, Shape, Step};
use std::alloc::Global;
use std::process::Abort;
use std::sync::atomic::{AtomicU64, Ordering};
use std::test::Fail;
use std::thread;
use std::thread::Threads;

/// The watch word of a plain read of 4 bytes at 0x10000.
const READ: u64 = 0x0008_0000_0001_0000;

/// For how many turns a thread waits for another at most.
const TURNS: u32 = 100_000_000;

/// How many checks a task makes that checks often.
const CHECKS: u32 = 1000;

/// The index of all watchpoints here.
const INDEX: usize = 17;

/// What the tasks do at their seats.
#[derive(Clone, Copy)]
enum Game {
    /// Each checks often.
    Checks,
    /// The first is watched, and stops there until the other has checked often.
    Paused,
    /// Each adds 1 to the first cell 100 times, and each time stamps a cell of its own.
    Increments,
    /// One stops between insert and remove.
    StopsBeforeRemove,
    /// The first is watched, and the others stop between taking and tell.
    StopsBeforeTell,
}

/// How often something has come about, for those who wait for it.
#[derive(Drop)]
pub(crate) struct Gate {
    pub(crate) armed: AtomicU64,
    /// An insert met another watchpoint.
    full: AtomicU64,
    /// A watchpoint was removed that nobody had taken.
    quiet: AtomicU64,
    pub(crate) loaded: AtomicU64,
    pub(crate) told: AtomicU64,
    pub(crate) heard: AtomicU64,
    pub(crate) lost: AtomicU64,
    pub(crate) through: AtomicU64,
}

impl Gate {
    pub(crate) fn new() -> Gate {
        Gate {
            armed: AtomicU64::new(0),
            full: AtomicU64::new(0),
            quiet: AtomicU64::new(0),
            loaded: AtomicU64::new(0),
            told: AtomicU64::new(0),
            heard: AtomicU64::new(0),
            lost: AtomicU64::new(0),
            through: AtomicU64::new(0),
        }
    }

    /// How many inserts succeeded and met another watchpoint, how many watchpoints were quiet and taken, and how many
    /// tries succeeded and came too late.
    fn checks(&self) -> [u64; 6] {
        [
            self.armed.load(Ordering::SeqCst),
            self.full.load(Ordering::SeqCst),
            self.quiet.load(Ordering::SeqCst),
            self.heard.load(Ordering::SeqCst),
            self.told.load(Ordering::SeqCst),
            self.lost.load(Ordering::SeqCst),
        ]
    }
}

/// Waits until this has come about so often, and answers whether it has.
pub(crate) fn wait(count: &AtomicU64, least: u64) -> bool {
    for _ in 0..TURNS {
        if count.load(Ordering::SeqCst) >= least {
            return true;
        }
        thread::yield_now();
    }
    false
}

/// A task before the shared words, with all that it has done.
#[derive(Drop)]
pub(crate) struct Player<'a> {
    pub(crate) table: &'a SharedTable,
    board: SharedBoard<'a>,
    task: u32,
    made: Vec<Record>,
    ghost here: { board.table ≡ table.now },
    ghost whose: { task ≡ board.task },
    ghost all: { records_of task (reverse made.items) ≡ board.records },
}

impl<'a> Player<'a> {
    /// A task at its seat, which has made no step.
    pub(crate) fn new(alloc: Global, table: &'a SharedTable, seat: TaskSeat) -> Player<'a>
        requires here { seat.table ≡ table.now }
        requires begins { seat.records ≡ [] }
        ensures { result.table.now ≡ table.entry.now }
    {
        let task = seat.task();
        Player {
            table,
            board: table.board(seat),
            task,
            made: Vec::new(alloc),
        }
    }

    /// Makes a step that it may make.
    pub(crate) fn step<R: Abort>(&mut self, rt: &R, step: Step) -> Answer
        ensures kind { Answers step result }
        ensures table { self.new.table.now ≡ self.old.table.now }
    {
        assert!(rt; self.table.has(step), "it names no word of the table");
        assert!(rt;
            allows(&self.made, self.task, step),
            "the discipline forbids it"
        );
        self.made.reserve(1).expect(rt, "memory");
        let answer = self.board.step(step);
        self.made.push_reserved(Record {
            task: self.task,
            step,
            answer,
        });
        answer
    }

    /// Its seat, with all that it has done.
    pub(crate) fn into_seat(self) -> TaskSeat
        ensures { result.table ≡ self.entry.table.now }
    {
        self.board.into_seat()
    }

    /// The ticket of its first access.
    fn ticket(&self) -> u32 {
        self.task % 16 * 65536 + 1
    }

    /// Waits for the other half of the pair word.
    fn hear<R: Abort>(&mut self, rt: &R, of_setter: bool)
        ensures { self.new.table.now ≡ self.old.table.now }
    {
        'turns: for _ in 0..TURNS {
            if let Answer::Halves(setter, finder) = self.step(rt, Step::PairLoad(INDEX)) {
                let half = if of_setter { setter } else { finder };
                if half > 0 {
                    return;
                }
            }
            thread::yield_now();
        }
    }

    /// Tells the setter whose watchpoint it has taken.
    fn tell<R: Abort>(&mut self, rt: &R)
        ensures { self.new.table.now ≡ self.old.table.now }
    {
        self.hear(rt, true);
        let ticket = self.ticket();
        self.step(rt, Step::Tell(INDEX, ticket));
    }

    /// Sets up a watchpoint, if there is none, and answers whether it did.
    fn is_watched<R: Abort>(&mut self, rt: &R) -> bool
        ensures { self.new.table.now ≡ self.old.table.now }
    {
        if self.step(rt, Step::Insert(INDEX, READ)) != Answer::Flag(true) {
            return false;
        }
        let ticket = self.ticket();
        self.step(rt, Step::Name(INDEX, ticket));
        true
    }

    /// Ends the watch, and answers whether it was taken.
    fn end_watch<R: Abort>(&mut self, rt: &R) -> bool
        ensures { self.new.table.now ≡ self.old.table.now }
    {
        let is_taken = self.step(rt, Step::Consume(INDEX)) == Answer::Flag(false);
        if is_taken {
            self.hear(rt, false);
        }
        self.step(rt, Step::Clear(INDEX));
        self.step(rt, Step::Remove(INDEX));
        is_taken
    }

    /// One check: it takes what it finds there, or is watched itself. Others may run while it is.
    fn check<R: Abort>(&mut self, rt: &R, gate: &Gate)
        ensures { self.new.table.now ≡ self.old.table.now }
    {
        if let Answer::Word(word) = self.step(rt, Step::Load(INDEX))
            && word > 1
        {
            return self.find(rt, gate, word);
        }
        if !self.is_watched(rt) {
            gate.full.fetch_add(1, Ordering::SeqCst);
            return;
        }
        gate.armed.fetch_add(1, Ordering::SeqCst);
        thread::yield_now();
        if self.end_watch(rt) {
            gate.heard.fetch_add(1, Ordering::SeqCst);
        } else {
            gate.quiet.fetch_add(1, Ordering::SeqCst);
        }
    }

    /// Takes the watchpoint whose word it has loaded, and tells, unless it comes too late.
    fn find<R: Abort>(&mut self, rt: &R, gate: &Gate, word: u64)
        ensures { self.new.table.now ≡ self.old.table.now }
    {
        if self.step(rt, Step::TryConsume(INDEX, word)) == Answer::Flag(true) {
            self.tell(rt);
            gate.told.fetch_add(1, Ordering::SeqCst);
        } else {
            gate.lost.fetch_add(1, Ordering::SeqCst);
        }
    }

    /// Checks often.
    fn check_often<R: Abort>(&mut self, rt: &R, gate: &Gate)
        ensures { self.new.table.now ≡ self.old.table.now }
    {
        'checks: for _ in 0..CHECKS {
            self.check(rt, gate);
        }
        gate.through.fetch_add(1, Ordering::SeqCst);
    }

    /// Is watched until the other has checked as often as it does.
    fn pause<R: Abort>(&mut self, rt: &R, gate: &Gate)
        ensures { self.new.table.now ≡ self.old.table.now }
    {
        assert!(rt; self.is_watched(rt), "another watchpoint is there");
        gate.armed.fetch_add(1, Ordering::SeqCst);
        assert!(rt; wait(&gate.through, 1), "the other can't go on");
        assert!(rt; self.end_watch(rt), "nobody took it");
        gate.heard.fetch_add(1, Ordering::SeqCst);
    }

    /// Checks often while another is watched.
    fn go_on<R: Abort>(&mut self, rt: &R, gate: &Gate)
        ensures { self.new.table.now ≡ self.old.table.now }
    {
        assert!(rt; wait(&gate.armed, 1), "no watchpoint is set up");
        self.check_often(rt, gate);
    }

    /// Waits for the lock.
    fn lock<R: Abort>(&mut self, rt: &R)
        ensures { self.new.table.now ≡ self.old.table.now }
    {
        let task = self.task;
        'turns: for _ in 0..TURNS {
            if self.step(rt, Step::LockTry(0, task)) == Answer::Flag(true) {
                return;
            }
            thread::yield_now();
        }
    }

    /// Adds 1 to the first cell, under the lock.
    fn increment<R: Abort>(&mut self, rt: &R)
        ensures { self.new.table.now ≡ self.old.table.now }
    {
        self.lock(rt);
        if let Answer::Word(value) = self.step(rt, Step::CellLoad(0)) {
            let new = value.wrapping_add(1);
            self.step(rt, Step::CellExchange(0, value, new));
        }
        self.step(rt, Step::LockStore(0));
    }

    /// Draws a stamp, and marks the cell that stands for it, which nobody has marked.
    fn stamp<R: Abort>(&mut self, rt: &R)
        ensures { self.new.table.now ≡ self.old.table.now }
    {
        if let Answer::Word(stamp) = self.step(rt, Step::Clock)
            && stamp < 400
        {
            let cell = stamp as usize + 1;
            let answer = self.step(rt, Step::CellExchange(cell, 0, 1));
            same_at(rt, ("stamp", stamp), answer, Answer::Flag(true));
        }
    }

    /// Adds 1 to the first cell 100 times, and draws a stamp each time.
    fn increment_often<R: Abort>(&mut self, rt: &R)
        ensures { self.new.table.now ≡ self.old.table.now }
    {
        'increments: for _ in 0..100 {
            self.increment(rt);
            self.stamp(rt);
        }
    }

    /// Takes the watchpoint that is set up, and answers whether it did.
    fn take<R: Abort>(&mut self, rt: &R, gate: &Gate) -> bool
        ensures { self.new.table.now ≡ self.old.table.now }
    {
        assert!(rt; wait(&gate.armed, 1), "no watchpoint is set up");
        same(rt, self.step(rt, Step::Load(INDEX)), Answer::Word(READ));
        self.step(rt, Step::TryConsume(INDEX, READ)) == Answer::Flag(true)
    }

    /// Stops between taking and tell, or as the one whose watchpoint is taken.
    fn stop<R: Abort>(&mut self, rt: &R, gate: &Gate)
        ensures { self.new.table.now ≡ self.old.table.now }
    {
        if self.task == 0 {
            assert!(rt; self.is_watched(rt), "another watchpoint is there");
            gate.armed.fetch_add(1, Ordering::SeqCst);
        } else {
            assert!(rt; self.take(rt, gate), "it was gone");
        }
    }

    /// Plays its part.
    fn play<R: Abort>(&mut self, rt: &R, game: Game, gate: &Gate)
        ensures { self.new.table.now ≡ self.old.table.now }
    {
        match game {
            Game::Checks => self.check_often(rt, gate),
            Game::Paused if self.task == 0 => self.pause(rt, gate),
            Game::Paused => self.go_on(rt, gate),
            Game::Increments => self.increment_often(rt),
            Game::StopsBeforeTell => self.stop(rt, gate),
            Game::StopsBeforeRemove => {
                self.is_watched(rt);
            }
        }
    }
}

/// Plays at a seat, and hands it back.
fn played<R: Abort>(
    rt: &R,
    alloc: Global,
    table: &SharedTable,
    seat: TaskSeat,
    game: Game,
    gate: &Gate,
) -> TaskSeat
    requires here { seat.table ≡ table.now }
    requires begins { seat.records ≡ [] }
    ensures { result.table ≡ table.now }
{
    let mut player = Player::new(alloc, table, seat);
    player.play(rt, game, gate);
    player.into_seat()
}

/// Plays at all of these seats at once, each in a thread of its own.
fn all_played<R: Abort + Threads + Sync>(
    rt: &R,
    alloc: Global,
    table: &SharedTable,
    seats: Vec<TaskSeat>,
    game: Game,
    gate: &Gate,
) -> Vec<TaskSeat>
    requires { All (λ seat. (seat.table ≡ table.now) × (seat.records ≡ [])) seats.items }
    ensures { All (λ seat. seat.table ≡ table.now) result.items }
{
    let seats = thread::map_vec(
        rt,
        seats,
        &|seat: TaskSeat| -> TaskSeat
            requires { (seat.table ≡ table.now) × (seat.records ≡ []) × IsSync R.row }
            ensures { result.table ≡ table.entry.now }
        { played(rt, alloc, table, seat, game, gate) },
    );
    seats.expect(rt, "memory")
}

/// A table of this many tasks, with 64 page slots and a lock, and a seat for each task.
pub(crate) fn opened(
    alloc: Global,
    tasks: u32,
    cells: &[u64],
) -> Result<(SharedTable, Vec<TaskSeat>), BoardError>
    requires some { 1 ≤ tasks }
    requires few { tasks ≤ 16 }
    ensures { IfOk result (λ made.
        All (λ seat. (seat.table ≡ made.0) × (seat.records ≡ [])) made.1.items) }
{
    SharedTable::new(
        alloc,
        Shape {
            slots: 64,
            tasks,
            locks: 1,
            cells,
        },
    )
}

/// Each of 4,000 checks at one index takes a watchpoint or comes too late for it, or it sets one up or meets another
/// there. Each that is set up is taken or not.
#[test]
fn four_seats(rt: HostRuntime) {
    let gate = Gate::new();
    let (table, seats) = opened(rt.alloc(), 4, &[7, 8]).expect(&rt, "a table");
    let seats = all_played(&rt, rt.alloc(), &table, seats, Game::Checks, &gate);
    let gathered = table.gather(seats).expect(&rt, "no check is unfinished");
    same(&rt, gathered.cells(), [7, 8].as_slice());
    let [armed, full, quiet, heard, told, lost] = gate.checks();
    assert!(rt; told > 0, "no watchpoint was taken");
    same(&rt, heard, told);
    same(&rt, quiet.saturating_add(heard), armed);
    let inserts = armed.saturating_add(full);
    let tries = told.saturating_add(lost);
    same(&rt, inserts.saturating_add(tries), 4000);
}

#[test]
fn one_goes_on_while_another_is_paused(rt: HostRuntime) {
    let (table, seats) = opened(rt.alloc(), 2, &[]).expect(&rt, "a table");
    let gate = Gate::new();
    let seats = all_played(&rt, rt.alloc(), &table, seats, Game::Paused, &gate);
    assert!(rt; table.gather(seats).is_some(), "a check is unfinished");
    same(&rt, gate.told.load(Ordering::SeqCst), 1);
    same(&rt, gate.heard.load(Ordering::SeqCst), 1);
}

#[test]
fn a_lock_a_cell_and_stamps_under_four(rt: HostRuntime) {
    let (table, seats) = opened(rt.alloc(), 4, &[0; 401]).expect(&rt, "a table");
    let seats = all_played(
        &rt,
        rt.alloc(),
        &table,
        seats,
        Game::Increments,
        &Gate::new(),
    );
    let gathered = table.gather(seats).expect(&rt, "no check is unfinished");
    same(&rt, gathered.cells().first().copied(), Some(400));
    assert!(rt;
        gathered.cells().iter().skip(1).all(|mark| *mark == 1),
        "a stamp wasn't drawn"
    );
}

#[test]
fn gather_wants_each_seat(rt: HostRuntime) -> Result<(), Fail> {
    let (table, mut seats) = opened(rt.alloc(), 2, &[7])?;
    drop(seats.pop());
    assert!(rt; table.gather(seats).is_none());
    let (table, seats) = opened(rt.alloc(), 2, &[7])?;
    let gathered = table.gather(seats).expect(&rt, "both seats are here");
    same(&rt, gathered.cells(), [7].as_slice());
    Ok(())
}

#[test]
fn gather_wants_finished_checks(rt: HostRuntime) {
    for game in [Game::StopsBeforeRemove, Game::StopsBeforeTell] {
        let (table, seats) = opened(rt.alloc(), 2, &[]).expect(&rt, "a table");
        let seats = all_played(&rt, rt.alloc(), &table, seats, game, &Gate::new());
        assert!(rt; table.gather(seats).is_none());
    }
}

#[test]
fn limits_of_slots(rt: HostRuntime) {
    for slots in [0, 2, 1025] {
        let wrong = Shape {
            slots,
            tasks: 1,
            locks: 0,
            cells: &[],
        };
        same(
            &rt,
            SharedTable::new(rt.alloc(), wrong).err(),
            Some(BoardError::BadSlots),
        );
    }
}

#[test]
fn a_new_table_or_no_memory(rt: HostRuntime) {
    // Each growth refused in turn, by `rt try --test --fail-alloc N`, is answered so.
    match opened(rt.alloc(), 2, &[7, 8]) {
        Ok((_, seats)) => same(&rt, seats.len(), 2),
        Err(error) => same(&rt, error, BoardError::OutOfMemory),
    }
}
