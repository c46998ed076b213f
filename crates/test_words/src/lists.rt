//! Whole lists of steps, as three small programs make them, and lists that break a rule.

ghost use Rattle.std.specs.Prelude.{◌≡◌};

use crate::same::same_at;
use slot_table::board::Shape;
use slot_table::records::Record;
use slot_table::replay::keeps_rules;
use slot_table::step::{Answer, Step};
use std::alloc::Global;
use std::process::Abort;

/// The word of a plain read of 4 bytes at 0x10000.
const READ: u64 = 0x0008_0000_0001_0000;

/// The tickets of the first accesses of tasks 0, 1 and 2.
const FIRST_TICKET: u32 = 1;

const SECOND_TICKET: u32 = 65537;

const THIRD_TICKET: u32 = 131073;

/// A task's step and its answer.
type Made = (u32, Step, Answer);

/// One variable, which holds 0, and three tasks.
fn shape() -> Shape<'static>
    ensures { result.tasks ≡ 3 }
{
    Shape {
        slots: 64,
        tasks: 3,
        locks: 1,
        cells: &[0],
    }
}

/// Task 0 reads, is watched and stalls, and task 1 writes 1 meanwhile.
const RACE: [Made; 23] = [
    (0, Step::Clock, Answer::Word(0)),
    (0, Step::Load(16), Answer::Word(0)),
    (0, Step::Load(17), Answer::Word(0)),
    (0, Step::Load(18), Answer::Word(0)),
    (0, Step::Insert(17, READ), Answer::Flag(true)),
    (0, Step::Name(17, FIRST_TICKET), Answer::Done),
    (0, Step::CellLoad(0), Answer::Word(0)),
    (1, Step::Clock, Answer::Word(1)),
    (1, Step::Load(16), Answer::Word(0)),
    (1, Step::Load(17), Answer::Word(READ)),
    (1, Step::TryConsume(17, READ), Answer::Flag(true)),
    (1, Step::PairLoad(17), Answer::Halves(FIRST_TICKET, 0)),
    (1, Step::Tell(17, SECOND_TICKET), Answer::Done),
    (1, Step::CellLoad(0), Answer::Word(0)),
    (1, Step::CellExchange(0, 0, 1), Answer::Flag(true)),
    (1, Step::Clock, Answer::Word(2)),
    (0, Step::CellLoad(0), Answer::Word(1)),
    (0, Step::Consume(17), Answer::Flag(false)),
    (
        0,
        Step::PairLoad(17),
        Answer::Halves(FIRST_TICKET, SECOND_TICKET),
    ),
    (0, Step::Clear(17), Answer::Done),
    (0, Step::Remove(17), Answer::Done),
    (0, Step::CellLoad(0), Answer::Word(1)),
    (0, Step::Clock, Answer::Word(3)),
];

/// Task 0 reads and is watched, and tasks 1 and 2, which write 1 and 2, find its watchpoint. Task 1
/// takes it, and task 2 has lost it.
const TWO_FINDERS: [Made; 30] = [
    (0, Step::Clock, Answer::Word(0)),
    (0, Step::Load(16), Answer::Word(0)),
    (0, Step::Load(17), Answer::Word(0)),
    (0, Step::Load(18), Answer::Word(0)),
    (0, Step::Insert(17, READ), Answer::Flag(true)),
    (0, Step::Name(17, FIRST_TICKET), Answer::Done),
    (0, Step::CellLoad(0), Answer::Word(0)),
    (1, Step::Clock, Answer::Word(1)),
    (1, Step::Load(16), Answer::Word(0)),
    (1, Step::Load(17), Answer::Word(READ)),
    (2, Step::Clock, Answer::Word(2)),
    (2, Step::Load(16), Answer::Word(0)),
    (2, Step::Load(17), Answer::Word(READ)),
    (1, Step::TryConsume(17, READ), Answer::Flag(true)),
    (1, Step::PairLoad(17), Answer::Halves(FIRST_TICKET, 0)),
    (1, Step::Tell(17, SECOND_TICKET), Answer::Done),
    (1, Step::CellLoad(0), Answer::Word(0)),
    (1, Step::CellExchange(0, 0, 1), Answer::Flag(true)),
    (1, Step::Clock, Answer::Word(3)),
    (2, Step::TryConsume(17, READ), Answer::Flag(false)),
    (2, Step::CellLoad(0), Answer::Word(1)),
    (2, Step::CellExchange(0, 1, 2), Answer::Flag(true)),
    (2, Step::Clock, Answer::Word(4)),
    (0, Step::CellLoad(0), Answer::Word(2)),
    (0, Step::Consume(17), Answer::Flag(false)),
    (
        0,
        Step::PairLoad(17),
        Answer::Halves(FIRST_TICKET, SECOND_TICKET),
    ),
    (0, Step::Clear(17), Answer::Done),
    (0, Step::Remove(17), Answer::Done),
    (0, Step::CellLoad(0), Answer::Word(2)),
    (0, Step::Clock, Answer::Word(5)),
];

/// Task 1 reads the word of task 0's watchpoint, which then ends quietly. Task 2 arms the same word
/// there, and task 1 takes that.
const LATER_SETTER: [Made; 36] = [
    (0, Step::Clock, Answer::Word(0)),
    (0, Step::Load(16), Answer::Word(0)),
    (0, Step::Load(17), Answer::Word(0)),
    (0, Step::Load(18), Answer::Word(0)),
    (0, Step::Insert(17, READ), Answer::Flag(true)),
    (0, Step::Name(17, FIRST_TICKET), Answer::Done),
    (0, Step::CellLoad(0), Answer::Word(0)),
    (1, Step::Clock, Answer::Word(1)),
    (1, Step::Load(16), Answer::Word(0)),
    (1, Step::Load(17), Answer::Word(READ)),
    (0, Step::CellLoad(0), Answer::Word(0)),
    (0, Step::Consume(17), Answer::Flag(true)),
    (0, Step::Clear(17), Answer::Done),
    (0, Step::Remove(17), Answer::Done),
    (0, Step::CellLoad(0), Answer::Word(0)),
    (0, Step::Clock, Answer::Word(2)),
    (2, Step::Clock, Answer::Word(3)),
    (2, Step::Load(16), Answer::Word(0)),
    (2, Step::Load(17), Answer::Word(0)),
    (2, Step::Load(18), Answer::Word(0)),
    (2, Step::Insert(17, READ), Answer::Flag(true)),
    (2, Step::Name(17, THIRD_TICKET), Answer::Done),
    (2, Step::CellLoad(0), Answer::Word(0)),
    (1, Step::TryConsume(17, READ), Answer::Flag(true)),
    (1, Step::PairLoad(17), Answer::Halves(THIRD_TICKET, 0)),
    (1, Step::Tell(17, SECOND_TICKET), Answer::Done),
    (1, Step::CellLoad(0), Answer::Word(0)),
    (1, Step::CellExchange(0, 0, 1), Answer::Flag(true)),
    (1, Step::Clock, Answer::Word(4)),
    (2, Step::CellLoad(0), Answer::Word(1)),
    (2, Step::Consume(17), Answer::Flag(false)),
    (
        2,
        Step::PairLoad(17),
        Answer::Halves(THIRD_TICKET, SECOND_TICKET),
    ),
    (2, Step::Clear(17), Answer::Done),
    (2, Step::Remove(17), Answer::Done),
    (2, Step::CellLoad(0), Answer::Word(1)),
    (2, Step::Clock, Answer::Word(5)),
];

/// The record of a step.
fn record((task, step, answer): Made) -> Record {
    Record { task, step, answer }
}

/// The records of a list.
fn records(rt: &impl Abort, alloc: Global, list: &[Made]) -> Vec<Record> {
    let mut records = Vec::new(alloc);
    for made in list {
        records.push(record(*made)).expect(rt, "memory");
    }
    records
}

/// Whether these records keep the rules.
fn keeps(rt: &impl Abort, alloc: Global, records: &[Record]) -> bool {
    keeps_rules(alloc, shape(), records).expect(rt, "memory")
}

#[test]
fn runs_keep_the_rules(rt: HostRuntime) {
    for list in [
        RACE.as_slice(),
        TWO_FINDERS.as_slice(),
        LATER_SETTER.as_slice(),
        &[],
    ] {
        let records = records(&rt, rt.alloc(), list);
        same_at(
            &rt,
            list.len(),
            keeps(&rt, rt.alloc(), records.as_slice()),
            true,
        );
    }
}

/// Records of `RACE` that are wrong at their positions.
const WRONG: [(usize, Made); 10] = [
    // A watchpoint that was hit is said to be untouched.
    (17, (0, Step::Consume(17), Answer::Flag(true))),
    // The clock answers its new number.
    (7, (1, Step::Clock, Answer::Word(2))),
    // A lock is freed that nobody holds.
    (7, (1, Step::LockStore(0), Answer::Done)),
    // A word is tried that the last load there didn't answer.
    (10, (1, Step::TryConsume(18, READ), Answer::Flag(false))),
    // The finder tells before it has heard the setter's half.
    (11, (1, Step::Tell(17, SECOND_TICKET), Answer::Done)),
    // The finder tells a ticket that isn't its own.
    (12, (1, Step::Tell(17, THIRD_TICKET), Answer::Done)),
    // The setter clears before it has heard the finder's half.
    (18, (0, Step::Clear(17), Answer::Done)),
    // The setter removes before it has cleared.
    (19, (0, Step::Remove(17), Answer::Done)),
    // An access begins or ends while a watchpoint is armed.
    (16, (0, Step::Clock, Answer::Word(3))),
    // An index is named that isn't there.
    (8, (1, Step::Load(66), Answer::Word(0))),
];

/// The records of `RACE` with another one at a position.
fn bent(rt: &impl Abort, alloc: Global, position: usize, made: Made) -> Vec<Record> {
    let mut records = records(rt, alloc, &RACE);
    let place = records.get_mut(position).expect(rt, "a position");
    *place = record(made);
    records
}

#[test]
fn a_wrong_answer_or_step_breaks_them(rt: HostRuntime) {
    for (position, made) in &WRONG {
        let records = bent(&rt, rt.alloc(), *position, *made);
        same_at(
            &rt,
            *position,
            keeps(&rt, rt.alloc(), records.as_slice()),
            false,
        );
    }
}
