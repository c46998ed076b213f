//! `measure_shared_table [ROUNDS]` measures the steps that threads make on the shared words: 1, 2 and 4 threads, all on
//! one cell, and then each on a cell of its own, with a cache line between them. A round is two steps: a load of the
//! cell, and an exchange of what was found for one more. A line says how many threads there were, where they stepped,
//! and how many steps they made together; with a number of rounds also how many microseconds that took.
#![tactic(auto)]

ghost use Rattle.std.specs.Prelude.{◌≡◌, ◌≤◌, All, IfOk};

use anyhow::Result;
use shared_table::{SharedTable, TaskSeat};
use slot_table::{Answer, Board, BoardError, Shape, Step};
use std::alloc::{AllocError, Global};
use std::thread::Threads;
use std::time::Instant;
use std::{env, thread};

/// How many rounds a thread makes where the caller doesn't say.
const ROUNDS: u64 = 1000;

/// How far the cells of two threads are from each other, in cells.
const APART: usize = 16;

/// Makes so many rounds on a cell, where the table has it.
fn step_often(table: &SharedTable, seat: TaskSeat, cell: usize, rounds: u64) -> TaskSeat
    requires { seat.table ≡ table.now }
    ensures { result.table ≡ table.now }
{
    if !table.has(Step::CellLoad(cell)) {
        return seat;
    }
    let mut board = table.board(seat);
    'rounds: for _ in 0..rounds {
        if let Answer::Word(value) = board.step(Step::CellLoad(cell)) {
            let new = value.wrapping_add(1);
            board.step(Step::CellExchange(cell, value, new));
        }
    }
    board.into_seat()
}

/// A table with cells for four threads, and a seat for each of so many tasks.
fn opened(alloc: Global, tasks: u32) -> Result<(SharedTable, Vec<TaskSeat>), BoardError>
    requires some { 1 ≤ tasks }
    requires few { tasks ≤ 16 }
    ensures { IfOk result (λ made. All (λ seat. seat.table ≡ made.0) made.1.items) }
{
    SharedTable::new(
        alloc,
        Shape {
            slots: 64,
            tasks,
            locks: 0,
            cells: &[0; 64],
        },
    )
}

/// All seats make their rounds at once, each in a thread of its own.
fn step_together<R: Threads + Sync>(
    rt: &R,
    table: &SharedTable,
    seats: Vec<TaskSeat>,
    apart: usize,
    rounds: u64,
) -> Result<Vec<TaskSeat>, AllocError>
    requires { All (λ seat. seat.table ≡ table.now) seats.items }
{
    thread::map_vec(
        rt,
        seats,
        &|seat: TaskSeat| -> TaskSeat
            requires { seat.table ≡ table.now }
        {
            let cell = (seat.task() as usize).saturating_mul(apart);
            step_often(table, seat, cell, rounds)
        },
    )
}

fn main(rt: HostRuntime) -> Result<()> {
    let words: Vec<String> = env::args(&rt)?.collect(rt.alloc())?;
    let asked: Option<u64> = words.get(1).and_then(|word| word.parse().ok());
    let rounds = asked.unwrap_or(ROUNDS);
    for (threads, apart) in [(1, 0), (2, 0), (4, 0), (1, APART), (2, APART), (4, APART)] {
        let (table, seats) = opened(rt.alloc(), threads)?;
        let start = Instant::now(&rt)?;
        let seats = step_together(&rt, &table, seats, apart, rounds)?;
        let time = start.elapsed(&rt)?;
        drop(seats);
        let place = if apart == 0 { "one" } else { "apart" };
        let steps = rounds.saturating_mul(2).saturating_mul(u64::from(threads));
        match asked {
            Some(_) => println!(rt; "{threads} {place} {steps} {}", time.as_micros())?,
            None => println!(rt; "{threads} {place} {steps}")?,
        }
    }
    Ok(())
}
