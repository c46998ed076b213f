//! Operations on one cell of a board and tries of a lock, step by step, while another task may change it.

use crate::fault::{Fault, written};
use crate::notation::{Phrase, cut, number, push_flag, push_optional, push_step, push_two, short};
use crate::script::{Asked, Made, Scripted, begin_word, came_of, make_other, push_made};
use access_run::memory_operation::{LockWait, OperationRun};
use access_types::{Access, Kind, Operation as Touch};
use setup_access::source::Source;
use slot_table::{Board, PlainBoard, Shape};
use std::alloc::Global;

/// The address of the cell.
const CELL: u64 = 0x10000;

/// More failed tries than any of these operations makes.
const TURNS: u64 = 10;

fn board_of(alloc: Global, cell: u64) -> Result<PlainBoard, Fault> {
    let shape = Shape {
        slots: 3,
        tasks: 2,
        locks: 1,
        cells: &[cell],
    };
    Ok(PlainBoard::new(alloc, shape)?)
}

/// What comes of an operation: `CELL FIRST+SIZE OPERATION`, on so many bytes of a cell, from one on.
pub fn operation(alloc: Global, start: &str, script: &str) -> Result<String, Fault> {
    let (cell, rest) = cut(start, ' ')?;
    let (bytes, operation) = cut(rest, ' ')?;
    let (first, size) = cut(bytes, '+')?;
    let run = begun(number(first)?, number(size)?, Phrase::read(operation))?;
    operated(alloc, number(cell)?, run, script)
}

/// What comes of an operation on a cell.
fn operated(alloc: Global, cell: u64, run: OperationRun, script: &str) -> Result<String, Fault> {
    let mut on_cell = OnCell {
        board: board_of(alloc, cell)?,
        run,
    };
    let came = came_of(alloc, script, &mut on_cell);
    // By a call: where it goes out of scope, the proof follows the drop of all that is in it.
    drop(on_cell);
    came
}

/// An operation that goes on over a board.
#[derive(Drop)]
struct OnCell {
    board: PlainBoard,
    run: OperationRun,
}

impl Scripted for OnCell {
    fn goes_on(&mut self, came: &mut String, word: &str) -> Result<(), Fault> {
        operation_goes_on(came, &mut self.board, &mut self.run, word)
    }
}

/// An operation on so many bytes of cell 0, from one on.
fn begun(first: u64, size: u64, operation: Phrase<'_>) -> Result<OperationRun, Fault> {
    let kind = Kind::Plain(Touch::ReadWrite);
    let access = Access::new(1, 0, CELL.saturating_add(first), size, kind, None)?;
    let size = access.size();
    if size == 0 || size > 8 || first > 8 - size {
        return Err(Fault::NoRow);
    }
    Ok(OperationRun::new(&access, Source { cell: 0, first }, operation.operation()?))
}

/// What comes at a word of an operation's script.
fn operation_goes_on(
    came: &mut String,
    board: &mut PlainBoard,
    run: &mut OperationRun,
    word: &str,
) -> Result<(), Fault> {
    let phrase = match begin_word(came, word)? {
        Asked::Step => return written(push_made(came, make_next(board, run))),
        Asked::Question(phrase) => phrase,
    };
    let pushed = match phrase.name {
        "stuck" => push_flag(came, run.stuck(phrase.number(0)?)),
        "next" => push_step(came, run.next(phrase.number(0)?)),
        "effect" => push_two(came, run.effect().read, run.effect().written),
        "cell" => push_optional(came, board.cells().first().copied()),
        _ => return make_other(came, board, phrase),
    };
    written(pushed)
}

/// Makes the step that the operation says.
fn make_next(board: &mut PlainBoard, run: &mut OperationRun) -> Option<Made> {
    let Some(step) = run.next(TURNS) else {
        return None;
    };
    if !board.has(step) {
        return None;
    }
    let answer = board.step(step);
    run.answer(answer);
    Some((step, answer))
}

/// What comes of a lock that a task tries: `TASK LOCK`.
pub fn lock(alloc: Global, start: &str, script: &str) -> Result<String, Fault> {
    let (task, lock) = cut(start, ' ')?;
    let wait = LockWait::new(short(number(task)?)?, number(lock)? as usize);
    tried(alloc, wait, script)
}

/// What comes of the tries of a lock.
fn tried(alloc: Global, wait: LockWait, script: &str) -> Result<String, Fault> {
    let mut waiting = Waiting {
        board: board_of(alloc, 0)?,
        wait,
    };
    let came = came_of(alloc, script, &mut waiting);
    drop(waiting);
    came
}

/// A task that tries a lock of a board.
#[derive(Drop)]
struct Waiting {
    board: PlainBoard,
    wait: LockWait,
}

impl Scripted for Waiting {
    fn goes_on(&mut self, came: &mut String, word: &str) -> Result<(), Fault> {
        lock_goes_on(came, &mut self.board, &mut self.wait, word)
    }
}

/// What comes at a word of a lock's script.
fn lock_goes_on(
    came: &mut String,
    board: &mut PlainBoard,
    wait: &mut LockWait,
    word: &str,
) -> Result<(), Fault> {
    let phrase = match begin_word(came, word)? {
        Asked::Step => return written(push_made(came, try_next(board, wait))),
        Asked::Question(phrase) => phrase,
    };
    let pushed = match phrase.name {
        "stuck" => push_flag(came, wait.stuck(phrase.number(0)?)),
        "next" => push_step(came, wait.next(phrase.number(0)?)),
        "taken" => push_flag(came, wait.is_taken()),
        _ => return make_other(came, board, phrase),
    };
    written(pushed)
}

/// Makes the try that the task says.
fn try_next(board: &mut PlainBoard, wait: &mut LockWait) -> Option<Made> {
    let Some(step) = wait.next(TURNS) else {
        return None;
    };
    if !board.has(step) {
        return None;
    }
    let answer = board.step(step);
    wait.answer(answer);
    Some((step, answer))
}
