//! Boards by their numbers.

use crate::definitions::tell;
use crate::steps::step_of;
use crate::words::Fault;
use board_numbers::Boards;
use std::alloc::Global;

/// What the cells hold at first.
const CELLS: [u64; 2] = [7, 8];

/// The numbers of the boards behind steps, each on the board behind the one before, and how many boards there are then.
pub fn answer(alloc: Global, steps: &str) -> Result<String, Fault> {
    let mut boards = Boards::new(alloc, &CELLS)?;
    let came = numbered(alloc, &mut boards, steps);
    // By a call: where it goes out of scope, the proof follows the drop of all that is in it.
    drop(boards);
    came
}

/// The numbers of the boards behind steps.
fn numbered(alloc: Global, boards: &mut Boards, steps: &str) -> Result<String, Fault> {
    let mut came = String::new(alloc);
    let mut board = 0;
    for text in steps.split(", ") {
        let step = boards.step_number(step_of(text)?)?;
        board = boards.make(board, step)?.board;
        tell(&mut came, &format!(in alloc; "{board}")?)?;
    }
    write!(came, " of {}", boards.len())?;
    Ok(came)
}
