//! A slow plain test of a whole list: is it legal, and does each task keep the discipline?

ghost use Rattle.std.specs.Prelude.{◌≡◌, ◌≤◌, ◌<◌, ◌⊎◌, ◌↔◌, IfOk, IsErrOf, IsTrue, reverse};
ghost use Rattle.slot_table.specs.Discipline.{Allows, LegalInDiscipline};
ghost use Rattle.slot_table.specs.Records.{Follows, records_of};
ghost use Rattle.slot_table.specs.StepLine.{step_line};
ghost use Rattle.slot_table.specs.declared.board.BoardError.TheVariants.{BadSlots};

use crate::board::{Board, BoardError, PlainBoard, Shape};
use crate::discipline::allows;
use crate::records::Record;
use std::alloc::Global;

/// Makes the step of a record after those made, if the board has its words and the discipline of
/// its task allows it. Answers whether that is so and the board's answer is the record's.
fn follows(board: &mut PlainBoard, made: &[Record], latest: Record) -> bool
    ensures rules { IsTrue result
        ↔ (Follows board.old latest
        × Allows latest.task (records_of latest.task (reverse made.now)) latest.step) }
    ensures after { IsTrue result → board.new ≡ (step_line board.old latest.step).after }
{
    if !board.has(latest.step) || !allows(made, latest.task, latest.step) {
        return false;
    }
    board.step(latest.step) == latest.answer
}

/// Whether a list, in the order in which it was made, is legal from a new board on and each task in
/// it keeps the discipline.
///
/// `BadSlots`: there are fewer than 3 page slots, or more than 1,024.
pub fn keeps_rules(alloc: Global, shape: Shape<'_>, made: &[Record]) -> Result<bool, BoardError>
    requires some_task { 1 ≤ shape.tasks }
    requires task_limit { shape.tasks ≤ 16 }
    ensures rules { IfOk result
        (λ yes. IsTrue yes
        ↔ LegalInDiscipline shape.entry.slots shape.entry.locks shape.entry.cells.now
        (reverse made.now)) }
    ensures bad_slots { IsErrOf result BadSlots
        ↔ (shape.entry.slots < 3 ⊎ 1024 < shape.entry.slots) }
{
    let mut board = PlainBoard::new(alloc, shape)?;
    for (position, record) in made.iter().enumerate() {
        if !follows(&mut board, &made[..position], *record) {
            return Ok(false);
        }
    }
    Ok(true)
}
