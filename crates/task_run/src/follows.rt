//! What follows on an access that is over.

ghost use Rattle.std.specs.Prelude.{◌≡◌, List};
ghost use Rattle.slot_table.specs.declared.records.Record.{Record};
ghost use Rattle.task_run.specs.Due.{EndsAtOnce};
ghost use Rattle.task_run.specs.Follows.{IsRead};
ghost use Rattle.task_run.specs.Part.{FollowLeft, TakerLeft};
ghost use Rattle.task_run.specs.Room.{room_of};
ghost use Rattle.task_run.specs.Stands.{StandsBy};
ghost use Rattle.task_plan.specs.Views.{follow_of, taker_of};
ghost use Rattle.program_order.specs.Standing.{Setting, Standing};

use crate::machine::Machine;
use access_run::memory_operation::Effect;
use litmus_semantics::{loading_value, sign_extended};
use task_plan::follow::so_often;
use task_plan::{Taker, Then};

impl<'a> Machine<'a> {
    /// An access is over, of which this came.
    #[inline(always)]
    pub(crate) fn follows(&mut self, after: Then<'a>, effect: Effect)
        ensures stands { (s : Setting) (before : List Record → Standing) → StandsBy s before self.old → IsRead (follow_of after.entry) effect
            → EndsAtOnce s (FollowLeft s self.old.walk (follow_of after.entry) effect) before self.new }
        ensures room { room_of self.new ≡ room_of self.old }
    {
        match after {
            Then::GoesOn => {}
            Then::MarksNext => self.marks_next(1),
            Then::Assigned { data_race } => self.enable(so_often(data_race)),
            Then::Loaded {
                size,
                data_races,
                taker,
            } => {
                // A silence ends with its own `data_race( )`: the load's here, the assignment's once that is made.
                self.enable(data_races);
                if let Some(old) = effect.read {
                    self.takes(taker, sign_extended(old, size));
                }
            }
        }
    }

    /// The value of a load is taken.
    fn takes(&mut self, taker: Taker<'a>, loaded: u64)
        ensures stands { (s : Setting) (before : List Record → Standing) → StandsBy s before self.old
            → EndsAtOnce s (TakerLeft s self.old.walk (taker_of taker.entry) loaded) before self.new }
        ensures room { room_of self.new ≡ room_of self.old }
    {
        match taker {
            Taker::Nobody => {}
            Taker::Register {
                register,
                value,
                data_race,
            } => {
                let value = loading_value(value, self.progress.registers(), loaded);
                self.progress.assign(register, value);
                self.enable(so_often(data_race));
            }
            Taker::Condition(value) => {
                if loading_value(value, self.progress.registers(), loaded) != 0 {
                    self.walk.holds();
                }
            }
        }
    }
}
