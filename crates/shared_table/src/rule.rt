//! The rule of the shared words, which holds between any two steps.

use crate::opening::Opening;
use crate::view::View;
use atomic_table::TableRule;

/// There is a legal list, each task by the discipline, whose records of each task are those that
/// the seats hold for it, and after which the words stand as they do.
pub struct Running;

impl TableRule<(), View, Opening> for Running {
    ghost use Rattle.shared_table.specs.RunningWords.{RunningWords};
    ghost use Rattle.shared_table.specs.Views.{everyone};

    ghost holds = { λ given state. RunningWords given state.words state.views };

    ghost first = { everyone };
}
