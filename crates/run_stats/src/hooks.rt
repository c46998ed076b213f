//! What the runs of a program call on the way of their tasks.

ghost use Rattle.std.specs.Prelude.{◌≡◌, ℕ};

use crate::delay::Delay;
use runner::{Gate, Stall};

/// What each run of a program calls on the way of its tasks. Those of the program are [`Delays`]; a test has others,
/// which count or hold.
pub trait Hooks: Sync {
    /// What one run calls.
    type OfRun: Stall + Gate + Drop;

    /// What one run calls has been asked to have a watch delay for so many turns.
    ghost asks: { Self.OfRun → ℕ → Type 0 };

    /// What one run more calls, in which a watch is asked to delay for so many turns, of so many tasks of which this
    /// one starts first.
    fn of_run(&self, turns: u64, tasks: u64, first: usize) -> Self::OfRun
        ensures { asks result turns };
}

/// Each run has a delay of its own.
#[derive(Clone, Copy)]
pub struct Delays;

impl Hooks for Delays {
    type OfRun = Delay;

    ghost asks = { λ delay turns. delay.most ≡ turns };

    fn of_run(&self, turns: u64, tasks: u64, first: usize) -> Delay {
        Delay::new(turns, tasks, first)
    }
}
