//! What the threads of runs go by.

ghost use Rattle.std.specs.Prelude.{◌≡◌};

use litmus_step::{Prepared, Settings};
use litmus_syntax::Program;
use shared_table::SharedTable;

/// The program, the settings, what was made ready of them, and the shared words.
#[derive(Clone, Copy)]
pub(crate) struct Terms<'t> {
    pub(crate) program: &'t Program,
    pub(crate) settings: &'t Settings,
    pub(crate) prepared: &'t Prepared,
    pub(crate) table: &'t SharedTable,
}

/// What the runs of a batch go by: the program, the settings, what was made ready of them, and the shared words of each
/// run.
#[derive(Clone, Copy)]
pub(crate) struct Batch<'t> {
    pub(crate) program: &'t Program,
    pub(crate) settings: &'t Settings,
    pub(crate) prepared: &'t Prepared,
    pub(crate) tables: &'t [SharedTable],
}
