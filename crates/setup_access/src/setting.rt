//! The setting of one task's checks, which stays as it is throughout a run.

ghost use Rattle.std.specs.Prelude.{◌≡◌, ◌≤◌, IfOk, vec_capacity};

use crate::rules::Rules;
use access_types::list_copy::copied;
use std::alloc::{AllocError, Global};

/// What a task's checks go by: whose they are, the rules of the run, and the addresses of the cells.
#[derive(Drop)]
pub struct Setting {
    pub(crate) task: u32,
    pub(crate) rules: Rules,
    pub(crate) cells: Vec<u64>,
    pub ghost some_slots: { 3 ≤ rules.slots },
    pub ghost slot_limit: { rules.slots ≤ 1024 },
    pub ghost task_limit: { task ≤ 15 },
}

impl Setting {
    ghost use Rattle.access_types.specs.Sites.{AccessMap};
    ghost use Rattle.setup_access.specs.Kept.{setting_with};

    /// The same, with a list of its own of as much room.
    pub(crate) fn copy(&self, alloc: Global) -> Result<Setting, AllocError>
        ensures same { IfOk result (λ copy. (sites : AccessMap) → setting_with copy sites ≡ setting_with self.now sites) }
        ensures room { IfOk result (λ copy. vec_capacity copy.cells ≡ vec_capacity self.now.cells) }
    {
        Ok(Setting {
            task: self.task,
            rules: self.rules,
            cells: copied(alloc, &self.cells)?,
        })
    }
}
