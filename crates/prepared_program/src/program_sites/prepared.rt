//! What a program and the settings of its runs come to, before any of them.

ghost use Rattle.std.specs.Prelude.{◌≡◌, ◌<◌, ◌≤◌, ◌↔◌, ◌⊎◌, [], List, IfErr, IfOk, IsErrOf, None, count_by};
ghost use Rattle.std.specs.Arc.{arc_value};
ghost use Rattle.access_types.specs.Sites.{AccessMap};
ghost use Rattle.setup_access.specs.Leads.{Rests};
ghost use Rattle.setup_access.specs.Shown.{context_of};
ghost use Rattle.task_context.specs.Context.{idle};
ghost use Rattle.prepared_program.specs.program_sites.Errors.{IsOfPreparing};
ghost use Rattle.prepared_program.specs.program_sites.Prepared.{IsPrepared, sites_in};
ghost use Rattle.prepared_program.specs.declared.program_sites.error.RunError.TheVariants.{BadPlace, BadSlots};
ghost use Rattle.prepared_program.specs.declared.program_sites.settings.Settings.{Settings};
ghost use Rattle.litmus_syntax.specs.Limits.{KeepsLimits};
ghost use Rattle.litmus_syntax.specs.Views.{program_of};
ghost use Rattle.litmus_syntax.specs.declared.program.Variable.{Variable};
ghost use Rattle.prepared_program.specs.program_layout.Lays.{Lays, is_lock};
ghost use Rattle.prepared_program.specs.program_layout.Places.{AreFit};
ghost use Rattle.litmus_semantics.specs.Layout as layouts;
ghost use Rattle.litmus_semantics.specs.Layout.{cells_at_first, cells_of};

use crate::program_layout::Layout;
use crate::program_sites::accesses::accesses_of;
use crate::program_sites::error::RunError;
use crate::program_sites::settings::Settings;
use crate::program_sites::sites::sites_of;
use access_types::Sites;
use litmus_syntax::Program;
use setup_access::{Checker, CheckerError, Rules};
use std::alloc::{AllocError, Global};
use std::sync::Arc;

/// What a program and the settings of its runs come to: made once, however many tasks and runs there are. Whatever is
/// made of it, only memory can be wanting then.
#[derive(Drop)]
pub struct Prepared {
    /// Where the variables stand.
    pub layout: Arc<Layout>,
    /// How many locks there are.
    pub locks: usize,
    /// The addresses of the cells that the variables lie in.
    pub cells: Vec<u64>,
    /// What these cells hold at first.
    pub words: Vec<u64>,
    /// The accesses that the program can make, by ticket.
    pub sites: Arc<Sites>,
    /// How many accesses each task can begin.
    pub accesses: Vec<usize>,
    /// What checks go by.
    pub rules: Rules,
}

impl Prepared {
    /// A program under these settings, made ready.
    ///
    /// `BadSlots`: there are fewer than 3 page slots, or more than 1,024. `BadPlace`: a place is no
    /// multiple of its variable's size or is above 2^62, its name is unknown, a lock's, or placed twice.
    pub fn new(alloc: Global, program: &Program, settings: &Settings) -> Result<Prepared, RunError>
        requires { KeepsLimits (program_of program.now) }
        ensures prepared { IfOk result (IsPrepared program.now settings.now) }
        ensures bad_slots { IsErrOf result BadSlots → (settings.now.slots < 3 ⊎ 1024 < settings.now.slots) }
        ensures bad_place { IsErrOf result BadPlace ↔ (AreFit program.now.variables settings.now.places.items → ⊥) }
        ensures errors { IfErr result IsOfPreparing }
    {
        let places = settings.places.as_slice();
        let layout = Layout::new(alloc, program.variables.as_slice(), places)?;
        // A check looks up its page's slot and one on each side, as KCSAN does, so there must be three.
        if settings.slots < 3 || settings.slots > 1024 {
            return Err(RunError::BadSlots);
        }
        let sites = sites_of(alloc, program, places)?;
        let accesses = accesses_of(alloc, program)?;
        let prepared = Prepared::of(alloc, layout, sites, accesses, settings.rules())?;
        Ok(prepared)
    }

    /// What is made of a layout, of the accesses of its program, of how many each task can begin, and of rules.
    fn of(
        alloc: Global,
        layout: Layout,
        sites: Sites,
        accesses: Vec<usize>,
        rules: Rules,
    ) -> Result<Prepared, AllocError>
        ensures parts { IfOk result (λ prepared. (arc_value prepared.layout ≡ layout) × (arc_value prepared.sites ≡ sites) × (prepared.rules ≡ rules)) }
        ensures accesses { IfOk result (λ prepared. prepared.accesses.items ≡ accesses.items) }
        ensures laid { (places : List layouts.VariablePlace) (variables : List Variable) → Lays places variables layout
            → IfOk result (λ prepared. (prepared.locks ≡ count_by is_lock variables) × (prepared.cells.items ≡ cells_of places variables)
            × (prepared.words.items ≡ cells_at_first places variables)) }
    {
        let locks = layout.locks();
        let cells = layout.cells(alloc)?;
        let words = layout.cells_at_first(alloc)?;
        let layout = Arc::new(alloc, layout)?;
        let sites = Arc::new(alloc, sites)?;
        Ok(Prepared {
            layout,
            locks,
            cells,
            words,
            sites,
            accesses,
            rules,
        })
    }

    /// The accesses that the program can make, by ticket.
    pub fn sites(&self) -> &Sites
        ensures { result.now ≡ sites_in self.now }
    {
        &*self.sites
    }

    /// The checker of the task of this number, which has done nothing yet.
    pub fn checker(&self, alloc: Global, number: u32) -> Result<Checker, AllocError>
        requires task { number ≤ 15 }
        requires slots { (3 ≤ self.now.rules.slots) × (self.now.rules.slots ≤ 1024) }
        ensures rests { (sites : AccessMap) → IfOk result (λ checker.
            Rests (record { task = number; rules = self.now.rules; cells = self.now.cells.items; sites = sites }) [] 0 None checker) }
        ensures context { IfOk result (λ checker. context_of checker ≡ idle) }
    {
        match Checker::new(alloc, number, &self.rules, self.cells.as_slice()) {
            Ok(checker) => Ok(checker),
            Err(CheckerError::OutOfMemory) => Err(AllocError),
            Err(CheckerError::BadSlots) => unreachable!(),
        }
    }
}
