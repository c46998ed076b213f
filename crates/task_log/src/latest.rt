//! What a task last named and set up, and what last became of a watchpoint of it.

ghost use Rattle.std.specs.Option.{option_or};
ghost use Rattle.std.specs.Prelude.{◌≡◌, ◌∷◌, [], List, None, unwrap_or};
ghost use Rattle.task_log.specs.Keeps.{IsLatest};
ghost use Rattle.task_log.specs.Noted as spec;
ghost use Rattle.task_log.specs.Noted.{last_of};

use crate::noted::Noted;
use access_types::ArmOutcome;
use slot_table::{Answer, Step};

/// What a task last said of a handshake.
#[derive(Clone, Copy)]
pub(crate) struct Latest {
    /// The ticket by which it named itself as a setter.
    pub named: Option<u32>,
    /// The watch word that it set up.
    pub armed: Option<u64>,
    /// What became of a watchpoint.
    pub became: Option<ArmOutcome>,
}

impl Latest {
    /// Nothing yet.
    pub(crate) fn new() -> Latest
        ensures { IsLatest [] result }
    {
        Latest {
            named: None,
            armed: None,
            became: None,
        }
    }

    /// A step is noted.
    #[inline(always)]
    pub(crate) fn note(&mut self, noted: &Noted)
        ensures { (own : List Noted) → IsLatest own self.old → IsLatest (noted.now ∷ own) self.new }
    {
        self.note_step(noted);
        self.note_outcome(noted);
    }

    /// What a step itself says. Most say nothing, and then nothing is touched.
    #[inline(always)]
    fn note_step(&mut self, noted: &Noted)
        ensures { self.new ≡ record self.old {
          named = option_or (spec.named noted.now) self.old.named;
          armed = option_or (spec.armed noted.now) self.old.armed;
        } }
    {
        match (noted.step, noted.answer) {
            (Step::Name(_, ticket), _) => self.named = Some(ticket),
            (Step::Insert(_, word), Answer::Flag(true)) => self.armed = Some(word),
            _ => {}
        }
    }

    /// What became of a watchpoint, where a step settles it. It is noted with the verdict, and not at the remove: then
    /// the halves that were heard need not be kept.
    #[inline(always)]
    fn note_outcome(&mut self, noted: &Noted)
        ensures { self.new ≡ record self.old { became = option_or (spec.became noted.now) self.old.became } }
    {
        if noted.outcome.is_some() {
            self.became = noted.became().or(self.became);
        }
    }
}
