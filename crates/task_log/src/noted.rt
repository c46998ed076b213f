//! What is noted of a step.

ghost use Rattle.std.specs.Prelude.{◌≡◌};
ghost use Rattle.task_log.specs.Arms.{setter_told};
ghost use Rattle.task_log.specs.Noted as spec;

use access_types::{ArmOutcome, HitResult};
use setup_access::{Begun, Outcome};
use slot_table::{Answer, Step};
use value_filter::Reason;

/// A step of a task, with its answer.
#[derive(Clone, Copy)]
pub struct Noted {
    pub step: Step,
    pub answer: Answer,
    /// The access that begins by this step, with what is decided of it.
    pub begins: Option<Begun>,
    /// What came of a look for a watchpoint, where this step settled it.
    pub outcome: Option<Outcome>,
}

impl Noted {
    /// The finder's half of a pair that was loaded, where there is none 0.
    #[inline(always)]
    fn finder_heard(&self) -> u32
        ensures { result ≡ spec.finder_heard self.now.step self.now.answer }
    {
        match (self.step, self.answer) {
            (Step::PairLoad(_), Answer::Halves(_, finder)) => finder,
            _ => 0,
        }
    }

    /// What became of a watchpoint on which a verdict falls by this step.
    #[inline(always)]
    pub(crate) fn became(&self) -> Option<ArmOutcome>
        ensures { result ≡ spec.became self.now }
    {
        let result = match self.outcome? {
            Outcome::Quiet => return Some(ArmOutcome::Quiet),
            Outcome::Unknown { .. } => return Some(ArmOutcome::Origin),
            Outcome::Report { .. } => HitResult::Report,
            Outcome::Dropped(Reason::Encoding) => HitResult::Encoding,
            Outcome::Dropped(Reason::SameValue) => HitResult::Same,
            Outcome::Dropped(Reason::MaskedBits) => HitResult::Masked,
            _ => return None,
        };
        Some(ArmOutcome::Hit {
            finder: self.finder_heard(),
            result,
        })
    }

    /// The setter that was told, where this step tells it, else 0.
    #[inline(always)]
    pub(crate) fn setter_told(&self) -> u32
        ensures { result ≡ setter_told self.now.outcome }
    {
        match self.outcome {
            Some(Outcome::Told { pair }) => {
                let (setter, _finder) = pair.halves();
                setter
            }
            _ => 0,
        }
    }
}
