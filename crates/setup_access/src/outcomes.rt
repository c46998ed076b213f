//! The outcomes of a check, in a fixed array.

ghost use Rattle.std.specs.Prelude.{◌≡◌, ◌+◌, ◌≤◌, [], length};
ghost use Rattle.setup_access.specs.Due.{extended, given_now};

use crate::outcome::Outcome;
use std::marker::Model;

/// The outcomes of a check so far, in order: at most 9, its own and one for each scoped assertion in force.
#[derive(Drop)]
pub struct Outcomes {
    outcomes: [Outcome; 9],
    count: usize,
}

impl Model for Outcomes {
    ghost use Rattle.std.specs.Prelude.{◌≤◌, List, take};
    ghost use Rattle.setup_access.specs.declared.outcome.Outcome.{Outcome};

    ghost Value = { List Outcome };

    ghost view = { λ o. take o.count o.outcomes };

    ghost invariant = { λ o. o.count ≤ 9 };
}

impl Outcomes {
    pub(crate) fn new() -> Outcomes
        ensures { result ≡ [] }
    {
        Outcomes {
            outcomes: [Outcome::Nothing; 9],
            count: 0,
        }
    }

    pub(crate) fn copy(&self) -> Outcomes
        ensures { result ≡ self.now }
    {
        let mut copy = Outcomes::new();
        copy.outcomes.copy_from_slice(&self.outcomes);
        copy.count = self.count;
        copy
    }

    /// None yet: room and what stands in it stay, so a check that begins writes one number.
    #[inline(always)]
    pub(crate) fn clear(&mut self)
        ensures { self.new ≡ [] }
    {
        self.count = 0;
    }

    #[inline(always)]
    pub(crate) fn extend(&mut self, outcome: Option<Outcome>)
        requires { length self.old + given_now outcome ≤ 9 }
        ensures { self.new ≡ extended self.old outcome }
    {
        if let Some(outcome) = outcome {
            self.outcomes[self.count] = outcome;
            self.count += 1;
        }
    }

    #[inline(always)]
    pub(crate) fn as_slice(&self) -> &[Outcome]
        ensures { result.now ≡ self.now }
    {
        &self.outcomes[..self.count]
    }
}
