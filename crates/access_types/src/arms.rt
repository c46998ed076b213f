//! Armings that are over, as a task keeps them: each watchpoint that it set up, with what became of
//! it.

ghost use Rattle.std.specs.Prelude.{◌≡◌};
ghost use Rattle.access_types.specs.Arms as spec;

use std::marker::Model;

/// What the setter of a watchpoint made of an access that hit it.
#[derive(Clone, Copy, Debug, PartialEq, Eq)]
pub enum HitResult {
    /// It is reported.
    Report,
    /// Dropped: the two share a watch word and no byte.
    Encoding,
    /// Dropped: the bytes have the same value as before, and only changes are reported.
    Same,
    /// Dropped: no bit of the setter's mask changed.
    Masked,
}

/// What became of a watchpoint.
#[derive(Clone, Copy, Debug, PartialEq, Eq)]
pub enum ArmOutcome {
    /// Nobody hit it, and no change was seen.
    Quiet,
    /// Nobody hit it, and the bytes changed: a report of unknown origin.
    Origin,
    /// An access hit it: the one with this ticket.
    Hit { finder: u32, result: HitResult },
}

/// A watchpoint that was set up and removed.
#[derive(Clone, Copy, Debug, PartialEq, Eq)]
pub struct Arm {
    setter: u32,
    number: u64,
    index: usize,
    watch_word: u64,
    outcome: ArmOutcome,
}

impl Model for Arm {
    ghost Value = { spec.Arm };

    ghost view = { λ a. record {
      setter = a.setter;
      number = a.number;
      index = a.index;
      watch_word = a.watch_word;
      outcome = a.outcome;
    } };

    ghost inverse = { λ a. record {
      setter = a.setter;
      number = a.number;
      index = a.index;
      watch_word = a.watch_word;
      outcome = a.outcome;
    } };
}

impl Arm {
    /// The arming by the access with the ticket `setter`, after `number` earlier ones by this
    /// access, at `index` with the watch word `watch_word`.
    pub fn new(setter: u32, number: u64, index: usize, watch_word: u64, outcome: ArmOutcome) -> Arm
        ensures { result ≡ record {
          setter = setter;
          number = number;
          index = index;
          watch_word = watch_word;
          outcome = outcome;
        } }
    {
        Arm {
            setter,
            number,
            index,
            watch_word,
            outcome,
        }
    }

    /// The ticket of the access that set it up.
    pub fn setter(&self) -> u32
        ensures { result ≡ self.now.setter }
    {
        self.setter
    }

    /// How many armings of the same access came before it.
    pub fn number(&self) -> u64
        ensures { result ≡ self.now.number }
    {
        self.number
    }

    /// The index at which it stood.
    pub fn index(&self) -> usize
        ensures { result ≡ self.now.index }
    {
        self.index
    }

    /// Its watch word.
    pub fn watch_word(&self) -> u64
        ensures { result ≡ self.now.watch_word }
    {
        self.watch_word
    }

    /// What became of it.
    pub fn outcome(&self) -> ArmOutcome
        ensures { result ≡ self.now.outcome }
    {
        self.outcome
    }
}
