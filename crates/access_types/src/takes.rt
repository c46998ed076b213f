//! Takings that are over, as a task keeps them: each watchpoint of another task that it hit.

ghost use Rattle.std.specs.Prelude.{◌≡◌};
ghost use Rattle.access_types.specs.Takes as spec;

use std::marker::Model;

/// A watchpoint that was hit, whose setter was told.
#[derive(Clone, Copy, Debug, PartialEq, Eq)]
pub struct Take {
    finder: u32,
    index: usize,
    setter: u32,
}

impl Model for Take {
    ghost Value = { spec.Take };

    ghost view = { λ t. record { finder = t.finder; index = t.index; setter = t.setter } };

    ghost inverse = { λ t. record { finder = t.finder; index = t.index; setter = t.setter } };
}

impl Take {
    /// The taking by the access with the ticket `finder`, of the watchpoint at `index` that the
    /// access with the ticket `setter` had set up.
    pub fn new(finder: u32, index: usize, setter: u32) -> Take
        ensures { result ≡ record { finder = finder; index = index; setter = setter } }
    {
        Take {
            finder,
            index,
            setter,
        }
    }

    /// The ticket of the access that hit it.
    pub fn finder(&self) -> u32
        ensures { result ≡ self.now.finder }
    {
        self.finder
    }

    /// The index at which it stood.
    pub fn index(&self) -> usize
        ensures { result ≡ self.now.index }
    {
        self.index
    }

    /// The ticket of the access that had set it up.
    pub fn setter(&self) -> u32
        ensures { result ≡ self.now.setter }
    {
        self.setter
    }
}
