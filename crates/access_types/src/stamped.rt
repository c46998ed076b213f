//! Accesses that have ended, with what a trace says of them.

ghost use Rattle.std.specs.Prelude.{◌≡◌};
ghost use Rattle.access_types.specs.Stamped as spec;

use crate::access::Access;
use std::marker::Model;

/// An access that has ended. A stamp is what the clock of the run showed: it goes up by one at each
/// begin and each end of an access.
#[derive(Clone, Copy, Debug, PartialEq, Eq)]
pub struct Stamped {
    access: Access,
    begin: u64,
    end: u64,
    marked: bool,
    silenced: bool,
}

impl Model for Stamped {
    ghost Value = { spec.Stamped };

    ghost view = { λ s. record {
      access = s.access;
      begin = s.begin;
      end = s.end;
      marked = s.marked;
      silenced = s.silenced;
    } };

    ghost inverse = { λ s. record {
      access = s.access;
      begin = s.begin;
      end = s.end;
      marked = s.marked;
      silenced = s.silenced;
    } };
}

impl Stamped {
    /// The access with its two stamps, whether it counted as marked and whether it was silenced.
    pub fn new(access: Access, begin: u64, end: u64, marked: bool, silenced: bool) -> Stamped
        ensures { result ≡ record {
          access = access;
          begin = begin;
          end = end;
          marked = marked;
          silenced = silenced;
        } }
    {
        Stamped {
            access,
            begin,
            end,
            marked,
            silenced,
        }
    }

    /// The access.
    pub fn access(&self) -> Access
        ensures { result ≡ self.now.access }
    {
        self.access
    }

    /// The stamp of its begin.
    pub fn begin(&self) -> u64
        ensures { result ≡ self.now.begin }
    {
        self.begin
    }

    /// The stamp of its end.
    pub fn end(&self) -> u64
        ensures { result ≡ self.now.end }
    {
        self.end
    }

    /// It counted as marked when it began.
    pub fn marked(&self) -> bool
        ensures { result ≡ self.now.marked }
    {
        self.marked
    }

    /// It was silenced when it began, by `kcsan_disable_current` or `data_race`.
    pub fn silenced(&self) -> bool
        ensures { result ≡ self.now.silenced }
    {
        self.silenced
    }
}
