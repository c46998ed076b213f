//! How often each thing came of a check.

ghost use Rattle.std.specs.Prelude.{◌≡◌, ◌∷◌, [], List};
ghost use Rattle.task_log.specs.Counters.{Count, counting, is_arming, is_capacity, is_encoding, is_lost, is_masked};
ghost use Rattle.task_log.specs.Counters.{is_quiet, is_same, is_taken, is_two_sided, is_unencodable, is_unknown};
ghost use Rattle.task_log.specs.Counters.{more, together};
ghost use Rattle.task_log.specs.declared.noted.Noted.{Noted};

use crate::noted::Noted;
use setup_access::Outcome;
use slot_table::{Answer, Step};
use value_filter::Reason;

/// How often each thing came of the checks of a task, or of several. Each count rests at the largest
/// number of 64 bits.
#[derive(Clone, Copy)]
pub struct Counters {
    /// Watchpoints set up.
    pub arms: u64,
    /// Of these, those that nobody hit.
    pub quiet: u64,
    /// Of these, those that an access hit.
    pub taken: u64,
    /// Watchpoints that were found and gone before they could be taken.
    pub lost: u64,
    /// Reports of two accesses.
    pub two_sided: u64,
    /// Reports of unknown origin.
    pub unknown: u64,
    /// Hits dropped, since the two accesses share a watch word and no byte.
    pub encoding: u64,
    /// Hits dropped, since the value is the same as before.
    pub same: u64,
    /// Hits dropped, since no bit of the setter's mask changed.
    pub masked: u64,
    /// Accesses for whose watchpoint no place was free.
    pub capacity: u64,
    /// Accesses for which no watch word can stand.
    pub unencodable: u64,
}

/// A count with one more.
#[inline(always)]
fn more(count: u64) -> u64
    ensures { result ≡ more count }
{
    count.saturating_add(1)
}

impl Counters {
    /// Nothing yet.
    pub fn new() -> Counters
        ensures { Count [] result }
    {
        Counters {
            arms: 0,
            quiet: 0,
            taken: 0,
            lost: 0,
            two_sided: 0,
            unknown: 0,
            encoding: 0,
            same: 0,
            masked: 0,
            capacity: 0,
            unencodable: 0,
        }
    }

    /// A step is noted.
    #[inline(always)]
    pub fn note(&mut self, noted: &Noted)
        ensures { (own : List Noted) → Count own self.old → Count (noted.now ∷ own) self.new }
    {
        self.note_step(noted);
        self.note_outcome(noted);
    }

    /// What a step does to a watchpoint is counted. Most steps do nothing to one, and then no count is touched.
    #[inline(always)]
    fn note_step(&mut self, noted: &Noted)
        ensures arms { self.new.arms ≡ counting (is_arming noted.now.step noted.now.answer) self.old.arms }
        ensures quiet { self.new.quiet ≡ counting (is_quiet noted.now.step noted.now.answer) self.old.quiet }
        ensures taken { self.new.taken ≡ counting (is_taken noted.now.step noted.now.answer) self.old.taken }
        ensures lost { self.new.lost ≡ counting (is_lost noted.now.step noted.now.answer) self.old.lost }
        ensures kept { self.new ≡ record self.old {
          arms = self.new.arms;
          quiet = self.new.quiet;
          taken = self.new.taken;
          lost = self.new.lost;
        } }
    {
        match (noted.step, noted.answer) {
            (Step::Insert(_, _), Answer::Flag(true)) => self.arms = more(self.arms),
            (Step::Consume(_), Answer::Flag(true)) => self.quiet = more(self.quiet),
            (Step::Consume(_), Answer::Flag(false)) => self.taken = more(self.taken),
            (Step::TryConsume(_, _), Answer::Flag(false)) => self.lost = more(self.lost),
            _ => {}
        }
    }

    /// What came of a check is counted, where a step settles it.
    #[inline(always)]
    fn note_outcome(&mut self, noted: &Noted)
        ensures two_sided { self.new.two_sided ≡ counting (is_two_sided noted.now.outcome) self.old.two_sided }
        ensures unknown { self.new.unknown ≡ counting (is_unknown noted.now.outcome) self.old.unknown }
        ensures encoding { self.new.encoding ≡ counting (is_encoding noted.now.outcome) self.old.encoding }
        ensures same { self.new.same ≡ counting (is_same noted.now.outcome) self.old.same }
        ensures masked { self.new.masked ≡ counting (is_masked noted.now.outcome) self.old.masked }
        ensures capacity { self.new.capacity ≡ counting (is_capacity noted.now.outcome) self.old.capacity }
        ensures unencodable { self.new.unencodable ≡ counting (is_unencodable noted.now.outcome) self.old.unencodable }
        ensures kept { self.new ≡ record self.old {
          two_sided = self.new.two_sided;
          unknown = self.new.unknown;
          encoding = self.new.encoding;
          same = self.new.same;
          masked = self.new.masked;
          capacity = self.new.capacity;
          unencodable = self.new.unencodable;
        } }
    {
        match noted.outcome {
            Some(Outcome::Report { .. }) => self.two_sided = more(self.two_sided),
            Some(Outcome::Unknown { .. }) => self.unknown = more(self.unknown),
            Some(Outcome::Dropped(Reason::Encoding)) => self.encoding = more(self.encoding),
            Some(Outcome::Dropped(Reason::SameValue)) => self.same = more(self.same),
            Some(Outcome::Dropped(Reason::MaskedBits)) => self.masked = more(self.masked),
            Some(Outcome::Capacity) => self.capacity = more(self.capacity),
            Some(Outcome::Unencodable) => self.unencodable = more(self.unencodable),
            _ => {}
        }
    }

    /// Those of another task are added.
    #[inline(always)]
    pub fn add(&mut self, other: &Counters)
        ensures arms { self.new.arms ≡ together self.old.arms other.now.arms }
        ensures quiet { self.new.quiet ≡ together self.old.quiet other.now.quiet }
        ensures taken { self.new.taken ≡ together self.old.taken other.now.taken }
        ensures lost { self.new.lost ≡ together self.old.lost other.now.lost }
        ensures two_sided { self.new.two_sided ≡ together self.old.two_sided other.now.two_sided }
        ensures unknown { self.new.unknown ≡ together self.old.unknown other.now.unknown }
        ensures encoding { self.new.encoding ≡ together self.old.encoding other.now.encoding }
        ensures same { self.new.same ≡ together self.old.same other.now.same }
        ensures masked { self.new.masked ≡ together self.old.masked other.now.masked }
        ensures capacity { self.new.capacity ≡ together self.old.capacity other.now.capacity }
        ensures unencodable { self.new.unencodable ≡ together self.old.unencodable other.now.unencodable }
    {
        self.arms = self.arms.saturating_add(other.arms);
        self.quiet = self.quiet.saturating_add(other.quiet);
        self.taken = self.taken.saturating_add(other.taken);
        self.lost = self.lost.saturating_add(other.lost);
        self.two_sided = self.two_sided.saturating_add(other.two_sided);
        self.unknown = self.unknown.saturating_add(other.unknown);
        self.encoding = self.encoding.saturating_add(other.encoding);
        self.same = self.same.saturating_add(other.same);
        self.masked = self.masked.saturating_add(other.masked);
        self.capacity = self.capacity.saturating_add(other.capacity);
        self.unencodable = self.unencodable.saturating_add(other.unencodable);
    }
}
