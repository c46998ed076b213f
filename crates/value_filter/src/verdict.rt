//! The verdict on a watch that is over: whether there is a report.

ghost use Rattle.std.specs.Prelude.{◌≡◌, ◌≢◌, Bool};
ghost use Rattle.access_types.specs.Access as spec;
ghost use Rattle.value_filter.specs.Verdict.{VerdictOf};

use access_types::Access;

/// What the values of an access's bytes, at the beginning and at the end of its watch, say of a
/// change.
#[derive(Clone, Copy, Debug, PartialEq, Eq)]
pub enum Change {
    /// They differ in a bit that counts.
    Seen,
    /// No change was seen, and there is no mask: the bytes may have been written all the same.
    Maybe,
    /// No change was seen in the bits of the mask, and no others count: a change is ruled out.
    Ruled,
}

/// Why an access that hit a watchpoint isn't reported.
#[derive(Clone, Copy, Debug, PartialEq, Eq)]
pub enum Reason {
    /// The two accesses share a watch word and no byte.
    Encoding,
    /// The value is the same as before, and only changes are reported.
    SameValue,
    /// No bit of the mask changed.
    MaskedBits,
}

/// What becomes of a watch.
#[derive(Clone, Copy, Debug, PartialEq, Eq)]
pub enum Verdict {
    /// A report: of two accesses where the watchpoint was hit, else of unknown origin.
    Report,
    /// The watchpoint was hit, and this isn't reported.
    Drop(Reason),
    /// The watchpoint wasn't hit, and no change was seen.
    Quiet,
}

/// The verdict on the setter's watch. `taken` says that the watchpoint was hit, by an access that
/// shares a byte with the setter: whether it does is for the caller to find out, and so the answer
/// is never `Reason::Encoding`. With `value_change_only`, as by KCSAN's option of this name, a hit
/// is reported only where a change was seen; but an access of more than 8 bytes is taken to have
/// changed, and an assertion is about accesses and not about values.
#[inline(always)]
pub fn judge(change: Change, setter: &Access, taken: bool, value_change_only: bool) -> Verdict
    ensures verdict { VerdictOf setter.now taken change value_change_only result }
    ensures not_encoding { result ≢ Verdict.Drop Reason.Encoding }
{
    match (taken, change) {
        (true, Change::Seen) => Verdict::Report,
        // As in KCSAN: who gives a mask expects others to change the bits outside it, so a change inside is asked for.
        (true, Change::Ruled) => Verdict::Drop(Reason::MaskedBits),
        // KCSAN assumes a change here: it compares no values of this size, and an assertion is broken by the access.
        (true, Change::Maybe) if setter.size() > 8 || setter.kind().is_assertion() =>
            Verdict::Report,
        // As in KCSAN's skip_report(): by the option a race is left out while nothing shows that the value changed.
        (true, Change::Maybe) if value_change_only => Verdict::Drop(Reason::SameValue),
        (true, Change::Maybe) => Verdict::Report,
        // KCSAN infers a race here: while an unmarked access is watched its bytes should not change.
        (false, Change::Seen) => Verdict::Report,
        (false, _) => Verdict::Quiet,
    }
}

/// Law: there is one verdict on each watch.
pub fn law_verdicts_are_unique()
    ensures { (setter : spec.Access) (taken : Bool) (change : Change) (value_change_only : Bool)
        (first second : Verdict) →
        VerdictOf setter taken change value_change_only first
        → VerdictOf setter taken change value_change_only second → first ≡ second }
{}
