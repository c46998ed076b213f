//! What values say of a change, and the verdict.

use crate::same::{same, same_at};
use access_types::{Access, Claim, Kind, Operation, ValueChange};
use value_filter::values::{change, seen_change};
use value_filter::verdict::Change::{Maybe, Ruled, Seen};
use value_filter::verdict::Verdict::{Quiet, Report};
use value_filter::verdict::{Change, Reason, Verdict, judge};

const PLAIN: Kind = Kind::Plain(Operation::Read);

const BITS: Kind = Kind::Assert(Claim::NoWrites);

/// What the mask of an access and the values before and after it say.
const CHANGES: [(Option<u64>, Option<(u64, u64)>, Change); 8] = [
    (Some(0xf), Some((0, 16)), Ruled),
    (Some(0xf), Some((0, 1)), Seen),
    (Some(0xf), None, Ruled),
    (None, Some((5, 5)), Maybe),
    (None, Some((0, 16)), Seen),
    (None, None, Maybe),
    (Some(0), Some((0, 16)), Seen),
    (Some(0), None, Maybe),
];

#[test]
fn values_say_whether_they_changed(rt: HostRuntime) {
    for (mask, values, wanted) in &CHANGES {
        let access = Access::new(0, 0, 0x10000, 4, BITS, *mask);
        let access = access.expect(&rt, "an access");
        same_at(&rt, (*mask, *values), change(&access, *values), *wanted);
    }
}

#[test]
fn values_are_told_where_a_change_was_seen(rt: HostRuntime) {
    let told = Some(ValueChange { old: 0, new: 16 });
    for (change, values, wanted) in [
        (Seen, Some((0, 16)), told),
        (Seen, None, None),
        (Maybe, Some((5, 5)), None),
        (Ruled, Some((0, 16)), None),
    ] {
        same_at(&rt, (change, values), seen_change(change, values), wanted);
    }
}

const SAME_VALUE: Verdict = Verdict::Drop(Reason::SameValue);

const MASKED_BITS: Verdict = Verdict::Drop(Reason::MaskedBits);

/// The verdicts: taken with value-change-only on, taken with it off, and not taken.
const VERDICTS: [(Kind, u64, Change, [Verdict; 3]); 8] = [
    (BITS, 4, Ruled, [MASKED_BITS, MASKED_BITS, Quiet]),
    (BITS, 4, Seen, [Report, Report, Report]),
    (BITS, 4, Maybe, [Report, Report, Quiet]),
    (PLAIN, 4, Ruled, [MASKED_BITS, MASKED_BITS, Quiet]),
    (PLAIN, 4, Seen, [Report, Report, Report]),
    (PLAIN, 4, Maybe, [SAME_VALUE, Report, Quiet]),
    (PLAIN, 8, Maybe, [SAME_VALUE, Report, Quiet]),
    (PLAIN, 9, Maybe, [Report, Report, Quiet]),
];

#[test]
fn verdicts_are_those_of_the_table(rt: HostRuntime) {
    for (kind, size, change, wanted) in &VERDICTS {
        let setter = Access::new(0, 0, 0x10000, *size, *kind, None);
        let setter = setter.expect(&rt, "an access");
        let [changes_only, all, untaken] = *wanted;
        let judged = [
            judge(*change, &setter, true, true),
            judge(*change, &setter, true, false),
            judge(*change, &setter, false, true),
            judge(*change, &setter, false, false),
        ];
        same(&rt, judged, [changes_only, all, untaken, untaken]);
    }
}
