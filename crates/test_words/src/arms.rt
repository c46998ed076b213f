//! What a run keeps of its armings.

use crate::same::same;
use access_types::arms::{Arm, ArmOutcome, HitResult};

#[test]
fn armings_read_back(rt: HostRuntime) {
    for outcome in [
        ArmOutcome::Quiet,
        ArmOutcome::Origin,
        ArmOutcome::Hit {
            finder: 65537,
            result: HitResult::Report,
        },
    ] {
        let arm = Arm::new(1, 2, 17, 0x0008_0000_0001_0000, outcome);
        same(&rt, (arm.setter(), arm.number(), arm.index()), (1, 2, 17));
        same(&rt, arm.watch_word(), 0x0008_0000_0001_0000);
        same(&rt, arm.outcome(), outcome);
    }
}
