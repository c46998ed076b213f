//! Watchpoints that were set up and taken, with the accesses that they are about.

ghost use Rattle.std.specs.Prelude.{IfOk, List};
ghost use Rattle.std.specs.List.{AllByRecursion, AllZip};
ghost use Rattle.access_types.specs.Stamped as spec;
ghost use Rattle.timeline.specs.picture.Named.{AreNamed};
ghost use Rattle.timeline.specs.picture.Sound.{ArmHolds, TakeHolds};
ghost use Rattle.timeline.specs.picture.Watches.{IsTakingOf, IsWatchOf};

use crate::picture::named::Named;
use access_types::{Arm, Stamped, Take};
use std::alloc::{AllocError, Global};

/// A watchpoint that was set up, the access that did, and the one that took it, if one did.
#[derive(Clone, Copy)]
pub struct Watch {
    pub arm: Arm,
    pub setter: Stamped,
    pub finder: Option<Stamped>,
}

/// A watchpoint that was taken, with the access that took it and the one that had set it up.
#[derive(Clone, Copy)]
pub struct Taking {
    pub take: Take,
    pub finder: Stamped,
    pub setter: Stamped,
}

/// The watchpoints of arms, in their order.
pub(crate) fn watches(alloc: Global, named: &Named, arms: &[Arm]) -> Result<Vec<Watch>, AllocError>
    requires { (accesses : List spec.Stamped) × AreNamed accesses named.now × AllByRecursion (ArmHolds accesses) arms.now }
    ensures { (accesses : List spec.Stamped) → AreNamed accesses named.now → AllByRecursion (ArmHolds accesses) arms.now
        → IfOk result (λ watches. AllZip (IsWatchOf accesses) arms.now watches.items) }
{
    let mut watches = Vec::new(alloc);
    for arm in arms {
        watches.push(Watch {
            arm: *arm,
            setter: named.the(arm.setter()),
            finder: named.finder(arm.outcome()),
        })?;
    }
    Ok(watches)
}

/// The takings, in their order.
pub(crate) fn takings(
    alloc: Global,
    named: &Named,
    takes: &[Take],
) -> Result<Vec<Taking>, AllocError>
    requires { (accesses : List spec.Stamped) × AreNamed accesses named.now × AllByRecursion (TakeHolds accesses) takes.now }
    ensures { (accesses : List spec.Stamped) → AreNamed accesses named.now → AllByRecursion (TakeHolds accesses) takes.now
        → IfOk result (λ takings. AllZip (IsTakingOf accesses) takes.now takings.items) }
{
    let mut takings = Vec::new(alloc);
    for take in takes {
        takings.push(Taking {
            take: *take,
            finder: named.the(take.finder()),
            setter: named.the(take.setter()),
        })?;
    }
    Ok(takings)
}
