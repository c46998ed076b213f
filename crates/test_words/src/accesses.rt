//! Accesses, their ranges, and which of them conflict.

use crate::same::same;
use access_types::access::{Access, AccessError, conflicts, overlaps};
use access_types::kind::{Claim, Kind, Operation};
use std::test::Fail;

const READ: Kind = Kind::Plain(Operation::Read);

const WRITE: Kind = Kind::Plain(Operation::Write);

const CLAIM: Kind = Kind::Assert(Claim::NoAccesses);

#[test]
fn accesses_read_back(rt: HostRuntime) -> Result<(), Fail> {
    let access = Access::new(1, 2, 0x10000, 4, WRITE, Some(0xff))?;
    same(&rt, (access.task(), access.site(), access.rep()), (1, 2, 0));
    same(&rt, (access.addr(), access.size()), (0x10000, 4));
    same(&rt, access.kind(), WRITE);
    same(&rt, access.mask(), Some(0xff));
    let access = Access::new_rep(0, 0, 2, 0x10000, 4, READ, Some(0))?;
    same(&rt, access.rep(), 2);
    same(&rt, access.mask(), None);
    Ok(())
}

#[test]
fn ranges_end_at_the_end_of_addresses(rt: HostRuntime) {
    let at_end = Access::new(0, 0, 1 << 63, 0, READ, None);
    assert!(rt; at_end.is_ok());
    let past_end = Access::new(0, 0, 1 << 63, 1, READ, None);
    same(&rt, past_end, Err(AccessError::RangeTooLong));
}

#[test]
fn conflicts_need_a_common_byte_and_a_write(rt: HostRuntime) -> Result<(), Fail> {
    for (kind, addr, wanted) in [
        (READ, 0x10003, (true, false)),
        (WRITE, 0x10003, (true, true)),
        (CLAIM, 0x10003, (true, true)),
        (WRITE, 0x10004, (false, false)),
    ] {
        let a = Access::new(0, 0, 0x10000, 4, READ, None)?;
        let b = Access::new(1, 0, addr, 4, kind, None)?;
        same(&rt, (overlaps(&a, &b), conflicts(&a, &b)), wanted);
        same(&rt, (overlaps(&b, &a), conflicts(&b, &a)), wanted);
    }
    Ok(())
}
