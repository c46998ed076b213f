//! Accesses with their stamps.

use crate::same::same;
use access_types::access::Access;
use access_types::kind::{Kind, Operation};
use access_types::stamped::Stamped;
use std::test::Fail;

#[test]
fn stamped_accesses_read_back(rt: HostRuntime) -> Result<(), Fail> {
    let write = Access::new(1, 0, 0x10000, 4, Kind::Plain(Operation::Write), None)?;
    for (marked, silenced) in [(true, false), (false, true)] {
        let stamped = Stamped::new(write, 1, 2, marked, silenced);
        same(&rt, stamped.access(), write);
        same(&rt, (stamped.begin(), stamped.end()), (1, 2));
        same(
            &rt,
            (stamped.marked(), stamped.silenced()),
            (marked, silenced),
        );
    }
    Ok(())
}
