//! Tickets name accesses.

use crate::same::same;
use access_types::access::Access;
use access_types::kind::{Kind, Operation};
use access_types::tickets::{rep_of, site_of, task_of, ticket};
use std::test::Fail;

#[test]
fn tickets_name_accesses(rt: HostRuntime) -> Result<(), Fail> {
    for (task, site, rep, number) in [(1, 0, 0, 65537), (0, 0, 2, 3)] {
        assert!(rt; task < 16 && site < 256 && rep < 256);
        let read = Kind::Plain(Operation::Read);
        let access = Access::new_rep(task, site, rep, 0x10000, 4, read, None)?;
        same(&rt, ticket(&access), number);
        assert!(rt; number > 0);
        same(
            &rt,
            (task_of(number), site_of(number), rep_of(number)),
            (task, site, rep),
        );
    }
    Ok(())
}
