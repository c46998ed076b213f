//! Where an access looks and tries.

use crate::same::same;
use slot_table::index::{look_order, page_slot, try_order};

#[test]
fn indices_of_addresses(rt: HostRuntime) {
    let last = page_slot(0x3F000, 64);
    same(&rt, last, 63);
    same(&rt, look_order(last), [63, 64, 65]);
    same(&rt, try_order(last), [64, 65, 63]);
    same(&rt, page_slot(0x10000, 3), 1);
}
