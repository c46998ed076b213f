//! What a run keeps of its takings.

use crate::same::same;
use access_types::takes::Take;

#[test]
fn takings_read_back(rt: HostRuntime) {
    let take = Take::new(65537, 17, 1);
    same(&rt, take.finder(), 65537);
    same(&rt, take.index(), 17);
    same(&rt, take.setter(), 1);
}
