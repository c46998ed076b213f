//! The calls on one pair word.

use crate::same::same;
use slot::pair::Pair;

#[test]
fn names_both_sides(rt: HostRuntime) {
    let mut pair = Pair::new();
    pair.name(1);
    pair.tell(65537);
    same(&rt, pair.halves(), (1, 65537));
    same(&rt, pair, Pair::of(1, 65537));
    pair.clear();
    same(&rt, pair.halves(), (0, 0));
    same(&rt, pair, Pair::default());
}
