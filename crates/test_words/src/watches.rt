//! Watch words: what they say, and what they match.

use crate::same::same;
use access_types::{Access, AccessError, Claim, Kind, Operation};
use std::process::Abort;
use std::test::Fail;
use watch_word::layout::Layout;
use watch_word::watch::{Watch, decode, decode_in, encode, encode_in, matches, matches_in};

const READ: Kind = Kind::Plain(Operation::Read);

const WRITE: Kind = Kind::Plain(Operation::Write);

const CLAIM: Kind = Kind::Assert(Claim::NoAccesses);

fn access(kind: Kind, addr: u64, size: u64) -> Result<Access, AccessError> {
    Access::new(0, 0, addr, size, kind, None)
}

/// A watch of the one, as it is read from its word, matches the other.
fn meets(rt: &impl Abort, layout: Layout, watched: &Access, other: &Access) -> bool {
    let word = encode_in(layout, watched).expect(rt, "it can be watched");
    let watch = decode_in(layout, word).expect(rt, "it is watched");
    assert!(rt; other.size() > 0);
    matches_in(layout, &watch, other.addr(), other.size())
}

#[test]
fn words_and_what_they_say(rt: HostRuntime) -> Result<(), Fail> {
    for (kind, write, addr, size, wide, narrow) in [
        (READ, false, 0x10000, 4, 0x0008_0000_0001_0000, 0x0009_0000),
        (WRITE, true, 0x10000, 4, 0x8008_0000_0001_0000, 0x8009_0000),
        (CLAIM, true, 0x10000, 4, 0x8008_0000_0001_0000, 0x8009_0000),
        (WRITE, true, 4096, 8192, 0xC000_0000_0000_1000, 0xC000_1000),
    ] {
        let access = access(kind, addr, size)?;
        let watch = Some(Watch { write, size, addr });
        same(&rt, encode(&access), Some(wide));
        same(&rt, encode_in(Layout::W64, &access), Some(wide));
        same(&rt, encode_in(Layout::W32, &access), Some(narrow));
        same(&rt, decode(wide), watch);
        same(&rt, decode_in(Layout::W64, wide), watch);
        same(&rt, decode_in(Layout::W32, narrow), watch);
    }
    Ok(())
}

#[test]
fn some_accesses_have_no_word(rt: HostRuntime) -> Result<(), Fail> {
    for (addr, size) in [(4095, 4), (0x10000, 8193), (0x10000, 0)] {
        let access = access(READ, addr, size)?;
        same(&rt, encode(&access), None);
        same(&rt, encode_in(Layout::W32, &access), None);
    }
    Ok(())
}

#[test]
fn some_words_say_nothing(rt: HostRuntime) {
    for (wide, narrow) in [
        (0, 0),
        (1, 1),
        (0x0000_0000_0001_0000, 0x0001_0000),
        (0x4002_0000_0001_0000, 0x4003_0000),
    ] {
        same(&rt, decode(wide), None);
        same(&rt, decode_in(Layout::W32, narrow), None);
    }
    same(&rt, decode_in(Layout::W32, 0x1_0009_0000), None);
}

#[test]
fn masked_ranges_match(rt: HostRuntime) -> Result<(), Fail> {
    for (watched, other, wide, narrow) in [
        ((0x10000, 4), (0x10003, 4), true, true),
        ((0x10000, 4), (0x10004, 4), false, false),
        ((0x1fffc, 16), (0x20000, 4), true, false),
        ((0x10000, 4), (0x50000, 4), false, true),
        ((0x10000, 4), (0x2_0000_0001_0000, 4), true, true),
    ] {
        let watched = access(WRITE, watched.0, watched.1)?;
        let other = access(READ, other.0, other.1)?;
        same(&rt, meets(&rt, Layout::W64, &watched, &other), wide);
        same(&rt, meets(&rt, Layout::W32, &watched, &other), narrow);
    }
    Ok(())
}

#[test]
fn matches_is_for_words_of_64_bits(rt: HostRuntime) {
    let watch = Watch {
        write: true,
        size: 16,
        addr: 0x1fffc,
    };
    assert!(rt; matches(&watch, 0x20000, 4));
}
