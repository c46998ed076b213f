//! The kinds of an access, their flags and their words.

use crate::same::{same, same_at};
use access_types::kind::{Claim, Kind, KindError, Operation, words};
use std::process::Abort;

/// The flags (write, compound, marked, assert, scoped) make this kind, and it has them.
fn expect_flags(rt: &impl Abort, kind: Kind, flags: [bool; 5]) {
    let [write, compound, marked, assert, scoped] = flags;
    let made = Kind::new(write, compound, marked, assert, scoped);
    same(rt, made, Ok(kind));
    same_at(rt, kind, kind.write(), write);
    same_at(rt, kind, kind.is_compound(), compound);
    same_at(rt, kind, kind.is_marked(), marked);
    same_at(rt, kind, kind.is_assertion(), assert);
    same_at(rt, kind, kind.is_scoped(), scoped);
}

#[test]
fn kinds_have_their_flags(rt: HostRuntime) {
    for (operation, write, compound) in [
        (Operation::Read, false, false),
        (Operation::Write, true, false),
        (Operation::ReadWrite, true, true),
    ] {
        let flags = [write, compound, false, false, false];
        expect_flags(&rt, Kind::Plain(operation), flags);
        let flags = [write, compound, true, false, false];
        expect_flags(&rt, Kind::Marked(operation), flags);
    }
    for (claim, write) in [(Claim::NoWrites, false), (Claim::NoAccesses, true)] {
        let flags = [write, false, false, true, false];
        expect_flags(&rt, Kind::Assert(claim), flags);
        let flags = [write, false, false, true, true];
        expect_flags(&rt, Kind::AssertScoped(claim), flags);
    }
}

/// What each kind is called.
const WORDS: [(Kind, &str); 10] = [
    (Kind::Plain(Operation::Read), "read"),
    (Kind::Plain(Operation::Write), "write"),
    (Kind::Plain(Operation::ReadWrite), "read-write"),
    (Kind::Marked(Operation::Read), "read (marked)"),
    (Kind::Marked(Operation::Write), "write (marked)"),
    (Kind::Marked(Operation::ReadWrite), "read-write (marked)"),
    (Kind::Assert(Claim::NoWrites), "assert no writes"),
    (Kind::Assert(Claim::NoAccesses), "assert no accesses"),
    (Kind::AssertScoped(Claim::NoWrites), "assert no writes"),
    (Kind::AssertScoped(Claim::NoAccesses), "assert no accesses"),
];

#[test]
fn kinds_have_their_words(rt: HostRuntime) {
    for (kind, text) in &WORDS {
        same(&rt, words(kind), *text);
    }
}

#[test]
fn ten_of_the_combinations_are_kinds(rt: HostRuntime) {
    let kinds = (0..32u32).filter(|flags| {
        Kind::new(
            flags & 1 != 0,
            flags & 2 != 0,
            flags & 4 != 0,
            flags & 8 != 0,
            flags & 16 != 0,
        )
        .is_ok()
    });
    same(&rt, kinds.count(), 10);
}

#[test]
fn other_flags_are_bad(rt: HostRuntime) {
    for [write, compound, marked, assert, scoped] in [
        [false, true, false, false, false],
        [true, false, false, false, true],
        [true, true, false, true, false],
        [true, false, true, true, false],
    ] {
        let kind = Kind::new(write, compound, marked, assert, scoped);
        same(&rt, kind, Err(KindError::BadKind));
    }
}
