//! The calls on one watch word.

use crate::same::same;
use slot::Slot;

const READ: u64 = 0x0008_0000_0001_0000;

const WRITE: u64 = 0x8008_0000_0001_0000;

/// The watch words 0, 1, `READ` and `WRITE`.
fn slots() -> [Slot; 4] {
    let mut consumed = Slot::new();
    let _ = consumed.consume();
    let mut read = Slot::new();
    let _ = read.insert(READ);
    let mut write = Slot::new();
    let _ = write.insert(WRITE);
    [Slot::new(), consumed, read, write]
}

#[test]
fn slots_hold_their_words(rt: HostRuntime) {
    let [empty, consumed, read, write] = slots();
    let words = [empty.load(), consumed.load(), read.load(), write.load()];
    same(&rt, words, [0, 1, READ, WRITE]);
    same(&rt, Slot::default(), Slot::new());
}

/// What a slot answers to `insert`, and its word then.
fn inserted(mut slot: Slot) -> (bool, u64) {
    let answer = slot.insert(READ);
    (answer, slot.load())
}

#[test]
fn insert_fills_an_empty_slot_only(rt: HostRuntime) {
    let [empty, consumed, read, write] = slots();
    same(&rt, inserted(empty), (true, READ));
    same(&rt, inserted(consumed), (false, 1));
    same(&rt, inserted(read), (false, READ));
    same(&rt, inserted(write), (false, WRITE));
}

/// What a slot answers to `try_consume`, and its word then.
fn tried(mut slot: Slot) -> (bool, u64) {
    let answer = slot.try_consume(READ);
    (answer, slot.load())
}

#[test]
fn try_consume_takes_its_word_only(rt: HostRuntime) {
    let [empty, consumed, read, write] = slots();
    same(&rt, tried(empty), (false, 0));
    same(&rt, tried(consumed), (false, 1));
    same(&rt, tried(read), (true, 1));
    same(&rt, tried(write), (false, WRITE));
}

/// What a slot answers to `consume`, and its word then.
fn consumed(mut slot: Slot) -> (bool, u64) {
    let answer = slot.consume();
    (answer, slot.load())
}

#[test]
fn consume_tells_an_untouched_watchpoint(rt: HostRuntime) {
    let [empty, taken, read, write] = slots();
    same(&rt, consumed(empty), (false, 1));
    same(&rt, consumed(taken), (false, 1));
    same(&rt, consumed(read), (true, 1));
    same(&rt, consumed(write), (true, 1));
}

#[test]
fn remove_empties_any_slot(rt: HostRuntime) {
    for mut slot in slots() {
        slot.remove();
        same(&rt, slot.load(), 0);
    }
}
