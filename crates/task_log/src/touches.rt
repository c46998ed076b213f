//! The accesses of a task, with their stamps.

ghost use Rattle.std.specs.Prelude.{◌≡◌, ◌≤◌, IfOk, vec_capacity, vec_len};
ghost use Rattle.std.specs.List.{filter_map};
ghost use Rattle.task_log.specs.Touches.{HasRoomToBegin, end_newest, stamped, touches_at};

use crate::noted::Noted;
use access_types::Stamped;
use setup_access::Begun;
use slot_table::{Answer, Step};
use std::alloc::{AllocError, Global};

/// An access that began, and that has ended or not.
#[derive(Clone, Copy)]
pub(crate) struct Touch {
    pub begun: Begun,
    /// The stamp of its begin.
    pub begin: u64,
    /// The stamp of its end.
    pub end: Option<u64>,
}

impl Touch {
    /// What is said of it once it has ended.
    fn stamped(&self) -> Option<Stamped>
        ensures { result ≡ stamped self.now }
    {
        let begun = self.begun;
        match self.end {
            Some(end) => Some(Stamped::new(
                begun.access,
                self.begin,
                end,
                begun.marked,
                begun.silenced,
            )),
            None => None,
        }
    }
}

/// The newest access that goes on ends.
fn end_newest(touches: &mut [Touch], stamp: u64)
    ensures { touches.new ≡ end_newest stamp touches.old }
{
    let mut left = touches.len();
    while left > 0 {
        left -= 1;
        if touches[left].end.is_none() {
            touches[left].end = Some(stamp);
            return;
        }
    }
}

/// A step is noted among the accesses. One that begins where there is no room for it isn't kept.
#[inline(always)]
pub(crate) fn note(touches: &mut Vec<Touch>, noted: &Noted)
    ensures items { HasRoomToBegin noted.now.step noted.now.answer noted.now.begins (vec_len touches.old) (vec_capacity touches.old)
        → touches.new.items ≡ touches_at noted.now.step noted.now.answer noted.now.begins touches.old.items }
    ensures room { vec_capacity touches.new ≡ vec_capacity touches.old }
{
    // Most steps aren't of the clock. For those not even the access that begins is read.
    if !matches!(noted.step, Step::Clock) {
        return;
    }
    match (noted.step, noted.answer, noted.begins) {
        (Step::Clock, Answer::Word(begin), Some(begun)) => {
            if touches.len() < touches.capacity() {
                touches.push_reserved(Touch {
                    begun,
                    begin,
                    end: None,
                });
            }
        }
        (Step::Clock, Answer::Word(stamp), None) => end_newest(touches.as_mut_slice(), stamp),
        _ => {}
    }
}

/// Those that have ended, in the order of their begins.
pub(crate) fn ended(alloc: Global, touches: &[Touch]) -> Result<Vec<Stamped>, AllocError>
    ensures { IfOk result (λ all. all.items ≡ filter_map stamped touches.now) }
{
    touches
        .iter()
        .filter_map(|touch| touch.stamped())
        .collect(alloc)
}
