//! What is said of waits for locks.

ghost use Rattle.std.specs.Prelude.{◌≡◌, ◌≤◌, ℕ, IfOk, IfSome, List, length};
ghost use Rattle.source_places.specs.deadlocks.Lines as spec;
ghost use Rattle.source_places.specs.deadlocks.Lines.{AreWaitLines, IsWaitLine};

use crate::deadlocks::calls::{LockCall, place_of_call};
use crate::deadlocks::waits::LockWait;
use litmus_syntax::{Contents, Variable};
use output_pieces::TextBuilder;
use output_pieces::spots::spot_text;
use program_table::text_pieces::shown;
use std::alloc::{AllocError, Global};

/// By what waits are told of: the name of a litmus file, its text, the calls in it that take locks, and the variables of
/// its program.
#[derive(Clone, Copy)]
pub struct Sources<'a> {
    pub file: &'a [u8],
    pub text: &'a [u8],
    pub calls: &'a [LockCall<'a>],
    pub variables: &'a [Variable],
}

/// The name of the lock of a number. Where there is none it has no name.
fn lock_name(variables: &[Variable], lock: usize) -> &str
    ensures { result.now ≡ spec.lock_name variables.now lock }
{
    match variables.split_first() {
        None => "",
        Some((variable, others)) => match (variable.contents, lock) {
            (Contents::Lock, 0) => variable.name.as_str(),
            (Contents::Lock, _) => lock_name(others, lock - 1),
            _ => lock_name(others, lock),
        },
    }
}

/// Where a task calls for a lock, if that is known.
fn place_words(
    alloc: Global,
    file: &[u8],
    text: &[u8],
    at: Option<usize>,
) -> Result<Vec<u8>, AllocError>
    requires { IfSome at (λ at. at ≤ length text.now) }
    ensures { IfOk result (λ words. words.items ≡ spec.place_words file.now text.now at) }
{
    match at {
        None => Ok(Vec::new(alloc)),
        Some(at) => spot_words(alloc, file, text, at),
    }
}

/// The place in a file.
#[tactic(auto, unfolding(crate::specs::deadlocks::Lines::spot_words))]
fn spot_words(alloc: Global, file: &[u8], text: &[u8], at: usize) -> Result<Vec<u8>, AllocError>
    requires { at ≤ length text.now }
    ensures { IfOk result (λ words. words.items ≡ spec.spot_words file.now text.now at) }
{
    TextBuilder::new(alloc)
        .piece(b" at ")
        .text(shown(alloc, file))
        .piece(b":")
        .text(spot_text(alloc, text, Some(at)))
        .build()
}

/// The line on a wait for a lock of this name, at this place.
#[tactic(auto, unfolding(crate::specs::deadlocks::Lines::wait_line))]
fn wait_line(
    alloc: Global,
    wait: LockWait,
    name: &str,
    place: Result<Vec<u8>, AllocError>,
) -> Result<Vec<u8>, AllocError>
    ensures { (own : List ℕ) → IfOk place (λ words. words.items ≡ own)
        → IfOk result (λ line. line.items ≡ spec.wait_line wait name.now own) }
{
    TextBuilder::new(alloc)
        .piece(b"task ")
        .number(wait.task)
        .piece(b" waits for ")
        .words(name)
        .text(place)
        .piece(b", held by task ")
        .number(wait.holder)
        .piece(b"\n")
        .build()
}

/// What is said of a wait.
fn told(alloc: Global, sources: Sources<'_>, wait: LockWait) -> Result<Vec<u8>, AllocError>
    ensures { IfOk result (λ line. IsWaitLine sources.entry.variables.now sources.entry.file.now sources.entry.text.now wait line.items) }
{
    let name = lock_name(sources.variables, wait.lock);
    let at = place_of_call(sources.text, sources.calls, wait.task, name);
    let place = place_words(alloc, sources.file, sources.text, at);
    wait_line(alloc, wait, name, place)
}

/// What is said of waits.
pub fn wait_lines(
    alloc: Global,
    sources: Sources<'_>,
    waits: &[LockWait],
) -> Result<Vec<u8>, AllocError>
    ensures { IfOk result (λ said. AreWaitLines sources.entry.variables.now sources.entry.file.now sources.entry.text.now waits.now said.items) }
{
    let mut text = Vec::new(alloc);
    for wait in waits {
        let line = told(alloc, sources, *wait)?;
        text.extend_from_slice(&line)?;
    }
    Ok(text)
}
