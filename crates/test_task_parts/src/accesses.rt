//! One access of each kind over a board, step by step.

use crate::fault::{Fault, written};
use crate::notation::{Phrase, cut, kind_of, push_flag, push_step, push_two};
use crate::script::{Asked, Made, Scripted, begin_word, came_of, make_other, push_made};
use access_run::AccessRun;
use access_run::memory_operation::Operation;
use access_types::{Access, Kind, Sites};
use setup_access::{Checker, Rules};
use slot_table::{Board, PlainBoard, Shape};
use std::alloc::{AllocError, Global};
use watch_word::Layout;

/// The cell of x, whose first four bytes the accesses touch.
const CELL: u64 = 0x1122_3344_5566_7788;

const CELLS: [u64; 1] = [0x10000];

const RULES: Rules = Rules {
    slots: 64,
    skip: 0,
    randomize: false,
    seed: 1,
    value_change_only: true,
    plain_writes_atomic: false,
    layout: Layout::W64,
    turns: 2,
};

/// A task with an access under way, both also as they were when it began, and the board.
#[derive(Drop)]
struct Scene {
    board: PlainBoard,
    sites: Sites,
    first: (Checker, AccessRun),
    checker: Checker,
    run: AccessRun,
}

/// What comes of an access of task 1: `KIND OPERATION`, or `KIND -` where it leaves memory alone. Its reports are
/// disabled or not.
pub fn access(alloc: Global, start: &str, script: &str, silenced: bool) -> Result<String, Fault> {
    let (kind, operation) = cut(start, ' ')?;
    let operation = operation_of(operation)?;
    let mut scene = begun(alloc, kind_of(kind)?, operation, silenced)?;
    let came = came_of(alloc, script, &mut scene);
    // By a call: where it goes out of scope, the proof follows the drop of all that is in it.
    drop(scene);
    came
}

/// What an access does to memory; `-` for nothing.
fn operation_of(text: &str) -> Result<Option<Operation>, Fault> {
    if text == "-" {
        return Ok(None);
    }
    Ok(Some(Phrase::read(text).operation()?))
}

impl Scripted for Scene {
    fn goes_on(&mut self, came: &mut String, word: &str) -> Result<(), Fault> {
        goes_on(came, self, word)
    }
}

/// Task 1 begins an access.
fn begun(
    alloc: Global,
    kind: Kind,
    operation: Option<Operation>,
    silenced: bool,
) -> Result<Scene, Fault> {
    let shape = Shape {
        slots: 64,
        tasks: 2,
        locks: 0,
        cells: &[CELL],
    };
    let access = Access::new(1, 0, 0x10000, 4, kind, None)?;
    if access.size() == 0 {
        return Err(Fault::NoRow);
    }
    let mut checker = Checker::new(alloc, 1, &RULES, &CELLS)?;
    if silenced {
        checker.context().disable();
    }
    let run = AccessRun::begin(&mut checker, &access, operation);
    Ok(Scene {
        board: PlainBoard::new(alloc, shape)?,
        sites: Sites::new(alloc),
        first: (checker.copy(alloc)?, run),
        checker,
        run,
    })
}

/// What comes at a word of an access's script.
fn goes_on(came: &mut String, scene: &mut Scene, word: &str) -> Result<(), Fault> {
    let phrase = match begin_word(came, word)? {
        Asked::Step => return written(push_made(came, make_next(scene))),
        Asked::Question(phrase) => phrase,
    };
    let run = scene.run;
    let pushed = match phrase.name {
        "over" => push_flag(came, run.is_over()),
        "stuck" => push_flag(came, run.stuck(&scene.checker)),
        "next" => push_step(came, run.next(&scene.checker)),
        "effect" => push_two(came, run.effect().read, run.effect().written),
        "stamps" => push_two(came, run.stamps().begin, run.stamps().end),
        "outcomes" => push_outcomes(came, &scene.checker),
        "as_first" => push_as_first(came, scene),
        "opens" => {
            scene.checker.open_scoped();
            Ok(())
        }
        _ => return make_other(came, &mut scene.board, phrase),
    };
    written(pushed)
}

/// Writes what came of the checks.
fn push_outcomes(came: &mut String, checker: &Checker) -> Result<(), AllocError> {
    let outcomes = checker.outcomes();
    write!(came, "{outcomes:?}")
}

/// Writes whether the checker stands as when the access began, the access too, and whether this is still the last one.
fn push_as_first(came: &mut String, scene: &Scene) -> Result<(), AllocError> {
    let (checker, run) = &scene.first;
    push_flag(came, scene.checker.state_eq(checker))?;
    came.push(',')?;
    push_flag(came, scene.run.state_eq(run))?;
    came.push(',')?;
    push_flag(came, scene.checker.began_as(checker))
}

/// Makes the step that the access says. It says none where it is over or stuck.
fn make_next(scene: &mut Scene) -> Option<Made> {
    if scene.run.is_over() || scene.run.stuck(&scene.checker) {
        return None;
    }
    let Some(step) = scene.run.next(&scene.checker) else {
        return None;
    };
    if !scene.board.has(step) {
        return None;
    }
    let answer = scene.board.step(step);
    scene.run.answer(&mut scene.checker, answer, &scene.sites);
    Some((step, answer))
}
