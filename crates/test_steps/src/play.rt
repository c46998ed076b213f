//! Tasks of a program make their steps on plain words.

ghost use Rattle.std.specs.Prelude.{IfOk};
ghost use Rattle.litmus_syntax.specs.Limits.{KeepsLimits};
ghost use Rattle.litmus_syntax.specs.Views.{program_of};

use crate::notation::Story;
use litmus_parse::{ParseError, Program, parse};
use prepared_program::program_sites::{Prepared, RunError, Settings};
use prepared_program::step_schedule::{Entry, Schedule};
use slot_table::{Answer, Board, BoardError, PlainBoard, Shape, Step};
use std::alloc::{AllocError, Global};
use task_run::TaskRun;
use thiserror::Error;

/// A program has so many tasks at most.
const TASKS: u32 = 16;

/// A litmus text, what its tasks go by, and which of them makes how many steps.
#[derive(Drop)]
pub struct Scene {
    pub text: String,
    pub settings: Settings,
    pub schedule: Schedule,
}

/// Why a text isn't played.
#[derive(Clone, Copy, Debug, Error)]
pub enum PlayError {
    #[error("out of memory")]
    OutOfMemory,
    #[error("refused: {0}")]
    Text(ParseError),
    #[error("{0}")]
    Task(RunError),
    #[error("there is no task {0}")]
    NoTask(u64),
    #[error("a step names a word that isn't there")]
    NoWord,
}

impl From<AllocError> for PlayError {
    fn from(_: AllocError) -> PlayError {
        PlayError::OutOfMemory
    }
}

impl From<ParseError> for PlayError {
    fn from(error: ParseError) -> PlayError {
        match error {
            ParseError::OutOfMemory => PlayError::OutOfMemory,
            error => PlayError::Text(error),
        }
    }
}

impl From<RunError> for PlayError {
    fn from(error: RunError) -> PlayError {
        match error {
            RunError::OutOfMemory => PlayError::OutOfMemory,
            error => PlayError::Task(error),
        }
    }
}

/// What the tasks of a scene did, in words.
pub fn played(alloc: Global, scene: &Scene) -> Result<String, PlayError> {
    let program = parsed(alloc, &scene.text)?;
    play(alloc, &program, scene)
}

/// The program that a text spells.
pub fn parsed(alloc: Global, text: &str) -> Result<Program, ParseError>
    ensures { IfOk result (λ program. KeepsLimits (program_of program)) }
{
    parse(alloc, text.as_bytes())
}

/// What the tasks of a program did, in words.
fn play(alloc: Global, program: &Program, scene: &Scene) -> Result<String, PlayError>
    requires { KeepsLimits (program_of program.now) }
{
    let mut board = first_words(alloc, program, scene)?;
    let mut runs = first_tasks(alloc, program, scene)?;
    let mut story = Story::new(alloc);
    for entry in scene.schedule.entries() {
        go(&mut board, runs.as_mut_slice(), entry, &mut story)?;
    }
    story.registers(runs.as_slice())?;
    story.cells(board.cells())?;
    story.ends(runs.as_slice())?;
    Ok(story.into_words())
}

/// The words of a program before its first step.
fn first_words(alloc: Global, program: &Program, scene: &Scene) -> Result<PlainBoard, RunError>
    requires { KeepsLimits (program_of program.now) }
{
    let prepared = Prepared::new(alloc, program, &scene.settings)?;
    let shape = Shape {
        slots: prepared.rules.slots,
        tasks: TASKS,
        locks: prepared.locks,
        cells: prepared.words.as_slice(),
    };
    match PlainBoard::new(alloc, shape) {
        Ok(board) => Ok(board),
        Err(BoardError::BadSlots) => Err(RunError::BadSlots),
        Err(BoardError::OutOfMemory) => Err(RunError::OutOfMemory),
    }
}

/// The tasks of a program before their first steps.
fn first_tasks<'a>(
    alloc: Global,
    program: &'a Program,
    scene: &Scene,
) -> Result<Vec<TaskRun<'a>>, RunError>
    requires { KeepsLimits (program_of program.now) }
{
    let mut runs = Vec::new(alloc);
    for number in 0..TASKS {
        let Some(run) = first_task(alloc, program, number, scene)? else {
            break;
        };
        if let Err(e) = runs.push(run) {
            return Err(AllocError::from(e).into());
        }
    }
    Ok(runs)
}

/// The task of a number before its first step, if there is one.
fn first_task<'a>(
    alloc: Global,
    program: &'a Program,
    number: u32,
    scene: &Scene,
) -> Result<Option<TaskRun<'a>>, RunError>
    requires { KeepsLimits (program_of program.now) }
{
    if number as usize >= program.tasks.as_slice().len() {
        return Ok(None);
    }
    let run = TaskRun::new(alloc, program, &scene.settings, number)?;
    Ok(Some(run))
}

/// The task of an entry makes so many steps, or up to its last.
fn go(
    board: &mut PlainBoard,
    runs: &mut [TaskRun<'_>],
    entry: &Entry,
    story: &mut Story,
) -> Result<(), PlayError> {
    for _ in 0..entry.steps {
        let Some((step, answer)) = make(board, runs, entry.task)? else {
            break;
        };
        story.step(entry.task, step, answer)?;
    }
    Ok(())
}

/// A task makes its next step, if it has one.
fn make(
    board: &mut PlainBoard,
    runs: &mut [TaskRun<'_>],
    number: u64,
) -> Result<Option<(Step, Answer)>, PlayError> {
    let task = number as usize;
    if task >= runs.len() {
        return Err(PlayError::NoTask(number));
    }
    let Some(step) = runs[task].next() else {
        return Ok(None);
    };
    if !board.has(step) {
        return Err(PlayError::NoWord);
    }
    let answer = board.step(step);
    runs[task].answer(step, answer);
    Ok(Some((step, answer)))
}
