//! A world is stopped after each of its steps, beside one that is run to its end.

ghost use Rattle.litmus_syntax.specs.Limits.{KeepsLimits};
ghost use Rattle.litmus_syntax.specs.Views.{program_of};

use crate::words::{Fault, Words, index_of, number_of};
use access_types::Report;
use litmus_parse::Program;
use litmus_step::{Schedule, Settings, World};
use std::alloc::{AllocError, Global};

/// Where a run ended.
#[derive(Drop)]
struct Ended {
    steps: u64,
    reports: Vec<Report>,
}

/// What comes of a run by the words `SCHEDULE ORDER`, and of a world that is stopped after each step, where `ORDER` has
/// the tasks with the numbers of their steps: the steps and the reports of the run, then, where it is counted, at which
/// steps a watchpoint is set up, taken, and reported of two sides; `apart` where the world comes elsewhere.
pub fn stopped(
    alloc: Global,
    program: &Program,
    settings: &Settings,
    mut words: Words<'_>,
    counts: bool,
) -> Result<String, Fault>
    requires { KeepsLimits (program_of program.now) }
{
    let schedule = words.word()?;
    let order = words.word()?;
    let ended = ran(alloc, program, settings, schedule)?;
    let mut world = World::new(alloc, program, settings)?;
    let came = stops(alloc, &mut world, order, &ended, counts);
    // By a call: where it goes out of scope, the proof follows the drop of all that is in it.
    drop(world);
    came
}

/// Where a run by a schedule ends.
fn ran(
    alloc: Global,
    program: &Program,
    settings: &Settings,
    schedule: &str,
) -> Result<Ended, Fault>
    requires { KeepsLimits (program_of program.now) }
{
    let schedule = Schedule::parse(alloc, schedule)?.ok_or(Fault::NoRow)?;
    let mut world = World::new(alloc, program, settings)?;
    let ended = world.run(&schedule);
    let steps = world.steps();
    let reports = world.reports().to_vec(alloc);
    drop(world);
    ended?;
    Ok(Ended {
        steps,
        reports: reports?,
    })
}

/// What comes of a world that is stopped after each step.
fn stops(
    alloc: Global,
    world: &mut World<'_>,
    order: &str,
    ended: &Ended,
    counts: bool,
) -> Result<String, Fault> {
    let (steps, reports) = (ended.steps, ended.reports.len());
    let mut came = format!(in alloc; "{steps} {reports}")?;
    for turns in order.split(',') {
        let (task, count) = turns.split_once('x').ok_or(Fault::NoRow)?;
        makes(
            &mut came,
            world,
            index_of(task)?,
            number_of(count)?,
            ended,
            counts,
        )?;
    }
    if world.steps() != steps || world.reports() != ended.reports.as_slice() {
        came.push_str(" apart")?;
    }
    Ok(came)
}

/// A task makes so many steps, and the world is stopped after each.
fn makes(
    came: &mut String,
    world: &mut World<'_>,
    task: usize,
    count: u64,
    ended: &Ended,
    counts: bool,
) -> Result<(), Fault> {
    if task >= world.tasks() {
        return Err(Fault::NoRow);
    }
    for _step in 0..count {
        makes_one(came, world, task, ended, counts)?;
    }
    Ok(())
}

/// A task makes its next step, which is counted. What was reported by then is as long as before or longer by one, and a
/// beginning of the reports in the end.
fn makes_one(
    came: &mut String,
    world: &mut World<'_>,
    task: usize,
    ended: &Ended,
    counts: bool,
) -> Result<(), AllocError> {
    if task >= world.tasks() {
        return Ok(());
    }
    let (made, reported) = (world.steps(), world.reports().len());
    let before = world.counters();
    world.step(task);
    let (steps, reports) = (world.steps(), world.reports());
    let is_counted = steps == made.saturating_add(1);
    let is_told = reports.len() == reported || reports.len() == reported.saturating_add(1);
    if !is_counted || !is_told || !ended.reports.starts_with(reports) {
        write!(came, " apart@{steps}")?;
    }
    if !counts {
        return Ok(());
    }
    let now = world.counters();
    push_rise(came, "arms", before.arms, now.arms, steps)?;
    push_rise(came, "taken", before.taken, now.taken, steps)?;
    push_rise(came, "two_sided", before.two_sided, now.two_sided, steps)
}

/// Writes what is counted after so many steps, where that is not what was counted before.
fn push_rise(
    came: &mut String,
    name: &str,
    before: u64,
    now: u64,
    steps: u64,
) -> Result<(), AllocError> {
    if now == before {
        return Ok(());
    }
    write!(came, " {name}={now}@{steps}")
}
