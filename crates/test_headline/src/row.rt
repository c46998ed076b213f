//! Rows: programs of tasks, and in which order these make their steps.

use crate::lists::{Part, Program, TASKS};
use crate::refusal::Refusal;
use access_types::{Access, Claim, Kind, Operation};
use setup_access::Rules;
use std::alloc::Global;
use watch_word::Layout;

/// What a program is checked by where its row says nothing else.
const USUAL: Rules = Rules {
    slots: 64,
    skip: 0,
    randomize: false,
    seed: 1,
    value_change_only: true,
    plain_writes_atomic: true,
    layout: Layout::W64,
    turns: 1_000_000,
};

const READ: Kind = Kind::Plain(Operation::Read);

const WRITE: Kind = Kind::Plain(Operation::Write);

const WRITE_ONCE: Kind = Kind::Marked(Operation::Write);

const ASSERT: Kind = Kind::Assert(Claim::NoWrites);

const SCOPED: Kind = Kind::AssertScoped(Claim::NoWrites);

/// A program, and in which order its tasks make their steps.
#[derive(Drop)]
pub struct Row {
    pub program: Program,
    pub order: Vec<u32>,
}

impl Row {
    /// The row of `TASKS ; RULES ; ORDER`.
    pub fn read(alloc: Global, text: &str) -> Result<Row, Refusal> {
        let (tasks, rest) = text.split_once(" ; ").ok_or(Refusal::NoRow)?;
        let (rules, order) = rest.split_once(" ; ").ok_or(Refusal::NoRow)?;
        Ok(Row {
            program: program_of(tasks_of(alloc, tasks)?, rules)?,
            order: order_of(alloc, order)?,
        })
    }
}

/// The number of a word.
pub fn number(word: &str) -> Option<u32> {
    word.parse().ok()
}

/// The tasks of a text, with `|` between them.
fn tasks_of(alloc: Global, text: &str) -> Result<Vec<Vec<Part>>, Refusal> {
    let mut tasks = Vec::new(alloc);
    for task in text.split('|') {
        let parts = parts_of(alloc, tasks.len(), task)?;
        tasks.push(parts)?;
    }
    Ok(tasks)
}

/// What a task does, with commas between its parts.
fn parts_of(alloc: Global, task: usize, text: &str) -> Result<Vec<Part>, Refusal> {
    let mut parts = Vec::new(alloc);
    for part in text.split(',') {
        add_part(&mut parts, task, part.trim())?;
    }
    Ok(parts)
}

/// One part more: a word, and the value that it writes.
fn add_part(parts: &mut Vec<Part>, task: usize, text: &str) -> Result<(), Refusal> {
    let (word, value) = text.split_once(' ').unwrap_or((text, "0"));
    let value = u64::from(number(value).ok_or(Refusal::NoRow)?);
    let site = parts.len();
    match word {
        "reads" => parts.push(Part::Reads(access(task, site, READ)?))?,
        "writes" => parts.push(Part::Writes(access(task, site, WRITE)?, value))?,
        "writes-once" => parts.push(Part::Writes(access(task, site, WRITE_ONCE)?, value))?,
        "asserts" => parts.push(Part::Asserts(access(task, site, ASSERT)?))?,
        "asserts-scoped" => add_scope(parts, access(task, site, SCOPED)?)?,
        _ => return Err(Refusal::NoRow),
    }
    Ok(())
}

/// An assertion that begins, is put in force, and ends.
fn add_scope(parts: &mut Vec<Part>, scope: Access) -> Result<(), Refusal> {
    parts.push(Part::AssertsInScope(scope))?;
    parts.push(Part::Opens)?;
    parts.push(Part::Closes(scope))?;
    Ok(())
}

/// The access of a task, at a site, to the four bytes from 0x10000 on.
fn access(task: usize, site: usize, kind: Kind) -> Result<Access, Refusal> {
    if task >= TASKS || site >= 256 {
        return Err(Refusal::NoRow);
    }
    match Access::new(task as u32, site as u32, 0x10000, 4, kind, None) {
        Ok(access) => Ok(access),
        Err(_) => Err(Refusal::NoRow),
    }
}

/// The program of these tasks, checked by the rules of a text.
fn program_of(tasks: Vec<Vec<Part>>, text: &str) -> Result<Program, Refusal> {
    let mut rules = USUAL;
    let mut silenced = None;
    for rule in text.split(' ') {
        let (word, value) = rule.split_once('=').unwrap_or((rule, "0"));
        let value = number(value).ok_or(Refusal::NoRow)?;
        match word {
            "usual" => {}
            "same-values" => rules.value_change_only = false,
            "plain-writes" => rules.plain_writes_atomic = false,
            "turns" => rules.turns = u64::from(value),
            "silenced" => silenced = Some(value),
            _ => return Err(Refusal::NoRow),
        }
    }
    Ok(Program {
        tasks,
        silenced,
        rules,
    })
}

/// The order of a text: each task as often as it says, one after the other, as `0x7 1x9`.
fn order_of(alloc: Global, text: &str) -> Result<Vec<u32>, Refusal> {
    let mut order = Vec::new(alloc);
    for run in text.split(' ') {
        let (task, count) = run.split_once('x').ok_or(Refusal::NoRow)?;
        let task = number(task).ok_or(Refusal::NoRow)?;
        add_run(&mut order, task, number(count).ok_or(Refusal::NoRow)?)?;
    }
    Ok(order)
}

/// A task, so often.
fn add_run(order: &mut Vec<u32>, task: u32, count: u32) -> Result<(), Refusal> {
    for _ in 0..count {
        order.push(task)?;
    }
    Ok(())
}
