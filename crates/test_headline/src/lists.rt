//! Lists of steps that tasks make in any order on one board, and what these lists tell.

ghost use Rattle.std.specs.Prelude.{◌≤◌};

use crate::refusal::Refusal;
use access_types::{Access, Bytes, Happening, Mark, Moment, Sites, ticket};
use oracle_soundness::oracle_headline::armings::last_arming;
use oracle_soundness::oracle_headline::meetings::in_hand;
use oracle_soundness::oracle_headline::{Armed, Came, ToldExecution};
use setup_access::{Checker, Rules};
use slot_table::{Answer, Board, PlainBoard, Record, Shape, Step};
use std::alloc::{AllocError, Global};

/// So many tasks a board has.
pub const TASKS: usize = 4;

/// What a task does, one after the other.
#[derive(Clone, Copy)]
pub enum Part {
    /// It reads the bytes of an access.
    Reads(Access),
    /// It writes a value to the four bytes of an access at the front of the cell.
    Writes(Access, u64),
    /// An assertion.
    Asserts(Access),
    /// A scoped assertion begins.
    AssertsInScope(Access),
    /// It is put in force.
    Opens,
    /// It ends.
    Closes(Access),
}

/// How far a task is with a part.
#[derive(Clone, Copy, PartialEq, Eq)]
enum At {
    Before,
    Check,
    Load,
    Exchange(u64),
    End,
}

/// A task of a list.
#[derive(Drop)]
struct Task {
    checker: Checker,
    part: usize,
    at: At,
    outcomes: usize,
    /// The scoped assertion in force.
    scope: Option<Access>,
}

/// A list so far, in the order in which it is made.
#[derive(Drop)]
struct List {
    board: PlainBoard,
    sites: Sites,
    made: Vec<Record>,
    history: Vec<Moment>,
    outcomes: Vec<Came>,
}

/// The access of a part.
fn access_of(part: &Part) -> Option<Access> {
    match part {
        Part::Reads(access) => Some(*access),
        Part::Writes(access, _) => Some(*access),
        Part::Asserts(access) => Some(*access),
        Part::AssertsInScope(access) => Some(*access),
        Part::Closes(access) => Some(*access),
        Part::Opens => None,
    }
}

/// What a part writes.
fn value_of(part: &Part) -> Option<u64> {
    match part {
        Part::Writes(_, value) => Some(*value),
        _ => None,
    }
}

/// The records so far, the latest first.
fn latest_first(alloc: Global, made: &[Record]) -> Result<Vec<Record>, AllocError> {
    let mut records = Vec::new(alloc);
    for record in made.iter().rev() {
        records.push(*record)?;
    }
    Ok(records)
}

/// The arming that a task has in hand.
fn armed_by(alloc: Global, made: &[Record], task: u32) -> Result<Option<Armed>, AllocError> {
    let records = latest_first(alloc, made)?;
    let Some(hand) = in_hand(records.as_slice(), task) else {
        return Ok(None);
    };
    let index = hand.index;
    let number = last_arming(records.as_slice(), index);
    Ok(number.map(|number| Armed { index, number }))
}

/// Makes a step of memory or of the clock.
fn make_plain(list: &mut List, task: u32, step: Step) -> Result<Answer, Refusal> {
    if !list.board.has(step) {
        return Err(Refusal::OffBoard);
    }
    let answer = list.board.step(step);
    list.made.push(Record { task, step, answer })?;
    Ok(answer)
}

/// Makes the step that a checker says, if it says one, and gives it the answer.
fn make_checked(
    list: &mut List,
    task: u32,
    checker: &mut Checker,
) -> Result<Option<Step>, Refusal> {
    let Some(step) = checker.next() else {
        return Ok(None);
    };
    if !list.board.has(step) {
        return Err(Refusal::OffBoard);
    }
    let answer = list.board.step(step);
    checker.answer(answer, &list.sites);
    list.made.push(Record { task, step, answer })?;
    Ok(Some(step))
}

/// A moment of a task.
fn tell(list: &mut List, task: u32, happening: Happening) -> Result<(), Refusal> {
    list.history.push(Moment { task, happening })?;
    Ok(())
}

/// The outcome that fell at the last record, if one did: first that of the access, then that of the scope in force.
fn fell(
    alloc: Global,
    list: &mut List,
    number: u32,
    task: &mut Task,
    access: Access,
) -> Result<(), Refusal> {
    let Some(outcome) = task.checker.outcomes().get(task.outcomes).copied() else {
        return Ok(());
    };
    let arming = armed_by(alloc, list.made.as_slice(), number)?;
    let access = match task.scope {
        Some(scope) if task.outcomes > 0 => scope,
        _ => access,
    };
    list.outcomes.push(Came {
        access,
        outcome,
        arming,
    })?;
    task.outcomes += 1;
    Ok(())
}

/// What is told at a step of a check: the clock begins an access, or ends a scope.
fn note(
    alloc: Global,
    list: &mut List,
    number: u32,
    task: &mut Task,
    closes: bool,
    access: Access,
    step: Step,
) -> Result<(), Refusal> {
    if step == Step::Clock {
        if closes {
            tell(list, number, Happening::End(access))?;
        } else {
            tell(list, number, Happening::Begin(access))?;
        }
    }
    fell(alloc, list, number, task, access)
}

/// A part begins: its access is decided.
fn begin(task: &mut Task, part: &Part, access: Access) -> Result<(), Refusal> {
    task.outcomes = 0;
    task.at = At::Check;
    if closes(part) {
        task.scope = None;
        task.checker.close_scoped();
        return Ok(());
    }
    if access.size() == 0 {
        return Err(Refusal::NoBytes);
    }
    task.checker.begin(&access);
    Ok(())
}

/// Whether a part ends a scoped assertion.
fn closes(part: &Part) -> bool {
    matches!(part, Part::Closes(_))
}

/// What comes after a check.
fn after_check(part: &Part) -> At {
    match part {
        Part::Reads(_) | Part::Writes(..) => At::Load,
        Part::Asserts(_) => At::End,
        _ => At::Before,
    }
}

/// The word of the cell with a value in its first four bytes.
fn written(old: u64, value: Option<u64>) -> u64 {
    match value {
        Some(value) => (old & 0xffff_ffff_0000_0000) | (value & 0xffff_ffff),
        None => old,
    }
}

/// The step of memory or of the clock that a task makes.
fn own_step(at: At, value: Option<u64>) -> Step {
    match at {
        At::Load => Step::CellLoad(0),
        At::Exchange(old) => Step::CellExchange(0, old, written(old, value)),
        _ => Step::Clock,
    }
}

/// How far it is after that.
fn after_own(at: At, writes: bool, answer: Answer) -> At {
    match (at, answer) {
        (At::Load, Answer::Word(word)) if writes => At::Exchange(word),
        (At::Exchange(_), Answer::Word(word)) => At::Exchange(word),
        (At::Load | At::Exchange(_), _) => At::End,
        _ => At::Before,
    }
}

/// What a step of memory or of the clock comes to.
fn make_own(
    list: &mut List,
    number: u32,
    task: &mut Task,
    value: Option<u64>,
    access: Access,
) -> Result<(), Refusal> {
    let at = task.at;
    let step = own_step(at, value);
    let answer = make_plain(list, number, step)?;
    task.at = after_own(at, value.is_some(), answer);
    if step == Step::Clock {
        task.part = task.part.saturating_add(1);
        return tell(list, number, Happening::End(access));
    }
    if answer == Answer::Flag(true) {
        let bytes = Bytes {
            addr: access.addr(),
            size: access.size(),
        };
        return tell(list, number, Happening::Write(bytes, value.unwrap_or(0)));
    }
    Ok(())
}

/// What a try to make a step comes to.
enum Made {
    Step,
    Stuck,
    /// No step yet, but more can be tried.
    More,
}

/// Tries to make a step of a part.
fn try_make(
    alloc: Global,
    list: &mut List,
    number: u32,
    task: &mut Task,
    part: &Part,
    access: Access,
) -> Result<Made, Refusal> {
    if task.at == At::Before {
        begin(task, part, access)?;
    }
    if task.at != At::Check {
        make_own(list, number, task, value_of(part), access)?;
        return Ok(Made::Step);
    }
    if let Some(step) = make_checked(list, number, &mut task.checker)? {
        note(alloc, list, number, task, closes(part), access, step)?;
        return Ok(Made::Step);
    }
    if task.checker.stuck() {
        return Ok(Made::Stuck);
    }
    task.at = after_check(part);
    if task.at == At::Before {
        task.part = task.part.saturating_add(1);
    }
    Ok(Made::More)
}

/// The scoped assertion before a part is put in force.
fn open(task: &mut Task, parts: &[Part]) {
    if task.part > 0 {
        task.scope = match parts.get(task.part - 1) {
            Some(part) => access_of(part),
            None => None,
        };
    }
    task.checker.open_scoped();
    task.part = task.part.saturating_add(1);
}

/// Makes the step that a task makes next; whether there is one.
fn make(
    alloc: Global,
    list: &mut List,
    number: u32,
    task: &mut Task,
    parts: &[Part],
) -> Result<bool, Refusal> {
    for _ in 0..8 {
        let Some(part) = parts.get(task.part) else {
            return Ok(false);
        };
        let Some(access) = access_of(part) else {
            open(task, parts);
            continue;
        };
        match try_make(alloc, list, number, task, part, access)? {
            Made::Step => return Ok(true),
            Made::Stuck => return Ok(false),
            Made::More => {}
        }
    }
    Ok(false)
}

/// What the tasks do, each one thing after the other, and how it is checked.
#[derive(Drop)]
pub struct Program {
    pub tasks: Vec<Vec<Part>>,
    /// The task whose reports are turned off, if it is one.
    pub silenced: Option<u32>,
    pub rules: Rules,
}

/// The accesses of a program.
fn accesses_of(alloc: Global, program: &Program) -> Result<Vec<Access>, Refusal> {
    let mut accesses = Vec::new(alloc);
    for parts in program.tasks.as_slice() {
        add_accesses(&mut accesses, parts.as_slice())?;
    }
    Ok(accesses)
}

/// Adds the accesses of a task. A scoped assertion that ends is no other than the one that began.
fn add_accesses(accesses: &mut Vec<Access>, parts: &[Part]) -> Result<(), Refusal> {
    for part in parts {
        if closes(part) {
            continue;
        }
        if let Some(access) = access_of(part) {
            accesses.push(access)?;
        }
    }
    Ok(())
}

/// The accesses by their tickets.
fn sites_of(alloc: Global, accesses: &[Access]) -> Result<Sites, Refusal> {
    let mut sites = Sites::new(alloc);
    for access in accesses {
        if sites.get(ticket(access)).is_some() {
            return Err(Refusal::EqualTickets);
        }
        sites.add(access)?;
    }
    Ok(sites)
}

/// A list with no steps.
fn first_list(alloc: Global, accesses: &[Access]) -> Result<List, Refusal> {
    let shape = Shape {
        slots: 64,
        tasks: TASKS as u32,
        locks: 0,
        cells: &[0],
    };
    Ok(List {
        board: PlainBoard::new(alloc, shape)?,
        sites: sites_of(alloc, accesses)?,
        made: Vec::new(alloc),
        history: Vec::new(alloc),
        outcomes: Vec::new(alloc),
    })
}

/// A task before its first step.
fn first_task(
    alloc: Global,
    list: &mut List,
    number: u32,
    program: &Program,
) -> Result<Task, Refusal>
    requires { number ≤ 15 }
{
    let mut checker = Checker::new(alloc, number, &program.rules, &[0x10000])?;
    if program.silenced == Some(number) {
        checker.context().disable();
        tell(list, number, Happening::Mark(Mark::Disable))?;
    }
    Ok(Task {
        checker,
        part: 0,
        at: At::Before,
        outcomes: 0,
        scope: None,
    })
}

/// A program as it goes: the list so far, how many moments were told by each number of steps, and its tasks.
#[derive(Drop)]
struct Going {
    accesses: Vec<Access>,
    list: List,
    moments: Vec<usize>,
    tasks: Vec<Task>,
}

/// Before the first step.
fn start(alloc: Global, program: &Program) -> Result<Going, Refusal> {
    let accesses = accesses_of(alloc, program)?;
    let mut list = first_list(alloc, accesses.as_slice())?;
    let mut tasks = Vec::new(alloc);
    for number in 0..program.tasks.len() {
        if number >= TASKS {
            return Err(Refusal::NoRow);
        }
        tasks.push(first_task(alloc, &mut list, number as u32, program)?)?;
    }
    let mut moments = Vec::new(alloc);
    moments.push(list.history.len())?;
    Ok(Going {
        accesses,
        list,
        moments,
        tasks,
    })
}

/// One more step, of this task; whether it has one.
fn go_on(
    alloc: Global,
    program: &Program,
    going: &mut Going,
    number: u32,
) -> Result<bool, Refusal> {
    let place = number as usize;
    let (Some(parts), Some(task)) = (program.tasks.get(place), going.tasks.get_mut(place)) else {
        return Ok(false);
    };
    if !make(alloc, &mut going.list, number, task, parts.as_slice())? {
        return Ok(false);
    }
    going.moments.push(going.list.history.len())?;
    Ok(true)
}

/// Whether all tasks have ended.
fn have_ended(program: &Program, tasks: &[Task]) -> bool {
    let parts = program.tasks.iter();
    parts
        .zip(tasks.iter())
        .all(|(parts, task)| parts.len() <= task.part)
}

/// What the list tells.
fn told_of(alloc: Global, program: &Program, going: Going) -> Result<ToldExecution, Refusal> {
    let Going {
        accesses,
        list,
        moments,
        tasks,
    } = going;
    let ended = have_ended(program, tasks.as_slice());
    let records = latest_first(alloc, list.made.as_slice())?;
    let List {
        history,
        outcomes,
        ..
    } = list;
    Ok(ToldExecution {
        atomic: program.rules.plain_writes_atomic,
        accesses,
        records,
        history,
        moments,
        outcomes,
        ended,
    })
}

/// Makes the steps of an order.
fn go_on_by(
    alloc: Global,
    program: &Program,
    going: &mut Going,
    order: &[u32],
) -> Result<(), Refusal> {
    for number in order {
        if !go_on(alloc, program, going, *number)? {
            return Err(Refusal::NoStep);
        }
    }
    Ok(())
}

/// The list that the tasks make in this order, and what it tells.
pub fn play(alloc: Global, program: &Program, order: &[u32]) -> Result<ToldExecution, Refusal> {
    let mut going = start(alloc, program)?;
    go_on_by(alloc, program, &mut going, order)?;
    told_of(alloc, program, going)
}

/// The list that two tasks make in this order, and then each as long as it has a step, the first before the second,
/// and what it tells. The order is then that of the whole list.
pub fn play_out(
    alloc: Global,
    program: &Program,
    order: &mut Vec<u32>,
) -> Result<ToldExecution, Refusal> {
    let mut going = start(alloc, program)?;
    go_on_by(alloc, program, &mut going, order.as_slice())?;
    for _ in 0..1000 {
        let number = if go_on(alloc, program, &mut going, 0)? {
            0
        } else if go_on(alloc, program, &mut going, 1)? {
            1
        } else {
            return told_of(alloc, program, going);
        };
        order.push(number)?;
    }
    Err(Refusal::NoEnd)
}
