//! A slow plain program beside the definition of a check: are these records all of one, and with
//! which outcomes? It makes no step, and knows of its checker only what the checker's contracts say.

ghost use Rattle.std.specs.Prelude.{◌≡◌, ◌≤◌, ◌<◌, ◌↔◌, [], ℕ, List, IfOk, IsTrue};
ghost use Rattle.access_types.specs.Sites.{AccessMap};
ghost use Rattle.slot_table.specs.Answer.{Answers, IsFlag, IsHalves, IsWord};
ghost use Rattle.slot_table.specs.declared.records.Record.{Record};
ghost use Rattle.slot_table.specs.declared.step.Step.{Step};
ghost use Rattle.task_context.specs.Context.{idle};
ghost use Rattle.setup_access.specs.Checker.{Checks, Doing};
ghost use Rattle.setup_access.specs.Leads.{Leads};
ghost use Rattle.setup_access.specs.OwnAccesses.{IsOwn};
ghost use Rattle.setup_access.specs.Setting as spec;
ghost use Rattle.setup_access.specs.Shown.{IsDecided};
ghost use Rattle.setup_access.specs.declared.begun.Begun.{Begun};
ghost use Rattle.oracle_steps.specs.oracle_checks.Reading.{IsMade, IsReading};

use access_types::{Access, Sites};
use setup_access::{Checker, CheckerError, Rules};
use slot_table::{Answer, Record, Step};
use std::alloc::Global;

/// What some records are of what a checker is about to do.
#[derive(Clone, Copy, Debug, PartialEq, Eq)]
pub enum Reading {
    /// All of it.
    Whole,
    /// Not all of it, or something else.
    Other,
    /// They are, or begin with, a beginning of it whose last wait had as many failed tries as the
    /// rules allow.
    Stuck,
}

fn is_word(answer: Answer) -> bool
    ensures { IsTrue result ↔ IsWord answer }
{
    matches!(answer, Answer::Word(_))
}

fn is_flag(answer: Answer) -> bool
    ensures { IsTrue result ↔ IsFlag answer }
{
    matches!(answer, Answer::Flag(_))
}

/// Whether the answer is of the step's kind.
fn answers(step: Step, answer: Answer) -> bool
    ensures { IsTrue result ↔ Answers step answer }
{
    match step {
        Step::Load(_) | Step::CellLoad(_) | Step::Clock => is_word(answer),
        Step::Insert(..) | Step::TryConsume(..) | Step::Consume(_) | Step::LockTry(..) => {
            is_flag(answer)
        }
        Step::PairLoad(_) => matches!(answer, Answer::Halves(..)),
        Step::CellExchange(..) => answer == Answer::Flag(true) || is_word(answer),
        Step::Remove(_) | Step::Name(..) | Step::Tell(..) | Step::Clear(_) | Step::LockStore(_) => {
            answer == Answer::Done
        }
    }
}

/// Whether the record is this step of the task.
fn is_made(latest: Record, task: u32, step: Step) -> bool
    ensures { IsTrue result ↔ IsMade latest task step }
{
    latest.task == task && latest.step == step && answers(step, latest.answer)
}

/// What these records, the oldest first, are of what the checker of this task is about to do. After
/// `Whole` it has their outcomes.
pub fn read_on(checker: &mut Checker, sites: &Sites, task: u32, records: &[Record]) -> Reading
    ensures { (s : spec.Setting) (scopes : List Begun) (doing : Doing) (asked : ℕ)
        → s.sites ≡ sites.now → s.task ≡ task → Leads s scopes doing asked [] checker.old
        → IsReading s scopes doing asked records.now checker.new result }
{
    for latest in records {
        if checker.stuck() {
            return Reading::Stuck;
        }
        let Some(step) = checker.next() else {
            return Reading::Other;
        };
        if !is_made(*latest, task, step) {
            return Reading::Other;
        }
        checker.answer(latest.answer, sites);
    }
    if checker.stuck() {
        return Reading::Stuck;
    }
    if checker.next().is_none() {
        Reading::Whole
    } else {
        Reading::Other
    }
}

/// What these records, the oldest first, are of the check of a task's first access, with no scoped
/// assertion in force; and the checker that has read them.
pub fn read_check(
    alloc: Global,
    rules: &Rules,
    cells: &[u64],
    sites: &Sites,
    access: &Access,
    records: &[Record],
) -> Result<(Reading, Checker), CheckerError>
    requires has_bytes { 0 < access.now.size }
    requires task_limit { access.now.task ≤ 15 }
    ensures { let s : spec.Setting = record { task = access.now.task; rules = rules.now; cells = cells.now; sites = sites.now } in
        IsOwn s access.now → IfOk result (λ read. (begun : Begun) × (begun.access ≡ access.now) × IsDecided s idle begun
        × IsReading s [] (Checks begun) 0 records.now read.1 read.0) }
{
    let mut checker = Checker::new(alloc, access.task(), rules, cells)?;
    checker.begin(access);
    let reading = read_on(&mut checker, sites, access.task(), records);
    Ok((reading, checker))
}
