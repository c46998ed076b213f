//! The words and the tasks of a program before its first step.

ghost use Rattle.std.specs.Prelude.{◌≡◌, ◌<◌, ◌≤◌, ◌*◌, [], ℕ, All, IfOk, Some, length, slice_get, slice_index_or, sum, vec_capacity};
ghost use Rattle.access_types.specs.Sites.{AccessMap};
ghost use Rattle.litmus_syntax.specs.Limits.{KeepsLimits};
ghost use Rattle.litmus_syntax.specs.Views.{program_of};
ghost use Rattle.executions.specs.execution.Run.{first_words};
ghost use Rattle.litmus_step.specs.Leads.{LeadsTask, LeadsTasks};
ghost use Rattle.prepared_program.specs.program_sites.Prepared.{IsPrepared, IsReady, sites_in};
ghost use Rattle.litmus_step.specs.Runs.{run_of};
ghost use Rattle.prepared_program.specs.declared.program_sites.settings.Settings.{Settings};
ghost use Rattle.task_log.specs.Keeps.{Keeps};
ghost use Rattle.task_log.specs.declared.log.TaskLog.{TaskLog};
ghost use Rattle.task_run.specs.Points.{HasMade};
ghost use Rattle.task_run.specs.declared.run.TaskRun.{TaskRun};

use access_types::Report;
use litmus_syntax::Program;
use prepared_program::program_sites::Prepared;
use slot_table::{BoardError, PlainBoard, Shape};
use std::alloc::{AllocError, Global};
use task_log::TaskLog;
use task_run::TaskRun;

/// At an access at most so many watchpoints are set up, and as many taken, and so much is reported: by its own check,
/// and by those of the scoped assertions in force, of which there are 8 at most.
const WATCHES: usize = 9;

/// The words before the first step of a program that is made ready.
pub fn first_board(
    alloc: Global,
    program: &Program,
    prepared: &Prepared,
) -> Result<PlainBoard, AllocError>
    requires limits { KeepsLimits (program_of program.now) }
    requires ready { IsReady program.now prepared.now }
    ensures { (settings : Settings) (sites : AccessMap) → IsPrepared program.now settings prepared.now
        → IfOk result (λ board. board ≡ first_words (run_of program.now settings sites)) }
{
    let shape = Shape {
        slots: prepared.rules.slots,
        tasks: program.tasks.as_slice().len() as u32,
        locks: prepared.locks,
        cells: prepared.words.as_slice(),
    };
    match PlainBoard::new(alloc, shape) {
        Ok(board) => Ok(board),
        Err(BoardError::OutOfMemory) => Err(AllocError),
        Err(BoardError::BadSlots) => unreachable!(),
    }
}

/// The task of a number before its first step, of a program that is made ready.
pub fn first_task<'a>(
    alloc: Global,
    program: &'a Program,
    prepared: &Prepared,
    number: u32,
) -> Result<TaskRun<'a>, AllocError>
    requires limits { KeepsLimits (program_of program.now) }
    requires ready { IsReady program.now prepared.now }
    requires there { number < length program.now.tasks }
    ensures led { (settings : Settings) → IsPrepared program.now settings prepared.now
        → IfOk result (λ machine. LeadsTask (run_of program.now settings (sites_in prepared.now)) number [] machine) }
    ensures points { IfOk result (HasMade []) }
{
    let machine = TaskRun::prepared(alloc, program, prepared, number)?;
    Ok(machine)
}

/// The tasks of a program that is made ready before their first steps.
pub fn first_tasks<'a>(
    alloc: Global,
    program: &'a Program,
    prepared: &Prepared,
) -> Result<Vec<TaskRun<'a>>, AllocError>
    requires limits { KeepsLimits (program_of program.now) }
    requires ready { IsReady program.now prepared.now }
    ensures led { (settings : Settings) → IsPrepared program.now settings prepared.now
        → IfOk result (λ machines. LeadsTasks (run_of program.now settings (sites_in prepared.now)) [] machines.items) }
    ensures points { IfOk result (λ machines. (task : ℕ) (machine : TaskRun)
        → slice_get machines.items task ≡ Some machine → HasMade [] machine) }
{
    let count = program.tasks.as_slice().len();
    let mut machines = Vec::with_capacity(alloc, count)?;
    for number in 0..count {
        let machine = first_task(alloc, program, prepared, number as u32)?;
        machines.push_reserved(machine);
    }
    Ok(machines)
}

/// What is kept of the steps of a task that can begin so many accesses, before its first.
pub fn first_log(alloc: Global, accesses: usize) -> Result<TaskLog, AllocError>
    requires { accesses ≤ 1024 }
    ensures { IfOk result (Keeps accesses (9 * accesses) []) }
{
    TaskLog::new(alloc, accesses, WATCHES * accesses)
}

/// The same of tasks each of which can begin so many accesses.
pub fn first_logs(alloc: Global, accesses: &[usize]) -> Result<Vec<TaskLog>, AllocError>
    requires { All (λ one. one ≤ 1024) accesses.now }
    ensures all { IfOk result (λ logs. length logs.items ≡ length accesses.now) }
    ensures each { IfOk result (λ logs. (task : ℕ) (log : TaskLog) → slice_get logs.items task ≡ Some log
        → Keeps (slice_index_or accesses.now task 0) (9 * slice_index_or accesses.now task 0) [] log) }
{
    let mut logs = Vec::with_capacity(alloc, accesses.len())?;
    for one in accesses {
        logs.push_reserved(first_log(alloc, *one)?);
    }
    Ok(logs)
}

/// Room for what is reported of a task that can begin so many accesses.
pub fn first_reports(alloc: Global, accesses: usize) -> Result<Vec<Report>, AllocError>
    requires { accesses ≤ 16384 }
    ensures empty { IfOk result (λ reports. reports.items ≡ []) }
    ensures room { IfOk result (λ reports. 9 * accesses ≤ vec_capacity reports) }
{
    Vec::with_capacity(alloc, WATCHES * accesses)
}

/// How many accesses tasks can begin, each of which can begin so many.
pub fn all_accesses(accesses: &[usize]) -> usize
    requires few { length accesses.now ≤ 16 }
    requires each { All (λ one. one ≤ 1024) accesses.now }
    ensures is { result ≡ sum accesses.now }
    ensures few { result ≤ 16384 }
{
    let mut all = 0;
    for one in accesses {
        all += *one;
    }
    all
}
