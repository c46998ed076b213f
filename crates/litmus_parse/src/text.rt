//! Whole litmus texts.

ghost use Rattle.std.specs.Prelude.{◌≡◌, ◌≢◌, ◌≤◌, ◌<◌, ◌↔◌, ℕ, Some, length, map, vec_len, All, Any, IfErr, IfOk, IsTrue, IsErrOf, OnOk, IsErrAnd, IfNone, IfSome, min};
ghost use Rattle.std.specs.Str.{IsUtf8};
ghost use Rattle.litmus_syntax.specs.Limits.{KeepsLimits, tasks_limit};
ghost use Rattle.litmus_syntax.specs.Tree as tree;
ghost use Rattle.litmus_syntax.specs.Views.{block_of, program_of, task_of};
ghost use Rattle.litmus_lex.specs.Cursor.{count_left, refused_at};
ghost use Rattle.litmus_lex.specs.Front.{Answers, first, now, symbols_left};
ghost use Rattle.litmus_lex.specs.declared.cursor.Refusal.TheVariants.{OutOfMemory};
ghost use Rattle.litmus_expression.specs.States.{parameter_of, state_of};
ghost use Rattle.litmus_parse.specs.ItemReader.{heading_of};
ghost use Rattle.litmus_parse.specs.Seen.{process_of, seen};
ghost use Rattle.litmus_parse.specs.Answer.{IsFirstForeign, error_of};
ghost use Rattle.litmus_parse.specs.Grammar.{SpellsProgram, variable_of};
ghost use Rattle.litmus_parse.specs.Grammar.{task_of as reads_task};
ghost use Rattle.litmus_parse.specs.Processes.{process_name};
ghost use Rattle.litmus_parse.specs.Refused.{Refuses};
ghost use Rattle.litmus_parse.specs.ProcessReader.{is_process, process_at, processes_at, unbegun};
ghost use Rattle.litmus_parse.specs.TextReader.{bodies_of, course_of, parts_at, parts_of, program_at};
ghost use Rattle.litmus_parse.specs.Text.{file_bytes, IsTextByte};

use crate::answer::{Reading, Reason, Refused};
use crate::laws::{law_a_text_spells_one_program, law_a_text_spells_what_keeps_limits};
use crate::{Condition, Declarations, Header, name_of, unsupported_name};
use litmus_body::read_block;
use litmus_expression::{Parameter, Process, Surroundings};
use litmus_lex::{Cursor, Excess, Expected, Fault, Refusal, Unread, read_head, tokens};
use litmus_syntax::{
    Limit, Name, ParseError, Program, Proposition, Quantifier, Sequence, Statement, Task,
};
use std::alloc::{AllocError, Global};

/// How many bytes a litmus text can have: a choice. What a reader takes of time and memory grows with them.
pub const FILE_BYTES: usize = 65536;

/// How many tasks a program can have: a choice, as a run has a thread for each. Tickets would have room for more.
pub const TASKS: usize = 16;

/// Reads a litmus text.
///
/// First the size of the text is looked at, then its bytes; then the first token that offends decides.
pub fn parse(alloc: Global, text: &[u8]) -> Result<Program, ParseError>
    ensures file_limit { IsErrOf result (ParseError.Limit Limit.File) ↔ (file_bytes < length text.now) }
    ensures not_ascii { IsErrOf result ParseError.NotAscii ↔
        ((length text.now ≤ file_bytes) × Any (λ byte. ¬ IsTextByte byte) text.now) }
    ensures keeps_limits { IfOk result (λ program. KeepsLimits (program_of program)) }
    ensures spelled { IfOk result (λ program. SpellsProgram text.now (program_of program)) }
    ensures complete { (program : tree.Program) → SpellsProgram text.now program
        → IfOk result (λ found. program_of found ≡ program) × IfErr result (λ error. error ≡ ParseError.OutOfMemory) }
{
    match read_text(alloc, text) {
        Ok(reading) => Ok(reading.program),
        Err(refused) => Err(refused.error),
    }
}

/// Reads a litmus text as `parse` does, and says where its sites stand, or where and why it is refused.
pub fn read_text(alloc: Global, text: &[u8]) -> Result<Reading, Refused>
    ensures file_limit { IsErrAnd result (λ refused. refused.error ≡ ParseError.Limit Limit.File) ↔ (file_bytes < length text.now) }
    ensures not_ascii { IsErrAnd result (λ refused. refused.error ≡ ParseError.NotAscii) ↔
        ((length text.now ≤ file_bytes) × Any (λ byte. ¬ IsTextByte byte) text.now) }
    ensures keeps_limits { IfOk result (λ reading. KeepsLimits (program_of reading.program)) }
    ensures spelled { IfOk result (λ reading. SpellsProgram text.now (program_of reading.program)) }
    ensures complete { (program : tree.Program) → SpellsProgram text.now program
        → IfOk result (λ reading. program_of reading.program ≡ program) × IfErr result (λ refused. refused.error ≡ ParseError.OutOfMemory) }

    ensures within { IfErr result (λ refused. refused.at ≤ length text.now) }
    ensures error { IfErr result (λ refused. refused.error ≡ error_of text.now refused.at refused.reason) }
    ensures too_long { IfErr result (λ refused. refused.reason ≡ Reason.File → refused.at ≡ file_bytes) }
    ensures foreign { IfErr result (λ refused. refused.reason ≡ Reason.NotAscii → IsFirstForeign text.now refused.at) }
{
    law_a_text_spells_one_program();
    law_a_text_spells_what_keeps_limits();
    // The size comes first, so that all after it works on a bounded text; then the bytes, so that names are ASCII.
    if text.len() > FILE_BYTES {
        return Err(Refused::new(text, FILE_BYTES, Reason::File));
    }
    if let Some(at) = first_foreign(text) {
        return Err(Refused::new(text, at, Reason::NotAscii));
    }
    match read(alloc, text) {
        Ok(reading) => Ok(reading),
        Err(refusal) => Err(placed(text, refusal)),
    }
}

/// Where the first byte stands that no text has.
fn first_foreign(text: &[u8]) -> Option<usize>
    ensures found { IfSome result (IsFirstForeign text.now) }
    ensures none { IfNone result (All IsTextByte text.now) }
{
    for (at, byte) in text.iter().enumerate() {
        if !is_text_byte(*byte) {
            return Some(at);
        }
    }
    None
}

/// A text may have the byte: tab, LF, CR, and a blank to `~`.
fn is_text_byte(byte: u8) -> bool
    ensures { IsTrue result ↔ IsTextByte byte }
{
    matches!(byte, b'\t' | b'\n' | b'\r' | b' '..=b'~')
}

/// What is answered of a text with the refusal.
#[tactic(auto, using(crate::proofs::NeverFile::never_file))]
fn placed(text: &[u8], refusal: Refusal) -> Refused
    ensures memory { refusal ≡ Refusal.OutOfMemory → result.error ≡ ParseError.OutOfMemory }
    ensures not_file { result.error ≢ ParseError.Limit Limit.File }
    ensures not_ascii { result.error ≢ ParseError.NotAscii }
    ensures place { IfSome (refused_at refusal) (λ at. result.at ≡ min at (length text.now)) }
    ensures within { result.at ≤ length text.now }
    ensures error { result.error ≡ error_of text.now result.at result.reason }
    ensures reason { (result.reason ≢ Reason.File) × (result.reason ≢ Reason.NotAscii) }
{
    match refusal {
        Refusal::OutOfMemory => Refused::new(text, 0, Reason::OutOfMemory),
        Refusal::Syntax {
            at,
            fault,
            expected,
        } => Refused::new(text, at.min(text.len()), Reason::Syntax { fault, expected }),
        Refusal::Unsupported {
            at,
            unread,
            expected,
        } => Refused::new(
            text,
            at.min(text.len()),
            Reason::Unsupported { unread, expected },
        ),
        Refusal::Limit { at, excess } => {
            Refused::new(text, at.min(text.len()), Reason::Limit(excess))
        }
    }
}

/// The refusal of a head at the place.
fn head_offence(text: &[u8], at: usize) -> Refusal {
    let fault = if at < text.len() {
        Fault::Token
    } else {
        Fault::End
    };
    Refusal::Syntax {
        at,
        fault,
        expected: Expected::Head,
    }
}

/// Reads the whole text, from left to right.
fn read(alloc: Global, text: &[u8]) -> Result<Reading, Refusal>
    ensures spelled { length text.now ≤ file_bytes → All IsTextByte text.now
        → IfOk result (λ reading. SpellsProgram text.now (program_of reading.program)) }
    ensures complete { (program : tree.Program) → SpellsProgram text.now program → IfErr result (λ refusal. refusal ≡ OutOfMemory) }
{
    let head = match read_head(text) {
        Ok(head) => head,
        Err(at) => return Err(head_offence(text, at)),
    };
    let spots = tokens(alloc, text, head.after)?;
    let cursor = Cursor::new(&spots, text.len());
    whole(alloc, name_of(alloc, head.name)?, cursor)
}

/// What is read of a text, of which its program is put together.
#[derive(Drop)]
struct Pieces<'a> {
    declarations: Declarations<'a>,
    processes: Vec<Process<'a>>,
    bodies: Vec<Vec<Statement>>,
    quantifier: Quantifier,
    proposition: Proposition,
}

/// Reads the tokens of a text. Each limit and each type is looked at where it is read.
#[tactic(auto, using(crate::proofs::Tables::locks_are), unfolding(crate::specs::TextReader::parts_at))]
fn parts<'a>(alloc: Global, cursor: Cursor<'a>) -> Result<Pieces<'a>, Refusal>
    ensures sized { IfOk result (λ read. vec_len read.processes ≡ vec_len read.bodies) }
    ensures reads { Answers result parts_of (parts_at (symbols_left cursor.entry)) }
{
    let mut header = Header {
        alloc,
        cursor,
        declarations: Declarations::new(alloc),
    };
    header.initialization()?;
    let Processes { processes, bodies } = read_processes(&mut header)?;
    let mut condition = Condition {
        alloc,
        cursor: header.cursor,
        declarations: header.declarations,
        processes,
    };
    let quantifier = condition.quantifier()?;
    let proposition = condition.whole()?;
    // Only now are all parameters known, and one may still settle the type of an item without one. So two items that
    // contradict each other are refused at the end, at the place of the second.
    if let Some(at) = condition.declarations.contradiction() {
        return Err(unsupported_name(at, Unread::TwoTypes));
    }
    Ok(Pieces {
        declarations: condition.declarations,
        processes: condition.processes,
        bodies,
        quantifier,
        proposition,
    })
}

/// Reads the tokens of a text whose test has the name.
#[tactic(auto, using(crate::proofs::Refusals::program_reads, crate::proofs::Refusals::nothing_reads))]
fn whole(alloc: Global, name: Name, cursor: Cursor<'_>) -> Result<Reading, Refusal>
    ensures reads { IfOk result (λ reading. program_at name (symbols_left cursor.entry) ≡ Some (program_of reading.program)) }
    ensures refuses { IfErr result (λ refusal. Refuses refusal (program_at name (symbols_left cursor.entry))) }
{
    let read = parts(alloc, cursor)?;
    let bodies = read.bodies;
    let program = Program {
        name,
        variables: Sequence::from_vec(read.declarations.variables(alloc)?),
        tasks: Sequence::from_vec(tasks(alloc, &read.processes, bodies)?),
        quantifier: read.quantifier,
        condition: read.proposition,
    };
    Ok(Reading {
        program,
        places: places_of(alloc, read.processes)?,
    })
}

/// Where the accesses of each process begin.
fn places_of(alloc: Global, mut processes: Vec<Process<'_>>) -> Result<Vec<Vec<usize>>, AllocError>
    ensures { IfOk result (λ places. vec_len places ≡ vec_len processes.entry) }
{
    let mut places = Vec::new(alloc);
    while !processes.is_empty() {
        let process = processes.remove(0);
        places.push(process.into_places())?;
    }
    Ok(places)
}

/// The processes of a text, with their bodies.
#[derive(Drop)]
struct Processes<'a> {
    processes: Vec<Process<'a>>,
    bodies: Vec<Vec<Statement>>,
}

/// The name of the process of a number, and of one that is one too many.
fn process_name(number: usize) -> &'static [u8]
    requires { number ≤ tasks_limit }
    ensures { result.now ≡ process_name number }
{
    match number {
        0 => b"P0",
        1 => b"P1",
        2 => b"P2",
        3 => b"P3",
        4 => b"P4",
        5 => b"P5",
        6 => b"P6",
        7 => b"P7",
        8 => b"P8",
        9 => b"P9",
        10 => b"P10",
        11 => b"P11",
        12 => b"P12",
        13 => b"P13",
        14 => b"P14",
        15 => b"P15",
        _ => b"P16",
    }
}

/// Whether the name of the process of a number is next.
fn is_at_process(cursor: &Cursor<'_>, number: usize) -> bool
    requires { number ≤ tasks_limit }
    ensures exact { result ≡ is_process number (first (symbols_left cursor.now)) }
    ensures some { IsTrue result → 0 < count_left cursor.now }
{
    match cursor.identifier() {
        Some(name) => name == process_name(number),
        None => false,
    }
}

/// Reads processes, as long as the next one begins.
fn read_processes<'a>(header: &mut Header<'a>) -> Result<Processes<'a>, Refusal>
    ensures sized { IfOk result (λ found. vec_len found.processes ≡ vec_len found.bodies) }
    ensures reads { Answers result (course_of header.new) (processes_at (unbegun (heading_of header.old))) }
{
    let alloc = header.alloc;
    let mut processes = Vec::new(alloc);
    let mut bodies = Vec::new(alloc);
    while is_at_process(&header.cursor, processes.len()) {
        if processes.len() == TASKS {
            return Err(header.cursor.excess(Excess::Tasks));
        }
        header.cursor.advance();
        let (process, body) = read_process(header)?;
        processes.push(process)?;
        bodies.push(body)?;
    }
    if processes.is_empty() {
        return Err(header.cursor.offence(Expected::Process));
    }
    Ok(Processes { processes, bodies })
}

/// Reads a process behind its name.
#[tactic(auto, unfolding(crate::specs::ProcessReader::process_at))]
fn read_process<'a>(header: &mut Header<'a>) -> Result<(Process<'a>, Vec<Statement>), Refusal>
    ensures moves { OnOk result (count_left header.new.cursor < count_left header.old.cursor) }
    ensures reads { Answers result (λ read. ((state_of read.0, block_of read.1.items), heading_of header.new))
        (process_at (heading_of header.old)) }
{
    let parameters = header.parameters()?;
    let mut process = Process::new(header.alloc, header.cursor, parameters);
    let body = read_block(&mut process, Surroundings::new())?;
    header.cursor = process.cursor;
    Ok((process, body))
}

/// The tasks that processes are in the end, each with its body.
fn tasks(
    alloc: Global,
    mut processes: &[Process<'_>],
    mut bodies: Vec<Vec<Statement>>,
) -> Result<Vec<Task>, Refusal>
    requires { length processes.now ≡ vec_len bodies }
    ensures ok { IfOk result (λ tasks. map task_of tasks.items
        ≡ map reads_task (seen (map state_of processes.entry.now) (bodies_of bodies.items))) }
    ensures err { IfErr result (λ refusal. All (λ task. All IsUtf8 task.registers)
        (map reads_task (seen (map state_of processes.entry.now) (bodies_of bodies.items))) → refusal ≡ OutOfMemory) }
{
    let mut tasks = Vec::new(alloc);
    while let [process, rest @ ..] = processes {
        let body = bodies.remove(0);
        tasks.push(task(alloc, process, body)?)?;
        processes = rest;
    }
    Ok(tasks)
}

/// The task that a process is in the end.
fn task(alloc: Global, process: &Process<'_>, body: Vec<Statement>) -> Result<Task, Refusal>
    ensures ok { IfOk result (λ task. task_of task ≡ reads_task (process_of (state_of process.now) (block_of body.items))) }
    ensures err { IfErr result (λ refusal. All IsUtf8 (map now process.now.registers.items) → refusal ≡ OutOfMemory) }
{
    Ok(Task {
        parameters: Sequence::from_vec(variables_of(alloc, &process.parameters)?),
        registers: Sequence::from_vec(names_of(alloc, &process.registers)?),
        body,
    })
}

/// The variables of parameters, each by its number.
fn variables_of(alloc: Global, mut parameters: &[Parameter<'_>]) -> Result<Vec<usize>, AllocError>
    ensures { IfOk result (λ variables. variables.items ≡ map variable_of (map parameter_of parameters.entry.now)) }
{
    let mut variables = Vec::new(alloc);
    while let [parameter, rest @ ..] = parameters {
        variables.push(parameter.variable)?;
        parameters = rest;
    }
    Ok(variables)
}

/// The names that are spelled by bytes.
fn names_of(alloc: Global, mut all: &[&[u8]]) -> Result<Vec<Name>, Refusal>
    ensures ok { IfOk result (λ names. names.items ≡ map now all.entry.now) }
    ensures err { IfErr result (λ refusal. All IsUtf8 (map now all.entry.now) → refusal ≡ OutOfMemory) }
{
    let mut names = Vec::new(alloc);
    while let [bytes, rest @ ..] = all {
        names.push(name_of(alloc, bytes)?)?;
        all = rest;
    }
    Ok(names)
}
