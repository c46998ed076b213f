//! What is found at the end of a run: what registers and variables hold, and whether the condition does.

ghost use Rattle.std.specs.Prelude.{◌≡◌, ℕ, List, IfOk, map, slice_get, unwrap_or};
ghost use Rattle.access_types.specs.Sites.{AccessMap};
ghost use Rattle.litmus_semantics.specs.final_condition.Holds.{variable_of};
ghost use Rattle.prepared_program.specs.program_sites.Prepared.{IsPrepared};
ghost use Rattle.litmus_step.specs.Runs.{run_of};
ghost use Rattle.prepared_program.specs.declared.program_sites.settings.Settings as terms;
ghost use Rattle.litmus_syntax.specs.Limits.{KeepsLimits};
ghost use Rattle.litmus_syntax.specs.Views.{program_of};
ghost use Rattle.litmus_syntax.specs.declared.program.Program as tree;
ghost use Rattle.prepared_program.specs.program_layout.Places.{places_of};
ghost use Rattle.run_output.specs.Finals as spec;
ghost use Rattle.run_output.specs.Finals.{AreAllRegisters, IsEndOf, value_in_cells, variable_value};
ghost use Rattle.run_output.specs.Output.{IsFoundOf};
ghost use Rattle.executions.specs.execution.Run.{Run};
ghost use Rattle.executions.specs.execution.Run.{first_words};
ghost use Rattle.executions.specs.execution.Execution.{Execution};
ghost use Rattle.executions.specs.execution.Observed.{history_of};
ghost use Rattle.slot_table.specs.Records.{words_after};
ghost use Rattle.slot_table.specs.declared.records.Record.{Record};

use crate::output::RunFindings;
use access_types::Bytes;
use litmus_semantics::final_condition::{Finals, holds};
use litmus_semantics::sign_extended;
use litmus_step::{Prepared, Ran};
use litmus_syntax::Program;
use prepared_program::program_layout::laws::law_variables_lie_in_one_cell;
use soundness::histories::law_cells_hold_the_content;
use std::alloc::{AllocError, Global};

/// The end of a run.
#[derive(Drop)]
pub struct End {
    /// What registers and variables hold.
    pub finals: Finals,
    /// Whether the condition holds.
    pub held: bool,
}

/// The word of the cell at an address, where the cells at these addresses hold these words; 0 where there is none.
fn word_at(cells: &[u64], words: &[u64], addr: u64) -> u64
    ensures { result ≡ spec.word_at cells.now words.now addr }
{
    match (cells.split_first(), words.split_first()) {
        (Some((cell, cells)), Some((word, words))) => {
            if *cell == addr {
                *word
            } else {
                word_at(cells, words, addr)
            }
        }
        _ => 0,
    }
}

/// The value of some bytes in the word of their cell, with its sign, in 64 bits.
fn value_of(cells: &[u64], words: &[u64], bytes: Bytes) -> u64
    ensures { result ≡ spec.value_of cells.now words.now bytes }
{
    let first = bytes.addr % 8;
    let word = word_at(cells, words, bytes.addr - first);
    sign_extended(word >> (8 * first), bytes.size)
}

/// The values of bytes, in their order.
fn values_of(
    alloc: Global,
    cells: &[u64],
    words: &[u64],
    bytes: &[Bytes],
) -> Result<Vec<u64>, AllocError>
    ensures { IfOk result (λ values. values.items ≡ map (spec.value_of cells.now words.now) bytes.now) }
{
    let mut values = Vec::new(alloc);
    for part in bytes {
        values.push(value_of(cells, words, *part))?;
    }
    Ok(values)
}

/// The values of all variables, where the cells hold these words.
fn variables_of(alloc: Global, prepared: &Prepared, words: &[u64]) -> Result<Vec<u64>, AllocError>
    ensures { (program : tree.Program) (settings : terms.Settings) → IsPrepared program settings prepared.now
        → IfOk result (λ values. (number : ℕ) → unwrap_or (slice_get values.items number) 0
        ≡ value_in_cells (places_of settings.places.items) program.variables words.now number) }
{
    let bytes = prepared.layout.all_bytes(alloc)?;
    values_of(alloc, prepared.cells.as_slice(), words, bytes.as_slice())
}

/// What registers and variables hold where a run of a program that is made ready has ended, whose tasks have these
/// registers and whose cells hold these words: a variable has the content of its bytes in the history that the list of
/// its steps tells.
fn finals_at(
    alloc: Global,
    prepared: &Prepared,
    registers: Vec<Vec<u64>>,
    words: &[u64],
) -> Result<Finals, AllocError>
    ensures registers { IfOk result (λ finals. finals.registers ≡ registers) }
    ensures variables { (program : tree.Program) (settings : terms.Settings) (sites : AccessMap) (records : List Record)
        (list : Execution (run_of program settings sites) records) → KeepsLimits (program_of program) → IsPrepared program settings prepared.now
        → words.now ≡ (words_after (first_words (run_of program settings sites)) records).cells
        → IfOk result (λ finals. (number : ℕ) → variable_of finals number
        ≡ variable_value (places_of settings.places.items) program.variables (history_of list) number) }
{
    law_variables_lie_in_one_cell();
    law_cells_hold_the_content();
    let variables = variables_of(alloc, prepared, words)?;
    Ok(Finals {
        registers,
        variables,
    })
}

/// The registers of all tasks of a run.
fn registers_of<R: Ran>(alloc: Global, ran: &R) -> Result<Vec<Vec<u64>>, AllocError>
    ensures { (run : Run) (records : List Record) → (comes : R.comes_of ran.now run records)
        → IfOk result (λ all. AreAllRegisters (R.list_of ran.now run records comes) (map (λ values. values.items) all.items)) }
{
    let mut registers = Vec::new(alloc);
    for task in 0..ran.tasks() {
        registers.push(ran.registers(task).to_vec(alloc)?)?;
    }
    Ok(registers)
}

/// What registers and variables hold where a run of a program that is made ready has ended, and whether its condition
/// holds there.
pub fn end_of<R: Ran>(
    alloc: Global,
    program: &Program,
    prepared: &Prepared,
    ran: &R,
) -> Result<End, AllocError>
    requires { KeepsLimits (program_of program.now) }
    ensures { (settings : terms.Settings) (sites : AccessMap) (records : List Record)
        → (comes : R.comes_of ran.now (run_of program.now settings sites) records) → IsPrepared program.now settings prepared.now
        → IfOk result (IsEndOf (R.list_of ran.now (run_of program.now settings sites) records comes)) }
{
    let registers = registers_of(alloc, ran)?;
    let finals = finals_at(alloc, prepared, registers, ran.memory())?;
    let held = holds(&program.condition, &finals);
    Ok(End { finals, held })
}

/// What is found of a run of a program that is made ready.
pub fn found_of<R: Ran>(
    alloc: Global,
    program: &Program,
    prepared: &Prepared,
    ran: &R,
) -> Result<RunFindings, AllocError>
    requires { KeepsLimits (program_of program.now) }
    ensures { (settings : terms.Settings) (sites : AccessMap) (records : List Record)
        → (comes : R.comes_of ran.now (run_of program.now settings sites) records) → IsPrepared program.now settings prepared.now
        → IfOk result (IsFoundOf (R.list_of ran.now (run_of program.now settings sites) records comes)) }
{
    let end = end_of(alloc, program, prepared, ran)?;
    Ok(RunFindings {
        counters: ran.counters(),
        unbalanced: ran.unbalanced(),
        held: end.held,
    })
}
