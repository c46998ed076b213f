//! The tables of a program.

ghost use Rattle.std.specs.Prelude.{◌≡◌, ◌≤◌, IfOk, map};
ghost use Rattle.litmus_syntax.specs.Limits.{KeepsLimits};
ghost use Rattle.litmus_syntax.specs.Views.{program_of};
ghost use Rattle.prepared_program.specs.program_sites.Prepared.{IsPrepared};
ghost use Rattle.prepared_program.specs.declared.program_sites.settings.Settings.{Settings};
ghost use Rattle.program_table.specs.Rows.{rows_of};
ghost use Rattle.program_table.specs.Table as spec;
ghost use Rattle.program_table.specs.Words.{AreWords};

use crate::accesses::{Table, table_lines};
use crate::counts::{program_lines, tasks_lines};
use crate::rows::Listed;
use crate::text_pieces::joined;
use crate::variables::variable_lines;
use litmus_syntax::Program;
use prepared_program::program_sites::Prepared;
use std::alloc::{AllocError, Global};

/// The tables of the accesses, which go by so many page slots.
#[tactic(auto, unfolding(crate::specs::Table::accesses_text))]
fn accesses_text(
    alloc: Global,
    program: &Program,
    listed: Listed<'_>,
    slots: usize,
) -> Result<Vec<u8>, AllocError>
    requires slots { (3 ≤ slots) × (slots ≤ 1024) }
    requires limits { KeepsLimits (program_of program.now) }
    ensures { (words : AreWords listed.entry.layout) → IfOk result (λ found. found.items ≡ spec.accesses_text
        (rows_of listed.entry.text.now (map (λ own. own.items) listed.entry.places.now) words.of listed.entry.sites.now (program_of program.now)) slots) }
{
    let stand = table_lines(alloc, Table::Places, program, listed)?;
    let look = table_lines(alloc, Table::Checks { slots }, program, listed)?;
    let found = joined(
        alloc,
        &[
            b"access         at           does                 counts as marked by\n",
            &stand,
            b"\naccess         address             size     watch word          looks at\n",
            &look,
        ],
    )?;
    Ok(found)
}

/// The table of the variables.
fn variables_text(
    alloc: Global,
    program: &Program,
    prepared: &Prepared,
) -> Result<Vec<u8>, AllocError>
    ensures { (settings : Settings) → IsPrepared program.now settings prepared.now
        → IfOk result (λ found. found.items ≡ spec.variables_text program.now settings) }
{
    let lines = variable_lines(alloc, &*prepared.layout, program.variables.as_slice())?;
    let found = joined(
        alloc,
        &[
            b"\nvariable                          type        address             initial value\n",
            &lines,
        ],
    )?;
    Ok(found)
}

/// The table of what is limited, of a program whose text has so many bytes.
#[tactic(auto, unfolding(crate::specs::Table::limits_text))]
fn limits_text(
    alloc: Global,
    bytes: usize,
    program: &Program,
    prepared: &Prepared,
) -> Result<Vec<u8>, AllocError>
    requires { KeepsLimits (program_of program.now) }
    ensures { IfOk result (λ found. found.items ≡ spec.limits_text bytes program.now prepared.now) }
{
    let tasks = program.tasks.as_slice();
    let variables = program.variables.as_slice().len();
    let all = program_lines(alloc, bytes, tasks.len(), variables, &program.condition)?;
    let own = tasks_lines(alloc, tasks, &prepared.accesses)?;
    joined(
        alloc,
        &[
            b"\nlimit                             used        of\n",
            &all,
            &own,
        ],
    )
}

/// The tables of a program that was made ready under some settings: the accesses of its sites, with the places at which
/// these begin in its text, task by task and site by site; its variables; and what is limited. A site without a place
/// among these is there too.
pub fn program_table(
    alloc: Global,
    text: &[u8],
    program: &Program,
    places: &[Vec<usize>],
    prepared: &Prepared,
) -> Result<Vec<u8>, AllocError>
    requires limits { KeepsLimits (program_of program.now) }
    requires slots { (3 ≤ prepared.now.rules.slots) × (prepared.now.rules.slots ≤ 1024) }
    ensures { (settings : Settings) (words : AreWords prepared.now.rules.layout) → IsPrepared program.now settings prepared.now
        → IfOk result (λ found. found.items
        ≡ spec.program_table text.now (map (λ own. own.items) places.now) words.of program.now settings prepared.now) }
{
    let listed = Listed {
        text,
        places,
        sites: prepared.sites(),
        layout: prepared.rules.layout,
    };
    let accesses = accesses_text(alloc, program, listed, prepared.rules.slots)?;
    let variables = variables_text(alloc, program, prepared)?;
    let limits = limits_text(alloc, text.len(), program, prepared)?;
    let found = joined(alloc, &[&accesses, &variables, &limits])?;
    Ok(found)
}
