//! The check of a text.

ghost use Rattle.std.specs.Prelude.{◌≡◌, ◌≤◌, ◌↔◌, ◌<◌, Any, IfErr, IfOk, length};
ghost use Rattle.litmus_parse.specs.Answer.{IsFirstForeign, error_of};
ghost use Rattle.litmus_parse.specs.Text.{IsTextByte, file_bytes};
ghost use Rattle.litmus_syntax.specs.Limits.{KeepsLimits};
ghost use Rattle.litmus_syntax.specs.Views.{program_of};
ghost use Rattle.prepared_program.specs.program_layout.Places.{AreFit};
ghost use Rattle.prepared_program.specs.program_sites.Prepared.{IsPrepared};
ghost use Rattle.prepared_program.specs.declared.program_sites.settings.Settings.{Settings};
ghost use Rattle.diagnostics.specs.text_check.Check.{IsCheckOf, IsToldOf, IsRefusalOf, SpellsNothing, StopsProgram, StopsCheck};

use crate::option_diagnostics::misfit;
use crate::refusal_text::refusal_text;
use check_warnings::text_warnings;
use litmus_parse::{Limit, ParseError, Program, Reading, Reason, Refused, print, read_text};
use prepared_program::program_sites::{Prepared, RunError, Settings};
use program_table::program_table;
use std::alloc::{AllocError, Global};

/// What comes of the check of a text.
#[derive(Drop)]
pub enum Check {
    /// It reads: the tables of its program, its printed form, and the lines of its warnings.
    Reads {
        tables: Vec<u8>,
        printed: String,
        warnings: Vec<u8>,
    },
    /// It reads, and the places don't suit the variables of its program: the line that says which place is the first.
    Misplaced {
        why: Vec<u8>,
    },
    /// It is refused: the error, and the lines that say where and why.
    Refused {
        error: ParseError,
        why: Vec<u8>,
    },
}

/// What is told of a text that reads so, in a file of this name, of whose program this was made ready.
fn tabled(
    alloc: Global,
    name: &[u8],
    text: &[u8],
    reading: &Reading,
    prepared: &Prepared,
) -> Result<Check, AllocError>
    requires limits { KeepsLimits (program_of reading.now.program) }
    requires slots { (3 ≤ prepared.now.rules.slots) × (prepared.now.rules.slots ≤ 1024) }
    ensures { (settings : Settings) → IsPrepared reading.now.program settings prepared.now
        → IfOk result (IsToldOf name.now text.now settings reading.now.program) }
{
    let tables = program_table(alloc, text, &reading.program, &reading.places, prepared)?;
    let warnings = text_warnings(alloc, name, text, &reading.program)?;
    match print(alloc, &reading.program) {
        Ok(printed) => Ok(Check::Reads {
            tables,
            printed,
            warnings,
        }),
        Err(_) => Err(AllocError),
    }
}

/// What is told of a program whose variables the places don't suit.
fn misplaced(
    alloc: Global,
    name: &[u8],
    text: &[u8],
    program: &Program,
    settings: &Settings,
) -> Result<Check, AllocError>
    requires limits { KeepsLimits (program_of program.now) }
    requires unfit { AreFit program.now.variables settings.now.places.items → ⊥ }
    ensures { IfOk result (IsToldOf name.now text.now settings.now program.now) }
{
    match misfit(
        alloc,
        program.variables.as_slice(),
        settings.places.as_slice(),
    )? {
        Some(why) => Ok(Check::Misplaced { why }),
        None => unreachable!(),
    }
}

/// What is told of a text that reads so, in a file of this name.
fn told(
    alloc: Global,
    name: &[u8],
    text: &[u8],
    reading: &Reading,
    settings: &Settings,
) -> Result<Check, RunError>
    requires { KeepsLimits (program_of reading.now.program) }
    ensures told { IfOk result (IsToldOf name.now text.now settings.now reading.now.program) }
    ensures stops { IfErr result (StopsProgram settings.now) }
{
    match Prepared::new(alloc, &reading.program, settings) {
        Ok(prepared) => Ok(tabled(alloc, name, text, reading, &prepared)?),
        Err(RunError::BadPlace) => { Ok(misplaced(alloc, name, text, &reading.program, settings)?) }
        Err(error) => Err(error),
    }
}

/// What is said of a text that is refused, in a file of this name. `None`: memory is refused.
fn refused(alloc: Global, name: &[u8], text: &[u8], refused: Refused) -> Result<Check, RunError>
    requires within { refused.at ≤ length text.now }
    requires error { refused.error ≡ error_of text.now refused.at refused.reason }
    requires too_long { refused.reason ≡ Reason.File → refused.at ≡ file_bytes }
    requires foreign { refused.reason ≡ Reason.NotAscii → IsFirstForeign text.now refused.at }
    requires file_limit { refused.error ≡ ParseError.Limit Limit.File ↔ (file_bytes < length text.now) }
    requires not_ascii { refused.error ≡ ParseError.NotAscii ↔
        ((length text.now ≤ file_bytes) × Any (λ byte. ¬ IsTextByte byte) text.now) }
    ensures refusal { IfOk result (IsRefusalOf name.now text.now refused.error) }
    ensures memory { IfErr result (λ error. error ≡ RunError.OutOfMemory) }
{
    match refused.error {
        ParseError::OutOfMemory => Err(RunError::OutOfMemory),
        error => {
            let why = refusal_text(alloc, name, text, refused)?;
            Ok(Check::Refused { error, why })
        }
    }
}

/// Checks a text, in a file of this name, whose variables stand as the settings say, with their slots and watch words.
///
/// `BadSlots`: the text reads, and there are fewer than 3 page slots, or more than 1,024. `OutOfMemory`.
pub fn check_text(
    alloc: Global,
    name: &[u8],
    text: &[u8],
    settings: &Settings,
) -> Result<Check, RunError>
    ensures check { IfOk result (IsCheckOf name.now text.now settings.now) }
    ensures stops { IfErr result (StopsCheck text.now settings.now) }
{
    match read_text(alloc, text) {
        Ok(reading) => told(alloc, name, text, &reading, settings),
        Err(refusal) => refused(alloc, name, text, refusal),
    }
}
