//! What comes of a file that gave a text.

ghost use Rattle.std.specs.Prelude.{◌≡◌, ◌≤◌, IfOk};
ghost use Rattle.diagnostics.specs.check_output.Output as spec;
ghost use Rattle.diagnostics.specs.check_output.Output.{IsMadeOf};
ghost use Rattle.prepared_program.specs.declared.program_sites.settings.Settings.{Settings};
ghost use Rattle.diagnostics.specs.text_check.Check.{IsCheckOf};
ghost use Rattle.diagnostics.specs.declared.text_check.checked.Check.{Check};

use crate::text_check::{Check, check_text};
use litmus_syntax::ParseError;
use prepared_program::program_sites::Settings;
use program_table::text_pieces::{joined, shown};
use std::alloc::{AllocError, Global};

/// What is asked of all files.
#[derive(Clone, Copy)]
pub struct Files {
    /// Whether there are several, each of which goes by its name.
    pub several: bool,
    /// Whether the printed forms are wanted too.
    pub print: bool,
}

/// What comes of a file that gave a text.
#[derive(Drop)]
pub enum Comes {
    /// It is read: this is printed of it, its tables and, where that is wanted, its printed form; and these are the
    /// lines of its warnings.
    Read { text: Vec<u8>, warnings: Vec<u8> },
    /// The places don't suit it: which one.
    Misplaced(Vec<u8>),
    /// It is refused: where and why.
    Refused(ParseError, Vec<u8>),
}

/// The tables of a program, and its printed form, where that is wanted.
#[tactic(auto, unfolding(crate::specs::check_output::Output::program_text))]
fn program_text(
    alloc: Global,
    print: bool,
    tables: &[u8],
    printed: &str,
) -> Result<Vec<u8>, AllocError>
    ensures { IfOk result (λ text. text.items ≡ spec.program_text print tables.now printed.now) }
{
    if print {
        joined(alloc, &[tables, b"\n", printed.as_bytes()])
    } else {
        Vec::from_slice(alloc, tables)
    }
}

/// What is printed of a file of this name that is read.
#[tactic(auto, unfolding(crate::specs::check_output::Output::read_text))]
fn read_text(
    alloc: Global,
    files: Files,
    name: &str,
    tables: &[u8],
    printed: &str,
) -> Result<Vec<u8>, AllocError>
    ensures { IfOk result (λ text. text.items ≡ spec.read_text files name.now tables.now printed.now) }
{
    let program = program_text(alloc, files.print, tables, printed)?;
    if !files.several {
        return Ok(program);
    }
    let head = shown(alloc, name.as_bytes())?;
    joined(alloc, &[&head, b":\n\n", &program, b"\n"])
}

/// What is told of a file of this name that the places don't suit, as the line says that is given.
#[tactic(auto, unfolding(crate::specs::check_output::Output::misplaced_text))]
fn misplaced_text(
    alloc: Global,
    files: Files,
    name: &str,
    line: &[u8],
) -> Result<Vec<u8>, AllocError>
    ensures { IfOk result (λ text. text.items ≡ spec.misplaced_text files name.now line.now) }
{
    if !files.several {
        return Vec::from_slice(alloc, line);
    }
    let head = shown(alloc, name.as_bytes())?;
    joined(alloc, &[&head, b": ", line])
}

/// What comes of a file of this name whose text was checked so.
fn made_of(alloc: Global, files: Files, name: &str, check: Check) -> Result<Comes, AllocError>
    ensures { IfOk result (IsMadeOf files name.now check) }
{
    match check {
        Check::Reads {
            tables,
            printed,
            warnings,
        } => {
            let text = read_text(alloc, files, name, &tables, printed.as_str())?;
            Ok(Comes::Read { text, warnings })
        }
        Check::Misplaced { why } => {
            let line = misplaced_text(alloc, files, name, &why)?;
            Ok(Comes::Misplaced(line))
        }
        Check::Refused { error, why } => Ok(Comes::Refused(error, why)),
    }
}

/// What comes of a file of this name that gave a text, whose variables stand as the settings say, with their slots and
/// watch words.
pub fn file_comes(
    alloc: Global,
    files: Files,
    name: &str,
    text: &[u8],
    settings: &Settings,
) -> Result<Comes, AllocError>
    requires { (3 ≤ settings.now.slots) × (settings.now.slots ≤ 1024) }
    ensures { IfOk result (λ comes. (check : Check) × IsCheckOf name.now text.now settings.now check × IsMadeOf files name.now check comes) }
{
    // With as many slots as may be asked for, memory alone can stop a check.
    let Ok(check) = check_text(alloc, name.as_bytes(), text, settings) else {
        return Err(AllocError);
    };
    let comes = made_of(alloc, files, name, check)?;
    Ok(comes)
}
