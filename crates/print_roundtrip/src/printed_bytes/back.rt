//! Programs read back from their printed form.

ghost use Rattle.std.specs.Prelude.{◌≡◌, ◌≤◌, ℕ, IfErr, IfOk, List, length};
ghost use Rattle.litmus_syntax.specs.Limits.{file_bytes};
ghost use Rattle.litmus_syntax.specs.PrintedForm.{printed};
ghost use Rattle.litmus_syntax.specs.Tree as tree;
ghost use Rattle.litmus_syntax.specs.Views.{program_of};
ghost use Rattle.litmus_parse.specs.Grammar.{SpellsProgram};
ghost use Rattle.print_roundtrip.specs.printed_texts.PrintedProgram.{Nests};

use crate::printed_bytes::laws::law_printed_programs_spell_themselves;
use litmus_parse::{ParseError, Program, parse, print};
use std::alloc::Global;

/// Prints a program and reads what was printed.
///
/// What comes is the program that the printed form spells, and where it spells one, that one comes or memory ran out.
/// So a program that a text spells comes back as it was, wherever its printed form keeps the limits of nesting and of a
/// file's size.
pub fn read_back(alloc: Global, program: &Program) -> Result<Program, ParseError>
    ensures spelled { IfOk result (λ again. SpellsProgram (printed (program_of program.now)) (program_of again)) }
    ensures complete { (other : tree.Program) → SpellsProgram (printed (program_of program.now)) other
        → IfOk result (λ again. program_of again ≡ other) × IfErr result (λ error. error ≡ ParseError.OutOfMemory) }
    ensures back { (text : List ℕ) → SpellsProgram text (program_of program.now) → Nests (program_of program.now)
        → length (printed (program_of program.now)) ≤ file_bytes
        → IfOk result (λ again. program_of again ≡ program_of program.now)
        × IfErr result (λ error. error ≡ ParseError.OutOfMemory) }
{
    law_printed_programs_spell_themselves();
    let text = print(alloc, program)?;
    parse(alloc, text.as_bytes())
}
