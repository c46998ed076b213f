//! What is true of the bytes of the printed form of litmus programs.

ghost use Rattle.std.specs.Prelude.{◌≡◌, ◌≤◌, ℕ, All, List, length, map};
ghost use Rattle.litmus_lex.specs.Head.{IsText};
ghost use Rattle.litmus_lex.specs.Tokens.{Placed};
ghost use Rattle.litmus_syntax.specs.Limits.{file_bytes};
ghost use Rattle.litmus_syntax.specs.PrintedForm.{printed};
ghost use Rattle.litmus_syntax.specs.Tree.{Program};
ghost use Rattle.litmus_parse.specs.Grammar.{SpellsProgram, symbol_at};
ghost use Rattle.litmus_parse.specs.Text.{IsTextByte};
ghost use Rattle.print_roundtrip.specs.printed_texts.PrintedProgram.{Nests, program_symbols};
ghost use Rattle.print_roundtrip.specs.printed_bytes.Programs.{IsSpelled};

/// Law: the bytes of the printed form of a program, whose names and numbers are those that a text can have, are a text
/// with the program's name, and its tokens have just the symbols of the printed form. A text may have each of the
/// bytes.
pub fn law_printed_programs_are_read()
    ensures { (program : Program) → IsSpelled program
        → (tokens : List Placed) × IsText (printed program) program.name tokens × (map symbol_at tokens ≡ program_symbols program)
        × All IsTextByte (printed program) }
{}

/// Law: a program that a text spells has names and numbers that a text can have.
pub fn law_texts_spell_programs_with_their_names()
    ensures { (text : List ℕ) (program : Program) → SpellsProgram text program → IsSpelled program }
{}

/// Law: a program that a text spells is spelled by its printed form too, where this keeps the limit of nesting and is
/// no longer than a text may be.
pub fn law_printed_programs_spell_themselves()
    ensures { (text : List ℕ) (program : Program) → SpellsProgram text program → Nests program
        → length (printed program) ≤ file_bytes → SpellsProgram (printed program) program }
{}
