//! What is true of the readers of processes and of whole texts, and of the grammar.

ghost use Rattle.std.specs.Prelude.{◌≡◌, ◌≤◌, ℕ, All, Contains, List, [], ◌∷◌, Some, false, flat_map, length, map};
ghost use Rattle.std.specs.Str.{IsUtf8};
ghost use Rattle.litmus_lex.specs.declared.sign.Sign.TheVariants.{OpenBrace};
ghost use Rattle.litmus_syntax.specs.Limits.{KeepsLimits, file_bytes};
ghost use Rattle.litmus_syntax.specs.Tree as tree;
ghost use Rattle.litmus_lex.specs.Front.{first};
ghost use Rattle.litmus_lex.specs.Words.{Symbol, identifier, sign};
ghost use Rattle.litmus_expression.specs.Names.{Names};
ghost use Rattle.litmus_expression.specs.States.{State};
ghost use Rattle.litmus_parse.specs.Distinct.{AllDistinct, body_of};
ghost use Rattle.litmus_parse.specs.Entries.{Entry};
ghost use Rattle.litmus_parse.specs.ItemReader.{initialization_at, unnamed};
ghost use Rattle.litmus_parse.specs.Mentions.{AreNumbered, Mention};
ghost use Rattle.litmus_parse.specs.Seen.{seen};
ghost use Rattle.litmus_parse.specs.Typed.{AreTyped};
ghost use Rattle.litmus_parse.specs.Grammar.{Grammar, SpellsProgram, mentions_of};
ghost use Rattle.litmus_parse.specs.Headers.{Items, Process, Processes};
ghost use Rattle.litmus_parse.specs.ProcessReader.{is_process, processes_at, unbegun};
ghost use Rattle.litmus_parse.specs.TextReader.{program_at};

use litmus_lex::law_a_text_has_one_reading;

/// Law: what is spelled as processes is read, behind an initialization block that is read and before what begins no
/// process, where the names have types.
pub fn law_what_is_spelled_as_processes_is_read()
    ensures { (all items : List Mention) (symbols inside rest : List Symbol) (names later : Names) (table : List Entry)
        (processes : List Process) → Items symbols items inside → AreNumbered [] items names → AreTyped all items
        → initialization_at (unnamed (sign OpenBrace ∷ symbols)) ≡ Some (record { symbols = inside; names = names; table = table })
        → Processes 0 names inside processes rest later → AreTyped all (flat_map mentions_of processes)
        → ((number : ℕ) → is_process number (first rest) ≡ false)
        → (grown : List Entry) × (states : List State)
        × (processes_at (unbegun (record { symbols = inside; names = names; table = table })) ≡ Some (record {
          heading = record { symbols = rest; names = later; table = grown };
          states = states;
          bodies = map body_of processes;
        })) × (seen states (map body_of processes) ≡ processes) × AllDistinct states }
{}

/// Law: what is read as a text behind its head is spelled so.
pub fn law_what_is_read_as_a_text_is_spelled()
    ensures { (name : List ℕ) (symbols : List Symbol) (program : tree.Program) → program_at name symbols ≡ Some program
        → (program.name ≡ name) × Grammar symbols program }
{}

/// Law: what spells a program behind a head is read as that program.
pub fn law_what_is_spelled_as_a_text_is_read()
    ensures { (symbols : List Symbol) (program : tree.Program) → Grammar symbols program → program_at program.name symbols ≡ Some program }
{}

/// Law: a text spells at most one program.
pub fn law_a_text_spells_one_program()
    ensures { (text : List ℕ) (one two : tree.Program) → SpellsProgram text one → SpellsProgram text two → one ≡ two }
{
    law_a_text_has_one_reading();
}

/// Law: each name of a variable and of a register in a program that symbols spell is a name among these symbols.
pub fn law_names_of_a_program_are_spelled()
    ensures { (symbols : List Symbol) (program : tree.Program) → Grammar symbols program
        → All (λ variable. Contains symbols (identifier variable.name)) program.variables
        × All (λ task. All (λ name. Contains symbols (identifier name)) task.registers) program.tasks }
{}

/// Law: a program that symbols spell keeps the limits and the rules of types, where the symbols are no more than the
/// bytes that a text may have.
pub fn law_a_program_that_is_spelled_keeps_limits()
    ensures { (symbols : List Symbol) (program : tree.Program) → Grammar symbols program → length symbols ≤ file_bytes
        → KeepsLimits program }
{}

/// Law: a program that a text spells keeps the limits and the rules of types.
pub fn law_a_text_spells_what_keeps_limits()
    ensures limits { (text : List ℕ) (program : tree.Program) → SpellsProgram text program → KeepsLimits program }
    ensures names { (text : List ℕ) (program : tree.Program) → SpellsProgram text program → IsUtf8 program.name
        × All (λ variable. IsUtf8 variable.name) program.variables × All (λ task. All IsUtf8 task.registers) program.tasks }
{}
