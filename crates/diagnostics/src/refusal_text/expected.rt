//! What would stand where a text is refused, in words.

ghost use Rattle.std.specs.Prelude.{◌≡◌, IfOk};
ghost use Rattle.diagnostics.specs.refusal_text.Expected as spec;

use crate::refusal_text::token::sign_words;
use litmus_lex::Expected;
use program_table::text_pieces::joined;
use std::alloc::{AllocError, Global};

/// What would stand there, where that is no sign alone.
fn place_words(expected: Expected) -> &'static str
    ensures { result.now ≡ spec.place_words expected }
{
    match expected {
        Expected::Head => "`C`, the test's name, and behind it the `{` of the initialization block",
        Expected::ParameterEnd => "`,` or `)`",
        Expected::ItemEnd => "`;` or `}`",
        Expected::DeclarationEnd => "`,`, `;`, or `=` behind the first register",
        Expected::Number => "a number",
        Expected::Zero => "`0`",
        Expected::Value => "a number, or `ATOMIC_INIT` of one",
        Expected::Type => "a type: char, short, int, long, atomic_t or spinlock_t",
        Expected::Variable => "the name of a variable",
        Expected::IntegerVariable => "a variable of the process, of type char, short, int or long",
        Expected::AtomicVariable => "a variable of the process, of type atomic_t",
        Expected::LockVariable => "a variable of the process, of type spinlock_t",
        Expected::MemoryVariable => "a variable that is no lock",
        Expected::Process => "a process: `P0` first, then `P1`, and so on",
        Expected::Register => "a register",
        Expected::Counter => "the register that the loop counts with",
        Expected::Statement =>
            "a statement: a declaration, a store, a load, if, for, or one of the calls in `check --calls`; or `}`",
        Expected::Simple => "a load, or an assignment",
        Expected::Load => "a load",
        Expected::Expression => "an expression",
        Expected::Pure => "an expression without a load",
        Expected::Operator => "an operator, or what ends the expression",
        Expected::Condition => "the next process, or `exists`, `~exists` or `forall`",
        Expected::Exists => "`exists`",
        Expected::Proposition => "a proposition",
        Expected::Task => "the number of a process",
        Expected::End => "the end of the text",
        Expected::Sign(_) => "",
    }
}

/// The line that says what would stand there.
pub(crate) fn expected_text(alloc: Global, expected: Expected) -> Result<Vec<u8>, AllocError>
    ensures { IfOk result (λ text. text.items ≡ spec.expected_text expected) }
{
    match expected {
        Expected::Sign(sign) => joined(
            alloc,
            &[b"expected `", sign_words(sign).as_bytes(), b"`\n"],
        ),
        _ => joined(
            alloc,
            &[b"expected ", place_words(expected).as_bytes(), b"\n"],
        ),
    }
}
