//! Why a text is refused, and what would stand there, in words.

ghost use Rattle.std.specs.Prelude.{◌≡◌, IfOk};
ghost use Rattle.diagnostics.specs.refusal_text.Words as spec;

use litmus_lex::{Excess, Fault, Unread};
use program_table::text_pieces::{joined, number, shown};
use std::alloc::{AllocError, Global};

/// What is wrong with a token, behind its bytes.
pub(crate) fn fault_words(fault: Fault) -> &'static str
    ensures { result.now ≡ spec.fault_words fault }
{
    match fault {
        Fault::Token => "has no place here",
        Fault::Stray => "begins no token",
        Fault::Unclosed => "a comment doesn't end",
        Fault::End => "the text ends too early",
        Fault::Variable => "is a variable of the process, which only calls and `*` take",
        Fault::Unknown => "is no variable here",
        Fault::Twice => "is a parameter of the process already",
        Fault::Task => "is the number of no process",
    }
}

/// Why a token isn't read, behind its bytes.
pub(crate) fn unread_words(unread: Unread) -> &'static str
    ensures { result.now ≡ spec.unread_words unread }
{
    match unread {
        Unread::Call => "is no call that is read here",
        Unread::Pointer => "makes a pointer, and none is read",
        Unread::Address => "takes an address, and none is read",
        Unread::Operator => "is an operator of C that isn't read",
        Unread::Load =>
            "is one load too many: an expression has one at most, and a value that is written none",
        Unread::Loop => "begins no loop that is read: that is `for (r = 0; r < 3; r++)`",
        Unread::LoopForm => "leaves the one form of a loop that is read: `for (r = 0; r < 3; r++)`",
        Unread::Section => "begins a part of the kernel's format that isn't read",
        Unread::Type => "is a word of C that isn't read",
        Unread::Label => "would give a register a value: each is 0 at first",
        Unread::Name => "is a name, and an initial value is a number",
        Unread::LockValue => "would give a lock a value, and it has none",
        Unread::OtherType => "has a type that isn't read here",
        Unread::TwoTypes => "has another type before",
        Unread::Counter => "counts the loop round it, and isn't changed there",
    }
}

/// Of what there may be no more than so much, and how much.
fn limit_of(excess: Excess) -> (usize, &'static str)
    ensures number { result.0 ≡ spec.limit_number excess }
    ensures words { result.1.now ≡ spec.limit_words excess }
{
    match excess {
        Excess::Tasks => (16, " processes"),
        Excess::Statements => (256, " statements in a process"),
        Excess::Variables => (32, " variables"),
        Excess::Registers => (32, " registers in a process"),
        Excess::Nesting => (16, " open blocks and parentheses"),
        Excess::Operators => (256, " operators in an expression or in the condition"),
        Excess::Scoped => (8, " scoped assertions in force"),
        Excess::Check => (1048576, " bytes of a check"),
        Excess::Turns => (256, " turns of loops in loops"),
        Excess::Repeats => (
            1024,
            " turns of loops over the statements of a process with an access",
        ),
        // The largest number of 64 bits.
        Excess::Number => (usize::MAX, " as a number"),
    }
}

/// That there is more than so much of something.
pub(crate) fn more_than(
    alloc: Global,
    limit: usize,
    words: &'static str,
) -> Result<Vec<u8>, AllocError>
    ensures { IfOk result (λ text. text.items ≡ spec.more_than limit words.now) }
{
    let limit = number(alloc, limit)?;
    joined(alloc, &[b"more than ", &limit, words.as_bytes()])
}

/// Which limit is passed.
pub(crate) fn excess_words(alloc: Global, excess: Excess) -> Result<Vec<u8>, AllocError>
    ensures { IfOk result (λ text. text.items ≡ spec.excess_words excess) }
{
    let (limit, words) = limit_of(excess);
    more_than(alloc, limit, words)
}

/// A token as a message begins with it: nothing at the end of a text.
#[tactic(auto, unfolding(crate::specs::refusal_text::Words::quoted))]
fn quoted(alloc: Global, token: &[u8]) -> Result<Vec<u8>, AllocError>
    ensures { IfOk result (λ text. text.items ≡ spec.quoted token.now) }
{
    if token.is_empty() {
        return Ok(Vec::new(alloc));
    }
    let name = shown(alloc, token)?;
    joined(alloc, &[b"`", &name, b"` "])
}

/// Words behind a token.
pub(crate) fn behind(alloc: Global, token: &[u8], words: &str) -> Result<Vec<u8>, AllocError>
    ensures { IfOk result (λ text. text.items ≡ spec.behind token.now words.now) }
{
    let name = quoted(alloc, token)?;
    joined(alloc, &[&name, words.as_bytes()])
}
