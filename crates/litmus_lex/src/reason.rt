//! Why a token is refused where it stands, and what would stand there.

use crate::{Sign, Token};

/// What would stand in the place of a token that is refused.
#[derive(Clone, Copy, Debug, PartialEq, Eq)]
pub enum Expected {
    /// The head: `C`, the test's name, and behind it the `{` of the initialization block.
    Head,
    Sign(Sign),
    /// `,` or `)`, behind a parameter.
    ParameterEnd,
    /// `;` or `}`, behind an item of the initialization block.
    ItemEnd,
    /// `,` or `;`, or `=` behind the first register, in a declaration.
    DeclarationEnd,
    Number,
    /// `0`
    Zero,
    /// A number, or `ATOMIC_INIT` of one.
    Value,
    /// The type of a parameter.
    Type,
    /// The name of a variable.
    Variable,
    /// A variable of the process, of the type `char`, `short`, `int` or `long`.
    IntegerVariable,
    /// A variable of the process, of the type `atomic_t`.
    AtomicVariable,
    /// A variable of the process, of the type `spinlock_t`.
    LockVariable,
    /// A variable of the process that is no lock.
    MemoryVariable,
    /// `P0` at first, then `P1`, and so on.
    Process,
    Register,
    /// The register that the loop counts with.
    Counter,
    /// A statement, or the `}` behind the last one.
    Statement,
    /// A load or an assignment.
    Simple,
    Load,
    Expression,
    /// An expression without a load.
    Pure,
    /// An operator, or what ends the expression.
    Operator,
    /// The next process, or `exists`, `~exists` or `forall`.
    Condition,
    /// `exists`
    Exists,
    Proposition,
    /// The number of a process.
    Task,
    /// The end of the text.
    End,
}

/// What no litmus format has where it stands.
#[derive(Clone, Copy, Debug, PartialEq, Eq)]
pub enum Fault {
    /// A token that stands elsewhere.
    Token,
    /// A byte that begins no token.
    Stray,
    /// A comment that doesn't end.
    Unclosed,
    /// The end of the text.
    End,
    /// The name of a variable of the process, which only calls and `*` take.
    Variable,
    /// A name that is no variable there.
    Unknown,
    /// A parameter of the process once more.
    Twice,
    /// A number that no process has.
    Task,
}

/// What the litmus format of the kernel, or C, has where it stands, and this format doesn't.
#[derive(Clone, Copy, Debug, PartialEq, Eq)]
pub enum Unread {
    /// A call of a function that isn't read there.
    Call,
    Pointer,
    /// The address of a variable.
    Address,
    /// An operator of C.
    Operator,
    /// A second load of an expression, or one in a value that has none.
    Load,
    /// `while` and `do`, and `for` where no statement begins.
    Loop,
    /// A `for` whose parentheses have another form.
    LoopForm,
    /// `filter` and `locations`.
    Section,
    /// `struct`, `unsigned` and `volatile`.
    Type,
    /// The number of a process before an item, which would give a register a value.
    Label,
    /// A name as an initial value.
    Name,
    /// A value of a lock.
    LockValue,
    /// A variable of a type that the form doesn't take.
    OtherType,
    /// A variable to which the text gives two types.
    TwoTypes,
    /// A register that counts a loop, changed in the loop.
    Counter,
}

/// What is wrong with a token that isn't a number that is too large.
pub fn fault_of(token: Token<'_>) -> Fault {
    match token {
        Token::Stray => Fault::Stray,
        Token::Unclosed => Fault::Unclosed,
        Token::End => Fault::End,
        _ => Fault::Token,
    }
}

/// What a word of C or of the kernel's format begins, by its bytes.
pub fn unread_of(word: &[u8]) -> Unread {
    match word {
        b"filter" | b"locations" => Unread::Section,
        b"struct" | b"unsigned" | b"volatile" => Unread::Type,
        _ => Unread::Loop,
    }
}
