//! What tokens are, and the places where they stand.

ghost use Rattle.std.specs.Prelude.{◌≤◌};
ghost use Rattle.litmus_lex.specs.Part.{depth_of};

use crate::sign::Sign;

/// The parts of a text. They differ in their comments: `(* .. *)` is none in a process's body, and
/// `/* .. */` and `// ..` are none in the head.
#[derive(Clone, Copy, Debug, PartialEq, Eq)]
pub enum Part {
    /// Up to the first `{` after the test's name.
    Head,
    /// From there to the next `}`: the initialization block.
    Init,
    /// Outside the initialization block and outside every process's body.
    Between,
    /// In a process's body, with so many open braces.
    Body(usize),
}

/// A token. What can't be one is a token too, since it offends only where the parser comes to it.
#[derive(Clone, Copy, Debug, PartialEq, Eq)]
pub enum Token<'a> {
    /// A letter or `_`, and the letters, digits and `_` after it: a name, or a word of the grammar.
    Name(&'a [u8]),
    /// Decimal digits, or `0x` and hexadecimal digits.
    Number(u64),
    Sign(Sign),
    /// A number of 2^64 or more.
    TooLarge,
    /// A byte that begins no token.
    Stray,
    /// A comment that doesn't end. It stands at the end of the text.
    Unclosed,
    /// The end of the text, where no token is left.
    End,
}

/// A place in a text after its head, and the part of the text in which it is.
#[derive(Clone, Copy)]
pub struct SourcePosition {
    /// How many bytes stand before it.
    pub at: usize,
    pub part: Part,
    pub ghost shallow: { depth_of part ≤ at },
}

/// The token that a text goes on with, the place of its first byte, and the place after it.
#[derive(Clone, Copy)]
pub struct Lexeme<'a> {
    pub token: Token<'a>,
    /// How many bytes stand before the token.
    pub at: usize,
    pub after: SourcePosition,
}
