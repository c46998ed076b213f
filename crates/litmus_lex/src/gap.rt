//! Blanks and comments before a token.

ghost use Rattle.std.specs.Prelude.{◌≡◌, ◌<◌, ◌≤◌, length, drop, take, IfNone, IfSome};
ghost use Rattle.litmus_lex.specs.Gap.{Closes, NeverCloses, Opens};
ghost use Rattle.litmus_lex.specs.Found.{IsFront, IsGapOf};

use crate::bytes::{Class, pair_len, run_len};
use crate::token::Part;

/// The kinds of comments.
#[derive(Clone, Copy)]
pub enum Comment {
    /// `(* .. *)`, outside process bodies.
    Parens,
    /// `/* .. */`, everywhere after the head.
    Slashes,
    /// `// ..` to the end of the line, everywhere after the head.
    Line,
}

/// What a text begins with.
#[derive(Clone, Copy)]
pub enum Front {
    /// No blank and no comment.
    Token,
    /// A blank or a comment, of so many bytes.
    Separator(usize),
    /// A comment that doesn't end.
    Unclosed,
}

/// The blanks and comments that a text begins with.
#[derive(Clone, Copy)]
pub enum Gap {
    /// So many bytes, after which a token or the end comes.
    Before(usize),
    /// The last of them is a comment that doesn't end.
    Unclosed,
}

/// The comment that begins with these two bytes.
fn comment_of(part: Part, first: u8, second: u8) -> Option<Comment>
    ensures found { IfSome result (λ comment. Opens part comment first second) }
    ensures none { IfNone result ((comment : Comment) → ¬ Opens part comment first second) }
{
    match (first, second) {
        // In a body `(*` may open an access, as in `(*x)++`, so it opens no comment there.
        (b'(', b'*') if !matches!(part, Part::Body(_)) => Some(Comment::Parens),
        (b'/', b'*') if part != Part::Head => Some(Comment::Slashes),
        (b'/', b'/') if part != Part::Head => Some(Comment::Line),
        _ => None,
    }
}

/// How many bytes at the front the comment has, after the two that open it. None: it doesn't end.
fn comment_len(bytes: &[u8], comment: Comment) -> Option<usize>
    ensures within { IfSome result (λ len. len ≤ length bytes.now) }
    ensures found { IfSome result
        (λ len. Closes comment (take len bytes.now) (drop len bytes.now)) }
    ensures none { IfNone result (NeverCloses comment bytes.now) }
{
    match comment {
        Comment::Parens => pair_len(bytes, b'*', b')'),
        Comment::Slashes => pair_len(bytes, b'*', b'/'),
        Comment::Line => Some(run_len(bytes, Class::InLine)),
    }
}

/// What the bytes begin with.
pub fn front_of(bytes: &[u8], part: Part) -> Front
    ensures { IsFront part bytes.now result }
{
    match bytes {
        [first, ..] if Class::Blank.has(*first) => Front::Separator(1),
        [first, second, inside @ ..] => match comment_of(part, *first, *second) {
            Some(comment) => match comment_len(inside, comment) {
                Some(len) => Front::Separator(2 + len),
                None => Front::Unclosed,
            },
            None => Front::Token,
        },
        _ => Front::Token,
    }
}

/// The blanks and comments that the bytes begin with.
pub fn gap_of(bytes: &[u8], part: Part) -> Gap
    ensures { IsGapOf part bytes.now result }
{
    let mut len = 0;
    loop {
        match front_of(&bytes[len..], part) {
            Front::Separator(more) => len += more,
            Front::Token => return Gap::Before(len),
            Front::Unclosed => return Gap::Unclosed,
        }
    }
}
