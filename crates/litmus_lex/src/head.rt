//! The head of a text: all before its initialization block.

ghost use Rattle.std.specs.Prelude.{◌≡◌, ◌+◌, ◌<◌, ◌≤◌, ℕ, List, [], length, drop, take, IfErr, IfNone, IfOk, IfSome, IsOk, IsOkAnd, ◌++◌};
ghost use Rattle.litmus_lex.specs.declared.token.Part.TheVariants.{Init};
ghost use Rattle.litmus_lex.specs.Bytes.{IsRun};
ghost use Rattle.litmus_lex.specs.Head.{EndsAtQuote, HasTitle, IsAtBrace, IsHead, IsPassedOver};
ghost use Rattle.litmus_lex.specs.Found.{IsPassedOf, IsTitle};

use crate::bytes::{Class, run_len};
use crate::gap::{Front, Gap, front_of, gap_of};
use crate::token::{Part, SourcePosition};

/// A head, which is read.
#[derive(Clone, Copy)]
pub struct Head<'a> {
    /// The test's name.
    pub name: &'a [u8],
    /// The first `{`, where tokens begin.
    pub after: SourcePosition,
}

/// Reads the head: blanks and comments, `C`, blanks, the test's name (the longest run of bytes
/// 0x21..0x7E), and all up to the first `{` outside comments and double quotes, which isn't kept.
///
/// In the head only `(* .. *)` is a comment. An `Err` is the place that offends: the end of the
/// text where a comment, a quote or the head itself doesn't end.
pub fn read_head(text: &[u8]) -> Result<Head<'_>, usize>
    ensures within { IfOk result (λ head. head.after.at ≤ length text.now) }
    ensures part { IfOk result (λ head. head.after.part ≡ Init) }
    ensures head { IfOk result (λ head. IsHead text.now head.name.now head.after.at) }
    ensures only { (name : List ℕ) (at : ℕ) → IsHead text.now name at
        → IsOkAnd result (λ head. (head.name.now ≡ name) × (head.after.at ≡ at)) }
    ensures err { IfErr result (λ place. place ≤ length text.now) }
{
    match gap_of(text, Part::Head) {
        Gap::Before(gap) => match title_of(&text[gap..]) {
            Ok(title) => match brace_of(&text[gap + title.end..]) {
                Some(passed) => Ok(Head {
                    name: &text[gap + title.start..gap + title.end],
                    after: SourcePosition {
                        at: gap + title.end + passed,
                        part: Part::Init,
                    },
                }),
                None => Err(text.len()),
            },
            Err(place) => Err(gap + place),
        },
        Gap::Unclosed => Err(text.len()),
    }
}

/// Where the test's name stands.
#[derive(Clone, Copy)]
struct Title {
    start: usize,
    end: usize,
}

/// The test's name, which follows a `C` at the front and at least one blank. An `Err` is the place
/// that offends.
fn title_of(bytes: &[u8]) -> Result<Title, usize>
    ensures ok { IfOk result (λ title. IsTitle bytes.now title) }
    ensures only { (name rest : List ℕ) → HasTitle bytes.now name rest → IsOk result }
    ensures err { IfErr result (λ place. place ≤ length bytes.now) }
{
    let [b'C', others @ ..] = bytes else {
        return Err(0);
    };
    let blanks = run_len(others, Class::Blank);
    if blanks == 0 {
        return Err(1);
    }
    let name = run_len(&others[blanks..], Class::Graphic);
    if name == 0 {
        return Err(1 + blanks);
    }
    Ok(Title {
        start: 1 + blanks,
        end: 1 + blanks + name,
    })
}

/// What a text begins with, behind the test's name.
#[derive(Clone, Copy)]
enum Passed {
    /// The `{` that ends the head.
    Brace,
    /// A byte, a comment or a quoted text, of so many bytes.
    Over(usize),
    /// The end, maybe in a comment or a quoted text.
    End,
}

/// How many bytes at the front end with the first double quote.
fn quote_len(bytes: &[u8]) -> Option<usize>
    ensures within { IfSome result (λ len. len ≤ length bytes.now) }
    ensures found { IfSome result (λ len. EndsAtQuote (take len bytes.now)) }
    ensures none { IfNone result (IsRun Class.InQuotes bytes.now []) }
{
    let quoted = run_len(bytes, Class::InQuotes);
    if quoted < bytes.len() {
        Some(quoted + 1)
    } else {
        None
    }
}

/// What the bytes begin with, behind the test's name.
fn passed_of(bytes: &[u8]) -> Passed
    ensures { IsPassedOf bytes.now result }
{
    match bytes {
        [] => Passed::End,
        [b'{', ..] => Passed::Brace,
        [b'"', inside @ ..] => match quote_len(inside) {
            Some(len) => Passed::Over(1 + len),
            None => Passed::End,
        },
        _ => match front_of(bytes, Part::Head) {
            Front::Token => Passed::Over(1),
            Front::Separator(len) => Passed::Over(len),
            Front::Unclosed => Passed::End,
        },
    }
}

/// How many bytes stand before the first `{` outside comments and double quotes.
fn brace_of(bytes: &[u8]) -> Option<usize>
    ensures within { IfSome result (λ len. len < length bytes.now) }
    ensures found { IfSome result (λ len. IsPassedOver (take len bytes.now) (drop len bytes.now)
        × IsAtBrace (drop len bytes.now)) }
    ensures none { IfNone result ((passed rest : List ℕ) → bytes.now ≡ passed ++ rest
        → IsPassedOver passed rest → ¬ IsAtBrace rest) }
{
    let mut len = 0;
    loop {
        match passed_of(&bytes[len..]) {
            Passed::Over(more) => len += more,
            Passed::Brace => return Some(len),
            Passed::End => return None,
        }
    }
}
