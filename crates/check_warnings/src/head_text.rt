//! Text in the head of a litmus text that is passed over, and is no blank, no comment and no text in double quotes.

ghost use Rattle.std.specs.Prelude.{◌≡◌, ◌+◌, ◌<◌, ◌≤◌, ℕ, List, IfSome, drop, length, slice_index};
ghost use Rattle.litmus_lex.specs.Bytes.{belongs};
ghost use Rattle.litmus_lex.specs.Head.{IsHead};
ghost use Rattle.litmus_lex.specs.declared.bytes.Class.TheVariants as classes;
ghost use Rattle.check_warnings.specs.HeadScan as spec;
ghost use Rattle.check_warnings.specs.HeadText.{text_in};

/// Where a byte of a head stands.
#[derive(Clone, Copy)]
enum Within {
    /// Between the `C` and the test's name.
    Blanks,
    /// In or behind the test's name.
    Name,
    /// Between the pieces that are passed over.
    Pieces,
    /// Behind the `(` that opens a comment.
    Opening,
    /// In a comment.
    Comment,
    /// Behind the `*` that closes a comment.
    Closing,
    /// In double quotes.
    Quotes,
}

/// What comes of a byte of a head.
#[derive(Clone, Copy)]
enum Step {
    /// The byte behind it stands so.
    To(Within),
    /// It is a byte of text.
    Text,
    /// It begins the initialization block.
    End,
}

/// A byte between tokens.
fn is_blank(byte: u8) -> bool
    ensures { result ≡ belongs classes.Blank byte }
{
    matches!(byte, b'\t' | b'\n' | b'\r' | b' ')
}

/// A byte that the name of a test may have.
fn is_graphic(byte: u8) -> bool
    ensures { result ≡ belongs classes.Graphic byte }
{
    matches!(byte, 0x21..=0x7E)
}

/// The byte at a place, or 0 where there is none.
fn byte_at(text: &[u8], at: usize) -> u8
    ensures { result ≡ slice_index text.now at }
{
    if at < text.len() { text[at] } else { 0 }
}

/// The step at a byte that begins a piece, before this byte.
fn piece_step(byte: u8, next: u8) -> Step
    ensures { result ≡ spec.piece_step byte next }
{
    if is_blank(byte) {
        return Step::To(Within::Pieces);
    }
    if byte == b'"' {
        return Step::To(Within::Quotes);
    }
    if byte == b'{' {
        return Step::End;
    }
    if byte == b'(' && next == b'*' {
        return Step::To(Within::Opening);
    }
    Step::Text
}

/// The step at a byte that stands so, before this byte.
fn step_of(within: Within, byte: u8, next: u8) -> Step
    ensures { result ≡ spec.step_of within byte next }
{
    match within {
        Within::Blanks if is_blank(byte) => Step::To(Within::Blanks),
        Within::Blanks => Step::To(Within::Name),
        Within::Name if is_graphic(byte) => Step::To(Within::Name),
        Within::Name | Within::Pieces => piece_step(byte, next),
        Within::Opening => Step::To(Within::Comment),
        Within::Comment if byte == b'*' && next == b')' => Step::To(Within::Closing),
        Within::Comment => Step::To(Within::Comment),
        Within::Closing => Step::To(Within::Pieces),
        Within::Quotes if byte == b'"' => Step::To(Within::Pieces),
        Within::Quotes => Step::To(Within::Quotes),
    }
}

/// Where text is first from a place on, where a byte stands so.
fn text_at(text: &[u8], first: Within, from: usize) -> Option<usize>
    requires { from ≤ length text.now }
    ensures exact { result ≡ spec.text_at first from (drop from text.now) }
    ensures within { IfSome result (λ at. at < length text.now) }
{
    let mut within = first;
    for at in from..text.len() {
        match step_of(within, text[at], byte_at(text, at + 1)) {
            Step::To(next) => within = next,
            Step::Text => return Some(at),
            Step::End => return None,
        }
    }
    None
}

/// Where text is first in the head of a text that is passed over, and is no blank, no comment and no text in double
/// quotes.
pub(crate) fn passed_text(text: &[u8]) -> Option<usize>
    ensures exact { (name : List ℕ) (at : ℕ) (head : IsHead text.now name at) → result ≡ text_in head }
    ensures within { IfSome result (λ at. at < length text.now) }
{
    let letter = text_at(text, Within::Pieces, 0)?;
    text_at(text, Within::Blanks, letter + 1)
}
