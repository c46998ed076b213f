//! The word before a place in its line.

ghost use Rattle.std.specs.Prelude.{◌≡◌, ◌-◌, ◌≤◌, length, not};
ghost use Rattle.std.specs.List.{after_last, suffix_len};
ghost use Rattle.diagnostics.specs.refusal_text.Before as spec;
ghost use Rattle.diagnostics.specs.refusal_text.Token.{is_no_name_byte};

use crate::refusal_text::excerpt::before_of;
use crate::refusal_text::token::is_name_byte;

/// A byte between tokens of one line.
fn is_blank(byte: u8) -> bool
    ensures { result ≡ spec.is_blank byte }
{
    byte == b' ' || byte == b'\t' || byte == b'\r'
}

/// How many bytes stand before the blanks at the end.
fn unblanked_len(bytes: &[u8]) -> usize
    ensures exact { result ≡ length bytes.now - suffix_len spec.is_blank bytes.now }
    ensures within { result ≤ length bytes.now }
{
    let mut len = 0;
    for (index, byte) in bytes.iter().enumerate() {
        if !is_blank(*byte) {
            len = index + 1;
        }
    }
    len
}

/// Where the letters, digits and `_` at the end begin.
fn word_start(bytes: &[u8]) -> usize
    ensures exact { result ≡ length bytes.now - suffix_len (λ byte. not (is_no_name_byte byte)) bytes.now }
    ensures within { result ≤ length bytes.now }
{
    let mut start = 0;
    for (index, byte) in bytes.iter().enumerate() {
        if !is_name_byte(*byte) {
            start = index + 1;
        }
    }
    start
}

/// The bytes without the blanks at their end.
fn unblanked(bytes: &[u8]) -> &[u8]
    ensures { result.now ≡ spec.unblanked bytes.now }
{
    &bytes[..unblanked_len(bytes)]
}

/// The letters, digits and `_` at the end.
fn last_word(bytes: &[u8]) -> &[u8]
    ensures { result.now ≡ after_last is_no_name_byte bytes.now }
{
    &bytes[word_start(bytes)..]
}

/// The letters, digits and `_` that stand in the line of a place before it, with blanks behind them or none.
pub(crate) fn word_before(text: &[u8], at: usize) -> &[u8]
    requires { at ≤ length text.now }
    ensures { result.now ≡ spec.word_before text.now at }
{
    last_word(unblanked(before_of(text, at)))
}
