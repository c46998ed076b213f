//! Words and signs of C and of the kernel that a text of this format doesn't have.

ghost use Rattle.std.specs.Prelude.{◌≡◌};
ghost use Rattle.check_notes.specs.Words as spec;

/// A word that goes on elsewhere in a function of C.
#[tactic(auto, unfolding(crate::specs::Words::is_jump))]
pub(crate) fn is_jump(word: &[u8]) -> bool
    ensures { result ≡ spec.is_jump word.now }
{
    word == b"return".as_slice()
        || word == b"goto".as_slice()
        || word == b"break".as_slice()
        || word == b"continue".as_slice()
}

/// It begins with a digit.
#[tactic(auto, unfolding(crate::specs::Words::is_number))]
pub(crate) fn is_number(word: &[u8]) -> bool
    ensures { result ≡ spec.is_number word.now }
{
    match word {
        [first, ..] => first.is_ascii_digit(),
        [] => false,
    }
}

/// A word beside a type that changes nothing here.
#[tactic(auto, unfolding(crate::specs::Words::is_qualifier))]
pub(crate) fn is_qualifier(word: &[u8]) -> bool
    ensures { result ≡ spec.is_qualifier word.now }
{
    word == b"const".as_slice()
        || word == b"static".as_slice()
        || word == b"restrict".as_slice()
        || word == b"__rcu".as_slice()
        || word == b"__user".as_slice()
        || word == b"__percpu".as_slice()
}

/// It begins with a capital letter, as macros do that stand for numbers.
#[tactic(auto, unfolding(crate::specs::Words::is_constant))]
pub(crate) fn is_constant(word: &[u8]) -> bool
    ensures { result ≡ spec.is_constant word.now }
{
    match word {
        [first, ..] => first.is_ascii_uppercase() && !word.starts_with(b"READ_ONCE"),
        [] => false,
    }
}

/// Letters that C has behind a number.
#[tactic(auto, unfolding(crate::specs::Words::is_suffix))]
pub(crate) fn is_suffix(word: &[u8]) -> bool
    ensures { result ≡ spec.is_suffix word.now }
{
    word == b"U".as_slice()
        || word == b"L".as_slice()
        || word == b"UL".as_slice()
        || word == b"LL".as_slice()
        || word == b"ULL".as_slice()
        || word == b"u".as_slice()
}

/// An operator between two numbers.
#[tactic(auto, unfolding(crate::specs::Words::is_operator))]
pub(crate) fn is_operator(sign: &[u8]) -> bool
    ensures { result ≡ spec.is_operator sign.now }
{
    sign == b"|".as_slice()
        || sign == b"&".as_slice()
        || sign == b"^".as_slice()
        || sign == b"+".as_slice()
        || sign == b"-".as_slice()
        || sign == b"*".as_slice()
        || sign == b"/".as_slice()
        || sign == b"%".as_slice()
        || sign == b"<<".as_slice()
        || sign == b">>".as_slice()
}

/// Bytes without the blanks, `(` and `!` before them, as before what a loop asks for.
pub(crate) fn without_signs(mut bytes: &[u8]) -> &[u8]
    ensures { result.now ≡ spec.without_signs bytes.entry.now }
{
    while let [byte, rest @ ..] = bytes {
        if !matches!(*byte, b' ' | b'(' | b'!' | b'\t' | b'\n' | b'\r') {
            return bytes;
        }
        bytes = rest;
    }
    bytes
}

/// A structure or an `enum` of C goes on here: a `}` comes before each `{`, and behind it `;`.
pub(crate) fn ends_structure(mut bytes: &[u8]) -> bool
    ensures { result ≡ spec.ends_structure bytes.entry.now }
{
    while let [byte, rest @ ..] = bytes {
        if *byte == b'{' {
            return false;
        }
        if *byte == b'}' {
            return without_signs(rest).starts_with(b";");
        }
        bytes = rest;
    }
    false
}
