//! The tokens of a text, and the place among them that its parser has come to.

ghost use Rattle.std.specs.Prelude.{◌≡◌, ◌≤◌, ◌<◌, ◌-◌, ◌^◌, List, length, IfOk, IsSome, IsTrue, OnOk, false};
ghost use Rattle.litmus_lex.specs.Tokens.{Placed};
ghost use Rattle.litmus_lex.specs.Spots.{AreSpots, AreTokensFrom};
ghost use Rattle.litmus_lex.specs.declared.cursor.Refusal.TheVariants.{OutOfMemory};

use crate::reason::{Expected, Fault, Unread, fault_of, unread_of};
use crate::words::{Word, word_of};
use crate::{Sign, SourcePosition, Token, next_token};
use std::alloc::{AllocError, AllocFailed, Global};

/// What a text can have too much of, beside its bytes.
#[derive(Clone, Copy, Debug, PartialEq, Eq)]
pub enum Excess {
    Tasks,
    Statements,
    Variables,
    Registers,
    Nesting,
    Operators,
    Scoped,
    Number,
    Check,
    /// Turns of the loops round one statement.
    Turns,
    /// Turns of the loops round all statements with an access.
    Repeats,
}

/// Why a text is refused. `at` is where the token that offends begins.
#[derive(Clone, Copy)]
pub enum Refusal {
    OutOfMemory,
    Syntax {
        at: usize,
        fault: Fault,
        expected: Expected,
    },
    Unsupported {
        at: usize,
        unread: Unread,
        expected: Expected,
    },
    Limit {
        at: usize,
        excess: Excess,
    },
}

impl From<AllocError> for Refusal {
    ghost from_gives = { λ _ refusal. refusal ≡ OutOfMemory };

    fn from(_error: AllocError) -> Refusal {
        Refusal::OutOfMemory
    }
}

impl<T: Drop> From<AllocFailed<T>> for Refusal {
    ghost from_gives = { λ _ refusal. refusal ≡ OutOfMemory };

    fn from(_error: AllocFailed<T>) -> Refusal {
        Refusal::OutOfMemory
    }
}

/// A token, and where it begins.
#[derive(Clone, Copy)]
pub struct Spot<'a> {
    pub token: Token<'a>,
    pub at: usize,
}

/// The tokens of a text from a place on, without the end.
pub fn tokens(
    alloc: Global,
    text: &[u8],
    start: SourcePosition,
) -> Result<Vec<Spot<'_>>, AllocError>
    requires { start.at ≤ length text.now }
    ensures spelled { IfOk result (λ spots. AreTokensFrom text.now start spots.items) }
    ensures found { IfOk result (λ spots. (found : List Placed) × AreSpots spots.items found) }
{
    // All tokens are read before parsing, so that the contracts of the parser speak of lists.
    let mut spots = Vec::new(alloc);
    let mut place = start;
    loop {
        let lexeme = next_token(text, place);
        if let Token::End = lexeme.token {
            return Ok(spots);
        }
        spots.push(Spot {
            token: lexeme.token,
            at: lexeme.at,
        })?;
        place = lexeme.after;
    }
}

/// What is left of a text: its tokens, and where the text ends.
#[derive(Clone, Copy)]
pub struct Cursor<'a> {
    left: &'a [Spot<'a>],
    end: usize,
    ghost fits: { length left.now < 2 ^ 64 - 1 },
}

impl<'a> Cursor<'a> {
    ghost use Rattle.std.specs.Prelude.{true, IfSome, OnErr, Some, if◌then◌else◌, option_map};
    ghost use Rattle.litmus_lex.specs.declared.sign.Sign.TheVariants.{Ampersand, Star};
    ghost use Rattle.litmus_lex.specs.Cursor.{count_left, is_end, next_of, place_left, refused_at, rest_of, spots_left};
    ghost use Rattle.litmus_lex.specs.Front.{Answers, begins_call, first, is_sign, others, symbol_of_token, symbols_left, take_sign, take_signed, word_at, identifier_at, now};
    ghost use Rattle.litmus_lex.specs.Words as words;
    ghost use Rattle.litmus_lex.specs.Front as front;

    /// All tokens of a text with so many bytes.
    pub fn new(spots: &'a [Spot<'a>], end: usize) -> Cursor<'a>
        ensures { spots_left result ≡ spots.now }
    {
        Cursor { left: spots, end }
    }

    /// How many tokens are left.
    pub fn left(&self) -> usize
        ensures { result ≡ count_left self.now }
    {
        self.left.len()
    }

    /// The token that is next, or the end.
    pub fn token(&self) -> Token<'a>
        ensures value { result ≡ next_of (spots_left self.now) }
        ensures symbol { symbol_of_token result ≡ first (symbols_left self.now) }
        ensures some { is_end result ≡ false → 0 < count_left self.now }
    {
        match self.left {
            [next, ..] => next.token,
            [] => Token::End,
        }
    }

    /// The token after it.
    fn second(&self) -> Token<'a>
        ensures { symbol_of_token result ≡ first (others (symbols_left self.now)) }
    {
        match self.left {
            [_, second, ..] => second.token,
            _ => Token::End,
        }
    }

    /// Where the next token begins.
    pub fn at(&self) -> usize
        ensures { result ≡ place_left self.now }
    {
        match self.left {
            [next, ..] => next.at,
            [] => self.end,
        }
    }

    /// Goes to the token after it.
    pub fn advance(&mut self)
        ensures rest { spots_left self.new ≡ rest_of (spots_left self.old) }
        ensures shorter { count_left self.new ≡ count_left self.old - 1 }
        ensures symbols { symbols_left self.new ≡ others (symbols_left self.old) }
    {
        if let [_, rest @ ..] = self.left {
            self.left = rest;
        }
    }

    /// Whether the sign is next.
    pub fn is_at(&self, sign: Sign) -> bool
        ensures exact { result ≡ is_sign sign (first (symbols_left self.now)) }
        ensures some { IsTrue result → 0 < count_left self.now }
    {
        match self.token() {
            Token::Sign(found) => found == sign,
            _ => false,
        }
    }

    /// Whether a name is next, and then `(`.
    pub fn is_at_call(&self) -> bool
        ensures { result ≡ begins_call (symbols_left self.now) }
    {
        matches!(self.token(), Token::Name(_))
            && matches!(self.second(), Token::Sign(Sign::OpenParen))
    }

    /// Whether a number is next, and then `:`.
    pub fn is_at_label(&self) -> bool {
        matches!(self.token(), Token::Number(_)) && self.second() == Token::Sign(Sign::Colon)
    }

    /// Whether the sign is next, and then a name.
    pub fn is_before_name(&self, sign: Sign) -> bool
        ensures { IsTrue result → IsTrue (is_sign sign (first (symbols_left self.now))) }
    {
        self.is_at(sign) && matches!(self.second(), Token::Name(_))
    }

    /// Whether `*` is next, and then `*` again.
    fn is_at_two_stars(&self) -> bool
        ensures { IsTrue result → IsTrue (is_sign Star (first (symbols_left self.now))) }
    {
        self.is_at(Sign::Star) && self.second() == Token::Sign(Sign::Star)
    }

    /// The word that is next.
    pub fn word(&self) -> Option<Word>
        ensures exact { result ≡ word_at (first (symbols_left self.now)) }
        ensures found { IfSome result (λ found. first (symbols_left self.now) ≡ words.word found) }
        ensures some { IsSome result → 0 < count_left self.now }
    {
        match self.token() {
            Token::Name(name) => word_of(name),
            _ => None,
        }
    }

    /// The name that is next, if it is no word.
    pub fn identifier(&self) -> Option<&'a [u8]>
        ensures exact { option_map now result ≡ identifier_at (first (symbols_left self.now)) }
        ensures found { IfSome result (λ name. first (symbols_left self.now) ≡ words.identifier name.now) }
        ensures some { IsSome result → 0 < count_left self.now }
    {
        match self.token() {
            Token::Name(name) if word_of(name).is_none() => Some(name),
            _ => None,
        }
    }

    /// Takes the sign, if it is next.
    pub fn accept(&mut self, sign: Sign) -> bool
        ensures exact { result ≡ is_sign sign (first (symbols_left self.old)) }
        ensures symbols { symbols_left self.new ≡ (if result then others (symbols_left self.old) else symbols_left self.old) }
        ensures moves { IsTrue result → count_left self.new < count_left self.old }
        ensures stays { count_left self.new ≤ count_left self.old }
    {
        let found = self.is_at(sign);
        if found {
            self.advance();
        }
        found
    }

    /// Takes the sign.
    #[tactic(auto, unfolding(crate::specs::Front::take_sign))]
    pub fn take(&mut self, sign: Sign) -> Result<(), Refusal>
        ensures moves { OnOk result (count_left self.new < count_left self.old) }
        ensures reads { Answers result (λ _. symbols_left self.new) (take_sign sign (symbols_left self.old)) }
    {
        self.take_where(sign, Expected::Sign(sign))
    }

    /// Takes the sign, where this is expected.
    #[tactic(auto, unfolding(crate::specs::Front::take_sign))]
    pub fn take_where(&mut self, sign: Sign, expected: Expected) -> Result<(), Refusal>
        ensures moves { OnOk result (count_left self.new < count_left self.old) }
        ensures reads { Answers result (λ _. symbols_left self.new) (take_sign sign (symbols_left self.old)) }
    {
        if self.accept(sign) {
            Ok(())
        } else {
            Err(self.offence(expected))
        }
    }

    /// Takes a number.
    #[tactic(auto, unfolding(crate::specs::Front::take_number))]
    pub fn take_number(&mut self) -> Result<u64, Refusal>
        ensures moves { OnOk result (count_left self.new < count_left self.old) }
        ensures reads { Answers result (λ value. (value, symbols_left self.new)) (front.take_number (symbols_left self.old)) }
    {
        let Token::Number(number) = self.token() else {
            return Err(self.offence(Expected::Number));
        };
        self.advance();
        Ok(number)
    }

    /// Takes a number or its negative, modulo 2^64.
    #[tactic(auto, unfolding(crate::specs::Front::take_signed))]
    pub fn take_signed_number(&mut self) -> Result<u64, Refusal>
        ensures moves { OnOk result (count_left self.new < count_left self.old) }
        ensures reads { Answers result (λ value. (value, symbols_left self.new)) (take_signed (symbols_left self.old)) }
    {
        if self.accept(Sign::Minus) {
            return Ok(self.take_number()?.wrapping_neg());
        }
        self.take_number()
    }

    /// The refusal of the next token where the grammar doesn't have it. A number that is too large and
    /// some words are refused alike wherever they offend.
    pub fn offence(&self, expected: Expected) -> Refusal
        ensures { refused_at result ≡ Some (place_left self.now) }
    {
        match self.token() {
            Token::TooLarge => self.excess(Excess::Number),
            Token::Name(name) => match word_of(name) {
                Some(Word::Foreign | Word::For) => self.unsupported(unread_of(name), expected),
                _ => self.syntax(Fault::Token, expected),
            },
            token => self.syntax(fault_of(token), expected),
        }
    }

    /// The refusal of the next token as one that no litmus format has here.
    pub fn syntax(&self, fault: Fault, expected: Expected) -> Refusal
        ensures { result ≡ Refusal.Syntax (place_left self.now) fault expected }
    {
        Refusal::Syntax {
            at: self.at(),
            fault,
            expected,
        }
    }

    /// The refusal of the next token as one that this format doesn't take here.
    pub fn unsupported(&self, unread: Unread, expected: Expected) -> Refusal
        ensures { result ≡ Refusal.Unsupported (place_left self.now) unread expected }
    {
        Refusal::Unsupported {
            at: self.at(),
            unread,
            expected,
        }
    }

    /// The refusal of the next token as one too much.
    pub fn excess(&self, excess: Excess) -> Refusal
        ensures { result ≡ Refusal.Limit (place_left self.now) excess }
    {
        Refusal::Limit {
            at: self.at(),
            excess,
        }
    }

    /// The refusal of the next token where a form of statement has exactly one token.
    pub fn form_offence(&self, expected: Expected) -> Refusal
        ensures { refused_at result ≡ Some (place_left self.now) }
    {
        match self.token() {
            Token::TooLarge => self.excess(Excess::Number),
            Token::Stray => self.syntax(Fault::Stray, expected),
            Token::Unclosed => self.syntax(Fault::Unclosed, expected),
            Token::End => self.syntax(Fault::End, expected),
            _ => self.unsupported(Unread::LoopForm, expected),
        }
    }

    /// Takes the sign that a form of statement has.
    #[tactic(auto, unfolding(crate::specs::Front::take_sign))]
    pub fn take_of_form(&mut self, sign: Sign) -> Result<(), Refusal>
        ensures moves { OnOk result (count_left self.new < count_left self.old) }
        ensures reads { Answers result (λ _. symbols_left self.new) (take_sign sign (symbols_left self.old)) }
    {
        if self.accept(sign) {
            Ok(())
        } else {
            Err(self.form_offence(Expected::Sign(sign)))
        }
    }

    /// An address of a variable, where a variable may stand, is unsupported.
    pub fn refuse_address(&self, expected: Expected) -> Result<(), Refusal>
        ensures { OnErr result (IsTrue (is_sign Ampersand (first (symbols_left self.now)))) }
    {
        if self.is_before_name(Sign::Ampersand) {
            Err(self.unsupported(Unread::Address, expected))
        } else {
            Ok(())
        }
    }

    /// A pointer, where a name is declared, is unsupported.
    pub fn refuse_pointer(&self, expected: Expected) -> Result<(), Refusal>
        ensures { OnErr result (IsTrue (is_sign Star (first (symbols_left self.now)))) }
    {
        if self.is_before_name(Sign::Star) || self.is_at_two_stars() {
            Err(self.unsupported(Unread::Pointer, expected))
        } else {
            Ok(())
        }
    }

    /// A call of a function that the format doesn't have is unsupported.
    pub fn refuse_call(&self, expected: Expected) -> Result<(), Refusal>
        ensures ok { OnOk result (begins_call (symbols_left self.now) ≡ false) }
        ensures err { OnErr result (begins_call (symbols_left self.now) ≡ true) }
    {
        if self.is_at_call() {
            Err(self.unsupported(Unread::Call, expected))
        } else {
            Ok(())
        }
    }
}
