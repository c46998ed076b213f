//! Expressions of a process: operators by strength, operands, and the one load.
//!
//! Where a refusal leaves an expression behind, a call of `drop` drops it: at a `?` each of its forms would be a path
//! of the proof.

ghost use Rattle.std.specs.Prelude.{◌≡◌, ◌≤◌, ◌<◌, ◌+◌, ◌-◌, false, IfOk, IsSome, OnErr, OnOk, IsTrue, Some, option_map};
ghost use Rattle.litmus_syntax.specs.Views.{expression_of, fetch_of, load_of, pure_of};
ghost use Rattle.litmus_lex.specs.Front.{Answers, first, others, symbol_of_token, symbols_left};
ghost use Rattle.litmus_expression.specs.Expressions.{level_of};
ghost use Rattle.litmus_expression.specs.ExpressionReader as reader;
ghost use Rattle.litmus_expression.specs.States.{state_of};
ghost use Rattle.litmus_lex.specs.Cursor.{count_left, is_end};

use crate::process::{Process, Surroundings, Takes, address_or_offence, open_call, take_behind};
use litmus_lex::{Cursor, Excess, Expected, LoadWord, Refusal, Sign, Token, Unread, Word};
use litmus_syntax::{
    BinaryOperator, Expression, Fetch, Load, Loading, Pure, ReadForm, UnaryOperator,
};
use std::alloc::{AllocError, Global};

/// How many operators one expression or proposition can have.
pub const OPERATORS: usize = 256;

/// The level of the weakest binary operators.
const WEAKEST: usize = 7;

/// What the rest of an expression may still have.
#[derive(Clone, Copy)]
struct Rest {
    operators: usize,
    may_load: bool,
}

impl Rest {
    /// Takes the operator that is next, and counts it.
    fn take_operator(&mut self, cursor: &mut Cursor<'_>) -> Result<(), Refusal>
        ensures reads { Answers result (λ _. self.new) (reader.take_operator self.old) }
        ensures shorter { OnOk result (count_left cursor.new ≡ count_left cursor.old - 1) }
        ensures symbols { OnOk result (symbols_left cursor.new ≡ others (symbols_left cursor.old)) }
    {
        if self.operators == 0 {
            return Err(cursor.excess(Excess::Operators));
        }
        self.operators -= 1;
        cursor.advance();
        Ok(())
    }
}

/// The unary operator of a token.
fn unary_operator(token: Token<'_>) -> Option<UnaryOperator>
    ensures exact { result ≡ reader.unary_at (symbol_of_token token.entry) }
    ensures some { IsSome result → is_end token.entry ≡ false }
{
    match token {
        Token::Sign(Sign::Minus) => Some(UnaryOperator::Negate),
        Token::Sign(Sign::Not) => Some(UnaryOperator::Not),
        Token::Sign(Sign::Tilde) => Some(UnaryOperator::Complement),
        _ => None,
    }
}

/// The binary operator of a token, with its level: the higher it is, the weaker the operator.
fn binary_operator(token: Token<'_>) -> Option<(BinaryOperator, usize)>
    ensures { result ≡ option_map (λ operator. (operator, level_of operator)) (reader.binary_at (symbol_of_token token.entry)) }
{
    match token {
        // The levels are those of C, so that an expression of the kernel's files means the same here.
        Token::Sign(Sign::Star) => Some((BinaryOperator::Multiply, 1)),
        Token::Sign(Sign::Plus) => Some((BinaryOperator::Add, 2)),
        Token::Sign(Sign::Minus) => Some((BinaryOperator::Subtract, 2)),
        Token::Sign(Sign::Less) => Some((BinaryOperator::Less, 3)),
        Token::Sign(Sign::Greater) => Some((BinaryOperator::Greater, 3)),
        Token::Sign(Sign::LessEqual) => Some((BinaryOperator::LessOrEqual, 3)),
        Token::Sign(Sign::GreaterEqual) => Some((BinaryOperator::GreaterOrEqual, 3)),
        Token::Sign(Sign::Equal) => Some((BinaryOperator::Equal, 4)),
        Token::Sign(Sign::NotEqual) => Some((BinaryOperator::NotEqual, 4)),
        Token::Sign(Sign::Ampersand) => Some((BinaryOperator::BitAnd, 5)),
        Token::Sign(Sign::Caret) => Some((BinaryOperator::BitXor, 6)),
        Token::Sign(Sign::Bar) => Some((BinaryOperator::BitOr, WEAKEST)),
        _ => None,
    }
}

/// The binary operator of a token, if it is of the level.
fn operator_at(token: Token<'_>, level: usize) -> Option<BinaryOperator>
    ensures { result ≡ reader.of_level level (reader.binary_at (symbol_of_token token.entry)) }
{
    match binary_operator(token) {
        Some((operator, found)) if found == level => Some(operator),
        _ => None,
    }
}

/// Whether the token is an operator of C that no expression takes.
fn is_foreign_operator(token: Token<'_>) -> bool
    ensures { result ≡ reader.is_foreign (symbol_of_token token.entry) }
{
    matches!(
        token,
        Token::Sign(
            Sign::Slash
                | Sign::Percent
                | Sign::ShiftLeft
                | Sign::ShiftRight
                | Sign::LogicalAnd
                | Sign::LogicalOr
                | Sign::Question
        )
    )
}

/// The refusal of a token that is next where an operand stands.
fn operand_offence(cursor: &Cursor<'_>, token: Token<'_>) -> Refusal {
    if is_foreign_operator(token) {
        return cursor.unsupported(Unread::Operator, Expected::Expression);
    }
    address_or_offence(cursor, Expected::Expression)
}

/// The operand, where no operator is next that no expression takes.
fn before_operator(cursor: &Cursor<'_>, operand: Expression) -> Result<Expression, Refusal>
    ensures same { IfOk result (λ found. found ≡ operand) }
    ensures ok { OnOk result (reader.is_foreign (first (symbols_left cursor.now)) ≡ false) }
    ensures err { OnErr result (IsTrue (reader.is_foreign (first (symbols_left cursor.now)))) }
{
    if is_foreign_operator(cursor.token()) {
        drop(operand);
        return Err(cursor.unsupported(Unread::Operator, Expected::Operator));
    }
    Ok(operand)
}

/// An operator before an operand.
fn applied(
    alloc: Global,
    operator: UnaryOperator,
    operand: Expression,
) -> Result<Expression, Refusal>
    ensures { Answers result expression_of (Some (reader.applied operator (expression_of operand))) }
{
    match operand {
        Expression::Pure(operand) => {
            let operand = Box::new(alloc, operand)?;
            Ok(Expression::Pure(Pure::Unary(operator, operand)))
        }
        Expression::Loading(operand) => {
            let operand = Box::new(alloc, operand)?;
            Ok(Expression::Loading(Loading::Unary(operator, operand)))
        }
    }
}

/// The value on the heap, and the other.
fn boxed_beside<T: Drop, U: Drop>(
    alloc: Global,
    value: T,
    other: U,
) -> Result<(Box<T>, U), AllocError>
    ensures boxed { IfOk result (λ both. both.0.value ≡ value) }
    ensures beside { IfOk result (λ both. both.1 ≡ other) }
{
    Ok((Box::new(alloc, value)?, other))
}

/// An operator between two operands. Where both hold a load, the refusal is given.
fn combined(
    alloc: Global,
    left: Expression,
    operator: BinaryOperator,
    right: Expression,
    refusal: Refusal,
) -> Result<Expression, Refusal>
    ensures { Answers result expression_of (reader.combined (expression_of left) operator (expression_of right)) }
{
    match left {
        Expression::Pure(left) => match right {
            Expression::Pure(right) => {
                let (left, right) = boxed_beside(alloc, left, right)?;
                let (right, left) = boxed_beside(alloc, right, left)?;
                Ok(Expression::Pure(Pure::Binary(operator, left, right)))
            }
            Expression::Loading(right) => {
                let (right, left) = boxed_beside(alloc, right, left)?;
                Ok(Expression::Loading(Loading::Right(operator, left, right)))
            }
        },
        Expression::Loading(left) => match right {
            Expression::Pure(right) => {
                let (left, right) = boxed_beside(alloc, left, right)?;
                Ok(Expression::Loading(Loading::Left(operator, left, right)))
            }
            // Two loads would be two accesses at one site, so an expression has one at most.
            Expression::Loading(right) => {
                drop(left);
                drop(right);
                Err(refusal)
            }
        },
    }
}

/// Whether an operand that is next is a load.
fn is_at_load(cursor: &Cursor<'_>) -> bool
    ensures { result ≡ reader.is_a_load (reader.beginning_of (first (symbols_left cursor.now))) }
{
    match cursor.token() {
        Token::Sign(Sign::Star) => true,
        Token::Name(_) => matches!(cursor.word(), Some(Word::DataRace | Word::Load(_))),
        _ => false,
    }
}

/// The word of a load that is next.
fn load_word(cursor: &Cursor<'_>) -> Option<LoadWord>
    ensures exact { result ≡ reader.called_word (reader.loader_of (first (symbols_left cursor.now))) }
    ensures some { IsSome result → 0 < count_left cursor.now }
{
    match cursor.word() {
        Some(Word::Load(word)) => Some(word),
        _ => None,
    }
}

/// Whether `data_race` is next.
fn is_at_data_race(cursor: &Cursor<'_>) -> bool
    ensures exact { result ≡ reader.is_data_race (first (symbols_left cursor.now)) }
    ensures some { IsTrue result → 0 < count_left cursor.now }
{
    matches!(cursor.word(), Some(Word::DataRace))
}

/// Takes each `data_race (` that is next, and answers how many.
#[tactic(auto, using(crate::proofs::Races::opened_unrolls))]
fn open_data_races(cursor: &mut Cursor<'_>) -> Result<u64, Refusal>
    ensures moves { IfOk result (λ count. count + count_left cursor.new ≤ count_left cursor.old) }
    ensures reads { Answers result (λ count. (count, symbols_left cursor.new)) (reader.opened 0 (symbols_left cursor.old)) }
{
    let mut count = 0;
    while is_at_data_race(cursor) {
        cursor.advance();
        cursor.take(Sign::OpenParen)?;
        count += 1;
    }
    Ok(count)
}

/// Takes so many `)`.
#[tactic(auto, using(crate::proofs::Races::closing))]
fn close_data_races(cursor: &mut Cursor<'_>, count: u64) -> Result<(), Refusal>
    ensures moves { OnOk result (count_left cursor.new ≤ count_left cursor.old) }
    ensures reads { Answers result (λ _. symbols_left cursor.new) (reader.closed count (symbols_left cursor.old)) }
{
    for _ in 0..count {
        cursor.take(Sign::CloseParen)?;
    }
    Ok(())
}

/// The refusal of the next token where a load stands.
fn load_offence(cursor: &Cursor<'_>) -> Refusal {
    match cursor.refuse_call(Expected::Load) {
        Err(refusal) if cursor.word().is_none() => refusal,
        _ => address_or_offence(cursor, Expected::Load),
    }
}

/// A load, whose `data_race (` were so many, once their `)` are taken.
fn close_load(cursor: &mut Cursor<'_>, data_races: u64, fetch: Fetch) -> Result<Load, Refusal>
    ensures same { IfOk result (λ load. (load.data_races ≡ data_races) × (load.fetch ≡ fetch)) }
    ensures moves { OnOk result (count_left cursor.new ≤ count_left cursor.old) }
    ensures reads { Answers result (λ _. symbols_left cursor.new) (reader.closed data_races (symbols_left cursor.old)) }
{
    match close_data_races(cursor, data_races) {
        Ok(()) => Ok(Load { data_races, fetch }),
        Err(refusal) => {
            drop(fetch);
            Err(refusal)
        }
    }
}

impl<'a> Process<'a> {
    /// An expression with one load at most.
    #[tactic(auto, unfolding(crate::specs::ExpressionReader::expression_at))]
    pub fn expression(&mut self, around: &Surroundings) -> Result<Expression, Refusal>
        ensures moves { OnOk result (count_left self.new.cursor < count_left self.old.cursor) }
        ensures reads { Answers result (λ found. (expression_of found, state_of self.new)) (reader.expression_at around.now.turns around.now.depth (state_of self.old)) }
    {
        let mut rest = Rest {
            operators: OPERATORS,
            may_load: true,
        };
        self.level(WEAKEST, around, &mut rest)
    }

    /// An expression without a load.
    #[cycle(expression)]
    #[tactic(auto, using(crate::proofs::Unrolled::unrolls))]
    pub fn pure(&mut self, around: &Surroundings) -> Result<Pure, Refusal>
        ensures moves { OnOk result (count_left self.new.cursor < count_left self.old.cursor) }
        ensures reads { Answers result (λ found. (pure_of found, state_of self.new)) (reader.pure_at around.now.turns around.now.depth (state_of self.old)) }
    {
        let unsupported = self.cursor.unsupported(Unread::Load, Expected::Pure);
        let mut rest = Rest {
            operators: OPERATORS,
            may_load: false,
        };
        match self.level(WEAKEST, around, &mut rest)? {
            Expression::Pure(pure) => Ok(pure),
            Expression::Loading(loading) => {
                drop(loading);
                Err(unsupported)
            }
        }
    }

    /// An expression whose binary operators outside parentheses are of the level or stronger, from the
    /// left. At level 0 there is none.
    #[cycle(expression)]
    #[tactic(auto, using(crate::proofs::Unrolled::unrolls))]
    fn level(
        &mut self,
        level: usize,
        around: &Surroundings,
        rest: &mut Rest,
    ) -> Result<Expression, Refusal>
        ensures moves { OnOk result (count_left self.new.cursor < count_left self.old.cursor) }
        ensures reads { Answers result (λ found. (expression_of found, state_of self.new, rest.new)) (reader.level_at around.now.turns around.now.depth level (state_of self.old) rest.old) }
    {
        let mut left = self.prefixed(around, rest)?;
        // No call is made for a level of which no operator follows, and that is most of them.
        for stronger in 0..level {
            if operator_at(self.cursor.token(), stronger + 1).is_some() {
                left = self.more(stronger + 1, left, around, rest)?;
            }
        }
        Ok(left)
    }

    /// An operand and what the operators of the level behind it join to it, from the left.
    #[cycle(expression)]
    #[tactic(auto, using(crate::proofs::Unrolled::unrolls))]
    fn more(
        &mut self,
        level: usize,
        operand: Expression,
        around: &Surroundings,
        rest: &mut Rest,
    ) -> Result<Expression, Refusal>
        ensures moves { OnOk result (count_left self.new.cursor ≤ count_left self.old.cursor) }
        ensures reads { Answers result (λ found. (expression_of found, state_of self.new, rest.new)) (reader.more_at around.now.turns around.now.depth level (expression_of operand) (state_of self.old) rest.old) }
    {
        let mut left = operand;
        while let Some(operator) = operator_at(self.cursor.token(), level) {
            let unsupported = self.cursor.unsupported(Unread::Load, Expected::Pure);
            if let Err(refusal) = rest.take_operator(&mut self.cursor) {
                drop(left);
                return Err(refusal);
            }
            match self.level(level - 1, around, rest) {
                Ok(right) => left = combined(self.alloc, left, operator, right, unsupported)?,
                Err(refusal) => {
                    drop(left);
                    return Err(refusal);
                }
            }
        }
        Ok(left)
    }

    /// An operand, behind any number of unary operators.
    #[cycle(expression)]
    #[tactic(auto, using(crate::proofs::Unrolled::unrolls))]
    fn prefixed(&mut self, around: &Surroundings, rest: &mut Rest) -> Result<Expression, Refusal>
        ensures moves { OnOk result (count_left self.new.cursor < count_left self.old.cursor) }
        ensures reads { Answers result (λ found. (expression_of found, state_of self.new, rest.new)) (reader.prefixed_at around.now.turns around.now.depth (state_of self.old) rest.old) }
    {
        let Some(operator) = unary_operator(self.cursor.token()) else {
            let operand = self.operand(around, rest)?;
            return before_operator(&self.cursor, operand);
        };
        rest.take_operator(&mut self.cursor)?;
        let operand = self.prefixed(around, rest)?;
        applied(self.alloc, operator, operand)
    }

    /// A number, a register, a load, or an expression in parentheses.
    #[cycle(expression)]
    #[tactic(auto, using(crate::proofs::Unrolled::operands))]
    fn operand(&mut self, around: &Surroundings, rest: &mut Rest) -> Result<Expression, Refusal>
        ensures moves { OnOk result (count_left self.new.cursor < count_left self.old.cursor) }
        ensures reads { Answers result (λ found. (expression_of found, state_of self.new, rest.new)) (reader.operand_at around.now.turns around.now.depth (state_of self.old) rest.old) }
    {
        if self.cursor.is_at(Sign::OpenParen) {
            let inside = around.deeper(self.cursor.at())?;
            self.cursor.advance();
            let expression = self.level(WEAKEST, &inside, rest)?;
            return take_behind(&mut self.cursor, expression, Sign::CloseParen);
        }
        if is_at_load(&self.cursor) {
            return self.loading(around, rest);
        }
        self.plain_operand()
    }

    /// A number or a register as an operand.
    #[tactic(auto, unfolding(crate::specs::ExpressionReader::plain_operand))]
    fn plain_operand(&mut self) -> Result<Expression, Refusal>
        ensures moves { OnOk result (count_left self.new.cursor < count_left self.old.cursor) }
        ensures reads { Answers result (λ found. (expression_of found, state_of self.new)) (reader.plain_operand (state_of self.old)) }
    {
        match self.cursor.token() {
            Token::Number(number) => {
                self.cursor.advance();
                Ok(Expression::Pure(Pure::Number(number)))
            }
            Token::Name(_) if self.cursor.word().is_none() => self.register_operand(),
            token => Err(operand_offence(&self.cursor, token)),
        }
    }

    /// A register as an operand.
    #[tactic(auto, unfolding(crate::specs::ExpressionReader::register_operand))]
    fn register_operand(&mut self) -> Result<Expression, Refusal>
        ensures moves { OnOk result (count_left self.new.cursor < count_left self.old.cursor) }
        ensures reads { Answers result (λ found. (expression_of found, state_of self.new)) (reader.register_operand (state_of self.old)) }
    {
        self.cursor.refuse_call(Expected::Expression)?;
        Ok(Expression::Pure(Pure::Register(self.take_register()?)))
    }

    /// A load as an operand. A second one is unsupported, and so is one where a pure expression stands.
    #[cycle(expression)]
    #[tactic(auto, using(crate::proofs::Unrolled::unrolls))]
    fn loading(&mut self, around: &Surroundings, rest: &mut Rest) -> Result<Expression, Refusal>
        ensures moves { OnOk result (count_left self.new.cursor < count_left self.old.cursor) }
        ensures reads { Answers result (λ found. (expression_of found, state_of self.new, rest.new)) (reader.loading_at around.now.turns around.now.depth (state_of self.old) rest.old) }
    {
        if !rest.may_load {
            return Err(self.cursor.unsupported(Unread::Load, Expected::Pure));
        }
        rest.may_load = false;
        Ok(Expression::Loading(Loading::Load(self.load(around)?)))
    }

    /// A load, inside any number of `data_race( )`.
    #[cycle(expression)]
    #[tactic(auto, using(crate::proofs::Unrolled::load_opens))]
    pub fn load(&mut self, around: &Surroundings) -> Result<Load, Refusal>
        ensures reads { Answers result (λ found. (load_of found, state_of self.new)) (reader.load_at around.now.turns around.now.depth (state_of self.old)) }
        ensures moves { OnOk result (count_left self.new.cursor < count_left self.old.cursor) }
        ensures enclosed { IfOk result (λ load. load.data_races < count_left self.old.cursor) }
    {
        let data_races = self.open_load(around)?;
        let fetch = self.fetch(around)?;
        close_load(&mut self.cursor, data_races, fetch)
    }

    /// Counts the access of a load, takes each `data_race (` before it, and answers how many.
    #[tactic(auto, unfolding(crate::specs::ExpressionReader::open_load))]
    fn open_load(&mut self, around: &Surroundings) -> Result<u64, Refusal>
        ensures moves { IfOk result (λ count. count + count_left self.new.cursor ≤ count_left self.old.cursor) }
        ensures reads { Answers result (λ count. (count, state_of self.new)) (reader.open_load around.now.turns (state_of self.old)) }
    {
        self.count_access(around)?;
        let data_races = open_data_races(&mut self.cursor)?;
        let at = self.cursor.at();
        self.note_access(at)?;
        Ok(data_races)
    }

    /// A load without `data_race`.
    #[cycle(expression)]
    #[tactic(auto, using(crate::proofs::Unrolled::fetch_begins))]
    fn fetch(&mut self, around: &Surroundings) -> Result<Fetch, Refusal>
        ensures moves { OnOk result (count_left self.new.cursor < count_left self.old.cursor) }
        ensures reads { Answers result (λ found. (fetch_of found, state_of self.new)) (reader.fetch_at around.now.turns around.now.depth (state_of self.old)) }
    {
        let Some(word) = load_word(&self.cursor) else {
            return self.starred_read();
        };
        open_call(&mut self.cursor)?;
        let fetch = self.fetch_of_word(word, around)?;
        take_behind(&mut self.cursor, fetch, Sign::CloseParen)
    }

    /// `* VAR` as a load.
    #[tactic(auto, unfolding(crate::specs::ExpressionReader::starred_read))]
    fn starred_read(&mut self) -> Result<Fetch, Refusal>
        ensures moves { OnOk result (count_left self.new.cursor < count_left self.old.cursor) }
        ensures reads { Answers result (λ found. (fetch_of found, state_of self.new)) (reader.starred_read (state_of self.old)) }
    {
        if self.cursor.accept(Sign::Star) {
            return self.read(ReadForm::Plain);
        }
        Err(load_offence(&self.cursor))
    }

    /// What stands between the parentheses of a load.
    #[cycle(expression)]
    #[tactic(auto, using(crate::proofs::Unrolled::arguments))]
    fn fetch_of_word(&mut self, word: LoadWord, around: &Surroundings) -> Result<Fetch, Refusal>
        ensures moves { OnOk result (count_left self.new.cursor < count_left self.old.cursor) }
        ensures reads { Answers result (λ found. (fetch_of found, state_of self.new)) (reader.arguments_at around.now.turns around.now.depth word (state_of self.old)) }
    {
        match word {
            LoadWord::Read(form) => self.read_of_form(form),
            LoadWord::Exchange => {
                let variable = self.take_variable_before(Sign::Comma, Takes::Integers)?;
                let value = self.pure(around)?;
                Ok(Fetch::Exchange { variable, value })
            }
            LoadWord::CompareExchange => {
                let variable = self.take_variable_before(Sign::Comma, Takes::Integers)?;
                let expected = self.pure(around)?;
                let expected = take_behind(&mut self.cursor, expected, Sign::Comma)?;
                match self.pure(around) {
                    Ok(replacement) => Ok(Fetch::CompareExchange {
                        variable,
                        expected,
                        replacement,
                    }),
                    Err(refusal) => {
                        drop(expected);
                        Err(refusal)
                    }
                }
            }
        }
    }

    /// What stands between the parentheses of a load that only reads.
    fn read_of_form(&mut self, form: ReadForm) -> Result<Fetch, Refusal>
        ensures moves { OnOk result (count_left self.new.cursor < count_left self.old.cursor) }
        ensures reads { Answers result (λ found. (fetch_of found, state_of self.new)) (reader.read_with form (state_of self.old)) }
    {
        match form {
            // No word is a plain read.
            ReadForm::Plain => Err(self.cursor.offence(Expected::Load)),
            ReadForm::Once => {
                self.take_star()?;
                self.read(form)
            }
            ReadForm::Acquire | ReadForm::Atomic => self.read(form),
        }
    }

    /// The variable that a load of the form reads.
    #[tactic(auto, unfolding(crate::specs::ExpressionReader::read_of))]
    fn read(&mut self, form: ReadForm) -> Result<Fetch, Refusal>
        ensures moves { OnOk result (count_left self.new.cursor < count_left self.old.cursor) }
        ensures reads { Answers result (λ found. (fetch_of found, state_of self.new)) (reader.read_of form (state_of self.old)) }
    {
        let takes = match form {
            ReadForm::Atomic => Takes::Atomics,
            ReadForm::Plain | ReadForm::Once | ReadForm::Acquire => Takes::Integers,
        };
        let variable = self.take_variable(takes)?;
        Ok(Fetch::Read { form, variable })
    }

    /// Takes the `*` before a variable.
    #[tactic(auto, unfolding(crate::specs::ExpressionReader::take_star, litmus_lex::specs::Front::take_sign))]
    pub fn take_star(&mut self) -> Result<(), Refusal>
        ensures moves { OnOk result (count_left self.new.cursor < count_left self.old.cursor) }
        ensures reads { Answers result (λ _. state_of self.new) (reader.take_star (state_of self.old)) }
    {
        if self.cursor.accept(Sign::Star) {
            return Ok(());
        }
        Err(address_or_offence(&self.cursor, Expected::Sign(Sign::Star)))
    }
}
