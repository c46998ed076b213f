//! The condition of a text.

ghost use Rattle.std.specs.Prelude.{◌≡◌, ◌≤◌, ◌<◌, IsTrue, OnOk, map, vec_len};
ghost use Rattle.litmus_lex.specs.Cursor.{count_left};
ghost use Rattle.litmus_lex.specs.Front.{Answers, first, symbols_left};
ghost use Rattle.litmus_syntax.specs.Views.{proposition_of};
ghost use Rattle.litmus_expression.specs.States.{state_of};
ghost use Rattle.litmus_parse.specs.ConditionReader as reader;
ghost use Rattle.litmus_parse.specs.PropositionReader as propositions;
ghost use Rattle.litmus_parse.specs.PropositionReader.{asked_of, asked_past};
ghost use Rattle.litmus_parse.specs.VariableReader.{known_variable, locks_of, names_of};

use crate::declaration::Declarations;
use litmus_expression::{NESTING, OPERATORS, Process};
use litmus_lex::{Cursor, Excess, Expected, Fault, Refusal, Sign, Token, Unread, Word};
use litmus_syntax::{Proposition, Quantifier};
use std::alloc::Global;

/// The parser of a condition, over what the text has named before it.
#[derive(Drop)]
pub struct Condition<'a> {
    pub alloc: Global,
    pub cursor: Cursor<'a>,
    pub declarations: Declarations<'a>,
    pub processes: Vec<Process<'a>>,
}

/// Whether `forall` is next.
fn is_at_forall(cursor: &Cursor<'_>) -> bool
    ensures { result ≡ reader.is_forall (first (symbols_left cursor.now)) }
{
    matches!(cursor.word(), Some(Word::Forall))
}

/// Takes `exists`, where this is expected.
fn take_exists(cursor: &mut Cursor<'_>, expected: Expected) -> Result<(), Refusal>
    ensures { Answers result (λ _. symbols_left cursor.new) (reader.take_exists (symbols_left cursor.old)) }
{
    match cursor.word() {
        Some(Word::Exists) => {
            cursor.advance();
            Ok(())
        }
        _ => Err(cursor.offence(expected)),
    }
}

/// Whether `true` is next.
fn is_at_true(cursor: &Cursor<'_>) -> bool
    ensures exact { result ≡ propositions.is_true (first (symbols_left cursor.now)) }
    ensures some { IsTrue result → 0 < count_left cursor.now }
{
    matches!(cursor.word(), Some(Word::True))
}

/// What stands where an atom over a variable begins, or behind its `[`.
fn atom_of(is_bracketed: bool) -> Expected {
    if is_bracketed {
        Expected::Variable
    } else {
        Expected::Proposition
    }
}

/// Whether `false` is next.
fn is_at_false(cursor: &Cursor<'_>) -> bool
    ensures exact { result ≡ propositions.is_false (first (symbols_left cursor.now)) }
    ensures some { IsTrue result → 0 < count_left cursor.now }
{
    matches!(cursor.word(), Some(Word::False))
}

impl<'a> Condition<'a> {
    /// `exists`, `~exists` or `forall`
    #[tactic(auto, unfolding(crate::specs::ConditionReader::quantifier_at))]
    pub fn quantifier(&mut self) -> Result<Quantifier, Refusal>
        ensures stays { self.new.declarations ≡ self.old.declarations }
        ensures processes { self.new.processes ≡ self.old.processes }
        ensures reads { Answers result (λ quantifier. (quantifier, symbols_left self.new.cursor))
            (reader.quantifier_at (symbols_left self.old.cursor)) }
    {
        if is_at_forall(&self.cursor) {
            self.cursor.advance();
            return Ok(Quantifier::Forall);
        }
        if self.cursor.accept(Sign::Tilde) {
            take_exists(&mut self.cursor, Expected::Exists)?;
            return Ok(Quantifier::NotExists);
        }
        take_exists(&mut self.cursor, Expected::Condition)?;
        Ok(Quantifier::Exists)
    }

    /// The proposition, behind which the text ends.
    #[tactic(auto, unfolding(crate::specs::PropositionReader::whole_at))]
    pub fn whole(&mut self) -> Result<Proposition, Refusal>
        ensures stays { self.new.declarations ≡ self.old.declarations }
        ensures sized { OnOk result (vec_len self.new.processes ≡ vec_len self.old.processes) }
        ensures reads { Answers result (λ proposition. (proposition_of proposition, map state_of self.new.processes.items))
            (propositions.whole_at (names_of self.old.declarations) (locks_of self.old.declarations)
            (symbols_left self.old.cursor) (map state_of self.old.processes.items)) }
    {
        let mut operators = OPERATORS;
        let proposition = self.disjunction(0, &mut operators)?;
        if self.cursor.left() == 0 {
            Ok(proposition)
        } else {
            Err(self.cursor.offence(Expected::End))
        }
    }

    /// `conj {\/ conj}`, inside so many parentheses.
    #[cycle(proposition)]
    #[tactic(auto, using(crate::proofs::PropositionUnrolled::unrolls))]
    fn disjunction(&mut self, depth: usize, operators: &mut usize) -> Result<Proposition, Refusal>
        ensures moves { OnOk result (count_left self.new.cursor < count_left self.old.cursor) }
        ensures stays { self.new.declarations ≡ self.old.declarations }
        ensures sized { OnOk result (vec_len self.new.processes ≡ vec_len self.old.processes) }
        ensures reads { Answers result (λ proposition. (proposition_of proposition, asked_of self.new operators.new))
            (propositions.disjunction_at (names_of self.old.declarations) (locks_of self.old.declarations)
            depth (asked_of self.old operators.old)) }
    {
        let mut left = self.conjunction(depth, operators)?;
        while self.cursor.is_at(Sign::Disjunction) {
            self.take_operator(operators)?;
            let right = self.conjunction(depth, operators)?;
            left = Proposition::Or(Box::new(self.alloc, left)?, Box::new(self.alloc, right)?);
        }
        Ok(left)
    }

    /// `neg {/\ neg}`, inside so many parentheses.
    #[cycle(proposition)]
    #[tactic(auto, using(crate::proofs::PropositionUnrolled::unrolls))]
    fn conjunction(&mut self, depth: usize, operators: &mut usize) -> Result<Proposition, Refusal>
        ensures moves { OnOk result (count_left self.new.cursor < count_left self.old.cursor) }
        ensures stays { self.new.declarations ≡ self.old.declarations }
        ensures sized { OnOk result (vec_len self.new.processes ≡ vec_len self.old.processes) }
        ensures reads { Answers result (λ proposition. (proposition_of proposition, asked_of self.new operators.new))
            (propositions.conjunction_at (names_of self.old.declarations) (locks_of self.old.declarations)
            depth (asked_of self.old operators.old)) }
    {
        let mut left = self.negation(depth, operators)?;
        while self.cursor.is_at(Sign::Conjunction) {
            self.take_operator(operators)?;
            let right = self.negation(depth, operators)?;
            left = Proposition::And(Box::new(self.alloc, left)?, Box::new(self.alloc, right)?);
        }
        Ok(left)
    }

    /// `~ neg`, `( prop )`, `true`, `false` or an atom.
    #[cycle(proposition)]
    #[tactic(auto, using(crate::proofs::PropositionUnrolled::unrolls))]
    fn negation(&mut self, depth: usize, operators: &mut usize) -> Result<Proposition, Refusal>
        ensures moves { OnOk result (count_left self.new.cursor < count_left self.old.cursor) }
        ensures stays { self.new.declarations ≡ self.old.declarations }
        ensures sized { OnOk result (vec_len self.new.processes ≡ vec_len self.old.processes) }
        ensures reads { Answers result (λ proposition. (proposition_of proposition, asked_of self.new operators.new))
            (propositions.negation_at (names_of self.old.declarations) (locks_of self.old.declarations)
            depth (asked_of self.old operators.old)) }
    {
        if self.cursor.is_at(Sign::Tilde) {
            self.take_operator(operators)?;
            let denied = self.negation(depth, operators)?;
            return Ok(Proposition::Not(Box::new(self.alloc, denied)?));
        }
        if !self.cursor.is_at(Sign::OpenParen) {
            return self.atom(*operators);
        }
        // Each parenthesis is a call inside a call: this bounds the stack, as the limit of operators does for `~`.
        if depth >= NESTING {
            return Err(self.cursor.excess(Excess::Nesting));
        }
        self.cursor.advance();
        let inside = self.disjunction(depth + 1, operators)?;
        self.cursor.take(Sign::CloseParen)?;
        Ok(inside)
    }

    /// Takes the operator that is next, and counts it.
    #[tactic(auto, unfolding(crate::specs::PropositionReader::take_connective))]
    fn take_operator(&mut self, operators: &mut usize) -> Result<(), Refusal>
        requires { 0 < count_left self.old.cursor }
        ensures moves { OnOk result (count_left self.new.cursor < count_left self.old.cursor) }
        ensures stays { self.new.declarations ≡ self.old.declarations }
        ensures sized { OnOk result (vec_len self.new.processes ≡ vec_len self.old.processes) }
        ensures reads { Answers result (λ _. asked_of self.new operators.new)
            (propositions.take_connective (asked_of self.old operators.old)) }
    {
        if *operators == 0 {
            return Err(self.cursor.excess(Excess::Operators));
        }
        *operators -= 1;
        self.cursor.advance();
        Ok(())
    }

    /// `true`, `false`, `NUMBER : REG = num`, `VAR = num` or `[ VAR ] = num`, where so many operators may follow.
    #[tactic(auto, unfolding(crate::specs::PropositionReader::atom_at))]
    fn atom(&mut self, operators: usize) -> Result<Proposition, Refusal>
        ensures moves { OnOk result (count_left self.new.cursor < count_left self.old.cursor) }
        ensures stays { self.new.declarations ≡ self.old.declarations }
        ensures sized { OnOk result (vec_len self.new.processes ≡ vec_len self.old.processes) }
        ensures reads { Answers result (λ proposition. (proposition_of proposition, asked_of self.new operators))
            (propositions.atom_at (names_of self.old.declarations) (locks_of self.old.declarations)
            (asked_of self.old operators)) }
    {
        if is_at_true(&self.cursor) {
            self.cursor.advance();
            return Ok(Proposition::True);
        }
        if is_at_false(&self.cursor) {
            self.cursor.advance();
            return Ok(Proposition::False);
        }
        if let Token::Number(number) = self.cursor.token() {
            return self.register_atom(number, operators);
        }
        let is_bracketed = self.cursor.accept(Sign::OpenBracket);
        self.variable_atom(is_bracketed, operators)
    }

    /// `VAR = num`, or `[ VAR ] = num` behind the `[`.
    #[tactic(auto, unfolding(crate::specs::PropositionReader::variable_atom))]
    fn variable_atom(
        &mut self,
        is_bracketed: bool,
        operators: usize,
    ) -> Result<Proposition, Refusal>
        ensures moves { OnOk result (count_left self.new.cursor < count_left self.old.cursor) }
        ensures stays { self.new.declarations ≡ self.old.declarations }
        ensures sized { OnOk result (vec_len self.new.processes ≡ vec_len self.old.processes) }
        ensures reads { Answers result (λ proposition. (proposition_of proposition, asked_of self.new operators))
            (propositions.variable_atom (names_of self.old.declarations) (locks_of self.old.declarations)
            is_bracketed (asked_of self.old operators)) }
    {
        let variable = self.variable(atom_of(is_bracketed))?;
        if is_bracketed {
            self.cursor.take(Sign::CloseBracket)?;
        }
        let value = self.value()?;
        Ok(Proposition::Variable { variable, value })
    }

    /// `NUMBER : REG = num`, of a process that is there.
    #[tactic(auto, unfolding(crate::specs::PropositionReader::register_atom))]
    fn register_atom(&mut self, number: u64, operators: usize) -> Result<Proposition, Refusal>
        requires { 0 < count_left self.old.cursor }
        ensures moves { OnOk result (count_left self.new.cursor < count_left self.old.cursor) }
        ensures stays { self.new.declarations ≡ self.old.declarations }
        ensures sized { OnOk result (vec_len self.new.processes ≡ vec_len self.old.processes) }
        ensures reads { Answers result (λ proposition. (proposition_of proposition, asked_of self.new operators))
            (propositions.register_atom number (asked_past (asked_of self.old operators))) }
    {
        if number >= self.processes.len() as u64 {
            return Err(self.cursor.syntax(Fault::Task, Expected::Task));
        }
        let task = number as usize;
        self.cursor.advance();
        self.cursor.take(Sign::Colon)?;
        let register = self.register(task, operators)?;
        let value = self.value()?;
        Ok(Proposition::Register {
            task,
            register,
            value,
        })
    }

    /// A register of a process, which may appear here first.
    #[tactic(auto, unfolding(crate::specs::PropositionReader::register_in))]
    fn register(&mut self, task: usize, operators: usize) -> Result<usize, Refusal>
        ensures moves { OnOk result (count_left self.new.cursor < count_left self.old.cursor) }
        ensures stays { self.new.declarations ≡ self.old.declarations }
        ensures sized { OnOk result (vec_len self.new.processes ≡ vec_len self.old.processes) }
        ensures reads { Answers result (λ register. (register, asked_of self.new operators))
            (propositions.register_in task (asked_of self.old operators)) }
    {
        let offence = self.cursor.offence(Expected::Register);
        let Some(process) = self.processes.get_mut(task) else {
            return Err(offence);
        };
        // The process takes the name, so that a register which only the condition names keeps the same limit.
        process.cursor = self.cursor;
        let register = process.take_register()?;
        self.cursor = process.cursor;
        Ok(register)
    }

    /// A variable that the text has named, where this is expected. A lock is unsupported.
    #[tactic(auto, unfolding(crate::specs::VariableReader::known_variable))]
    fn variable(&mut self, expected: Expected) -> Result<usize, Refusal>
        ensures moves { OnOk result (count_left self.new.cursor < count_left self.old.cursor) }
        ensures stays { self.new.declarations ≡ self.old.declarations }
        ensures processes { self.new.processes ≡ self.old.processes }
        ensures reads { Answers result (λ variable. (variable, symbols_left self.new.cursor))
            (known_variable (names_of self.old.declarations) (locks_of self.old.declarations) (symbols_left self.old.cursor)) }
    {
        let Some(name) = self.cursor.identifier() else {
            return Err(self.cursor.offence(expected));
        };
        let Some(variable) = self.declarations.find(name) else {
            return Err(self.cursor.syntax(Fault::Unknown, Expected::Variable));
        };
        if self.declarations.is_lock(variable) {
            return Err(
                self.cursor
                    .unsupported(Unread::LockValue, Expected::MemoryVariable),
            );
        }
        self.cursor.advance();
        Ok(variable)
    }

    /// `= num`
    #[tactic(auto, unfolding(crate::specs::ConditionReader::given_value))]
    fn value(&mut self) -> Result<u64, Refusal>
        ensures moves { OnOk result (count_left self.new.cursor < count_left self.old.cursor) }
        ensures stays { self.new.declarations ≡ self.old.declarations }
        ensures processes { self.new.processes ≡ self.old.processes }
        ensures reads { Answers result (λ value. (value, symbols_left self.new.cursor))
            (reader.given_value (symbols_left self.old.cursor)) }
    {
        self.cursor.take(Sign::Assign)?;
        self.cursor.take_signed_number()
    }
}
