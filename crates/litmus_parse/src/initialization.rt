//! The initialization block, and the headers of processes.

ghost use Rattle.std.specs.Prelude.{◌≡◌, ◌≤◌, ◌<◌, [], IsTrue, OnOk, map};
ghost use Rattle.litmus_lex.specs.Cursor.{count_left};
ghost use Rattle.litmus_lex.specs.Front.{Answers, first, symbols_left};
ghost use Rattle.litmus_parse.specs.HeaderReader as reader;
ghost use Rattle.litmus_parse.specs.ItemReader as items;
ghost use Rattle.litmus_expression.specs.States.{parameter_of};
ghost use Rattle.litmus_parse.specs.ItemReader.{heading_of};
ghost use Rattle.litmus_parse.specs.ParameterReader as reading;

use crate::declaration::Declarations;
use litmus_expression::Parameter;
use litmus_lex::{Cursor, Expected, Fault, Refusal, Sign, Token, Unread, VariableType, Word};
use std::alloc::Global;

/// Whether `ATOMIC_INIT` is next.
fn is_at_atomic_init(cursor: &Cursor<'_>) -> bool
    ensures exact { result ≡ reader.is_atomic_init (first (symbols_left cursor.now)) }
    ensures some { IsTrue result → 0 < count_left cursor.now }
{
    matches!(cursor.word(), Some(Word::AtomicInit))
}

/// What stands before the bodies: a cursor, and the variables that the text has named.
#[derive(Drop)]
pub struct Header<'a> {
    pub alloc: Global,
    pub cursor: Cursor<'a>,
    pub declarations: Declarations<'a>,
}

impl<'a> Header<'a> {
    /// `{` items joined by `;`, and a last `;` or none, `}`.
    #[tactic(auto, using(crate::proofs::Unrolled::items_unroll), unfolding(crate::specs::ItemReader::initialization_at))]
    pub fn initialization(&mut self) -> Result<(), Refusal>
        ensures reads { Answers result (λ _. heading_of self.new) (items.initialization_at (heading_of self.old)) }
    {
        self.cursor.take(Sign::OpenBrace)?;
        while !self.cursor.accept(Sign::CloseBrace) {
            self.item()?;
            if !self.cursor.accept(Sign::Semicolon) {
                return self.cursor.take_where(Sign::CloseBrace, Expected::ItemEnd);
            }
        }
        Ok(())
    }

    /// `[vtype] NAME [= value]`
    #[tactic(auto, unfolding(crate::specs::ItemReader::item_at))]
    fn item(&mut self) -> Result<(), Refusal>
        ensures moves { OnOk result (count_left self.new.cursor < count_left self.old.cursor) }
        ensures reads { Answers result (λ _. heading_of self.new) (items.item_at (heading_of self.old)) }
    {
        let variable_type = self.accept_type();
        let number = self.item_variable()?;
        self.note_item(number, variable_type)?;
        self.cursor.advance();
        self.item_value(number, variable_type)
    }

    /// The refusal of the next token where the name of an item may stand. A label is unsupported.
    fn item_offence(&self) -> Refusal {
        if self.cursor.is_at_label() {
            self.cursor.unsupported(Unread::Label, Expected::Variable)
        } else {
            self.cursor.offence(Expected::Variable)
        }
    }

    /// The number of the variable of an item. A pointer and a label are unsupported.
    #[tactic(auto, unfolding(crate::specs::ItemReader::variable_in))]
    fn item_variable(&mut self) -> Result<usize, Refusal>
        ensures stays { self.new.cursor ≡ self.old.cursor }
        ensures some { OnOk result (0 < count_left self.old.cursor) }
        ensures reads { Answers result (λ number. (number, heading_of self.new)) (items.variable_in (heading_of self.old)) }
    {
        let Some(_name) = self.cursor.identifier() else {
            self.cursor.refuse_pointer(Expected::Variable)?;
            return Err(self.item_offence());
        };
        self.variable()
    }

    /// Notes that an item names the variable.
    #[tactic(auto, unfolding(crate::specs::ItemReader::noted_in))]
    fn note_item(
        &mut self,
        number: usize,
        variable_type: Option<VariableType>,
    ) -> Result<(), Refusal>
        ensures stays { self.new.cursor ≡ self.old.cursor }
        ensures names { Answers result (λ _. heading_of self.new) (items.noted_in variable_type number (heading_of self.old)) }
    {
        let at = self.cursor.at();
        self.declarations.name_item(number, variable_type, at)
    }

    /// `= value` of an item, or nothing. A lock has no value.
    #[tactic(auto, unfolding(crate::specs::ItemReader::given_in))]
    fn item_value(
        &mut self,
        number: usize,
        variable_type: Option<VariableType>,
    ) -> Result<(), Refusal>
        ensures moves { OnOk result (count_left self.new.cursor ≤ count_left self.old.cursor) }
        ensures reads { Answers result (λ _. heading_of self.new) (items.given_in variable_type number (heading_of self.old)) }
    {
        if !self.cursor.is_at(Sign::Assign) {
            return Ok(());
        }
        if variable_type == Some(VariableType::Lock) {
            return Err(
                self.cursor
                    .unsupported(Unread::LockValue, Expected::ItemEnd),
            );
        }
        self.cursor.advance();
        let value = self.value()?;
        self.declarations
            .give(number, value, variable_type.is_some());
        Ok(())
    }

    /// Takes a type, if one is next.
    fn accept_type(&mut self) -> Option<VariableType>
        ensures moves { count_left self.new.cursor ≤ count_left self.old.cursor }
        ensures stays { self.new.declarations ≡ self.old.declarations }
        ensures exact { result ≡ reader.type_at (first (symbols_left self.old.cursor)) }
        ensures symbols { symbols_left self.new.cursor ≡ reader.behind_type result (symbols_left self.old.cursor) }
    {
        match self.cursor.word() {
            Some(Word::Type(variable_type)) => {
                self.cursor.advance();
                Some(variable_type)
            }
            _ => None,
        }
    }

    /// The number of the variable that is next: a name that is no word.
    #[tactic(auto, unfolding(crate::specs::ItemReader::variable_in))]
    fn variable(&mut self) -> Result<usize, Refusal>
        ensures stays { self.new.cursor ≡ self.old.cursor }
        ensures some { OnOk result (0 < count_left self.old.cursor) }
        ensures reads { Answers result (λ number. (number, heading_of self.new)) (items.variable_in (heading_of self.old)) }
    {
        let Some(name) = self.cursor.identifier() else {
            return Err(self.cursor.offence(Expected::Variable));
        };
        let at = self.cursor.at();
        self.declarations.number(name, at)
    }

    /// `[-] NUMBER` or `ATOMIC_INIT ( [-] NUMBER )`. Another name and an address are unsupported, and not syntax: the
    /// kernel's format has both, for pointers, so that such a text is no mistake.
    #[tactic(auto, unfolding(crate::specs::HeaderReader::value_at, litmus_lex::specs::Front::take_signed, litmus_lex::specs::Front::take_number))]
    fn value(&mut self) -> Result<u64, Refusal>
        ensures moves { OnOk result (count_left self.new.cursor < count_left self.old.cursor) }
        ensures stays { self.new.declarations ≡ self.old.declarations }
        ensures reads { Answers result (λ value. (value, symbols_left self.new.cursor)) (reader.value_at (symbols_left self.old.cursor)) }
    {
        if is_at_atomic_init(&self.cursor) {
            self.cursor.advance();
            return self.enclosed_value();
        }
        match self.cursor.token() {
            Token::Name(_) => Err(self.cursor.unsupported(Unread::Name, Expected::Value)),
            Token::Number(_) | Token::Sign(Sign::Minus) => self.cursor.take_signed_number(),
            _ => {
                self.cursor.refuse_address(Expected::Value)?;
                Err(self.cursor.offence(Expected::Value))
            }
        }
    }

    /// `( [-] NUMBER )`
    #[tactic(auto, unfolding(crate::specs::HeaderReader::enclosed_value))]
    fn enclosed_value(&mut self) -> Result<u64, Refusal>
        ensures moves { OnOk result (count_left self.new.cursor < count_left self.old.cursor) }
        ensures stays { self.new.declarations ≡ self.old.declarations }
        ensures reads { Answers result (λ value. (value, symbols_left self.new.cursor)) (reader.enclosed_value (symbols_left self.old.cursor)) }
    {
        self.cursor.take(Sign::OpenParen)?;
        let value = self.cursor.take_signed_number()?;
        self.cursor.take(Sign::CloseParen)?;
        Ok(value)
    }

    /// `(` parameters joined by `,`, or none, `)`.
    #[tactic(auto, unfolding(crate::specs::ParameterReader::parameters_at))]
    pub fn parameters(&mut self) -> Result<Vec<Parameter<'a>>, Refusal>
        ensures moves { OnOk result (count_left self.new.cursor < count_left self.old.cursor) }
        ensures reads { Answers result (λ parameters. (map parameter_of parameters.items, heading_of self.new))
            (reading.parameters_at (heading_of self.old)) }
    {
        self.cursor.take(Sign::OpenParen)?;
        if self.cursor.accept(Sign::CloseParen) {
            return Ok(Vec::new(self.alloc));
        }
        self.listed()
    }

    /// Parameters joined by `,`, and the `)`.
    #[tactic(auto, using(crate::proofs::Unrolled::listed_unrolls))]
    fn listed(&mut self) -> Result<Vec<Parameter<'a>>, Refusal>
        ensures moves { OnOk result (count_left self.new.cursor < count_left self.old.cursor) }
        ensures reads { Answers result (λ parameters. (map parameter_of parameters.items, heading_of self.new))
            (reading.listed_at ([], heading_of self.old)) }
    {
        let mut parameters = Vec::new(self.alloc);
        loop {
            let parameter = self.parameter(&parameters)?;
            parameters.push(parameter)?;
            if !self.cursor.accept(Sign::Comma) {
                self.cursor
                    .take_where(Sign::CloseParen, Expected::ParameterEnd)?;
                return Ok(parameters);
            }
        }
    }

    /// `vtype * NAME`, which is no parameter of the process yet.
    #[tactic(auto, unfolding(crate::specs::ParameterReader::parameter_at))]
    fn parameter(&mut self, before: &[Parameter<'a>]) -> Result<Parameter<'a>, Refusal>
        ensures moves { OnOk result (count_left self.new.cursor < count_left self.old.cursor) }
        ensures reads { Answers result (λ parameter. (parameter_of parameter, heading_of self.new))
            (reading.parameter_at (map parameter_of before.now) (heading_of self.old)) }
    {
        let Some(variable_type) = self.accept_type() else {
            return Err(self.cursor.offence(Expected::Type));
        };
        self.cursor.take(Sign::Star)?;
        self.parameter_of_type(before, variable_type)
    }

    /// The refusal of the next token where the name of a parameter may stand. A second `*` is unsupported.
    fn parameter_offence(&self) -> Refusal {
        if self.cursor.is_at(Sign::Star) {
            self.cursor.unsupported(Unread::Pointer, Expected::Variable)
        } else {
            self.cursor.offence(Expected::Variable)
        }
    }

    /// NAME of a parameter of a type.
    #[tactic(auto, unfolding(crate::specs::ParameterReader::parameter_of_type))]
    fn parameter_of_type(
        &mut self,
        before: &[Parameter<'a>],
        variable_type: VariableType,
    ) -> Result<Parameter<'a>, Refusal>
        ensures moves { OnOk result (count_left self.new.cursor < count_left self.old.cursor) }
        ensures reads { Answers result (λ parameter. (parameter_of parameter, heading_of self.new))
            (reading.parameter_of_type (map parameter_of before.now) variable_type (heading_of self.old)) }
    {
        let Some(name) = self.cursor.identifier() else {
            return Err(self.parameter_offence());
        };
        let at = self.cursor.at();
        let variable = self.declarations.number(name, at)?;
        self.declarations
            .name_parameter(variable, variable_type, at)?;
        if has_variable(before, variable) {
            return Err(self.cursor.syntax(Fault::Twice, Expected::Variable));
        }
        self.cursor.advance();
        Ok(Parameter {
            name,
            variable,
            variable_type,
        })
    }
}

/// Whether one of the parameters is the variable.
fn has_variable(mut parameters: &[Parameter<'_>], variable: usize) -> bool
    ensures { result ≡ reading.has_variable (map parameter_of parameters.entry.now) variable }
{
    while let [parameter, rest @ ..] = parameters {
        if parameter.variable == variable {
            return true;
        }
        parameters = rest;
    }
    false
}
