//! The variables of a text: what its items and parameters say of them.

ghost use Rattle.std.specs.Prelude.{◌≡◌, [], All, IfErr, IfOk, OnOk, Some, true, false, get_or, if◌then◌else◌, is_some, map, position};
ghost use Rattle.std.specs.Str.{IsUtf8};
ghost use Rattle.litmus_lex.specs.declared.cursor.Refusal.TheVariants.{OutOfMemory};
ghost use Rattle.litmus_lex.specs.Front.{Answers};
ghost use Rattle.litmus_lex.specs.Words.{is_same};
ghost use Rattle.litmus_expression.specs.NameReader.{index_of};
ghost use Rattle.litmus_parse.specs.Entries as entries;
ghost use Rattle.litmus_parse.specs.Entries.{entry_of, table_of};
ghost use Rattle.litmus_parse.specs.Mentions.{contents_of};
ghost use Rattle.litmus_parse.specs.VariableReader as reader;
ghost use Rattle.litmus_parse.specs.VariableReader.{locks_of, names_of};
ghost use Rattle.litmus_parse.specs.Variables.{has_contradiction, variable_in, variables_in};

use litmus_lex::{Excess, Expected, Fault, Refusal, Unread, VariableType};
use litmus_syntax::{Contents, Name, Variable};
use std::alloc::Global;

/// How many variables a program can have: a choice. Among so few a name is found by looking at one after the other.
pub const VARIABLES: usize = 32;

/// A variable, as far as the text has been read.
#[derive(Clone, Copy)]
pub struct Declared<'a> {
    pub name: &'a [u8],
    /// The type that items and parameters give it.
    pub variable_type: Option<VariableType>,
    /// The last of its initial values, modulo 2^64. That it wins is a choice: several are no offence, as several
    /// assignments are none.
    pub value: Option<u64>,
    /// An item without a type names it: it has the type of a parameter, else it is an int, as most
    /// variables of the kernel's own tests are.
    is_untyped: bool,
    /// Such an item gives it a value.
    is_given: bool,
    is_parameter: bool,
    /// Where an item gives it a second type unless a parameter has the type.
    second_type: Option<usize>,
}

impl<'a> Declared<'a> {
    /// A variable that nothing is known of but its name.
    fn new(name: &'a [u8]) -> Declared<'a>
        ensures name { reader.name_of result ≡ name.now }
        ensures fresh { entry_of result ≡ entries.fresh }
    {
        Declared {
            name,
            variable_type: None,
            value: None,
            is_untyped: false,
            is_given: false,
            is_parameter: false,
            second_type: None,
        }
    }

    /// Whether the two kinds of items contradict each other where no parameter has the type.
    fn is_at_odds(&self) -> bool
        ensures { result ≡ entries.odd_type self.now.variable_type self.now.is_untyped }
    {
        match self.variable_type {
            Some(VariableType::Int) | None => false,
            Some(_) => self.is_untyped,
        }
    }

    /// Notes that its items contradict each other from this place on, if they do.
    fn note_place(&mut self, at: usize)
        ensures stays { self.new.name ≡ self.old.name }
        ensures notes { entry_of self.new ≡ entries.noted (entry_of self.old) }
    {
        if self.second_type.is_none() && self.is_at_odds() {
            self.second_type = Some(at);
        }
    }

    /// An item without a type names it at this place.
    pub fn name_untyped(&mut self, at: usize)
        ensures stays { self.new.name ≡ self.old.name }
        ensures names { entry_of self.new ≡ entries.named_untyped (entry_of self.old) }
    {
        self.is_untyped = true;
        self.note_place(at);
    }

    /// An item with a type names it at this place. Another type than before offends.
    #[tactic(auto, unfolding(crate::specs::Entries::named_typed))]
    pub fn name_typed(&mut self, variable_type: VariableType, at: usize) -> Result<(), Refusal>
        ensures stays { self.new.name ≡ self.old.name }
        ensures names { Answers result (λ _. entry_of self.new) (entries.named_typed variable_type (entry_of self.old)) }
    {
        self.settle_type(variable_type, at)?;
        self.note_place(at);
        Ok(())
    }

    /// An item names it at this place, with a type or without.
    pub fn name_item(
        &mut self,
        variable_type: Option<VariableType>,
        at: usize,
    ) -> Result<(), Refusal>
        ensures stays { self.new.name ≡ self.old.name }
        ensures names { Answers result (λ _. entry_of self.new) (entries.named_item variable_type (entry_of self.old)) }
    {
        match variable_type {
            Some(variable_type) => self.name_typed(variable_type, at),
            None => {
                self.name_untyped(at);
                Ok(())
            }
        }
    }

    /// A parameter names it at this place. Another type than before offends, and so does a lock's where an
    /// item gave it a value.
    #[tactic(auto, unfolding(crate::specs::Entries::named_parameter))]
    pub fn name_parameter(&mut self, variable_type: VariableType, at: usize) -> Result<(), Refusal>
        ensures stays { self.new.name ≡ self.old.name }
        ensures names { Answers result (λ _. entry_of self.new) (entries.named_parameter variable_type (entry_of self.old)) }
    {
        self.settle_type(variable_type, at)?;
        // The value was taken before anything said that this is a lock, so it is the parameter that offends.
        if variable_type == VariableType::Lock && self.is_given {
            return Err(unsupported_name(at, Unread::LockValue));
        }
        self.is_parameter = true;
        Ok(())
    }

    /// It has the type.
    #[tactic(auto, unfolding(crate::specs::Entries::settled))]
    fn settle_type(&mut self, variable_type: VariableType, at: usize) -> Result<(), Refusal>
        ensures stays { self.new.name ≡ self.old.name }
        ensures settles { Answers result (λ _. entry_of self.new) (entries.settled variable_type (entry_of self.old)) }
    {
        // All tasks share a variable's bytes, so it has one type.
        if let Some(given) = self.variable_type {
            if given != variable_type {
                return Err(unsupported_name(at, Unread::TwoTypes));
            }
        }
        self.variable_type = Some(variable_type);
        Ok(())
    }

    /// An item gives it an initial value.
    pub fn give(&mut self, value: u64, is_typed: bool)
        ensures stays { self.new.name ≡ self.old.name }
        ensures gives { entry_of self.new ≡ entries.given value is_typed (entry_of self.old) }
    {
        self.value = Some(value);
        if !is_typed {
            self.is_given = true;
        }
    }

    /// Where it has a second type, if it does now that all parameters are known.
    pub fn contradiction(&self) -> Option<usize>
        ensures { is_some result ≡ entries.has_two_types (entry_of self.now) }
    {
        if self.is_parameter {
            None
        } else {
            self.second_type
        }
    }

    /// The variable that it is in the end.
    pub fn variable(&self, alloc: Global) -> Result<Variable, Refusal>
        ensures ok { IfOk result (λ variable. variable ≡ variable_in self.now.name.now (entry_of self.now)) }
        ensures err { IfErr result (λ refusal. IsUtf8 self.now.name.now → refusal ≡ OutOfMemory) }
    {
        let value = self.value.unwrap_or(0);
        let variable_type = self.variable_type.unwrap_or(VariableType::Int);
        Ok(Variable {
            name: name_of(alloc, self.name)?,
            contents: contents(variable_type, value),
        })
    }
}

/// The refusal of the name of a variable at this place.
pub fn unsupported_name(at: usize, unread: Unread) -> Refusal {
    Refusal::Unsupported {
        at,
        unread,
        expected: Expected::Variable,
    }
}

/// A value cut to the size of a type.
fn contents(variable_type: VariableType, value: u64) -> Contents
    ensures { result ≡ contents_of variable_type value }
{
    match variable_type {
        VariableType::Char => Contents::Char(((value % 0x100) as u8).cast_signed()),
        VariableType::Short => Contents::Short(((value % 0x1_0000) as u16).cast_signed()),
        VariableType::Int => Contents::Int(((value % 0x1_0000_0000) as u32).cast_signed()),
        VariableType::Long => Contents::Long(value.cast_signed()),
        VariableType::Atomic => Contents::Atomic(((value % 0x1_0000_0000) as u32).cast_signed()),
        VariableType::Lock => Contents::Lock,
    }
}

/// The name that bytes are. Those of a text are ASCII.
pub fn name_of(alloc: Global, bytes: &[u8]) -> Result<Name, Refusal>
    ensures ok { IfOk result (λ name. name ≡ bytes.now) }
    ensures err { IfErr result (λ refusal. IsUtf8 bytes.now → refusal ≡ OutOfMemory) }
{
    let Ok(text) = str::from_utf8(bytes) else {
        return Err(Refusal::Syntax {
            at: 0,
            fault: Fault::Stray,
            expected: Expected::Variable,
        });
    };
    Ok(Name::from_string(String::from_str(alloc, text)?))
}

/// The lesser of two places, where there are such.
fn earlier(first: Option<usize>, second: Option<usize>) -> Option<usize>
    ensures { is_some result ≡ (if is_some first then true else is_some second) }
{
    match (first, second) {
        (Some(one), Some(other)) => Some(one.min(other)),
        (Some(one), None) => Some(one),
        (None, other) => other,
    }
}

/// The first place where a variable has a second type, now that all parameters are known.
fn first_contradiction(mut variables: &[Declared<'_>]) -> Option<usize>
    ensures { is_some result ≡ has_contradiction (map entry_of variables.entry.now) }
{
    let mut first = None;
    while let [declared, rest @ ..] = variables {
        first = earlier(first, declared.contradiction());
        variables = rest;
    }
    first
}

/// The variables that these are in the end.
fn variables_of(alloc: Global, mut all: &[Declared<'_>]) -> Result<Vec<Variable>, Refusal>
    ensures ok { IfOk result (λ variables. variables.items
        ≡ variables_in (map reader.name_of all.entry.now) (map entry_of all.entry.now)) }
    ensures err { IfErr result (λ refusal. All (λ variable. IsUtf8 variable.name)
        (variables_in (map reader.name_of all.entry.now) (map entry_of all.entry.now)) → refusal ≡ OutOfMemory) }
{
    let mut variables = Vec::new(alloc);
    while let [declared, rest @ ..] = all {
        variables.push(declared.variable(alloc)?)?;
        all = rest;
    }
    Ok(variables)
}

/// The place of a name, among variables.
fn find_declared(variables: &[Declared<'_>], name: &[u8]) -> Option<usize>
    ensures { result ≡ position (λ declared. is_same declared.name.now name.now) variables.now }
{
    variables.iter().position(|declared| declared.name == name)
}

/// The variables of a text, each at its number.
#[derive(Drop)]
pub struct Declarations<'a> {
    variables: Vec<Declared<'a>>,
}

impl<'a> Declarations<'a> {
    /// None.
    pub fn new(alloc: Global) -> Declarations<'a>
        ensures { result.variables.items ≡ [] }
    {
        Declarations {
            variables: Vec::new(alloc),
        }
    }

    /// The number of a name that has appeared.
    pub fn find(&self, name: &[u8]) -> Option<usize>
        ensures { result ≡ index_of (names_of self.now) name.now }
    {
        find_declared(&self.variables, name)
    }

    /// The number of a name, which stands at the place. Its first appearance gives it the next one.
    #[tactic(auto, unfolding(crate::specs::VariableReader::number_at))]
    pub fn number(&mut self, name: &'a [u8], at: usize) -> Result<usize, Refusal>
        ensures reads { Answers result (λ number. (number, names_of self.new)) (reader.number_at (names_of self.old) name.now) }
        ensures table { OnOk result (table_of self.new
            ≡ entries.grown (table_of self.old) (index_of (names_of self.old) name.now)) }
    {
        if let Some(number) = self.find(name) {
            return Ok(number);
        }
        if self.variables.len() == VARIABLES {
            return Err(Refusal::Limit {
                at,
                excess: Excess::Variables,
            });
        }
        let number = self.variables.len();
        self.variables.push(Declared::new(name))?;
        Ok(number)
    }

    /// An item names the variable of a number at this place, with a type or without.
    #[tactic(auto, using(crate::proofs::Table::put, crate::proofs::Table::refused, crate::proofs::Table::absent))]
    pub fn name_item(
        &mut self,
        number: usize,
        variable_type: Option<VariableType>,
        at: usize,
    ) -> Result<(), Refusal>
        ensures names { names_of self.new ≡ names_of self.old }
        ensures table { Answers result (λ _. table_of self.new)
            (entries.changed (entries.named_item variable_type) (table_of self.old) number) }
    {
        let mut declared = match self.variables.get(number) {
            Some(declared) => *declared,
            None => return Ok(()),
        };
        declared.name_item(variable_type, at)?;
        self.variables[number] = declared;
        Ok(())
    }

    /// A parameter names the variable of a number at this place.
    pub fn name_parameter(
        &mut self,
        number: usize,
        variable_type: VariableType,
        at: usize,
    ) -> Result<(), Refusal>
        ensures names { names_of self.new ≡ names_of self.old }
        ensures table { Answers result (λ _. table_of self.new)
            (entries.changed (entries.named_parameter variable_type) (table_of self.old) number) }
    {
        let mut declared = match self.variables.get(number) {
            Some(declared) => *declared,
            None => return Ok(()),
        };
        declared.name_parameter(variable_type, at)?;
        self.variables[number] = declared;
        Ok(())
    }

    /// An item gives the variable of a number an initial value.
    pub fn give(&mut self, number: usize, value: u64, is_typed: bool)
        ensures names { names_of self.new ≡ names_of self.old }
        ensures table { entries.changed (entries.valued value is_typed) (table_of self.old) number ≡ Some (table_of self.new) }
    {
        let mut declared = match self.variables.get(number) {
            Some(declared) => *declared,
            None => return,
        };
        declared.give(value, is_typed);
        self.variables[number] = declared;
    }

    /// Whether the variable of a number is a lock.
    pub fn is_lock(&self, number: usize) -> bool
        ensures { result ≡ get_or (locks_of self.now) number false }
    {
        match self.variables.get(number) {
            Some(declared) => declared.variable_type == Some(VariableType::Lock),
            None => false,
        }
    }

    /// The first place where a variable has a second type, now that all parameters are known.
    pub fn contradiction(&self) -> Option<usize>
        ensures { is_some result ≡ has_contradiction (table_of self.now) }
    {
        first_contradiction(&self.variables)
    }

    /// The variables that they are in the end.
    pub fn variables(&self, alloc: Global) -> Result<Vec<Variable>, Refusal>
        ensures ok { IfOk result (λ variables. variables.items ≡ variables_in (names_of self.now) (table_of self.now)) }
        ensures err { IfErr result (λ refusal. All (λ variable. IsUtf8 variable.name)
            (variables_in (names_of self.now) (table_of self.now)) → refusal ≡ OutOfMemory) }
    {
        variables_of(alloc, &self.variables)
    }
}
