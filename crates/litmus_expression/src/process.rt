//! A process, as far as it is read: what its names mean, and how much of its limits is used.

ghost use Rattle.std.specs.Prelude.{◌≡◌, ◌≤◌, ◌<◌, ◌+◌, ◌==◌, false, length, IsTrue, OnErr, vec_len, IfOk, IfSome, IsSome, OnOk, find, position};
ghost use Rattle.litmus_lex.specs.Words.{is_same};
ghost use Rattle.litmus_lex.specs.Cursor.{count_left};
ghost use Rattle.litmus_lex.specs.Front.{Answers, others, symbols_left, take_sign};
ghost use Rattle.litmus_lex.specs.declared.sign.Sign.TheVariants.{OpenParen};
ghost use Rattle.litmus_syntax.specs.Limits.{nesting_limit, registers_limit, repeats_limit, scoped_limit, statements_limit, turns_limit};

use litmus_lex::{Cursor, Excess, Expected, Fault, Refusal, Sign, Unread, VariableType};
use std::alloc::{AllocError, Global};

/// How many registers a task can have.
pub const REGISTERS: usize = 32;

/// How many statements a task can have.
pub const STATEMENTS: usize = 256;

/// How many blocks and parentheses can be open at one place.
pub const NESTING: usize = 16;

/// How many scoped assertions can be open at one place.
pub const SCOPED: usize = 8;

/// How often the loops round a statement can repeat it.
pub const TURNS: u64 = 256;

/// How often the statements of a task that hold an access can be repeated, in all.
pub const REPEATS: u64 = 1024;

/// A parameter: a variable, by its number, that the process can name.
#[derive(Clone, Copy)]
pub struct Parameter<'a> {
    pub name: &'a [u8],
    pub variable: usize,
    pub variable_type: VariableType,
}

/// Which types of variables a form of statement takes.
#[derive(Clone, Copy)]
pub enum Takes {
    /// `char`, `short`, `int`, `long`.
    Integers,
    /// `atomic_t`.
    Atomics,
    /// `spinlock_t`.
    Locks,
    /// All but `spinlock_t`.
    Memory,
}

impl Takes {
    ghost use Rattle.litmus_expression.specs.NameReader as reader;

    /// Whether a form that takes these takes the type.
    fn contains(self, variable_type: VariableType) -> bool
        ensures { result ≡ reader.takes_type self variable_type }
    {
        match variable_type {
            VariableType::Lock => self == Takes::Locks,
            VariableType::Atomic => self == Takes::Atomics || self == Takes::Memory,
            VariableType::Char | VariableType::Short | VariableType::Int | VariableType::Long =>
                self == Takes::Integers || self == Takes::Memory,
        }
    }

    /// What stands where a variable of these types does.
    fn expected(self) -> Expected {
        match self {
            Takes::Integers => Expected::IntegerVariable,
            Takes::Atomics => Expected::AtomicVariable,
            Takes::Locks => Expected::LockVariable,
            Takes::Memory => Expected::MemoryVariable,
        }
    }
}

/// What stands round a place in a body.
#[derive(Clone, Copy)]
pub struct Surroundings {
    /// How many blocks and parentheses are open.
    depth: usize,
    /// How many scoped assertions are in force.
    scoped: usize,
    /// How often the loops repeat it.
    turns: u64,
    /// Which registers count these loops.
    counters: [bool; REGISTERS],
    ghost nested: { depth ≤ nesting_limit },
    ghost asserted: { scoped ≤ scoped_limit },
    ghost repeated: { turns ≤ turns_limit },
}

impl Surroundings {
    ghost use Rattle.litmus_expression.specs.Places as places;
    ghost use Rattle.litmus_expression.specs.Places.{outermost, place_of};

    /// Outside all blocks.
    pub fn new() -> Surroundings
        ensures { place_of result ≡ outermost }
    {
        Surroundings {
            depth: 0,
            scoped: 0,
            turns: 1,
            counters: [false; REGISTERS],
        }
    }

    /// The same with one more block or parenthesis open, which begins at the place.
    pub fn deeper(self, at: usize) -> Result<Surroundings, Refusal>
        ensures reads { Answers result place_of (places.deeper (place_of self)) }
        ensures inside { IfOk result (λ inside. inside.depth ≡ self.depth + 1) }
        ensures turns { IfOk result (λ inside. inside.turns ≡ self.turns) }
        ensures ok { OnOk result ((self.depth == nesting_limit) ≡ false) }
        ensures err { OnErr result (IsTrue (self.depth == nesting_limit)) }
    {
        if self.depth == NESTING {
            return Err(Refusal::Limit {
                at,
                excess: Excess::Nesting,
            });
        }
        let counters = self.counters;
        Ok(Surroundings {
            depth: self.depth + 1,
            scoped: self.scoped,
            turns: self.turns,
            counters,
        })
    }

    /// The same with one more scoped assertion in force, which begins at the place.
    pub fn asserting(self, at: usize) -> Result<Surroundings, Refusal>
        ensures { Answers result place_of (places.asserting (place_of self)) }
    {
        if self.scoped == SCOPED {
            return Err(Refusal::Limit {
                at,
                excess: Excess::Scoped,
            });
        }
        let counters = self.counters;
        Ok(Surroundings {
            depth: self.depth,
            scoped: self.scoped + 1,
            turns: self.turns,
            counters,
        })
    }

    /// How often a loop of so many turns, a number at the place, repeats its body.
    pub fn turns_of(&self, turns: u64, at: usize) -> Result<u64, Refusal>
        ensures within { IfOk result (λ repeats. repeats ≤ turns_limit) }
        ensures reads { Answers result (λ repeats. repeats) (places.repeats_of (place_of self.now) turns) }
    {
        // Tickets tell no more than so many accesses at one site apart. The turns are also looked at by themselves,
        // since a loop round them that makes no turn brings the product to 0.
        match self.turns.checked_mul(turns) {
            Some(repeats) if turns <= TURNS && repeats <= TURNS => Ok(repeats),
            _ => Err(Refusal::Limit {
                at,
                excess: Excess::Turns,
            }),
        }
    }

    /// The same in one more loop.
    pub fn repeated(self, register: usize, turns: u64) -> Surroundings
        requires register { register < registers_limit }
        requires turns { turns ≤ turns_limit }
        ensures { place_of result ≡ places.in_loop (place_of self) register turns }
    {
        let mut counters = self.counters;
        counters[register] = true;
        Surroundings {
            depth: self.depth,
            scoped: self.scoped,
            turns,
            counters,
        }
    }

    /// Whether the register counts a loop.
    pub fn is_counter(&self, register: usize) -> bool
        requires { register < registers_limit }
        ensures { result ≡ places.is_counter (place_of self.now).counters register }
    {
        self.counters[register]
    }
}

/// The parameter of a name, among parameters.
fn find_parameter<'a>(mut parameters: &[Parameter<'a>], name: &[u8]) -> Option<Parameter<'a>>
    ensures { result ≡ find (λ parameter. is_same parameter.name.now name.now) parameters.entry.now }
{
    while let [parameter, rest @ ..] = parameters {
        if parameter.name == name {
            return Some(*parameter);
        }
        parameters = rest;
    }
    None
}

/// The place of a name, among names.
fn find_name(names: &[&[u8]], name: &[u8]) -> Option<usize>
    ensures { result ≡ position (λ other. is_same other.now name.now) names.now }
{
    names.iter().position(|other| *other == name)
}

/// The refusal of the next token where a variable or a load may stand: an address of a variable is unsupported.
pub fn address_or_offence(cursor: &Cursor<'_>, expected: Expected) -> Refusal {
    match cursor.refuse_address(expected) {
        Ok(()) => cursor.offence(expected),
        Err(refusal) => refusal,
    }
}

/// Takes the `(` behind the word that is next.
pub fn open_call(cursor: &mut Cursor<'_>) -> Result<(), Refusal>
    ensures moves { OnOk result (count_left cursor.new < count_left cursor.old) }
    ensures reads { Answers result (λ _. symbols_left cursor.new) (take_sign OpenParen (others (symbols_left cursor.old))) }
{
    cursor.advance();
    cursor.take(Sign::OpenParen)
}

/// Takes the sign behind a value, and gives the value back.
pub fn take_behind<T: Drop>(cursor: &mut Cursor<'_>, value: T, sign: Sign) -> Result<T, Refusal>
    ensures same { IfOk result (λ found. found ≡ value) }
    ensures moves { OnOk result (count_left cursor.new < count_left cursor.old) }
    ensures reads { Answers result (λ _. symbols_left cursor.new) (take_sign sign (symbols_left cursor.old)) }
{
    cursor.take(sign)?;
    Ok(value)
}

/// A process, as far as it is read. The cursor stands at the token that is read next.
#[derive(Drop)]
pub struct Process<'a> {
    pub alloc: Global,
    pub cursor: Cursor<'a>,
    pub parameters: Vec<Parameter<'a>>,
    /// The names of the registers, each at its number.
    pub registers: Vec<&'a [u8]>,
    /// Where each access begins that was noted.
    places: Vec<usize>,
    /// How many statements were counted.
    statements: usize,
    /// How often the statements that hold an access are repeated, in all.
    repeats: u64,
    ghost registered: { vec_len registers ≤ registers_limit },
    ghost stated: { statements ≤ statements_limit },
    ghost accessed: { repeats ≤ repeats_limit },
}

impl<'a> Process<'a> {
    ghost use Rattle.std.specs.Prelude.{IfNone, map, option_map};
    ghost use Rattle.litmus_lex.specs.Front.{first, identifier_at, now};
    ghost use Rattle.litmus_expression.specs.NameReader as reader;
    ghost use Rattle.litmus_expression.specs.PlaceReader as places;
    ghost use Rattle.litmus_expression.specs.Places.{place_of};
    ghost use Rattle.litmus_expression.specs.States.{entering, parameter_of, state_of};

    /// A process of which the parameters are read.
    pub fn new(alloc: Global, cursor: Cursor<'a>, parameters: Vec<Parameter<'a>>) -> Process<'a>
        ensures cursor { result.cursor ≡ cursor.entry }
        ensures begins { state_of result ≡ entering (map parameter_of parameters.entry.items) (symbols_left cursor.entry) }
    {
        Process {
            alloc,
            cursor,
            parameters,
            registers: Vec::new(alloc),
            places: Vec::new(alloc),
            statements: 0,
            repeats: 0,
        }
    }

    /// Counts a statement, at its first token.
    pub fn count_statement(&mut self) -> Result<(), Refusal>
        ensures stays { self.new.cursor ≡ self.old.cursor }
        ensures reads { Answers result (λ _. state_of self.new) (places.count_statement (state_of self.old)) }
    {
        if self.statements == STATEMENTS {
            return Err(self.cursor.excess(Excess::Statements));
        }
        self.statements += 1;
        Ok(())
    }

    /// Counts an access, at the token that begins it.
    pub fn count_access(&mut self, around: &Surroundings) -> Result<(), Refusal>
        ensures stays { self.new.cursor ≡ self.old.cursor }
        ensures reads { Answers result (λ _. state_of self.new) (reader.count_access around.now.turns (state_of self.old)) }
    {
        let at = self.cursor.at();
        self.count_turns(around, at)
    }

    /// Counts an access, and notes that it begins at the place.
    pub fn count_access_at(&mut self, around: &Surroundings, at: usize) -> Result<(), Refusal>
        ensures stays { self.new.cursor ≡ self.old.cursor }
        ensures reads { Answers result (λ _. state_of self.new) (reader.count_access around.now.turns (state_of self.old)) }
    {
        self.count_turns(around, at)?;
        self.note_access(at)?;
        Ok(())
    }

    /// Counts the turns of the loops round an access, which begins at the place.
    fn count_turns(&mut self, around: &Surroundings, at: usize) -> Result<(), Refusal>
        ensures stays { self.new.cursor ≡ self.old.cursor }
        ensures reads { Answers result (λ _. state_of self.new) (reader.count_access around.now.turns (state_of self.old)) }
    {
        // Room for all accesses that a task can begin is taken before its first step: this bounds it.
        if self.repeats + around.turns > REPEATS {
            return Err(Refusal::Limit {
                at,
                excess: Excess::Repeats,
            });
        }
        self.repeats += around.turns;
        Ok(())
    }

    /// Notes where an access begins that is counted.
    pub fn note_access(&mut self, at: usize) -> Result<(), AllocError>
        ensures stays { self.new.cursor ≡ self.old.cursor }
        ensures same { state_of self.new ≡ state_of self.old }
    {
        self.places.push(at)?;
        Ok(())
    }

    /// Where each access begins that was noted, in the order of the text.
    pub fn into_places(self) -> Vec<usize> {
        self.places
    }

    /// The parameter of a name.
    pub fn parameter(&self, name: &[u8]) -> Option<Parameter<'a>>
        ensures { option_map parameter_of result
            ≡ reader.parameter_named (map parameter_of self.now.parameters.items) name.now }
    {
        find_parameter(&self.parameters, name)
    }

    /// Takes a variable of a type that the form takes. It is a parameter's name.
    #[tactic(auto, unfolding(crate::specs::NameReader::take_variable))]
    pub fn take_variable(&mut self, takes: Takes) -> Result<usize, Refusal>
        ensures moves { OnOk result (count_left self.new.cursor < count_left self.old.cursor) }
        ensures reads { Answers result (λ variable. (variable, state_of self.new)) (reader.take_variable takes (state_of self.old)) }
    {
        let expected = takes.expected();
        let Some(name) = self.cursor.identifier() else {
            return Err(address_or_offence(&self.cursor, expected));
        };
        let Some(parameter) = self.parameter(name) else {
            return Err(self.cursor.syntax(Fault::Unknown, expected));
        };
        if !takes.contains(parameter.variable_type) {
            return Err(self.cursor.unsupported(Unread::OtherType, expected));
        }
        self.cursor.advance();
        Ok(parameter.variable)
    }

    /// Takes a variable and the sign behind it.
    #[tactic(auto, unfolding(crate::specs::NameReader::variable_before))]
    pub fn take_variable_before(&mut self, sign: Sign, takes: Takes) -> Result<usize, Refusal>
        ensures moves { OnOk result (count_left self.new.cursor < count_left self.old.cursor) }
        ensures reads { Answers result (λ variable. (variable, state_of self.new)) (reader.variable_before sign takes (state_of self.old)) }
    {
        let variable = self.take_variable(takes)?;
        self.cursor.take(sign)?;
        Ok(variable)
    }

    /// The name that is next, if it is a register's: no word and no parameter.
    pub fn register_name(&self) -> Option<&'a [u8]>
        ensures exact { option_map now result ≡ reader.register_name (state_of self.now) }
        ensures some { IsSome result → 0 < count_left self.now.cursor }
    {
        match self.cursor.identifier() {
            Some(name) if self.parameter(name).is_none() => Some(name),
            _ => None,
        }
    }

    /// The number of a register's name that has appeared.
    pub fn register_of(&self, name: &[u8]) -> Option<usize>
        ensures exact { result ≡ reader.index_of (map now self.now.registers.items) name.now }
        ensures within { IfSome result (λ register. register < registers_limit) }
    {
        find_name(&self.registers, name)
    }

    /// The refusal of the next token where a register stands.
    fn register_offence(&self) -> Refusal {
        match self.cursor.identifier() {
            Some(_parameter) => self.cursor.syntax(Fault::Variable, Expected::Register),
            None => self.cursor.offence(Expected::Register),
        }
    }

    /// The register that is next. The first appearance of one gives it the next number.
    #[tactic(auto, unfolding(crate::specs::NameReader::register_at))]
    pub fn register(&mut self) -> Result<usize, Refusal>
        ensures stays { self.new.cursor ≡ self.old.cursor }
        ensures some { OnOk result (0 < count_left self.old.cursor) }
        ensures within { IfOk result (λ register. register < registers_limit) }
        ensures reads { Answers result (λ register. (register, state_of self.new)) (reader.register_at (state_of self.old)) }
    {
        let Some(name) = self.register_name() else {
            return Err(self.register_offence());
        };
        if let Some(register) = self.register_of(name) {
            return Ok(register);
        }
        let register = self.registers.len();
        if register == REGISTERS {
            return Err(self.cursor.excess(Excess::Registers));
        }
        self.registers.push(name)?;
        Ok(register)
    }

    /// Takes a register.
    #[tactic(auto, unfolding(crate::specs::NameReader::take_register))]
    pub fn take_register(&mut self) -> Result<usize, Refusal>
        ensures moves { OnOk result (count_left self.new.cursor < count_left self.old.cursor) }
        ensures reads { Answers result (λ register. (register, state_of self.new)) (reader.take_register (state_of self.old)) }
    {
        let register = self.register()?;
        self.cursor.advance();
        Ok(register)
    }

    /// Takes a register that is assigned or declared, which counts no loop here.
    #[tactic(auto, unfolding(crate::specs::PlaceReader::take_changed))]
    pub fn take_changed_register(&mut self, around: &Surroundings) -> Result<usize, Refusal>
        ensures moves { OnOk result (count_left self.new.cursor < count_left self.old.cursor) }
        ensures within { IfOk result (λ register. register < registers_limit) }
        ensures reads { Answers result (λ register. (register, state_of self.new))
            (places.take_changed (place_of around.now).counters (state_of self.old)) }
    {
        let register = self.register()?;
        // A loop whose body can't change its register makes just the turns that its text says.
        if around.is_counter(register) {
            return Err(self.cursor.unsupported(Unread::Counter, Expected::Register));
        }
        self.cursor.advance();
        Ok(register)
    }
}
