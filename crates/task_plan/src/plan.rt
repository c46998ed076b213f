//! The accesses that statements make.

ghost use Rattle.std.specs.Prelude.{◌≡◌, None, option_map};
ghost use Rattle.access_types.specs.declared.kind.Kind.TheVariants as kinds;
ghost use Rattle.litmus_semantics.specs.Assignments as assignments;
ghost use Rattle.litmus_semantics.specs.Calls.{check_kind, checked_bytes};
ghost use Rattle.litmus_semantics.specs.Expressions as expressions;
ghost use Rattle.litmus_semantics.specs.Loads as loads;
ghost use Rattle.litmus_semantics.specs.Task as meaning;
ghost use Rattle.litmus_syntax.specs.Tree.{to_register};
ghost use Rattle.litmus_syntax.specs.Views.{assignment_of, expression_of, fetch_of, load_of, loading_of, pure_of};
ghost use Rattle.access_run.specs.declared.memory_operation.operation.Change.TheVariants as changes;
ghost use Rattle.access_run.specs.declared.memory_operation.operation.Operation.TheVariants as operations;
ghost use Rattle.prepared_program.specs.program_layout.Lays.{Lays};
ghost use Rattle.task_plan.specs.Follow.{goes_on};
ghost use Rattle.task_plan.specs.Plans.{assignment_plan, call_plan, check_plan, load_plan, variable_plan};
ghost use Rattle.task_plan.specs.Views.{plan_of, taker_of};
ghost use Rattle.program_order.specs.WrittenOrder.{fetch_operation};

use crate::follow::{Taker, Then};
use access_run::memory_operation::{Change, Operation};
use access_types::{Bytes, Claim, Kind, Operation as Touch};
use litmus_semantics::pure_value;
use litmus_syntax::{
    Assignment, Call, Expression, Fetch, Load, Loading, Pure, ReadForm, WriteForm,
};
use prepared_program::program_layout::Layout;

/// An access of a statement: its bytes, its kind and its mask, what it does to its bytes, if it
/// touches them, and what follows on it.
#[derive(Clone, Copy)]
pub struct Plan<'a> {
    pub bytes: Bytes,
    pub kind: Kind,
    pub mask: Option<u64>,
    pub operation: Option<Operation>,
    pub after: Then<'a>,
}

/// What a statement is planned by: where the variables stand, and the task's registers.
#[derive(Clone, Copy)]
pub struct Planner<'p> {
    pub layout: &'p Layout,
    pub registers: &'p [u64],
}

/// `xchg`, `cmpxchg` and the `atomic_` calls that read and write.
const EXCHANGE: Kind = Kind::Marked(Touch::ReadWrite);

/// `*x += e` and `(*x)++`.
const COMPOUND: Kind = Kind::Plain(Touch::ReadWrite);

/// The kind of a read: only a plain one isn't declared marked.
fn read_kind(form: ReadForm) -> Kind
    ensures { result ≡ loads.read_kind form }
{
    match form {
        ReadForm::Plain => Kind::Plain(Touch::Read),
        ReadForm::Once | ReadForm::Acquire | ReadForm::Atomic => Kind::Marked(Touch::Read),
    }
}

/// The kind of a write: only a plain one isn't declared marked.
fn write_kind(form: WriteForm) -> Kind
    ensures { result ≡ assignments.write_kind form }
{
    match form {
        WriteForm::Plain => Kind::Plain(Touch::Write),
        WriteForm::Once | WriteForm::Release | WriteForm::Atomic => Kind::Marked(Touch::Write),
    }
}

/// The kind of the access that a load makes.
fn fetch_kind(fetch: &Fetch) -> Kind
    ensures { result ≡ loads.fetch_kind (fetch_of fetch.now) }
{
    match fetch {
        Fetch::Read { form, .. } => read_kind(*form),
        Fetch::Exchange { .. } | Fetch::CompareExchange { .. } => EXCHANGE,
    }
}

/// The variable of a load.
pub(crate) fn variable_of(fetch: &Fetch) -> usize
    ensures { result ≡ loads.variable_of (fetch_of fetch.now) }
{
    match fetch {
        Fetch::Read { variable, .. }
        | Fetch::Exchange { variable, .. }
        | Fetch::CompareExchange { variable, .. } => *variable,
    }
}

/// The load that an expression has.
pub fn load_in(loading: &Loading) -> &Load
    ensures { load_of result.now ≡ loads.load_in (loading_of loading.now) }
{
    match loading {
        Loading::Load(load) => load,
        Loading::Unary(_, operand) => load_in(operand),
        Loading::Left(_, left, _) => load_in(left),
        Loading::Right(_, _, right) => load_in(right),
    }
}

impl<'p> Planner<'p> {
    /// The value of an expression without a load.
    fn value(self, pure: &Pure) -> u64
        ensures { result ≡ expressions.pure_value self.entry.registers.now (pure_of pure.now) }
    {
        pure_value(pure, self.registers)
    }

    /// What a load does to its bytes.
    fn fetch(self, fetch: &Fetch) -> Operation
        ensures { result ≡ fetch_operation self.entry.registers.now (fetch_of fetch.now) }
    {
        match fetch {
            Fetch::Read { .. } => Operation::Load,
            Fetch::Exchange { value, .. } => {
                Operation::Change(Change::Exchange(self.value(value)))
            }
            Fetch::CompareExchange {
                expected,
                replacement,
                ..
            } => Operation::Change(Change::CompareExchange {
                expected: self.value(expected),
                replacement: self.value(replacement),
            }),
        }
    }

    /// The access of a load, whose value is taken so.
    pub fn load<'a>(self, load: &Load, taker: Taker<'a>) -> Plan<'a>
        ensures { (s : meaning.Setting) → Lays s.places s.variables self.entry.layout.now
            → plan_of result ≡ load_plan s self.entry.registers.now (load_of load.now) (taker_of taker.entry) }
    {
        let bytes = self.layout.bytes_in(variable_of(&load.fetch));
        Plan {
            bytes,
            kind: fetch_kind(&load.fetch),
            mask: None,
            operation: Some(self.fetch(&load.fetch)),
            after: Then::Loaded {
                size: bytes.size,
                data_races: load.data_races,
                taker,
            },
        }
    }

    /// The access of an assignment to a variable, inside `data_race( )` or not.
    fn to_variable<'a>(
        self,
        variable: usize,
        kind: Kind,
        operation: Operation,
        data_race: bool,
    ) -> Plan<'a>
        ensures { (s : meaning.Setting) → Lays s.places s.variables self.entry.layout.now
            → plan_of result ≡ variable_plan s variable kind operation data_race }
    {
        Plan {
            bytes: self.layout.bytes_in(variable),
            kind,
            mask: None,
            operation: Some(operation),
            after: Then::Assigned { data_race },
        }
    }

    /// The access that adds an amount by a compound assignment.
    fn adds<'a>(self, variable: usize, amount: u64, data_race: bool) -> Plan<'a>
        ensures { (s : meaning.Setting) → Lays s.places s.variables self.entry.layout.now
            → plan_of result ≡ variable_plan s variable assignments.compound_kind (operations.Add amount) data_race }
    {
        // Read at one moment and written at a later one: what another task writes in between is lost, as in C.
        self.to_variable(variable, COMPOUND, Operation::Add(amount), data_race)
    }

    /// The access that adds an amount at one moment.
    fn adds_atomically<'a>(self, variable: usize, amount: u64, data_race: bool) -> Plan<'a>
        ensures { (s : meaning.Setting) → Lays s.places s.variables self.entry.layout.now
            → plan_of result ≡ variable_plan s variable loads.exchange_kind (operations.Change (changes.AtomicAdd amount)) data_race }
    {
        let operation = Operation::Change(Change::AtomicAdd(amount));
        self.to_variable(variable, EXCHANGE, operation, data_race)
    }

    /// The access that writes a value.
    fn writes<'a>(self, variable: usize, form: WriteForm, value: u64, data_race: bool) -> Plan<'a>
        ensures { (s : meaning.Setting) → Lays s.places s.variables self.entry.layout.now
            → plan_of result ≡ variable_plan s variable (assignments.write_kind form) (operations.Change (changes.Write value)) data_race }
    {
        let operation = Operation::Change(Change::Write(value));
        self.to_variable(variable, write_kind(form), operation, data_race)
    }

    /// The access of an assignment, if it makes one, inside `data_race( )` or not.
    pub fn assignment<'a>(self, assignment: &'a Assignment, data_race: bool) -> Option<Plan<'a>>
        ensures { (s : meaning.Setting) → Lays s.places s.variables self.entry.layout.now
            → option_map plan_of result ≡ assignment_plan s self.entry.registers.now (assignment_of assignment.now) data_race }
    {
        Some(match assignment {
            Assignment::Register { register, value } => {
                return self.to_register(*register, value, data_race);
            }
            Assignment::Write {
                form,
                variable,
                value,
            } => self.writes(*variable, *form, self.value(value), data_race),
            Assignment::Add { variable, value } => {
                self.adds(*variable, self.value(value), data_race)
            }
            Assignment::Increment { variable } => self.adds(*variable, 1, data_race),
            Assignment::AtomicAdd { value, variable } => {
                self.adds_atomically(*variable, self.value(value), data_race)
            }
            Assignment::AtomicIncrement { variable } => {
                self.adds_atomically(*variable, 1, data_race)
            }
            // To take 1 away is to add the number of 64 bits that is -1.
            Assignment::AtomicDecrement { variable } => {
                self.adds_atomically(*variable, u64::MAX, data_race)
            }
        })
    }

    /// The access of an assignment to a register, if its value has a load.
    fn to_register<'a>(
        self,
        register: usize,
        value: &'a Expression,
        data_race: bool,
    ) -> Option<Plan<'a>>
        ensures { (s : meaning.Setting) → Lays s.places s.variables self.entry.layout.now
            → option_map plan_of result ≡ assignment_plan s self.entry.registers.now (to_register register (expression_of value.now)) data_race }
    {
        match value {
            Expression::Pure(_) => None,
            Expression::Loading(value) => {
                let taker = Taker::Register {
                    register,
                    value,
                    data_race,
                };
                Some(self.load(load_in(value), taker))
            }
        }
    }

    /// The access of an assertion on a variable, of this kind; it is scoped or not.
    pub fn asserts<'a>(self, variable: usize, kind: Kind) -> Plan<'a>
        ensures { (s : meaning.Setting) → Lays s.places s.variables self.entry.layout.now
            → plan_of result ≡ check_plan (meaning.bytes_in s variable) kind None goes_on }
    {
        Plan {
            bytes: self.layout.bytes_in(variable),
            kind,
            mask: None,
            operation: None,
            after: Then::GoesOn,
        }
    }

    /// The access of a check of so many bytes from where a variable stands.
    fn checks<'a>(self, write: bool, variable: usize, size: u64) -> Plan<'a>
        ensures { (s : meaning.Setting) → Lays s.places s.variables self.entry.layout.now
            → plan_of result ≡ check_plan (checked_bytes s variable size) (check_kind write) None goes_on }
    {
        let touch = if write { Touch::Write } else { Touch::Read };
        Plan {
            bytes: Bytes {
                addr: self.layout.bytes_in(variable).addr,
                size,
            },
            kind: Kind::Plain(touch),
            mask: None,
            operation: None,
            after: Then::GoesOn,
        }
    }

    /// The access of a call, if it makes one, where it is no scoped assertion.
    pub fn call<'a>(self, call: Call) -> Option<Plan<'a>>
        ensures { (s : meaning.Setting) → Lays s.places s.variables self.entry.layout.now
            → option_map plan_of result ≡ call_plan s call }
    {
        match call {
            Call::Barrier(_) | Call::Lock { .. } | Call::Unlock { .. } | Call::Mark(_) => None,
            Call::AssertWriter { variable, .. } => {
                Some(self.asserts(variable, Kind::Assert(Claim::NoWrites)))
            }
            Call::AssertAccess { variable, .. } => {
                Some(self.asserts(variable, Kind::Assert(Claim::NoAccesses)))
            }
            Call::AssertBits { variable, mask } => Some(Plan {
                mask: Some(mask),
                // KCSAN's macro calls `kcsan_atomic_next(1)` behind its check.
                after: Then::MarksNext,
                ..self.asserts(variable, Kind::Assert(Claim::NoWrites))
            }),
            // It touches nothing, so it is no access and takes no site.
            Call::Check { size: 0, .. } => None,
            Call::Check {
                write,
                variable,
                size,
            } => Some(self.checks(write, variable, size)),
        }
    }
}
