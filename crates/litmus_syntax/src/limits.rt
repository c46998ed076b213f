//! Whether a program keeps the limits and the rules of types.

ghost use Rattle.std.specs.Prelude.{◌≡◌, ◌≢◌, ◌≤◌, ◌+◌, ◌*◌, ◌^◌, All, IfSome, IsTrue, map, if◌then◌else◌};
ghost use Rattle.litmus_syntax.specs.Limits.{AssignmentTyped, CallTyped, ExpressionTyped, FetchTyped, HaveOwnNames, IsVariable, KeepsLimits, LoadingTyped, PureTyped, TaskKeepsLimits};
ghost use Rattle.litmus_syntax.specs.Limits.{assignment_rises, atomics, call_rises, call_scopes, expression_rises, integers, loading_rises, locks, memory, scopes_of};
ghost use Rattle.litmus_syntax.specs.Views.{assignment_of, block_of, expression_of, fetch_of, load_of, loading_of, program_of, pure_of, statement_of, task_of};

use crate::expression::{Expression, Fetch, Load, Loading, Pure, ReadForm};
use crate::names::Name;
use crate::program::{Contents, Program, Task, Variable};
use crate::statement::{Assignment, Call, Statement, WriteForm};
use access_types::Mark;

/// How many tasks a program can have.
pub const TASKS: usize = 16;

/// How many variables a program can have.
pub const VARIABLES: usize = 32;

/// How many registers a task can have.
pub const REGISTERS: usize = 32;

/// How many statements a task can have.
pub const STATEMENTS: usize = 256;

/// How many scoped assertions can be open at one place.
pub const SCOPED: usize = 8;

/// How often the loops round a statement can repeat it.
pub const TURNS: u64 = 256;

/// How often the statements of a task that hold an access can be repeated, in all.
pub const REPEATS: u64 = 1024;

/// The largest size of a check.
pub const CHECK_SIZE: u64 = 1_048_576;

/// How many `data_race( )` can stand round a load: a text has no room for more.
const DATA_RACES: u64 = 65536;

/// How often a count of a task's context can rise.
const RISES: u64 = 4_294_967_296;

/// What a task's text may name: variables, and so many registers.
#[derive(Clone, Copy)]
struct Scope<'a> {
    variables: &'a [Variable],
    registers: usize,
}

impl<'a> Scope<'a> {
    /// The variable is a `char`, a `short`, an `int` or a `long`.
    fn is_integer(&self, variable: usize) -> bool
        ensures { IsTrue result → IsVariable self.now.variables.now integers variable }
    {
        match self.variables.get(variable) {
            Some(variable) => matches!(
                variable.contents,
                Contents::Char(_) | Contents::Short(_) | Contents::Int(_) | Contents::Long(_)
            ),
            None => false,
        }
    }

    /// The variable is an `atomic_t`.
    fn is_atomic(&self, variable: usize) -> bool
        ensures { IsTrue result → IsVariable self.now.variables.now atomics variable }
    {
        match self.variables.get(variable) {
            Some(variable) => matches!(variable.contents, Contents::Atomic(_)),
            None => false,
        }
    }

    /// The variable is a `spinlock_t`.
    fn is_lock(&self, variable: usize) -> bool
        ensures { IsTrue result → IsVariable self.now.variables.now locks variable }
    {
        match self.variables.get(variable) {
            Some(variable) => matches!(variable.contents, Contents::Lock),
            None => false,
        }
    }

    /// The variable is no `spinlock_t`.
    fn has_bytes(&self, variable: usize) -> bool
        ensures { IsTrue result → IsVariable self.now.variables.now memory variable }
    {
        match self.variables.get(variable) {
            Some(variable) => !matches!(variable.contents, Contents::Lock),
            None => false,
        }
    }

    /// An expression without a load names registers that are there.
    fn is_pure_typed(&self, value: &Pure) -> bool
        ensures { IsTrue result → PureTyped (IsVariable self.now.variables.now) self.now.registers (pure_of value.now) }
    {
        match value {
            Pure::Number(_) => true,
            Pure::Register(register) => *register < self.registers,
            Pure::Unary(_, operand) => self.is_pure_typed(operand),
            Pure::Binary(_, left, right) => {
                self.is_pure_typed(left) && self.is_pure_typed(right)
            }
        }
    }

    /// A load names what its form takes.
    fn is_fetch_typed(&self, fetch: &Fetch) -> bool
        ensures { IsTrue result → FetchTyped (IsVariable self.now.variables.now) self.now.registers (fetch_of fetch.now) }
    {
        match fetch {
            Fetch::Read {
                form: ReadForm::Atomic,
                variable,
            } => self.is_atomic(*variable),
            Fetch::Read { variable, .. } => self.is_integer(*variable),
            Fetch::Exchange { variable, value } => {
                self.is_integer(*variable) && self.is_pure_typed(value)
            }
            Fetch::CompareExchange {
                variable,
                expected,
                replacement,
            } => {
                self.is_integer(*variable)
                    && self.is_pure_typed(expected)
                    && self.is_pure_typed(replacement)
            }
        }
    }

    /// How many `data_race( )` stand round a load. None: it names what isn't there, or there are too many.
    fn races_of_load(&self, load: &Load) -> Option<u64>
        ensures typed { IfSome result (λ _. FetchTyped (IsVariable self.now.variables.now) self.now.registers (fetch_of load.now.fetch)) }
        ensures exact { IfSome result (λ races. races ≡ load.now.data_races) }
        ensures few { IfSome result (λ races. races ≤ 65536) }
    {
        if load.data_races <= DATA_RACES && self.is_fetch_typed(&load.fetch) {
            Some(load.data_races)
        } else {
            None
        }
    }

    /// The same of an expression with a load.
    fn races_of_loading(&self, loading: &Loading) -> Option<u64>
        ensures typed { IfSome result (λ _. LoadingTyped (IsVariable self.now.variables.now) self.now.registers (loading_of loading.now)) }
        ensures exact { IfSome result (λ races. races ≡ loading_rises (loading_of loading.now)) }
        ensures few { IfSome result (λ races. races ≤ 65536) }
    {
        match loading {
            Loading::Load(load) => self.races_of_load(load),
            Loading::Unary(_, operand) => self.races_of_loading(operand),
            Loading::Left(_, left, right) => {
                if self.is_pure_typed(right) {
                    self.races_of_loading(left)
                } else {
                    None
                }
            }
            Loading::Right(_, left, right) => {
                if self.is_pure_typed(left) {
                    self.races_of_loading(right)
                } else {
                    None
                }
            }
        }
    }

    /// The same of an expression.
    fn races_of(&self, expression: &Expression) -> Option<u64>
        ensures typed { IfSome result (λ _. ExpressionTyped (IsVariable self.now.variables.now) self.now.registers (expression_of expression.now)) }
        ensures exact { IfSome result (λ races. races ≡ expression_rises (expression_of expression.now)) }
        ensures few { IfSome result (λ races. races ≤ 65536) }
    {
        match expression {
            Expression::Pure(value) => {
                if self.is_pure_typed(value) {
                    Some(0)
                } else {
                    None
                }
            }
            Expression::Loading(loading) => self.races_of_loading(loading),
        }
    }

    /// An assignment that isn't to a register names what its form takes.
    fn is_store_typed(&self, assignment: &Assignment) -> bool
        ensures typed { IsTrue result → AssignmentTyped (IsVariable self.now.variables.now) self.now.registers (assignment_of assignment.now) }
        ensures none { IsTrue result → assignment_rises (assignment_of assignment.now) ≡ 0 }
    {
        match assignment {
            Assignment::Register { .. } => false,
            Assignment::Write {
                form: WriteForm::Atomic,
                variable,
                value,
            } => self.is_atomic(*variable) && self.is_pure_typed(value),
            Assignment::Write {
                variable,
                value,
                ..
            }
            | Assignment::Add { variable, value } => {
                self.is_integer(*variable) && self.is_pure_typed(value)
            }
            Assignment::Increment { variable } => self.is_integer(*variable),
            Assignment::AtomicAdd { value, variable } => {
                self.is_pure_typed(value) && self.is_atomic(*variable)
            }
            Assignment::AtomicIncrement { variable } | Assignment::AtomicDecrement { variable } => {
                self.is_atomic(*variable)
            }
        }
    }

    /// How many `data_race( )` stand round the load of an assignment, and none where it has no load.
    fn races_of_assignment(&self, assignment: &Assignment) -> Option<u64>
        ensures typed { IfSome result (λ _. AssignmentTyped (IsVariable self.now.variables.now) self.now.registers (assignment_of assignment.now)) }
        ensures exact { IfSome result (λ races. races ≡ assignment_rises (assignment_of assignment.now)) }
        ensures few { IfSome result (λ races. races ≤ 65536) }
    {
        if let Assignment::Register { register, value } = assignment {
            if *register < self.registers {
                return self.races_of(value);
            }
            return None;
        }
        if self.is_store_typed(assignment) {
            Some(0)
        } else {
            None
        }
    }

    /// A call names what it takes, and no check is too long.
    fn is_call_typed(&self, call: Call) -> bool
        ensures { IsTrue result → CallTyped (IsVariable self.now.variables.now) self.now.registers call }
    {
        match call {
            Call::Barrier(_) | Call::Mark(_) => true,
            Call::Lock { variable } | Call::Unlock { variable } => self.is_lock(variable),
            Call::AssertWriter { variable, .. }
            | Call::AssertAccess { variable, .. }
            | Call::AssertBits { variable, .. } => self.has_bytes(variable),
            Call::Check { variable, size, .. } => self.has_bytes(variable) && size <= CHECK_SIZE,
        }
    }
}

/// How often a call raises a count of the context.
fn rises_of(call: Call) -> u64
    ensures exact { result ≡ call_rises call }
    ensures few { result ≤ 1 }
{
    match call {
        Call::Mark(Mark::Disable | Mark::NestOpen) => 1,
        _ => 0,
    }
}

/// What stands round a place of a text: how often the loops repeat it, and the scoped assertions in force.
#[derive(Clone, Copy)]
struct Enclosing {
    turns: u64,
    scopes: usize,
    ghost repeated: { turns ≤ 256 },
    ghost asserted: { scopes ≤ 8 },
}

impl Enclosing {
    /// The place behind a call. None: too many scoped assertions are in force.
    fn behind_call(self, call: Call) -> Option<Enclosing>
        ensures turns { IfSome result (λ place. place.turns ≡ self.turns) }
        ensures scopes { IfSome result (λ place. place.scopes ≡ self.scopes + call_scopes call) }
    {
        match call {
            Call::AssertWriter { scoped: true, .. } | Call::AssertAccess { scoped: true, .. } => {
                if self.scopes == SCOPED {
                    return None;
                }
                Some(Enclosing {
                    turns: self.turns,
                    scopes: self.scopes + 1,
                })
            }
            _ => Some(self),
        }
    }

    /// The place behind a statement.
    fn behind(self, statement: &Statement) -> Option<Enclosing>
        ensures turns { IfSome result (λ place. place.turns ≡ self.turns) }
        ensures scopes { IfSome result (λ place. place.scopes ≡ self.scopes + scopes_of (statement_of statement.now)) }
    {
        match statement {
            Statement::Call(call) => self.behind_call(*call),
            _ => Some(self),
        }
    }

    /// The place in a loop. None: the loops round it have too many turns.
    fn inside(self, turns: u64) -> Option<Enclosing>
        ensures few { IfSome result (λ _. turns ≤ 256) }
        ensures turns { IfSome result (λ place. place.turns ≡ self.turns * turns) }
        ensures scopes { IfSome result (λ place. place.scopes ≡ self.scopes) }
    {
        if turns > TURNS || self.turns * turns > TURNS {
            return None;
        }
        Some(Enclosing {
            turns: self.turns * turns,
            scopes: self.scopes,
        })
    }
}

/// What was counted of a task's text.
#[derive(Drop)]
struct Tally {
    statements: usize,
    repeats: u64,
    rises: u64,
    ghost stated: { statements ≤ 256 },
    ghost accessed: { repeats ≤ 1024 },
    ghost risen: { rises ≤ 2 ^ 32 },
}

impl Tally {
    ghost use Rattle.litmus_syntax.specs.Kept.{Adds, BlockIsKept, StatementIsKept};
    ghost use Rattle.litmus_syntax.specs.Sites.{expression_has_access};

    /// Counts a statement at a place that makes an access or not and raises a count so often in a turn. Whether the
    /// limits are kept.
    fn add(&mut self, place: Enclosing, has_access: bool, rises: u64) -> bool
        requires { rises ≤ 65537 }
        ensures { IsTrue result → Adds self.old self.new 1 (if has_access then place.turns else 0) (place.turns * rises) }
    {
        let repeats = if has_access { place.turns } else { 0 };
        let rises = place.turns * rises;
        if self.statements == STATEMENTS
            || self.repeats + repeats > REPEATS
            || self.rises + rises > RISES
        {
            return false;
        }
        self.statements += 1;
        self.repeats += repeats;
        self.rises += rises;
        true
    }

    /// Counts a statement that holds no other.
    fn add_simple(&mut self, scope: &Scope<'_>, place: Enclosing, statement: &Statement) -> bool
        ensures { IsTrue result → StatementIsKept scope.now place self.old self.new (statement_of statement.now) }
    {
        let (is_typed, rises) = match statement {
            Statement::Load(load) => match scope.races_of_load(load) {
                Some(races) => (true, races),
                None => (false, 0),
            },
            Statement::Assign {
                data_race,
                assignment,
            } => match scope.races_of_assignment(assignment) {
                Some(races) => (true, races + u64::from(*data_race)),
                None => (false, 0),
            },
            Statement::Call(call) => (
                scope.is_call_typed(*call) && place.behind_call(*call).is_some(),
                rises_of(*call),
            ),
            _ => (false, 0),
        };
        is_typed && self.add(place, statement.has_access(), rises)
    }

    /// Counts a statement and all that stands in it.
    #[cycle(kept)]
    fn add_statement(&mut self, scope: &Scope<'_>, place: Enclosing, statement: &Statement) -> bool
        ensures { IsTrue result → StatementIsKept scope.now place self.old self.new (statement_of statement.now) }
    {
        match statement {
            Statement::If { condition, body } => {
                if !self.add_condition(scope, place, condition) {
                    return false;
                }
                self.add_block(scope, place, body.as_slice())
            }
            Statement::IfElse {
                condition,
                body,
                otherwise,
            } => {
                if !self.add_condition(scope, place, condition) {
                    return false;
                }
                if !self.add_block(scope, place, body.as_slice()) {
                    return false;
                }
                self.add_block(scope, place, otherwise.as_slice())
            }
            Statement::For {
                register,
                turns,
                body,
            } => {
                let Some(inside) = place.inside(*turns) else {
                    return false;
                };
                if *register >= scope.registers {
                    return false;
                }
                if !self.add(place, false, 0) {
                    return false;
                }
                self.add_block(scope, inside, body.as_slice())
            }
            _ => self.add_simple(scope, place, statement),
        }
    }

    /// Counts the statements of a block.
    #[cycle(kept)]
    fn add_block(&mut self, scope: &Scope<'_>, place: Enclosing, block: &[Statement]) -> bool
        ensures { IsTrue result → BlockIsKept scope.now place self.old self.new (block_of block.now) }
    {
        let mut place = place;
        for statement in block {
            let Some(behind) = place.behind(statement) else {
                return false;
            };
            if !self.add_statement(scope, place, statement) {
                return false;
            }
            place = behind;
        }
        true
    }

    /// Counts the statement that a condition begins.
    fn add_condition(&mut self, scope: &Scope<'_>, place: Enclosing, condition: &Expression) -> bool
        ensures adds { IsTrue result → Adds self.old self.new 1
            (if expression_has_access (expression_of condition.now) then place.turns else 0) (place.turns * expression_rises (expression_of condition.now)) }
        ensures typed { IsTrue result → ExpressionTyped (IsVariable scope.now.variables.now) scope.now.registers (expression_of condition.now) }
    {
        match scope.races_of(condition) {
            Some(races) => self.add(place, condition.has_access(), races),
            None => false,
        }
    }
}

impl Task {
    /// Whether the task keeps the limits and the rules of types, over these variables.
    fn keeps_limits(&self, variables: &[Variable]) -> bool
        ensures { IsTrue result → TaskKeepsLimits variables.now (task_of self.now) }
    {
        let registers = self.registers.as_slice().len();
        let scope = Scope {
            variables,
            registers,
        };
        let mut tally = Tally {
            statements: 0,
            repeats: 0,
            rises: 0,
        };
        let place = Enclosing {
            turns: 1,
            scopes: 0,
        };
        registers <= REGISTERS && tally.add_block(&scope, place, self.body.as_slice())
    }
}

/// Whether each of the tasks keeps the limits and the rules of types, over these variables.
fn all_keep_limits(tasks: &[Task], variables: &[Variable]) -> bool
    ensures { IsTrue result → All (TaskKeepsLimits variables.now) (map task_of tasks.now) }
{
    for task in tasks {
        if !task.keeps_limits(variables) {
            return false;
        }
    }
    true
}

/// Whether each of the variables has another name than this one.
fn have_other_names(variables: &[Variable], name: &Name) -> bool
    ensures { IsTrue result → All (λ variable. name.now ≢ variable.name) variables.now }
{
    for variable in variables {
        if variable.name == *name {
            return false;
        }
    }
    true
}

/// Whether no two variables have one name.
fn have_own_names(variables: &[Variable]) -> bool
    ensures { IsTrue result → HaveOwnNames variables.now }
{
    match variables.split_first() {
        Some((variable, later)) => have_other_names(later, &variable.name) && have_own_names(later),
        None => true,
    }
}

impl Program {
    /// Whether the program keeps the limits and the rules of types, and no two of its variables have one name. A text
    /// is read only into one that does.
    pub fn keeps_limits(&self) -> bool
        ensures { IsTrue result → KeepsLimits (program_of self.now) }
    {
        let tasks = self.tasks.as_slice();
        let variables = self.variables.as_slice();
        if tasks.is_empty() || tasks.len() > TASKS || variables.len() > VARIABLES {
            return false;
        }
        have_own_names(variables) && all_keep_limits(tasks, variables)
    }
}
