//! Expressions over the registers of a task. An expression makes one load at most, so it is pure or
//! holds its load at one place.

ghost use Rattle.std.specs.Prelude.{◌≡◌};
ghost use Rattle.litmus_syntax.specs.PrintedForm.{binary_sign, unary_sign};

/// A unary operator.
#[derive(Clone, Copy, Debug, PartialEq, Eq)]
pub enum UnaryOperator {
    /// `-`.
    Negate,
    /// `!`.
    Not,
    /// `~`.
    Complement,
}

impl UnaryOperator {
    /// How it is written.
    pub fn sign(self) -> &'static str
        ensures { result.now ≡ unary_sign self }
    {
        match self {
            UnaryOperator::Negate => "-",
            UnaryOperator::Not => "!",
            UnaryOperator::Complement => "~",
        }
    }
}

/// A binary operator, by falling strength.
#[derive(Clone, Copy, Debug, PartialEq, Eq)]
pub enum BinaryOperator {
    /// `*`.
    Multiply,
    /// `+`.
    Add,
    /// `-`.
    Subtract,
    /// `<`.
    Less,
    /// `>`.
    Greater,
    /// `<=`.
    LessOrEqual,
    /// `>=`.
    GreaterOrEqual,
    /// `==`.
    Equal,
    /// `!=`.
    NotEqual,
    /// `&`.
    BitAnd,
    /// `^`.
    BitXor,
    /// `|`.
    BitOr,
}

impl BinaryOperator {
    /// How it is written.
    pub fn sign(self) -> &'static str
        ensures { result.now ≡ binary_sign self }
    {
        match self {
            BinaryOperator::Multiply => "*",
            BinaryOperator::Add => "+",
            BinaryOperator::Subtract => "-",
            BinaryOperator::Less => "<",
            BinaryOperator::Greater => ">",
            BinaryOperator::LessOrEqual => "<=",
            BinaryOperator::GreaterOrEqual => ">=",
            BinaryOperator::Equal => "==",
            BinaryOperator::NotEqual => "!=",
            BinaryOperator::BitAnd => "&",
            BinaryOperator::BitXor => "^",
            BinaryOperator::BitOr => "|",
        }
    }
}

/// An expression without a load. Registers are the task's, by number.
#[derive(PartialEq, Drop)]
pub enum Pure {
    Number(u64),
    Register(usize),
    Unary(UnaryOperator, Box<Pure>),
    Binary(BinaryOperator, Box<Pure>, Box<Pure>),
}

/// How a variable is read.
#[derive(Clone, Copy, PartialEq, Eq)]
pub enum ReadForm {
    /// `*x`.
    Plain,
    /// `READ_ONCE(*x)`.
    Once,
    /// `smp_load_acquire(x)`.
    Acquire,
    /// `atomic_read(x)`.
    Atomic,
}

/// What a load does. Variables are the program's, by number.
#[derive(PartialEq, Drop)]
pub enum Fetch {
    Read {
        form: ReadForm,
        variable: usize,
    },
    /// `xchg(x, e)`.
    Exchange {
        variable: usize,
        value: Pure,
    },
    /// `cmpxchg(x, e, f)`.
    CompareExchange {
        variable: usize,
        expected: Pure,
        replacement: Pure,
    },
}

/// A load, inside so many `data_race( )`.
#[derive(PartialEq, Drop)]
pub struct Load {
    pub data_races: u64,
    pub fetch: Fetch,
}

/// An expression with one load: the load itself, or an operator on one side of which it stands.
#[derive(PartialEq, Drop)]
pub enum Loading {
    Load(Load),
    Unary(UnaryOperator, Box<Loading>),
    Left(BinaryOperator, Box<Loading>, Pure),
    Right(BinaryOperator, Pure, Box<Loading>),
}

/// An expression with one load at most.
#[derive(PartialEq, Drop)]
pub enum Expression {
    Pure(Pure),
    Loading(Loading),
}
