//! What a litmus program asks of its end.

ghost use Rattle.std.specs.Prelude.{◌≡◌};
ghost use Rattle.litmus_syntax.specs.PrintedForm.{quantifier_text};

/// A proposition on registers and variables.
#[derive(PartialEq, Drop)]
pub enum Proposition {
    True,
    False,
    /// `0:r0=1`: the register of the task has the value, in 64 bits.
    Register {
        task: usize,
        register: usize,
        value: u64,
    },
    /// `x=1`: the variable, sign-extended to 64 bits, has the value.
    Variable {
        variable: usize,
        value: u64,
    },
    Not(Box<Proposition>),
    And(Box<Proposition>, Box<Proposition>),
    Or(Box<Proposition>, Box<Proposition>),
}

/// Whether a proposition is to hold at the end of some run, of none, or of all.
#[derive(Clone, Copy, PartialEq, Eq)]
pub enum Quantifier {
    /// `exists`.
    Exists,
    /// `~exists`.
    NotExists,
    /// `forall`.
    Forall,
}

impl Quantifier {
    /// How it is written.
    pub fn text(self) -> &'static str
        ensures { result.now ≡ quantifier_text self }
    {
        match self {
            Quantifier::Exists => "exists",
            Quantifier::NotExists => "~exists",
            Quantifier::Forall => "forall",
        }
    }
}
