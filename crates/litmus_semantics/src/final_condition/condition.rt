//! What a proposition says of the end of a run.

ghost use Rattle.std.specs.Prelude.{◌≡◌, ◌↔◌, IsTrue};
ghost use Rattle.litmus_semantics.specs.final_condition.Holds.{Holds, register_of, variable_of};
ghost use Rattle.litmus_syntax.specs.Views.{proposition_of};

use litmus_syntax::Proposition;

/// What registers and variables hold where a run has ended, in 64 bits.
#[derive(Drop)]
pub struct Finals {
    /// The values of the registers of each task, by number.
    pub registers: Vec<Vec<u64>>,
    /// The values of the variables, with their signs, by number.
    pub variables: Vec<u64>,
}

impl Finals {
    /// The value of a register of a task; 0 where there is none.
    pub fn register(&self, task: usize, register: usize) -> u64
        ensures { result ≡ register_of self.now task register }
    {
        match self.registers.get(task) {
            Some(registers) => registers.get(register).copied().unwrap_or(0),
            None => 0,
        }
    }

    /// The value of a variable; 0 where there is none.
    pub fn variable(&self, variable: usize) -> u64
        ensures { result ≡ variable_of self.now variable }
    {
        self.variables.get(variable).copied().unwrap_or(0)
    }
}

/// Whether the proposition holds where registers and variables have these values.
pub fn holds(proposition: &Proposition, finals: &Finals) -> bool
    ensures { IsTrue result
        ↔ Holds (register_of finals.now) (variable_of finals.now) (proposition_of proposition.now) }
{
    match proposition {
        Proposition::True => true,
        Proposition::False => false,
        Proposition::Register {
            task,
            register,
            value,
        } => finals.register(*task, *register) == *value,
        Proposition::Variable { variable, value } => finals.variable(*variable) == *value,
        Proposition::Not(inner) => !holds(inner, finals),
        Proposition::And(left, right) => holds(left, finals) && holds(right, finals),
        Proposition::Or(left, right) => holds(left, finals) || holds(right, finals),
    }
}
