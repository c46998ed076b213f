//! What follows on an access.

ghost use Rattle.std.specs.Prelude.{◌≡◌, ◌↔◌, IsTrue};
ghost use Rattle.task_plan.specs.Follow as spec;
ghost use Rattle.task_plan.specs.Follow.{disable_count, taker_off};
ghost use Rattle.task_plan.specs.Views.{follow_of, taker_of};

use litmus_semantics::same_text::is_same_loading;
use litmus_syntax::Loading;

/// What takes the value of a load.
#[derive(Clone, Copy)]
pub enum Taker<'a> {
    /// Nothing: the load is a statement of its own.
    Nobody,
    /// A register, which gets the value of the expression that the load stands in. The assignment
    /// is inside `data_race( )` or not.
    Register {
        register: usize,
        value: &'a Loading,
        data_race: bool,
    },
    /// The condition that the load stands in, which holds or not.
    Condition(&'a Loading),
}

/// What follows on an access.
#[derive(Clone, Copy)]
pub enum Then<'a> {
    /// The next statement.
    GoesOn,
    /// The next access counts as marked, as after `ASSERT_EXCLUSIVE_BITS`.
    MarksNext,
    /// The end of an assignment to a variable, inside `data_race( )` or not.
    Assigned {
        data_race: bool,
    },
    /// The end of a load of so many bytes, inside so many `data_race( )`; then its value is taken.
    Loaded {
        size: u64,
        data_races: u64,
        taker: Taker<'a>,
    },
}

/// How often reports are turned off for an assignment, and on again.
pub fn so_often(data_race: bool) -> u64
    ensures { result ≡ spec.so_often data_race }
{
    if data_race { 1 } else { 0 }
}

impl<'a> Taker<'a> {
    /// How often reports are turned off before the load, but for the load's own `data_race( )`.
    fn data_races(self) -> u64
        ensures { result ≡ taker_off (taker_of self.entry) }
    {
        match self {
            Taker::Nobody | Taker::Condition(_) => 0,
            Taker::Register { data_race, .. } => so_often(data_race),
        }
    }

    /// Both take the value in the same way.
    pub fn is_as(&self, other: &Taker<'_>) -> bool
        ensures { IsTrue result ↔ (taker_of self.now ≡ taker_of other.now) }
    {
        match self {
            Taker::Nobody => matches!(other, Taker::Nobody),
            Taker::Register {
                register,
                value,
                data_race,
            } => match other {
                Taker::Register {
                    register: second,
                    value: other_value,
                    data_race: inside,
                } => {
                    register == second && data_race == inside && is_same_loading(value, other_value)
                }
                _ => false,
            },
            Taker::Condition(value) => match other {
                Taker::Condition(second) => is_same_loading(value, second),
                _ => false,
            },
        }
    }
}

impl<'a> Then<'a> {
    /// How often reports are turned off before the access; no more than the largest number.
    pub fn data_races(self) -> u64
        ensures { result ≡ disable_count (follow_of self.entry) }
    {
        match self {
            Then::GoesOn | Then::MarksNext => 0,
            Then::Assigned { data_race } => so_often(data_race),
            Then::Loaded {
                data_races,
                taker,
                ..
            } => data_races.saturating_add(taker.data_races()),
        }
    }

    /// The same follows.
    pub fn is_as(&self, other: &Then<'_>) -> bool
        ensures { IsTrue result ↔ (follow_of self.now ≡ follow_of other.now) }
    {
        match self {
            Then::GoesOn => matches!(other, Then::GoesOn),
            Then::MarksNext => matches!(other, Then::MarksNext),
            Then::Assigned { data_race } => match other {
                Then::Assigned { data_race: second } => data_race == second,
                _ => false,
            },
            Then::Loaded {
                size,
                data_races,
                taker,
            } => match other {
                Then::Loaded {
                    size: second,
                    data_races: inside,
                    taker: other_taker,
                } => size == second && data_races == inside && taker.is_as(other_taker),
                _ => false,
            },
        }
    }
}
