//! The syntax tree of a litmus program; the definition of its printed form, and its sites.
#![tactic(auto)]

pub mod error;
pub mod expression;
pub mod limits;
pub mod names;
pub mod program;
pub mod proposition;
pub mod sites;
pub mod statement;

pub use access_types::Mark;
pub use error::{Limit, ParseError};
pub use expression::{
    BinaryOperator, Expression, Fetch, Load, Loading, Pure, ReadForm, UnaryOperator,
};
pub use names::{Name, Sequence};
pub use program::{Contents, Program, Task, Variable};
pub use proposition::{Proposition, Quantifier};
pub use statement::{Assignment, Barrier, Call, Statement, WriteForm};
