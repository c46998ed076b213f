//! What is due in a text with loops, conditions and scoped assertions in each other.

use crate::fault::{Fault, written};
use crate::notation::{cut, push_number};
use crate::process::{body_of, program_of, walk_of};
use crate::script::{Asked, Scripted, begin_word, came_of};
use litmus_syntax::{Assignment, Expression, Fetch, Load, Loading, Statement};
use std::alloc::{AllocError, Global};
use std::str::Bytes;
use task_plan::count::{depth_in, sites_in};
use task_plan::{Due, Walk};

/// What is due in a text whose conditions hold, where there is a `1`, or not, in this order: `CONDITIONS PROCESS`.
pub fn walk(alloc: Global, start: &str, script: &str) -> Result<String, Fault> {
    let (conditions, process) = cut(start, ' ')?;
    let program = program_of(alloc, process)?;
    walked(alloc, body_of(&program)?, conditions, script)
}

/// What comes of the walk of a body.
fn walked<'p>(
    alloc: Global,
    body: &'p [Statement],
    conditions: &'p str,
    script: &str,
) -> Result<String, Fault> {
    let mut walking = Walking {
        body,
        walk: walk_of(alloc, body)?,
        conditions: conditions.bytes(),
    };
    let came = came_of(alloc, script, &mut walking);
    // By a call: where it goes out of scope, the proof follows the drop of all that is in it.
    drop(walking);
    came
}

/// A walk through a body, with what its conditions say that are still to come.
#[derive(Drop)]
struct Walking<'p> {
    body: &'p [Statement],
    walk: Walk<'p>,
    conditions: Bytes<'p>,
}

impl Scripted for Walking<'_> {
    fn goes_on(&mut self, came: &mut String, word: &str) -> Result<(), Fault> {
        match begin_word(came, word)? {
            Asked::Question(phrase) => {
                written(push_number(came, measure(self.body, phrase.name)?))
            }
            Asked::Step => written(goes_on(came, &mut self.walk, &mut self.conditions)),
        }
    }
}

/// What is due next. Where that is a condition, it takes one of those that are left.
fn goes_on(
    came: &mut String,
    walk: &mut Walk<'_>,
    conditions: &mut Bytes<'_>,
) -> Result<(), AllocError> {
    let due = walk.go_on();
    if matches!(due, Due::Condition { .. }) && conditions.next() == Some(b'1') {
        walk.holds();
    }
    push_due(came, due)
}

/// How many statements with an access a body has, or how many blocks in each other.
fn measure(body: &[Statement], name: &str) -> Result<u64, Fault> {
    match name {
        "sites" => Ok(sites_in(body) as u64),
        "depth" => Ok(depth_in(body) as u64),
        _ => Err(Fault::NoRow),
    }
}

/// Writes what is due: a statement and a condition by the variable that it is made on, then its site.
fn push_due(came: &mut String, due: Due<'_>) -> Result<(), AllocError> {
    match due {
        Due::Statement { statement, site } => {
            push_at(came, "Statement", written_in(statement), site)
        }
        Due::Condition { condition, site } => push_at(came, "Condition", read_in(condition), site),
        Due::Opens {
            kind,
            variable,
            site,
        } => write!(came, "Opens({kind:?},{variable})@{site}"),
        Due::Sets { register, value } => write!(came, "Sets({register},{value})"),
        Due::Closes => came.push_str("Closes"),
        Due::Leaves => came.push_str("Leaves"),
        Due::Ends => came.push_str("Ends"),
    }
}

/// Writes a name, the variable, if there is one, and the site.
fn push_at(
    came: &mut String,
    name: &str,
    variable: Option<usize>,
    site: usize,
) -> Result<(), AllocError> {
    match variable {
        Some(variable) => write!(came, "{name}({variable})@{site}"),
        None => write!(came, "{name}@{site}"),
    }
}

/// The variable that a statement writes.
fn written_in(statement: &Statement) -> Option<usize> {
    match statement {
        Statement::Assign {
            assignment: Assignment::Write { variable, .. },
            ..
        } => Some(*variable),
        _ => None,
    }
}

/// The variable that a condition reads, where that is all of it.
fn read_in(condition: &Expression) -> Option<usize> {
    match condition {
        Expression::Loading(
            Loading::Load(
                Load {
                    fetch: Fetch::Read { variable, .. },
                    ..
                },
            ),
        ) => Some(*variable),
        _ => None,
    }
}
