//! What `check` warns of where a process has a register whose name a variable of the program has: without a parameter of
//! this name it isn't the variable.

ghost use Rattle.std.specs.Prelude.{◌≡◌, IfOk};
ghost use Rattle.std.specs.Option.{option_map};
ghost use Rattle.check_warnings.specs.SameNames as spec;

use litmus_syntax::{Contents, Name, Variable};
use program_table::text_pieces::{joined, number, shown};
use std::alloc::{AllocError, Global};

/// The variable has this name.
fn has_name(variable: &Variable, name: &Name) -> bool
    ensures { result ≡ spec.has_name name.now variable.now }
{
    variable.name == *name
}

/// The variable of this name.
pub(crate) fn named<'a>(variables: &'a [Variable], name: &Name) -> Option<&'a Variable>
    ensures { option_map (λ variable. variable.now) result ≡ spec.named variables.now name.now }
{
    variables.iter().find(|variable| has_name(variable, name))
}

/// How a variable of this type is accessed, before its name.
fn access_front(contents: Contents) -> &'static str
    ensures { result.now ≡ spec.access_front contents }
{
    match contents {
        Contents::Char(_) | Contents::Short(_) | Contents::Int(_) | Contents::Long(_) => "*",
        Contents::Atomic(_) => "atomic_read(",
        Contents::Lock => "spin_lock(",
    }
}

/// And behind its name.
fn access_end(contents: Contents) -> &'static str
    ensures { result.now ≡ spec.access_end contents }
{
    match contents {
        Contents::Char(_) | Contents::Short(_) | Contents::Int(_) | Contents::Long(_) => "",
        Contents::Atomic(_) | Contents::Lock => ")",
    }
}

/// How a variable is accessed.
#[tactic(auto, unfolding(crate::specs::SameNames::access_text))]
fn access_text(alloc: Global, variable: &Variable) -> Result<Vec<u8>, AllocError>
    ensures { IfOk result (λ text. text.items ≡ spec.access_text variable.now) }
{
    let name = shown(alloc, variable.name.as_str().as_bytes())?;
    let front = access_front(variable.contents).as_bytes();
    let end = access_end(variable.contents).as_bytes();
    joined(alloc, &[front, &name, end])
}

/// How the process of a task begins where this variable is its parameter.
#[tactic(auto, unfolding(crate::specs::SameNames::head_text))]
fn head_text(alloc: Global, task: usize, variable: &Variable) -> Result<Vec<u8>, AllocError>
    ensures { IfOk result (λ text. text.items ≡ spec.head_text task variable.now) }
{
    let name = shown(alloc, variable.name.as_str().as_bytes())?;
    let process = number(alloc, task)?;
    let kind = variable.contents.type_name().as_bytes();
    joined(alloc, &[b"P", &process, b"(", kind, b" *", &name, b")"])
}

/// What is said of a register of a task whose name this variable has, behind the name of the register and the task.
#[tactic(auto, unfolding(crate::specs::SameNames::same_name_words))]
pub(crate) fn same_name_words(
    alloc: Global,
    task: usize,
    variable: &Variable,
) -> Result<Vec<u8>, AllocError>
    ensures { IfOk result (λ words. words.items ≡ spec.same_name_words task variable.now) }
{
    let head = head_text(alloc, task, variable)?;
    let access = access_text(alloc, variable)?;
    joined(
        alloc,
        &[
            b" is a register, and not the variable of this name: write `",
            &head,
            b"` and `",
            &access,
            b"`\n",
        ],
    )
}
