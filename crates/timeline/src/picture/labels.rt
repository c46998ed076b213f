//! What is known of the sites of a trace beyond it: the variable that is accessed there, and the statement.

ghost use Rattle.std.specs.Prelude.{◌≡◌};
ghost use Rattle.std.specs.List.{find};
ghost use Rattle.std.specs.Option.{option_copied};
ghost use Rattle.timeline.specs.picture.Labels as spec;

use access_types::Stamped;

/// What is known of a site. A text that isn't known is empty.
#[derive(Clone, Copy)]
pub struct Label<'a> {
    pub task: u32,
    pub site: u32,
    /// The name of the variable that its accesses are to.
    pub variable: &'a [u8],
    /// The statement that makes them.
    pub statement: &'a [u8],
}

/// The label is that of the access's site.
fn is_of(label: &Label<'_>, stamped: &Stamped) -> bool
    ensures { result ≡ spec.is_of stamped.now label.now }
{
    let access = stamped.access();
    label.task == access.task() && label.site == access.site()
}

/// The label of the access's site: the first, where there are several.
fn label_of<'a>(labels: &'a [Label<'a>], stamped: &Stamped) -> Option<&'a Label<'a>>
    ensures { option_copied result ≡ find (spec.is_of stamped.now) labels.now }
{
    labels.iter().find(|label| is_of(label, stamped))
}

/// The name of the variable that the access is to.
pub fn variable_of<'a>(labels: &'a [Label<'a>], stamped: &Stamped) -> &'a [u8]
    ensures { result.now ≡ spec.variable_of labels.now stamped.now }
{
    match label_of(labels, stamped) {
        Some(label) => label.variable,
        None => &[],
    }
}

/// The statement that makes the access.
pub fn statement_of<'a>(labels: &'a [Label<'a>], stamped: &Stamped) -> &'a [u8]
    ensures { result.now ≡ spec.statement_of labels.now stamped.now }
{
    match label_of(labels, stamped) {
        Some(label) => label.statement,
        None => &[],
    }
}
