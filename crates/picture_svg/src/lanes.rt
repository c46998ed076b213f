//! Where the lanes of a picture stand: each is as wide as the longest line of text in it, and a task without accesses
//! has none.

ghost use Rattle.std.specs.Prelude.{◌≡◌, ◌≤◌};
ghost use Rattle.picture_svg.specs.Lanes as spec;

use crate::notes::note_len;
use access_types::Stamped;
use timeline::lengths::short_len;
use timeline::picture::labels::{Label, statement_of};
use timeline::picture::told::{first_len, second_len};
use timeline::picture::{Mark, Picture, Row, TASKS, Watch};

/// Where the lanes of the tasks begin, and how wide all are.
#[derive(Clone, Copy)]
pub(crate) struct Lanes {
    starts: [u64; 16],
    width: u64,
}

/// How long the longest line of the label of an access is.
fn label_len(labels: &[Label<'_>], stamped: &Stamped) -> u64
    ensures value { result ≡ spec.label_len labels.now stamped.now }
    ensures few { result ≤ 200 }
{
    first_len(labels, stamped)
        .max(second_len(stamped))
        .max(short_len(statement_of(labels, stamped)))
}

/// How long the longest line is that stands at this mark in the lane of a task: 0, if none does. There is room for the
/// values of a change of unknown origin, whatever they are, and what else stands in red is shorter than any label.
fn mark_len(labels: &[Label<'_>], watches: &[Watch], task: u32, mark: &Mark) -> u64
    ensures value { result ≡ spec.mark_len labels.now watches.now task mark.now }
    ensures few { result ≤ 200 }
{
    match mark {
        Mark::Begin(stamped) if stamped.access().task() == task => label_len(labels, stamped),
        Mark::End(stamped) if stamped.access().task() == task => note_len(watches, stamped),
        Mark::Origin { setter, .. } if setter.access().task() == task => 23,
        _ => 0,
    }
}

/// How long the longest line in the lane of a task is.
fn lane_len(picture: &Picture, labels: &[Label<'_>], task: u32) -> u64
    ensures value { result ≡ spec.lane_len picture.now labels.now task }
    ensures few { result ≤ 200 }
{
    let mut len = 0;
    for row in &picture.rows {
        len = len.max(mark_len(labels, &picture.watches, task, &row.mark));
    }
    len
}

/// How wide the lane is whose longest line is so long: a sign is .36 em wide, and there is a bar in front of the text,
/// and room behind it.
fn lane_width(len: u64) -> u64
    requires { len ≤ 200 }
    ensures value { result ≡ spec.lane_width len }
    ensures few { result ≤ 74 }
{
    match len {
        0 => 0,
        _ => 2 + (36 * len + 99) / 100,
    }
}

/// The lanes of a picture.
pub(crate) fn lanes_of(picture: &Picture, labels: &[Label<'_>]) -> Lanes
    ensures { result ≡ spec.lanes_of picture.now labels.now }
{
    let mut starts = [0; 16];
    let mut width = 1;
    for (index, task) in TASKS.iter().enumerate() {
        starts[index] = width;
        width += lane_width(lane_len(picture, labels, *task));
    }
    Lanes { starts, width }
}

impl Lanes {
    /// Where the lane of a task begins.
    pub(crate) fn start(&self, task: u32) -> u64
        ensures { result ≡ spec.start self.now task }
    {
        self.starts.get(task as usize).copied().unwrap_or(0)
    }

    /// How wide all lanes are.
    pub(crate) fn width(&self) -> u64
        ensures { result ≡ self.now.width }
    {
        self.width
    }
}
