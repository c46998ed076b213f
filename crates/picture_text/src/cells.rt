//! What stands in a column of a line: seven signs.

ghost use Rattle.std.specs.Prelude.{◌≡◌};
ghost use Rattle.picture_text.specs.Cells as spec;

/// The signs that a picture is drawn with.
#[derive(Clone, Copy)]
pub enum Style {
    /// The box characters of Unicode, in UTF-8.
    Lines,
    /// `|`, `+`, `-` and `=` alone.
    Ascii,
}

/// What a line shows, beside the accesses in progress.
#[derive(Clone, Copy)]
pub(crate) enum Shape {
    /// Nothing more.
    Bars,
    /// An access of the task begins.
    Begins { task: u32 },
    /// An access of the task ends.
    Ends { task: u32 },
    /// A race between accesses of two tasks, the smaller first.
    Race { from: u32, to: u32 },
}

/// What stands in a column.
#[derive(Clone, Copy)]
pub(crate) enum Cell {
    /// No access is in progress.
    Empty,
    /// One is.
    One,
    /// More are.
    More,
    /// The only one in progress begins.
    Begin,
    /// One begins beside others.
    BeginBeside,
    /// The only one in progress ends.
    End,
    /// One ends beside others.
    EndBeside,
    /// A race goes from here to the right.
    RaceFrom,
    /// A race goes past.
    RacePast,
    /// A race goes past accesses in progress.
    RaceAcross,
    /// A race comes from the left.
    RaceTo,
}

/// What stands in the column of a task of which so many accesses are in progress.
pub(crate) fn cell_of(shape: Shape, task: u32, running: usize) -> Cell
    ensures { result ≡ spec.cell_of shape task running }
{
    match shape {
        Shape::Begins { task: own } if own == task => begin_of(running),
        Shape::Ends { task: own } if own == task => end_of(running),
        Shape::Race { from, to: _ } if task == from => Cell::RaceFrom,
        Shape::Race { from: _, to } if task == to => Cell::RaceTo,
        Shape::Race { from, to } if from < task && task < to => past_of(running),
        _ => bar_of(running),
    }
}

/// The bar of so many accesses in progress.
fn bar_of(running: usize) -> Cell
    ensures { result ≡ spec.bar_of running }
{
    match running {
        0 => Cell::Empty,
        1 => Cell::One,
        _ => Cell::More,
    }
}

/// The begin of one of so many accesses in progress.
fn begin_of(running: usize) -> Cell
    ensures { result ≡ spec.begin_of running }
{
    if running <= 1 {
        Cell::Begin
    } else {
        Cell::BeginBeside
    }
}

/// The end of an access behind which so many are in progress.
fn end_of(running: usize) -> Cell
    ensures { result ≡ spec.end_of running }
{
    if running == 0 {
        Cell::End
    } else {
        Cell::EndBeside
    }
}

/// A race that goes past so many accesses in progress.
fn past_of(running: usize) -> Cell
    ensures { result ≡ spec.past_of running }
{
    if running == 0 {
        Cell::RacePast
    } else {
        Cell::RaceAcross
    }
}

/// What a cell looks like.
pub(crate) fn cell_text(style: Style, cell: Cell) -> &'static str
    ensures { result.now ≡ spec.cell_text style cell }
{
    match style {
        Style::Lines => lines_text(cell),
        Style::Ascii => ascii_text(cell),
    }
}

/// What it looks like in box characters.
fn lines_text(cell: Cell) -> &'static str
    ensures { result.now ≡ spec.lines_text cell }
{
    match cell {
        Cell::Empty => "       ",
        Cell::One => "│      ",
        Cell::More => "││     ",
        Cell::Begin => "┬      ",
        Cell::BeginBeside => "│┬     ",
        Cell::End => "┴      ",
        Cell::EndBeside => "│┴     ",
        Cell::RaceFrom => "╞═RACE═",
        Cell::RacePast => "═══════",
        Cell::RaceAcross => "╪══════",
        Cell::RaceTo => "╡      ",
    }
}

/// What it looks like in ASCII.
fn ascii_text(cell: Cell) -> &'static str
    ensures { result.now ≡ spec.ascii_text cell }
{
    match cell {
        Cell::Empty => "       ",
        Cell::One => "|      ",
        Cell::More => "||     ",
        Cell::Begin => "+      ",
        Cell::BeginBeside => "|+     ",
        Cell::End => "-      ",
        Cell::EndBeside => "|-     ",
        Cell::RaceFrom => "+=RACE=",
        Cell::RacePast => "=======",
        Cell::RaceAcross => "+======",
        Cell::RaceTo => "+      ",
    }
}
