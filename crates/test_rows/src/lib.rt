//! What programs share that read rows from standard input, each with what comes of it: the loop over lines, the texts
//! that rows call by a name, escapes, and the status at the end. Rows of which something else comes are printed.
#![tactic(auto)]

pub mod escapes;
pub mod texts;

use std::alloc::{AllocError, Global};
use std::io;
use std::process::ExitCode;

/// The status where something else comes of a row, or a line is no row.
const OTHERWISE: u8 = 1;

/// The status where memory is refused.
const OUT_OF_MEMORY: u8 = 71;

/// The status where standard input or standard output fails.
const FAILED: u8 = 74;

/// What came of a line.
#[derive(Drop)]
pub enum Tried {
    /// It was kept for rows below, or as the beginning of a row, and none was tried.
    Kept,
    /// What its row says.
    AsSaid,
    /// Something else, or it is no row: what is printed of it.
    Otherwise(String),
}

impl Tried {
    /// The line is no row.
    pub fn no_row(alloc: Global, line: &str) -> Result<Tried, AllocError> {
        Ok(Tried::Otherwise(format!(in alloc; "no row: {line}")?))
    }

    /// This comes of the row of a line, which says otherwise.
    pub fn other(alloc: Global, line: &str, comes: &str) -> Result<Tried, AllocError> {
        Ok(Tried::Otherwise(format!(in alloc; "{line}\ncomes: {comes}")?))
    }

    /// What came of the row of a line, which wants this.
    pub fn of(alloc: Global, line: &str, wanted: &str, comes: &str) -> Result<Tried, AllocError> {
        if comes == wanted {
            return Ok(Tried::AsSaid);
        }
        Tried::other(alloc, line, comes)
    }
}

/// How many rows there were, and of how many something else came.
#[derive(Clone, Copy)]
pub struct Tally {
    pub rows: u64,
    pub others: u64,
}

impl Tally {
    /// No row.
    pub fn new() -> Tally {
        Tally { rows: 0, others: 0 }
    }

    /// Counts the row that was tried, where one was.
    pub fn count(&mut self, tried: &Tried) {
        let (rows, others) = match tried {
            Tried::Kept => (0, 0),
            Tried::AsSaid => (1, 0),
            Tried::Otherwise(_) => (1, 1),
        };
        self.rows = self.rows.saturating_add(rows);
        self.others = self.others.saturating_add(others);
    }
}

/// Rows of one program, and what they keep of the lines so far.
pub trait Rows {
    /// Tries the row of a line, or keeps the line. It isn't empty, and doesn't begin with `#`.
    fn try_line(&mut self, alloc: Global, line: &str) -> Result<Tried, AllocError>;

    /// Tries the row that ends with the last line, where a row is tried only once it has ended.
    fn try_last(&mut self, _alloc: Global) -> Result<Tried, AllocError> {
        Ok(Tried::Kept)
    }

    /// What is said in the end, of so many rows.
    fn summary(&self, alloc: Global, tally: Tally) -> Result<String, AllocError> {
        let Tally { rows, others } = tally;
        format!(in alloc; "{rows} rows, {others} of them come otherwise")
    }
}

/// Tries the rows of standard input. The status says whether what they say came of all of them.
pub fn status_of_rows<R: Rows>(rt: &HostRuntime, rows: &mut R) -> ExitCode {
    status_of(try_rows(rt, rows))
}

/// The status where something else came of so many rows, or a read, a write or a growth of memory failed.
pub fn status_of(others: io::Result<u64>) -> ExitCode {
    let status = match others {
        Ok(0) => return ExitCode::SUCCESS,
        Ok(_) => OTHERWISE,
        Err(error) => match error.kind() {
            io::ErrorKind::OutOfMemory => OUT_OF_MEMORY,
            _ => FAILED,
        },
    };
    ExitCode::from(status)
}

/// Tries each row, and counts those of which something else comes. Lines that are empty or begin with `#` are none.
fn try_rows<R: Rows>(rt: &HostRuntime, rows: &mut R) -> io::Result<u64> {
    let alloc = rt.alloc();
    let mut tally = Tally::new();
    for line in rt.lines(alloc) {
        let line = line?;
        if !line.is_empty() && !line.starts_with('#') {
            tell(rt, &mut tally, rows.try_line(alloc, &line)?)?;
        }
    }
    tell(rt, &mut tally, rows.try_last(alloc)?)?;
    let summary = rows.summary(alloc, tally)?;
    println!(rt; "{summary}")?;
    Ok(tally.others)
}

/// Counts the row that was tried, and prints it if something else came of it.
fn tell(rt: &HostRuntime, tally: &mut Tally, tried: Tried) -> io::Result<()> {
    tally.count(&tried);
    if let Tried::Otherwise(said) = tried {
        println!(rt; "{said}")?;
    }
    Ok(())
}
