//! The bytes of each variable, and the cells of memory that they lie in.

ghost use Rattle.std.specs.Prelude.{◌≡◌, ◌≤◌, ◌<◌, ◌↔◌, ◌*◌, ◌/◌, ◌^◌, ◌==◌, ℕ, List, [], IfOk, IsErrOf, OnOk, count_by, fold, length, map, slice_get, unwrap_or};
ghost use Rattle.std.specs.List.{list_any};
ghost use Rattle.std.specs.Option.{option_map};
ghost use Rattle.access_types.specs.History as memory;
ghost use Rattle.access_types.specs.History.{initial_memory, value_from};
ghost use Rattle.litmus_semantics.specs.Layout as spec;
ghost use Rattle.litmus_semantics.specs.TextSites.{bytes_among};
ghost use Rattle.litmus_syntax.specs.declared.program.Variable.{Variable};
ghost use Rattle.prepared_program.specs.program_layout.Lays.{Lays, is_lock};
ghost use Rattle.prepared_program.specs.program_layout.Places.{AreFit, places_of};

use crate::program_layout::place::{Place, are_fit, place_of};
use access_types::Bytes;
use litmus_semantics::size_of;
use litmus_syntax::{Contents, Variable};
use std::alloc::{AllocError, Global};
use thiserror::Error;

/// The first variable stands here, unless it is placed.
const FIRST: u64 = 0x10000;

/// From a variable to the next one.
/// It is a multiple of all sizes and of a cell's, so variables that aren't placed share no byte and no cell.
const STRIDE: u64 = 64;

/// How many bytes a cell has. Each begins at a multiple of it.
const CELL: u64 = 8;

/// Where each variable of a program stands, and its initial value as its bytes hold it.
#[derive(Debug, Drop)]
pub struct Layout {
    variables: Vec<(Bytes, u64)>,
}

/// Why variables can't stand where they are placed.
#[derive(Clone, Copy, Debug, Error)]
pub enum LayoutError {
    /// A place is no multiple of its variable's size or is above 2^62, its name is unknown, a lock's, or placed twice.
    #[error("bad place")]
    BadPlace,
    #[error("out of memory")]
    OutOfMemory,
}

impl From<AllocError> for LayoutError {
    ghost use Rattle.prepared_program.specs.declared.program_layout.layout.LayoutError.TheVariants.{OutOfMemory};

    ghost from_gives = { λ _ e. e ≡ OutOfMemory };

    fn from(_: AllocError) -> LayoutError {
        LayoutError::OutOfMemory
    }
}

/// The bytes of the variable of a number: at its place, or, where it has none, 64 bytes from `FIRST` on for each
/// variable before it.
fn bytes_at(places: &[Place], number: usize, variable: &Variable) -> Bytes
    requires { number ≤ 32 }
    ensures { result ≡ spec.bytes_at (places_of places.now) number variable.now }
{
    let addr = match place_of(places, &variable.name) {
        Some(place) => place.addr,
        None => FIRST + STRIDE * number as u64,
    };
    Bytes {
        addr,
        size: size_of(variable.contents),
    }
}

/// The initial value of a variable, as its bytes hold it.
fn initial_value(contents: Contents) -> u64
    ensures { result ≡ spec.initial_value contents }
{
    match contents {
        Contents::Char(value) => value.cast_unsigned() as u64,
        Contents::Short(value) => value.cast_unsigned() as u64,
        Contents::Int(value) => value.cast_unsigned() as u64,
        Contents::Atomic(value) => value.cast_unsigned() as u64,
        Contents::Long(value) => value.cast_unsigned(),
        Contents::Lock => 0,
    }
}

/// The byte of a value at an offset, from the lowest on.
fn byte_of(value: u64, offset: u64) -> u8
    ensures { result ≡ memory.byte_of value offset }
{
    if offset < 8 {
        (value / 256u64.pow(offset as u32) % 256) as u8
    } else {
        0
    }
}

/// The cell is one of these.
fn is_among(cells: &[u64], cell: u64) -> bool
    ensures { result ≡ list_any (λ other. other == cell) cells.now }
{
    cells.contains(&cell)
}

/// Adds the cell of the bytes of a variable, if it has any and their cell isn't there.
fn add_cell(cells: &mut Vec<u64>, variable: (Bytes, u64)) -> Result<(), AllocError>
    ensures { OnOk result (cells.new.items ≡ spec.with_cell cells.old.items variable) }
{
    let (bytes, _) = variable;
    let cell = bytes.addr - bytes.addr % CELL;
    // Variables that are placed may share a cell. That is one word then, so each sees what is written to the other.
    if bytes.size == 0 || is_among(cells.as_slice(), cell) {
        return Ok(());
    }
    cells.push(cell)?;
    Ok(())
}

impl Layout {
    /// The layout of these variables, with places for some of them.
    ///
    /// `BadPlace`: a place is no multiple of its variable's size or is above 2^62, its name is unknown, a lock's, or
    /// placed twice.
    pub fn new(
        alloc: Global,
        variables: &[Variable],
        places: &[Place],
    ) -> Result<Layout, LayoutError>
        requires { length variables.now ≤ 32 }
        ensures lays { IfOk result (Lays (places_of places.now) variables.now) }
        ensures fit { IfOk result (λ _. AreFit variables.now places.now) }
        ensures bad_place { IsErrOf result LayoutError.BadPlace ↔ (AreFit variables.now places.now → ⊥) }
    {
        if !are_fit(variables, places) {
            return Err(LayoutError::BadPlace);
        }
        let mut laid = Vec::with_capacity(alloc, variables.len())?;
        for (number, variable) in variables.iter().enumerate() {
            let bytes = bytes_at(places, number, variable);
            laid.push_reserved((bytes, initial_value(variable.contents)));
        }
        Ok(Layout { variables: laid })
    }

    /// The bytes of the variable of a number; where there is none, none at 0.
    pub fn bytes_in(&self, variable: usize) -> Bytes
        ensures { (places : List spec.VariablePlace) (variables : List Variable) → Lays places variables self.now
            → result ≡ spec.bytes_of_variable places variables variable }
    {
        self.bytes_of(variable)
    }

    /// The same, of the bytes that it has.
    fn bytes_of(&self, variable: usize) -> Bytes
        ensures { result
            ≡ unwrap_or (option_map (λ laid. laid.0) (slice_get self.now.variables.items variable)) spec.no_bytes }
    {
        match self.variables.get(variable) {
            Some((bytes, _)) => *bytes,
            None => Bytes { addr: 0, size: 0 },
        }
    }

    /// The bytes of all variables, in their order.
    pub fn all_bytes(&self, alloc: Global) -> Result<Vec<Bytes>, AllocError>
        ensures { (places : List spec.VariablePlace) (variables : List Variable) → Lays places variables self.now
            → IfOk result (λ bytes.
            (variable : ℕ) → bytes_among bytes.items variable ≡ spec.bytes_of_variable places variables variable) }
    {
        self.bytes_laid(alloc)
    }

    /// The same, of the bytes that it has.
    fn bytes_laid(&self, alloc: Global) -> Result<Vec<Bytes>, AllocError>
        ensures { IfOk result (λ bytes. bytes.items ≡ map (λ laid. laid.0) self.now.variables.items) }
    {
        self.variables
            .iter()
            .map(|(bytes, _)| *bytes)
            .collect(alloc)
    }

    /// The addresses of the cells of memory, in the order of the variables that lie in them.
    pub fn cells(&self, alloc: Global) -> Result<Vec<u64>, AllocError>
        ensures { (places : List spec.VariablePlace) (variables : List Variable) → Lays places variables self.now
            → IfOk result (λ cells. cells.items ≡ spec.cells_of places variables) }
    {
        self.cells_laid(alloc)
    }

    /// The same, of the bytes that it has.
    fn cells_laid(&self, alloc: Global) -> Result<Vec<u64>, AllocError>
        ensures { IfOk result (λ cells. cells.items ≡ fold spec.with_cell [] self.now.variables.items) }
    {
        let mut cells = Vec::new(alloc);
        for variable in &self.variables {
            add_cell(&mut cells, *variable)?;
        }
        Ok(cells)
    }

    /// What the cells hold at first, in the order of `cells`.
    pub fn cells_at_first(&self, alloc: Global) -> Result<Vec<u64>, AllocError>
        ensures { (places : List spec.VariablePlace) (variables : List Variable) → Lays places variables self.now
            → IfOk result (λ words. words.items ≡ spec.cells_at_first places variables) }
    {
        let cells = self.cells_laid(alloc)?;
        self.words_at(alloc, cells.as_slice())
    }

    /// What the blocks of 8 bytes hold at first in which these addresses lie.
    fn words_at(&self, alloc: Global, addresses: &[u64]) -> Result<Vec<u64>, AllocError>
        ensures { IfOk result (λ words.
            words.items ≡ map (λ address. value_from (initial_memory self.now.variables.items) (8 * (address / 8)) 8) addresses.now) }
    {
        let mut words = Vec::with_capacity(alloc, addresses.len())?;
        for address in addresses {
            words.push_reserved(self.word_at(*address / CELL));
        }
        Ok(words)
    }

    /// What the 8 bytes of a block hold at first. Blocks are counted from address 0.
    fn word_at(&self, block: u64) -> u64
        requires { block < 2 ^ 61 }
        ensures { result ≡ value_from (initial_memory self.now.variables.items) (8 * block) 8 }
    {
        let first = CELL * block;
        u64::from_le_bytes([
            self.byte_at(first),
            self.byte_at(first + 1),
            self.byte_at(first + 2),
            self.byte_at(first + 3),
            self.byte_at(first + 4),
            self.byte_at(first + 5),
            self.byte_at(first + 6),
            self.byte_at(first + 7),
        ])
    }

    /// What the byte at an address holds at first: 0 where no variable stands.
    fn byte_at(&self, address: u64) -> u8
        ensures { result ≡ initial_memory self.now.variables.items address }
    {
        let mut byte = 0;
        for (bytes, value) in &self.variables {
            if bytes.addr <= address && address - bytes.addr < bytes.size {
                byte = byte_of(*value, address - bytes.addr);
            }
        }
        byte
    }

    /// How many locks there are.
    pub fn locks(&self) -> usize
        ensures { (places : List spec.VariablePlace) (variables : List Variable) → Lays places variables self.now
            → result ≡ count_by is_lock variables }
    {
        self.without_bytes()
    }

    /// How many variables have no bytes.
    fn without_bytes(&self) -> usize
        ensures { result ≡ count_by (λ laid. laid.0.size == 0) self.now.variables.items }
    {
        self.variables
            .iter()
            .filter(|(bytes, _)| bytes.size == 0)
            .count()
    }
}
