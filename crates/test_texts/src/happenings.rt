//! What a task does, shown one happening a line.

use access_types::{Access, Bytes, Happening, Mark};
use std::alloc::AllocError;
use std::fmt::Write;

/// Shows what a task did, and what its registers hold then.
pub fn show_walk(
    shown: &mut String,
    did: &[Happening],
    registers: &[u64],
) -> Result<(), AllocError> {
    for happening in did {
        show_happening(shown, *happening)?;
    }
    shown.push_str("registers")?;
    for register in registers {
        write!(shown, " {register:#x}")?;
    }
    shown.push('\n')?;
    Ok(())
}

/// Shows one happening.
fn show_happening(shown: &mut String, happening: Happening) -> Result<(), AllocError> {
    match happening {
        Happening::Begin(access) => show_access(shown, "begin", &access),
        Happening::End(access) => show_access(shown, "end", &access),
        Happening::Read(bytes, value) => show_value(shown, "read", bytes, value),
        Happening::Write(bytes, value) => show_value(shown, "write", bytes, value),
        Happening::Lock(lock) => writeln!(shown, "lock {lock}"),
        Happening::Unlock(lock) => writeln!(shown, "unlock {lock}"),
        Happening::Mark(mark) => show_mark(shown, mark),
    }
}

/// Shows a KCSAN call between accesses.
fn show_mark(shown: &mut String, mark: Mark) -> Result<(), AllocError> {
    let name = match mark {
        Mark::Disable => "Disable",
        Mark::Enable => "Enable",
        Mark::NestOpen => "NestOpen",
        Mark::NestClose => "NestClose",
        Mark::FlatBegin => "FlatBegin",
        Mark::FlatEnd => "FlatEnd",
        Mark::Next(count) => return writeln!(shown, "mark Next({count})"),
    };
    writeln!(shown, "mark {name}")
}

/// Shows an access: its task, site and repetition, its kind, its bytes, and its mask, where it has one.
fn show_access(shown: &mut String, word: &str, access: &Access) -> Result<(), AllocError> {
    let (task, site, rep) = (access.task(), access.site(), access.rep());
    let (kind, addr, size) = (access.kind(), access.addr(), access.size());
    write!(
        shown,
        "{word} {task}.{site}.{rep} {kind:?} {addr:#x}+{size}"
    )?;
    if let Some(mask) = access.mask() {
        write!(shown, " mask {mask:#x}")?;
    }
    shown.push('\n')?;
    Ok(())
}

/// Shows the value that bytes had or got.
fn show_value(shown: &mut String, word: &str, bytes: Bytes, value: u64) -> Result<(), AllocError> {
    let Bytes { addr, size } = bytes;
    writeln!(shown, "{word} {addr:#x}+{size} = {value:#x}")
}
