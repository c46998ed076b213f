//! What is told of files of which no whole search is made.

ghost use Rattle.std.specs.Prelude.{◌≡◌, ◌⊎◌, IfOk, length, option_map};
ghost use Rattle.join_command.specs.Told as spec;
ghost use Rattle.join_command.specs.Told.{IsFaultLine, IsUnjoined};
ghost use Rattle.part_search.specs.part_file.Wholes.{IsFault};

use diagnostics::check_output::Lines;
use file_commands::complaint::Complaint;
use file_commands::failure::Failure;
use part_search::part_file::{Part, PartError, PartFault, PartsFault};
use program_table::text_pieces::{joined, number, shown};
use std::alloc::{AllocError, Global};

/// Why a text is not that of a part, where that isn't want of memory.
pub(crate) fn error_words(error: PartError) -> Option<&'static str>
    ensures { option_map (λ words. words.now) result ≡ spec.error_words error }
{
    match error {
        PartError::OutOfMemory => None,
        PartError::CutShort => Some("cut short"),
        PartError::NotJson => Some("not JSON"),
        PartError::OtherFormat => Some("not a part of a search, or of another version"),
        PartError::Changed => Some("not as a part is written"),
    }
}

/// The line that says this of the file of this name.
#[tactic(auto, unfolding(crate::specs::Told::line_on))]
fn line_on(alloc: Global, name: &str, why: &[u8]) -> Result<Vec<u8>, AllocError>
    ensures { IfOk result (λ line. line.items ≡ spec.line_on name.now why.now) }
{
    let file = shown(alloc, name.as_bytes())?;
    joined(alloc, &[&file, b": ", why, b"\n"])
}

/// A text that says this of the first file.
#[tactic(auto, unfolding(crate::specs::Told::of_first))]
fn of_first(alloc: Global, words: &[u8], first: &str) -> Result<Vec<u8>, AllocError>
    ensures { IfOk result (λ text. text.items ≡ spec.of_first words.now first.now) }
{
    let file = shown(alloc, first.as_bytes())?;
    joined(alloc, &[words, &file])
}

/// A text that says this of the part of this number, of so many.
#[tactic(auto, unfolding(crate::specs::Told::numbered))]
fn numbered(alloc: Global, part: u64, parts: u64, words: &[u8]) -> Result<Vec<u8>, AllocError>
    ensures { IfOk result (λ text. text.items ≡ spec.numbered part parts words.now) }
{
    let one = number(alloc, part as usize)?;
    let all = number(alloc, parts as usize)?;
    joined(alloc, &[b"part ", &one, b" of ", &all, words])
}

/// What is amiss with a part, where the first file has this name.
fn fault_words(
    alloc: Global,
    first: &str,
    part: &Part,
    fault: PartFault,
) -> Result<Vec<u8>, AllocError>
    ensures { IfOk result (λ why. why.items ≡ spec.fault_words first.now part.now fault) }
{
    match fault {
        PartFault::OtherFile => of_first(alloc, b"a part of another file than ", first),
        PartFault::OtherSettings => of_first(
            alloc,
            b"a part of another search: other settings than ",
            first,
        ),
        PartFault::OutOfRange => numbered(alloc, part.part, part.parts, b", which isn't one"),
        PartFault::Twice => numbered(alloc, part.part, part.parts, b" for the second time"),
    }
}

/// The line that says why the parts that files of these names have are no whole search.
fn fault_line(
    alloc: Global,
    files: &[&str],
    parts: &[Part],
    fault: PartsFault,
) -> Result<Vec<u8>, AllocError>
    requires all { length parts.now ≡ length files.now }
    requires fault { IsFault fault parts.now }
    ensures { IfOk result (λ line. IsFaultLine files.now parts.now fault line.items) }
{
    match fault {
        PartsFault::NoPart => Vec::from_slice(alloc, b"no part\n"),
        PartsFault::At(place, fault) => {
            let why = fault_words(alloc, files[0], &parts[place], fault)?;
            line_on(alloc, files[place], &why)
        }
        PartsFault::Missing(part) => numbered(alloc, part, parts[0].parts, b" is missing\n"),
    }
}

/// That line is told, if there is memory for it.
fn said(line: Result<Vec<u8>, AllocError>) -> Complaint
    ensures { spec.IsSaidOf line result }
{
    match line {
        Ok(bytes) => Complaint::Unjoined(Lines { bytes }),
        Err(_) => Complaint::Failure(Failure::OutOfMemory),
    }
}

/// What is told of the file of this name, which is refused for this reason.
pub(crate) fn refused(alloc: Global, name: &str, why: &str) -> Complaint
    ensures { IsUnjoined (spec.line_on name.now why.now) result ⊎ (result ≡ Complaint.Failure Failure.OutOfMemory) }
{
    said(line_on(alloc, name, why.as_bytes()))
}

/// What is told of files of these names, whose parts are no whole search for this reason.
pub(crate) fn no_whole(
    alloc: Global,
    files: &[&str],
    parts: &[Part],
    fault: PartsFault,
) -> Complaint
    requires all { length parts.now ≡ length files.now }
    requires fault { IsFault fault parts.now }
    ensures { spec.AreNoWhole files.now parts.now result ⊎ (result ≡ Complaint.Failure Failure.OutOfMemory) }
{
    said(fault_line(alloc, files, parts, fault))
}
