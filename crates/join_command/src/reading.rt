//! The files of the parts of a search are read, one after the other, up to the first that has none.

ghost use Rattle.std.specs.Prelude.{◌≡◌, ◌⊎◌, IfErr, IfOk, length, true};
ghost use Rattle.file_commands.specs.Check.{IsLeftOver};
ghost use Rattle.file_commands.specs.Desks.{DeskState};
ghost use Rattle.join_command.specs.Reads.{AreLeft, AreRead, CannotBeRead, IsRefusedText, IsStopped, StopsReading, once_given};
ghost use Rattle.part_search.specs.part_file.Texts.{text_of};
ghost use Rattle.part_search.specs.part_file.Views.{part_view};

use crate::told::{error_words, refused};
use diagnostics::check_output::{Lines, unread_line};
use file_commands::complaint::Complaint;
use file_commands::desk::{Desk, ReadFault};
use file_commands::failure::Failure;
use part_search::part_file::{Part, read_part};
use std::alloc::Global;

/// A part has at most so many bytes: 1 GiB. A file that has more is refused.
pub const PART_BYTES: usize = 1 << 30;

/// The part that the text of a file of this name is.
fn part_in(alloc: Global, name: &str, text: &[u8]) -> Result<Part, Complaint>
    ensures part { IfOk result (λ part. text.now ≡ text_of (part_view part)) }
    ensures none { IfErr result (λ said. IsRefusedText name.now text.now said ⊎ (said ≡ Complaint.Failure Failure.OutOfMemory)) }
{
    if text.len() > PART_BYTES {
        return Err(refused(alloc, name, "longer than a part may be"));
    }
    match read_part(alloc, text) {
        Ok(part) => Ok(part),
        Err(error) => match error_words(error) {
            Some(why) => Err(refused(alloc, name, why)),
            None => Err(Complaint::Failure(Failure::OutOfMemory)),
        },
    }
}

/// What is told of a file of this name that can't be read.
fn unread(alloc: Global, name: &str) -> Complaint
    ensures { CannotBeRead name.now result ⊎ (result ≡ Complaint.Failure Failure.OutOfMemory) }
{
    match unread_line(alloc, name) {
        Ok(bytes) => Complaint::Explained(Failure::CannotRead, Lines { bytes }),
        Err(_) => Complaint::Failure(Failure::OutOfMemory),
    }
}

/// Reads the part that the file of this name has.
fn read_file<D: Desk>(alloc: Global, name: &str, desk: &mut D) -> Result<Part, Complaint>
    ensures read { IfOk result (λ part. D.state desk.new ≡ once_given name.now (text_of (part_view part)) (D.state desk.old)) }
    ensures stops { IfErr result (λ said. IsStopped name.now said (D.state desk.old) (D.state desk.new)
        ⊎ ((said ≡ Complaint.Failure Failure.OutOfMemory) × IsLeftOver true (D.state desk.old) (D.state desk.new))) }
{
    match desk.read_file(alloc, name, PART_BYTES) {
        Ok(text) => part_in(alloc, name, &text),
        Err(ReadFault::OutOfMemory) => Err(Complaint::Failure(Failure::OutOfMemory)),
        Err(ReadFault::CannotRead) => Err(unread(alloc, name)),
    }
}

/// Reads the parts that files of these names have. The error is what is to be told.
pub(crate) fn read_files<D: Desk>(
    alloc: Global,
    files: &[&str],
    desk: &mut D,
) -> Result<Vec<Part>, Complaint>
    ensures all { IfOk result (λ parts. length parts.items ≡ length files.now) }
    ensures read { IfOk result (λ parts. AreRead files.now parts.items (D.state desk.old) (D.state desk.new)) }
    ensures stops { IfErr result (λ said. StopsReading files.now said (D.state desk.old) (D.state desk.new)
        ⊎ ((said ≡ Complaint.Failure Failure.OutOfMemory) × AreLeft files.now (D.state desk.old) (D.state desk.new))) }
{
    let mut parts = Vec::new(alloc);
    for name in files {
        let part = match read_file(alloc, name, desk) {
            Ok(part) => part,
            Err(said) => return Err(said),
        };
        let Ok(()) = parts.push(part) else {
            return Err(Complaint::Failure(Failure::OutOfMemory));
        };
    }
    Ok(parts)
}
