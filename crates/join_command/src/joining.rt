//! The parts of a search are joined, and what is left of that is printed.

ghost use Rattle.std.specs.Prelude.{◌≡◌, ◌<◌, ◌⊎◌, IfErr, IfOk, length};
ghost use Rattle.file_commands.specs.FileWork.{verdict_status_of};
ghost use Rattle.file_search.specs.Work.{search_verdict_of};
ghost use Rattle.join_command.specs.Ends as spec;
ghost use Rattle.join_command.specs.Ends.{AreRefused, IsFoundIn, IsSourceOf, JoinEnds};

use crate::reading::read_files;
use crate::told::no_whole;
use cli::JoinRequest;
use file_commands::check::{Checked, print_checked, tell};
use file_commands::complaint::Complaint;
use file_commands::desk::Desk;
use file_commands::failure::{Failure, NO_REPORT, REPORTED, STOPPED};
use file_search::additions::{Additions, with_additions};
use litmus_step::Settings;
use part_search::part_file::{Part, check_parts};
use part_search::{joined_text, settings_of_part};
use run_output::Written;
use search_output::SearchText;
use std::alloc::{AllocError, Global};

/// The litmus file that was searched, its text, and what the search went by.
#[derive(Drop)]
struct Source {
    name: String,
    text: Vec<u8>,
    settings: Settings,
}

/// That of a part.
fn source_of(alloc: Global, part: &Part) -> Result<Source, AllocError>
    ensures { IfOk result (IsSourceOf part.now) }
{
    let settings = settings_of_part(alloc, part)?;
    let name = String::from_str(alloc, part.file.as_str())?;
    let text = Vec::from_slice(alloc, part.text.as_slice())?;
    Ok(Source {
        name,
        text,
        settings,
    })
}

/// What is printed beside what was found, where standard output is a terminal or not: as of a search.
fn additions_for(request: &JoinRequest<'_>, at_terminal: bool) -> Additions
    ensures { result ≡ spec.additions_of request.now at_terminal }
{
    Additions {
        places: request.located,
        deadlocks: true,
        settings: request.settings || at_terminal,
    }
}

/// The status of a search: whether there was a report, and whether it was stopped.
fn search_status(raced: bool, stopped: bool) -> u8
    ensures { result ≡ verdict_status_of (search_verdict_of raced stopped) }
{
    if raced {
        REPORTED
    } else if stopped {
        STOPPED
    } else {
        NO_REPORT
    }
}

/// What is printed of a search of this source, of which this is left.
fn printed(
    alloc: Global,
    additions: Additions,
    source: &Source,
    found: SearchText,
) -> Result<Checked, AllocError>
    ensures { IfOk result (λ checked. spec.IsPrintedOf additions source.now found checked) }
{
    let SearchText { written, stopped } = found;
    let Written {
        output,
        trace: _,
        raced,
    } = written;
    let name = source.name.as_str();
    let output = with_additions(
        alloc,
        additions,
        name,
        &source.text,
        &source.settings,
        output,
    )?;
    Ok(Checked {
        output,
        status: search_status(raced, stopped),
    })
}

/// Joins the parts that the files have, all of which were read. The error is what is to be told.
fn joined(
    alloc: Global,
    request: &JoinRequest<'_>,
    parts: Vec<Part>,
    at_terminal: bool,
) -> Result<Checked, Complaint>
    requires { length parts.items ≡ length request.now.files.items }
    ensures found { IfOk result (λ checked. IsFoundIn request.now parts.items checked.output.items checked.status) }
    ensures refused { IfErr result (λ said. AreRefused request.now parts.items said ⊎ (said ≡ Complaint.Failure Failure.OutOfMemory)) }
{
    if let Err(fault) = check_parts(&parts) {
        return Err(no_whole(alloc, request.files.as_slice(), &parts, fault));
    }
    let source = source_of(alloc, &parts[0])?;
    let found = match joined_text(alloc, parts) {
        Ok(found) => found,
        Err(error) => return Err(Complaint::Failure(Failure::Engine(error))),
    };
    let checked = printed(alloc, additions_for(request, at_terminal), &source, found)?;
    Ok(checked)
}

/// Reads the parts of a search that the files have, and prints what the whole search prints. The status that the
/// program ends with: that of the search, or 65 for files that aren't the parts of one, of which none is missing.
pub fn carry_join<D: Desk>(alloc: Global, request: &JoinRequest<'_>, desk: &mut D) -> u8
    ensures { JoinEnds request.now result (D.state desk.old) (D.state desk.new) }
{
    let parts = match read_files(alloc, request.files.as_slice(), desk) {
        Ok(parts) => parts,
        Err(said) => return tell(said, desk),
    };
    match joined(alloc, request, parts, desk.is_terminal()) {
        Ok(checked) => print_checked(&checked, desk),
        Err(said) => tell(said, desk),
    }
}
