//! The check of litmus files: nothing is run; what is said of each file is printed, or told.

ghost use Rattle.std.specs.Prelude.{◌≡◌, ◌⊎◌, ◌≤◌, ◌++◌, ℕ, List, Option, IfErr, IfOk, OnErr, OnOk, false, true};
ghost use Rattle.diagnostics.specs.check_output.Diagnosis.{Diagnosis, Gave, IsFound, Lost, name_of, text_of};
ghost use Rattle.diagnostics.specs.check_output.Output.{IsMadeOf};
ghost use Rattle.diagnostics.specs.declared.check_output.file.Files.{Files};
ghost use Rattle.cli.specs.Bounds.{KeepsCheckBounds};
ghost use Rattle.file_commands.specs.Check as spec;
ghost use Rattle.file_commands.specs.Check.{AreChecked, AreLeft, AreListsAtFault, CheckAsksFor, CheckEnds, IsEndOf, IsGoneOver, IsLeftOver, IsPrinted, IsToldOf, IsWarned};
ghost use Rattle.file_commands.specs.Check.{options_of};
ghost use Rattle.file_commands.specs.Desks.{once_told};
ghost use Rattle.file_commands.specs.Statuses.{complaint_status_of};
ghost use Rattle.file_commands.specs.StandardError.{heard};
ghost use Rattle.file_commands.specs.declared.complaint.Complaint.{Complaint};
ghost use Rattle.prepared_program.specs.declared.program_sites.settings.Settings.{Settings};
ghost use Rattle.diagnostics.specs.text_check.Check.{IsCheckOf};
ghost use Rattle.diagnostics.specs.declared.text_check.checked.Check.{Check};

use crate::complaint::Complaint;
use crate::desk::{Desk, ReadFault};
use crate::failure::{Failure, NO_REPORT};
use crate::settings::settings;
use cli::{CheckRequest, RunOptions};
use diagnostics::check_output::{Comes, Files, Lines, file_comes, last_line, unread_line};
use diagnostics::option_diagnostics::{place_fault, schedule_fault};
use litmus_parse::FILE_BYTES;
use litmus_step::Settings;
use prepared_program::place_list::parse_places;
use prepared_program::step_schedule::Schedule;
use run_output::EngineError;
use std::alloc::{AllocError, Global};

/// What came of a file.
#[derive(Clone, Copy)]
pub enum FileEnd {
    /// It is read, and was warned of where there is something to warn of.
    Read,
    /// That it isn't was told, and comes with this status.
    Told(u8),
}

/// What came of all files: what is printed, and the status.
#[derive(Drop)]
pub struct Checked {
    pub output: Vec<u8>,
    pub status: u8,
}

/// The options of `step`, as they are where `check` hasn't them.
fn step_options<'a>(request: &CheckRequest<'a>) -> RunOptions<'a>
    ensures { result ≡ options_of request.now }
{
    RunOptions {
        places: request.places,
        trace: None,
        slots: request.slots,
        skip: 0,
        randomize: false,
        seed: 1,
        value_change_only: true,
        plain_writes_atomic: true,
        layout: request.layout,
        turns: 1_000_000,
        located: false,
        unknown_origin: true,
    }
}

/// What is told of a list that doesn't read, with the line on its first item that doesn't, if there is one.
fn list_complaint(failure: Failure, line: Option<Vec<u8>>) -> Complaint
    ensures { result ≡ spec.list_complaint failure line }
{
    match line {
        Some(bytes) => Complaint::Explained(failure, Lines { bytes }),
        None => Complaint::Failure(failure),
    }
}

/// The settings that are asked for, where the schedule and the place list read; else what is told of that.
fn settings_asked(alloc: Global, request: &CheckRequest<'_>) -> Result<Settings, Complaint>
    requires { KeepsCheckBounds request.now }
    ensures asks { IfOk result (CheckAsksFor request.now) }
    ensures at_fault { IfErr result (λ said. AreListsAtFault request.now said ⊎ (said ≡ Complaint.Failure Failure.OutOfMemory)) }
{
    if Schedule::parse(alloc, request.schedule)?.is_none() {
        let line = schedule_fault(alloc, request.schedule)?;
        return Err(list_complaint(Failure::BadSchedule, line));
    }
    match parse_places(alloc, request.places)? {
        Some(places) => Ok(settings(&step_options(request), places)),
        None => {
            let line = place_fault(alloc, request.places)?;
            Err(list_complaint(Failure::BadPlace, line))
        }
    }
}

/// Tells standard error, and answers the status that this comes with.
pub fn tell<D: Desk>(complaint: Complaint, desk: &mut D) -> u8
    ensures status { result ≡ complaint_status_of complaint }
    ensures told { D.state desk.new ≡ once_told complaint (D.state desk.old) }
{
    let status = complaint.status();
    desk.complain(complaint);
    status
}

/// Tells standard error of the warnings on a file that is read, if there are any.
fn warn<D: Desk>(warnings: Vec<u8>, desk: &mut D)
    ensures told { IsWarned warnings.items (D.state desk.old).told (D.state desk.new).told }
    ensures rest { D.state desk.new ≡ record (D.state desk.old) { told = (D.state desk.new).told } }
{
    if !warnings.is_empty() {
        desk.complain(Complaint::Warned(Lines { bytes: warnings }));
    }
}

/// What came of a file that gave a text: its warnings are told, or, where it isn't read, that is.
pub fn tell_file<D: Desk>(comes: Comes, desk: &mut D) -> FileEnd
    ensures ends { (files : Files) (settings : Settings) (name text : List ℕ) (check : Check) → IsMadeOf files name check comes
        → IsCheckOf name text settings check → IsEndOf (Gave name text check) result }
    ensures told { (files : Files) (name text : List ℕ) (check : Check) → IsMadeOf files name check comes
        → IsToldOf files (Gave name text check) (D.state desk.old).told (D.state desk.new).told }
    ensures rest { D.state desk.new ≡ record (D.state desk.old) { told = (D.state desk.new).told } }
{
    match comes {
        Comes::Read { warnings, .. } => {
            warn(warnings, desk);
            FileEnd::Read
        }
        Comes::Misplaced(bytes) => {
            let complaint = Complaint::Explained(Failure::BadPlace, Lines { bytes });
            FileEnd::Told(tell(complaint, desk))
        }
        Comes::Refused(error, bytes) => {
            let failure = Failure::Engine(EngineError::Text(error));
            FileEnd::Told(tell(Complaint::Explained(failure, Lines { bytes }), desk))
        }
    }
}

/// What is told of a file that can't be read.
pub(crate) fn unread_complaint(
    alloc: Global,
    files: Files,
    name: &str,
) -> Result<Complaint, AllocError>
    ensures status { IfOk result (λ said. complaint_status_of said ≡ 66) }
    ensures told { (before : Option (List Complaint)) → IfOk result (λ said. IsToldOf files (Lost name.now) before (heard before said)) }
    ensures several { OnErr result (files.several ≡ true) }
{
    if !files.several {
        return Ok(Complaint::Failure(Failure::CannotRead));
    }
    let bytes = unread_line(alloc, name)?;
    Ok(Complaint::Explained(Failure::CannotRead, Lines { bytes }))
}

/// Adds what is printed of a file to the output.
fn print_file(comes: &Comes, output: &mut Vec<u8>) -> Result<(), AllocError>
    ensures { (files : Files) (name text : List ℕ) (check : Check) → IsMadeOf files name check comes.now
        → OnOk result (output.new.items ≡ output.old.items ++ text_of files (Gave name text check)) }
{
    match comes {
        Comes::Read { text, .. } => output.extend_from_slice(text),
        Comes::Misplaced(_) | Comes::Refused(_, _) => Ok(()),
    }
}

/// Checks a file: the status that it would have alone, once its warnings were told or that it isn't read, and the
/// output with what is printed of it.
fn check_file<D: Desk>(
    alloc: Global,
    files: Files,
    name: &str,
    settings: &Settings,
    output: &mut Vec<u8>,
    desk: &mut D,
) -> Result<FileEnd, AllocError>
    requires { (3 ≤ settings.now.slots) × (settings.now.slots ≤ 1024) }
    ensures found { IfOk result (λ end. (found : Diagnosis) × (name_of found ≡ name.now) × IsFound settings.now found
        × IsEndOf found end × (output.new.items ≡ output.old.items ++ text_of files found)
        × IsGoneOver files found (D.state desk.old) (D.state desk.new)) }
    ensures over { OnErr result (IsLeftOver files.several (D.state desk.old) (D.state desk.new)) }
{
    match desk.read_file(alloc, name, FILE_BYTES) {
        Ok(text) => {
            let comes = file_comes(alloc, files, name, &text, settings)?;
            // It is in the output before anything is told, so that no want of memory is told after its warnings.
            print_file(&comes, output)?;
            Ok(tell_file(comes, desk))
        }
        Err(ReadFault::OutOfMemory) => Err(AllocError),
        Err(ReadFault::CannotRead) => {
            let complaint = unread_complaint(alloc, files, name)?;
            Ok(FileEnd::Told(tell(complaint, desk)))
        }
    }
}

/// Checks file after file: what is printed of them all, and the greatest of their statuses.
fn check_files<D: Desk>(
    alloc: Global,
    request: &CheckRequest<'_>,
    settings: &Settings,
    desk: &mut D,
) -> Result<Checked, AllocError>
    requires bounds { KeepsCheckBounds request.now }
    requires asks { CheckAsksFor request.now settings.now }
    ensures checked { IfOk result (λ checked. AreChecked request.now checked.output.items checked.status
        (D.state desk.old) (D.state desk.new)) }
    ensures left { OnErr result (AreLeft request.now (D.state desk.old) (D.state desk.new)) }
{
    let files = Files {
        several: request.files.len() > 1,
        print: request.print,
    };
    let mut output = Vec::new(alloc);
    let mut read = 0usize;
    let mut status = NO_REPORT;
    for name in &request.files {
        match check_file(alloc, files, name, settings, &mut output, desk)? {
            FileEnd::Read => read += 1,
            FileEnd::Told(own) => status = status.max(own),
        }
    }
    if files.several {
        let line = last_line(alloc, read, request.files.len())?;
        output.extend_from_slice(&line)?;
    }
    Ok(Checked { output, status })
}

/// Prints what is printed of the files, and answers the status that the program ends with.
pub fn print_checked<D: Desk>(checked: &Checked, desk: &mut D) -> u8
    ensures { IsPrinted checked.now.output.items checked.now.status result (D.state desk.old) (D.state desk.new) }
{
    // Of one file that isn't read there is nothing to print, and no failure to be had of that.
    if checked.output.is_empty() {
        return checked.status;
    }
    match desk.print(&checked.output) {
        Ok(()) => checked.status,
        Err(_) => tell(Complaint::Failure(Failure::CannotWrite), desk),
    }
}

/// Checks the files that are asked for, and answers the status that the program ends with: the greatest of those that
/// they would have alone.
pub fn carry_check<D: Desk>(alloc: Global, request: &CheckRequest<'_>, desk: &mut D) -> u8
    requires { KeepsCheckBounds request.now }
    ensures { CheckEnds request.now result (D.state desk.old) (D.state desk.new) }
{
    let settings = match settings_asked(alloc, request) {
        Ok(settings) => settings,
        Err(complaint) => return tell(complaint, desk),
    };
    match check_files(alloc, request, &settings, desk) {
        Ok(checked) => print_checked(&checked, desk),
        Err(_) => tell(Complaint::Failure(Failure::OutOfMemory), desk),
    }
}
