//! The page that `races` writes, and how it ends.

ghost use Rattle.std.specs.Prelude.{◌≡◌, ◌⊎◌, IfOk, string_bytes};
ghost use Rattle.cli.specs.Bounds.{KeepsRacesBounds};
ghost use Rattle.file_commands.specs.Check.{IsOutOfMemory};
ghost use Rattle.file_commands.specs.FilesAsked.{asked_by};
ghost use Rattle.file_commands.specs.Races.{asked_of_races, format_of};
ghost use Rattle.file_commands.specs.Settings.{AskSettings};
ghost use Rattle.page_command.specs.Ends.{AllRacesEnd, IsPageWritten, IsWritten, PageEnds};
ghost use Rattle.page_command.specs.Told as spec;
ghost use Rattle.page_command.specs.Told.{IsPageText};

use crate::looks::{AllLooked, look_into_files};
use cli::RacesRequest;
use cli::version::VERSION;
use file_commands::check::{Checked, print_checked, tell};
use file_commands::complaint::Complaint;
use file_commands::desk::Desk;
use file_commands::failure::Failure;
use file_commands::files::{FilesAsked, carry_races, races_work};
use file_commands::settings::settings_for;
use file_search::work::{RacesWork, Work};
use litmus_step::Settings;
use race_page::{FileTold, Page, page_bytes};
use std::alloc::{AllocError, Global};
use std::thread::Threads;

/// The program that writes the page: its name and its version.
fn program_words(alloc: Global) -> Result<String, AllocError>
    ensures { IfOk result (λ words. string_bytes words ≡ spec.program_words) }
{
    format!(in alloc; "kcsan_litmus {VERSION}")
}

/// The page that tells this of files, whose races were looked for under these settings.
fn page_of(alloc: Global, settings: &Settings, files: &[FileTold]) -> Result<Vec<u8>, AllocError>
    ensures { IfOk result (λ bytes. IsPageText settings.now files.now bytes.items) }
{
    let program = program_words(alloc)?;
    let page = Page {
        files,
        settings,
        program: &program,
    };
    let bytes = page_bytes(alloc, &page)?;
    Ok(bytes)
}

/// Writes the page to the file of this path, and then prints what is printed of the files. The status that the program
/// ends with.
fn write_page<D: Desk>(path: &str, page: &[u8], checked: &Checked, desk: &mut D) -> u8
    ensures { IsWritten path.now page.now checked.now.output.items checked.now.status result (D.state desk.old) (D.state desk.new) }
{
    // The page comes first: where its file can't be written, that is known before standard output has anything.
    match desk.write_file(path, page) {
        Ok(()) => print_checked(checked, desk),
        Err(_) => tell(Complaint::Failure(Failure::CannotWrite), desk),
    }
}

/// Writes the page that tells what came of all files, and then prints what is printed of them. The status that the
/// program ends with.
fn write_all<D: Desk>(
    alloc: Global,
    settings: &Settings,
    path: &str,
    all: &AllLooked,
    desk: &mut D,
) -> u8
    ensures { IsPageWritten settings.now path.now all.now result (D.state desk.old) (D.state desk.new)
        ⊎ IsOutOfMemory result (D.state desk.old) (D.state desk.new) }
{
    match page_of(alloc, settings, &all.files) {
        Ok(page) => write_page(path, &page, &all.checked, desk),
        Err(_) => tell(Complaint::Failure(Failure::OutOfMemory), desk),
    }
}

/// Looks into the files that are asked for, writes the page, and prints. The status that the program ends with.
fn look_and_write<D: Desk>(
    alloc: Global,
    asked: &FilesAsked<'_>,
    work: RacesWork,
    settings: &Settings,
    path: &str,
    desk: &mut D,
) -> u8
    requires asks { AskSettings asked.now.options settings.now }
    requires work { asked.now.work ≡ Work.Races work }
    ensures { PageEnds (asked_by asked.now) work.format path.now result (D.state desk.old) (D.state desk.new) }
{
    match look_into_files(alloc, asked, work, settings, desk) {
        Ok(all) => write_all(alloc, settings, path, &all, desk),
        Err(_) => tell(Complaint::Failure(Failure::OutOfMemory), desk),
    }
}

/// Looks for the races of the files that are asked for, one file after the other, writes a page of them to the file of
/// this path, and then prints what `races` prints. The status that the program ends with.
fn carry_page<D: Desk>(alloc: Global, request: &RacesRequest<'_>, path: &str, desk: &mut D) -> u8
    requires { KeepsRacesBounds request.now }
    ensures { PageEnds (asked_of_races request.now) (format_of request.now.format) path.now result (D.state desk.old) (D.state desk.new) }
{
    let work = races_work(request);
    let asked = FilesAsked {
        files: request.files.as_slice(),
        options: request.options,
        work: Work::Races(work),
        jobs: request.jobs,
    };
    match settings_for(alloc, &asked.options) {
        Ok(settings) => look_and_write(alloc, &asked, work, &settings, path, desk),
        Err(failure) => tell(Complaint::Failure(failure), desk),
    }
}

/// Looks for the races of the files that are asked for, and writes a page of them too, where that is wanted. The status
/// that the program ends with.
pub fn carry_all_races<R: Threads + Sync, D: Desk + Sync>(
    rt: &R,
    alloc: Global,
    request: &RacesRequest<'_>,
    desk: &mut D,
) -> u8
    requires { KeepsRacesBounds request.now }
    ensures { AllRacesEnd request.now result (D.state desk.old) (D.state desk.new) }
{
    match request.html {
        None => carry_races(rt, alloc, request, desk),
        Some(path) => carry_page(alloc, request, path, desk),
    }
}
