//! Litmus files whose races are looked for one after the other: of each file what is said of it, and what a page tells.

ghost use Rattle.std.specs.Prelude.{◌≡◌, [], IfOk, OnErr, true};
ghost use Rattle.file_commands.specs.Check.{IsLeftOver};
ghost use Rattle.file_commands.specs.Desks.{DeskState};
ghost use Rattle.file_commands.specs.FileWork.{IsLostOf, once_given};
ghost use Rattle.file_commands.specs.FilesAsked.{asked_by};
ghost use Rattle.file_commands.specs.Settings.{AskSettings};
ghost use Rattle.page_command.specs.Looks.{AreLeft, AreLooked, IsFoundLooked, IsLooked};
ghost use Rattle.page_command.specs.Told.{IsRefusedTold};

use diagnostics::check_output::file_comes;
use file_commands::check::{Checked, tell_file};
use file_commands::desk::{Desk, ReadFault};
use file_commands::failure::NO_REPORT;
use file_commands::files::{
    FileSaid, FilesAsked, NO_COUNTS, counted, files_for, passed_over, refusal_in, refuse,
    refused_by, said_of, tell_lost, with_last_line,
};
use file_search::work::{RacesWork, TextFound, Work, from_now, worse};
use litmus_parse::FILE_BYTES;
use litmus_step::Settings;
use race_page::page_findings::{FileFound, file_findings};
use race_page::{FileEnd, FileTold};
use search_formats::Refusal;
use search_formats::refusal::refusal_text;
use std::alloc::{AllocError, Global};

/// What comes of a file: what is said of it, and what a page tells of it.
#[derive(Drop)]
pub(crate) struct Looked {
    said: FileSaid,
    told: FileTold,
}

/// What comes of all files: what is printed, with the status, and what a page tells of each.
#[derive(Drop)]
pub(crate) struct AllLooked {
    pub(crate) checked: Checked,
    pub(crate) files: Vec<FileTold>,
}

/// What a page tells of a file of this name that has no output.
fn refused_told(
    alloc: Global,
    name: &str,
    text: Vec<u8>,
    why: Refusal,
) -> Result<FileTold, AllocError>
    ensures { IfOk result (IsRefusedTold name.now text.items why) }
{
    let words = refusal_text(alloc, why)?;
    let name = Vec::from_slice(alloc, name.as_bytes())?;
    Ok(FileTold {
        name,
        text,
        end: FileEnd::Refused(words),
    })
}

/// What comes of a file of this name, of whose text this was found.
fn found_looked(
    alloc: Global,
    asked: &FilesAsked<'_>,
    name: &str,
    text: Vec<u8>,
    found: FileFound,
) -> Result<Looked, AllocError>
    ensures { IfOk result (IsFoundLooked (asked_by asked.now) name.now text.items found) }
{
    let own_name = Vec::from_slice(alloc, name.as_bytes())?;
    let found_text = TextFound {
        output: found.races.output,
        verdict: found.races.verdict,
    };
    let said = said_of(alloc, asked, name, found_text)?;
    Ok(Looked {
        said,
        told: FileTold {
            name: own_name,
            text,
            end: FileEnd::Found(found.told),
        },
    })
}

/// Looks into the text that a file of this name gave, which `check` reads or wasn't asked of.
fn look_into<D: Desk>(
    alloc: Global,
    asked: &FilesAsked<'_>,
    work: RacesWork,
    name: &str,
    text: Vec<u8>,
    settings: &Settings,
    desk: &mut D,
) -> Result<Looked, AllocError>
    requires asks { AskSettings asked.now.options settings.now }
    requires work { asked.now.work ≡ Work.Races work }
    ensures looked { (before : DeskState) → D.state desk.old ≡ once_given name.now text.items before → IfOk result (λ looked.
        IsLooked (asked_by asked.now) work.format settings.now name.now looked before (D.state desk.new)) }
    ensures untold { OnErr result (D.state desk.new ≡ D.state desk.old) }
{
    let progress = from_now(&*desk);
    match file_findings(
        alloc,
        name,
        &text,
        settings,
        work.wanted,
        work.format,
        &progress,
    ) {
        Ok(found) => found_looked(alloc, asked, name, text, found),
        Err(error) => {
            // There is room for what the page tells before anything is told.
            let told = refused_told(alloc, name, text, refusal_in(error))?;
            let said = refuse(alloc, asked.work, error, name, desk)?;
            Ok(Looked { said, told })
        }
    }
}

/// Looks into the text that a file of this name gave. Of several files one that isn't read as a program is told as
/// `check` tells it.
fn look_into_text<D: Desk>(
    alloc: Global,
    asked: &FilesAsked<'_>,
    work: RacesWork,
    name: &str,
    text: Vec<u8>,
    settings: &Settings,
    desk: &mut D,
) -> Result<Looked, AllocError>
    requires asks { AskSettings asked.now.options settings.now }
    requires work { asked.now.work ≡ Work.Races work }
    ensures looked { (before : DeskState) → D.state desk.old ≡ once_given name.now text.items before → IfOk result (λ looked.
        IsLooked (asked_by asked.now) work.format settings.now name.now looked before (D.state desk.new)) }
    ensures untold { OnErr result (D.state desk.new ≡ D.state desk.old) }
{
    let files = files_for(asked);
    if !files.several {
        return look_into(alloc, asked, work, name, text, settings, desk);
    }
    let comes = file_comes(alloc, files, name, &text, settings)?;
    let Some((status, why)) = refused_by(&comes) else {
        drop(comes);
        return look_into(alloc, asked, work, name, text, settings, desk);
    };
    let told = refused_told(alloc, name, text, why)?;
    let _end = tell_file(comes, desk);
    Ok(Looked {
        said: passed_over(Vec::new(alloc), status),
        told,
    })
}

/// Tells that a file of this name can't be read, and answers what comes of it.
fn look_at_lost<D: Desk>(
    alloc: Global,
    asked: &FilesAsked<'_>,
    name: &str,
    desk: &mut D,
) -> Result<Looked, AllocError>
    ensures lost { IfOk result (λ looked. IsLostOf (asked_by asked.now) name.now looked.said (D.state desk.old) (D.state desk.new)) }
    ensures told { IfOk result (λ looked. IsRefusedTold name.now [] Refusal.CannotRead looked.told) }
    ensures untold { OnErr result (D.state desk.new ≡ D.state desk.old) }
{
    let told = refused_told(alloc, name, Vec::new(alloc), Refusal::CannotRead)?;
    let said = tell_lost(alloc, asked, name, desk)?;
    Ok(Looked { said, told })
}

/// Looks into a file: what comes of it, once its read or its text was told where it is passed over.
fn look_into_file<D: Desk>(
    alloc: Global,
    asked: &FilesAsked<'_>,
    work: RacesWork,
    name: &str,
    settings: &Settings,
    desk: &mut D,
) -> Result<Looked, AllocError>
    requires asks { AskSettings asked.now.options settings.now }
    requires work { asked.now.work ≡ Work.Races work }
    ensures looked { IfOk result (λ looked. IsLooked (asked_by asked.now) work.format settings.now name.now looked
        (D.state desk.old) (D.state desk.new)) }
    ensures over { OnErr result (IsLeftOver true (D.state desk.old) (D.state desk.new)) }
{
    match desk.read_file(alloc, name, FILE_BYTES) {
        Ok(text) => look_into_text(alloc, asked, work, name, text, settings, desk),
        Err(ReadFault::OutOfMemory) => Err(AllocError),
        Err(ReadFault::CannotRead) => look_at_lost(alloc, asked, name, desk),
    }
}

/// Looks into file after file: what comes of them all.
pub(crate) fn look_into_files<D: Desk>(
    alloc: Global,
    asked: &FilesAsked<'_>,
    work: RacesWork,
    settings: &Settings,
    desk: &mut D,
) -> Result<AllLooked, AllocError>
    requires asks { AskSettings asked.now.options settings.now }
    requires work { asked.now.work ≡ Work.Races work }
    ensures looked { IfOk result (λ all. AreLooked (asked_by asked.now) work.format settings.now all
        (D.state desk.old) (D.state desk.new)) }
    ensures left { OnErr result (AreLeft (asked_by asked.now) (D.state desk.old) (D.state desk.new)) }
{
    let mut output = Vec::new(alloc);
    let mut files: Vec<FileTold> = Vec::new(alloc);
    let mut counts = NO_COUNTS;
    let mut status = NO_REPORT;
    for name in asked.files {
        let looked = look_into_file(alloc, asked, work, name, settings, desk)?;
        output.extend_from_slice(&looked.said.text)?;
        counts = counted(counts, looked.said.verdict);
        status = worse(asked.work, status, looked.said.status);
        files.push(looked.told)?;
    }
    let output = with_last_line(alloc, asked, output, counts)?;
    Ok(AllLooked {
        checked: Checked { output, status },
        files,
    })
}
