//! Several litmus files that threads look into side by side: all are read first, and what is said of them is told and
//! printed in their order, once all threads are done. So the same is printed and told with any number of threads.

ghost use Rattle.std.specs.Prelude.{◌≡◌, ◌<◌, ℕ, All, IfOk, IfSome, List, OnErr, Option, Some, length, slice_get};
ghost use Rattle.std.specs.Borrow.{Bor};
ghost use Rattle.cli.specs.Bounds.{KeepsBounds};
ghost use Rattle.file_commands.specs.Desks.{DeskState};
ghost use Rattle.file_commands.specs.FileWork.{AreLeftTogether, AreSearched, AreSeveral, Asked, FilesEnd, IsTextRead};
ghost use Rattle.file_commands.specs.FilesAsked.{asked_by};
ghost use Rattle.file_commands.specs.Settings.{AskSettings};
ghost use Rattle.file_commands.specs.Together.{AllAreRead, AreEndsOf, FirstAreRead, IsEndAt, IsEndOfText, IsSaidOnce, IsUnread, text_of, texts_of};
ghost use Rattle.prepared_program.specs.declared.program_sites.settings.Settings as terms;

use crate::check::{Checked, print_checked, tell, tell_file};
use crate::complaint::Complaint;
use crate::desk::{Desk, ReadFault};
use crate::failure::{Failure, NO_REPORT, OUT_OF_MEMORY};
use crate::files::{
    FileSaid, FilesAsked, NO_COUNTS, counted, files_for, passed_over, refuse, refused_by, said_of,
    tell_lost, with_last_line,
};
use crate::settings::settings_for;
use diagnostics::check_output::{Comes, file_comes};
use file_search::work::{TextFound, begun, find, unsearched, worse};
use litmus_parse::FILE_BYTES;
use litmus_step::Settings;
use run_output::EngineError;
use search_formats::Refusal;
use search_output::SearchProgress;
use std::alloc::{AllocError, Global};
use std::cmp::Reverse;
use std::sync::atomic::{AtomicUsize, Ordering};
use std::thread;
use std::thread::Threads;

/// A text that isn't read as a program: what is to be told of it, its status, and why it isn't.
#[derive(Drop)]
struct UnreadText {
    comes: Comes,
    status: u8,
    why: Refusal,
}

/// What comes of the text of a file, of which nothing was told so far.
#[derive(Drop)]
enum TextEnd {
    /// It was looked into, and this was found.
    Found(TextFound),
    /// It isn't read as a program.
    Unread(UnreadText),
    /// It has no output, for this reason.
    Refused(EngineError),
}

/// What comes of the text of the file that has this place among those that are asked for.
#[derive(Drop)]
struct NumberedEnd {
    at: usize,
    end: TextEnd,
}

/// The text that a file of this name gives, or none where it can't be read.
fn read_text<D: Desk>(
    alloc: Global,
    name: &str,
    desk: &mut D,
) -> Result<Option<Vec<u8>>, AllocError>
    ensures read { IfOk result (λ text. IsTextRead name.now (text_of text) (D.state desk.old) (D.state desk.new)) }
    ensures unread { OnErr result (D.state desk.new ≡ D.state desk.old) }
{
    match desk.read_file(alloc, name, FILE_BYTES) {
        Ok(text) => Ok(Some(text)),
        Err(ReadFault::OutOfMemory) => Err(AllocError),
        Err(ReadFault::CannotRead) => Ok(None),
    }
}

/// Reads file after file: the texts that they give.
fn read_files<D: Desk>(
    alloc: Global,
    asked: &FilesAsked<'_>,
    desk: &mut D,
) -> Result<Vec<Option<Vec<u8>>>, AllocError>
    ensures read { IfOk result (λ texts. AllAreRead (asked_by asked.now) (texts_of texts.items) (D.state desk.old) (D.state desk.new)) }
    ensures left { OnErr result (FirstAreRead (asked_by asked.now) (D.state desk.old) (D.state desk.new)) }
{
    let mut texts = Vec::new(alloc);
    for name in asked.files {
        let text = read_text(alloc, name, desk)?;
        texts.push(text)?;
    }
    Ok(texts)
}

/// What comes of the text that a file of this name gave. Want of memory is no end.
fn end_of<P: SearchProgress>(
    alloc: Global,
    asked: &FilesAsked<'_>,
    name: &str,
    text: &[u8],
    settings: &Settings,
    progress: &P,
) -> Result<TextEnd, AllocError>
    requires { AskSettings asked.now.options settings.now }
    ensures { IfOk result (IsEndOfText (asked_by asked.now) settings.now name.now text.now) }
{
    let comes = file_comes(alloc, files_for(asked), name, text, settings)?;
    if let Some((status, why)) = refused_by(&comes) {
        return Ok(TextEnd::Unread(UnreadText { comes, status, why }));
    }
    match find(alloc, asked.work, name, text, settings, progress) {
        Ok(found) => Ok(TextEnd::Found(found)),
        Err(error) => {
            if Failure::Engine(error).status() == OUT_OF_MEMORY {
                return Err(AllocError);
            }
            Ok(TextEnd::Refused(error))
        }
    }
}

/// Looks into text after text, each time into the next that no thread has taken: what comes of these.
fn ends_in_turn<P: SearchProgress>(
    alloc: Global,
    asked: &FilesAsked<'_>,
    texts: &[Option<Vec<u8>>],
    settings: &Settings,
    next: &AtomicUsize,
    progress: &P,
) -> Result<Vec<NumberedEnd>, AllocError>
    requires asks { AskSettings asked.now.options settings.now }
    requires texts { length texts.now ≡ length asked.now.files.now }
    ensures { IfOk result (λ ends. AreEndsOf (asked_by asked.now) settings.now (texts_of texts.now) ends.items) }
{
    let mut ends = Vec::new(alloc);
    for _ in 0..texts.len() {
        let at = next.fetch_add(1, Ordering::SeqCst);
        if at >= texts.len() {
            break;
        }
        if let Some(text) = &texts[at] {
            let end = end_of(alloc, asked, asked.files[at], text, settings, progress)?;
            ends.push(NumberedEnd { at, end })?;
        }
    }
    Ok(ends)
}

/// What comes of the texts that one thread takes. Where it has no memory, the other threads take none any more.
fn ends_of_thread<P: SearchProgress>(
    alloc: Global,
    asked: &FilesAsked<'_>,
    texts: &[Option<Vec<u8>>],
    settings: &Settings,
    next: &AtomicUsize,
    progress: &P,
) -> Result<Vec<NumberedEnd>, AllocError>
    requires asks { AskSettings asked.now.options settings.now }
    requires texts { length texts.now ≡ length asked.now.files.now }
    ensures { IfOk result (λ ends. AreEndsOf (asked_by asked.now) settings.now (texts_of texts.now) ends.items) }
{
    let ends = ends_in_turn(alloc, asked, texts, settings, next, progress);
    if ends.is_err() {
        next.store(texts.len(), Ordering::SeqCst);
    }
    ends
}

/// The ends that all threads give.
fn joined(
    alloc: Global,
    lots: Vec<Result<Vec<NumberedEnd>, AllocError>>,
) -> Result<Vec<NumberedEnd>, AllocError>
    ensures { (asked : Asked) (settings : terms.Settings) (texts : List (Option (List ℕ)))
        → All (λ lot. IfOk lot (λ ends. AreEndsOf asked settings texts ends.items)) lots.items
        → IfOk result (λ ends. AreEndsOf asked settings texts ends.items) }
{
    let mut all = Vec::new(alloc);
    for lot in lots {
        let mut ends = lot?;
        all.append(&mut ends)?;
    }
    Ok(all)
}

/// What comes of the texts, which as many threads share as are asked for: the last file first.
fn ends_by_threads<R: Threads + Sync, P: SearchProgress + Sync>(
    rt: &R,
    alloc: Global,
    asked: &FilesAsked<'_>,
    texts: &[Option<Vec<u8>>],
    settings: &Settings,
    progress: &P,
) -> Result<Vec<NumberedEnd>, AllocError>
    requires asks { AskSettings asked.now.options settings.now }
    requires texts { length texts.now ≡ length asked.now.files.now }
    ensures { IfOk result (λ ends. AreEndsOf (asked_by asked.now) settings.now (texts_of texts.now) ends.items) }
{
    // Files take very different times, so no thread is given its files beforehand.
    let next = AtomicUsize::new(0);
    let threads = asked.jobs.min(texts.len() as u64) as usize;
    let look = |_thread: usize| ends_of_thread(alloc, asked, texts, settings, &next, progress);
    let mut ends = joined(alloc, thread::map_indices(rt, alloc, threads, &look)?)?;
    ends.sort_unstable_by_key(|numbered| Reverse(numbered.at));
    Ok(ends)
}

/// Takes out the last of these ends, if it is that of the file at this place.
fn take_end(ends: &mut Vec<NumberedEnd>, at: usize) -> Option<TextEnd>
    ensures rest { (asked : Asked) (settings : terms.Settings) (texts : List (Option (List ℕ)))
        → AreEndsOf asked settings texts ends.old.items → AreEndsOf asked settings texts ends.new.items }
    ensures end { (asked : Asked) (settings : terms.Settings) (texts : List (Option (List ℕ)))
        → AreEndsOf asked settings texts ends.old.items
        → IfSome result (λ end. IsEndAt asked settings texts (record { at = at; end = end })) }
{
    match ends.last() {
        Some(last) if last.at == at => {}
        _ => return None,
    }
    match ends.pop() {
        Some(numbered) => Some(numbered.end),
        None => None,
    }
}

/// What comes of the text that the file of this name and place gave. It stands last where a thread looked into it.
fn end_at<P: SearchProgress>(
    alloc: Global,
    asked: &FilesAsked<'_>,
    at: usize,
    name: &str,
    text: &[u8],
    ends: &mut Vec<NumberedEnd>,
    settings: &Settings,
    progress: &P,
) -> Result<TextEnd, AllocError>
    requires asks { AskSettings asked.now.options settings.now }
    ensures rest { (texts : List (Option (List ℕ))) → AreEndsOf (asked_by asked.now) settings.now texts ends.old.items
        → AreEndsOf (asked_by asked.now) settings.now texts ends.new.items }
    ensures end { (texts : List (Option (List ℕ))) (given : Bor (List ℕ)) → AreEndsOf (asked_by asked.now) settings.now texts ends.old.items
        → slice_get asked.now.files.now at ≡ Some given → given.now ≡ name.now → slice_get texts at ≡ Some (Some text.now)
        → IfOk result (IsEndOfText (asked_by asked.now) settings.now name.now text.now) }
{
    match take_end(ends, at) {
        Some(end) => Ok(end),
        // Each place was taken by a thread, though no clause says so: a counter that threads share may answer anything.
        None => end_of(alloc, asked, name, text, settings, progress),
    }
}

/// Tells of a text that isn't read as a program, as `check` tells it, and answers what is said of it.
fn tell_unread_text<D: Desk>(
    alloc: Global,
    asked: &FilesAsked<'_>,
    name: &str,
    unread: UnreadText,
    desk: &mut D,
) -> Result<FileSaid, AllocError>
    requires { AreSeveral (asked_by asked.now) }
    ensures said { (settings : terms.Settings) (text : List ℕ) → IsUnread (asked_by asked.now) settings name.now text unread
        → IfOk result (λ said. IsSaidOnce (asked_by asked.now) settings name.now (Some text) said (D.state desk.old) (D.state desk.new)) }
    ensures rest { D.state desk.new ≡ record (D.state desk.old) { told = (D.state desk.new).told } }
    ensures untold { OnErr result (D.state desk.new ≡ D.state desk.old) }
{
    let text = unsearched(alloc, asked.work, name, unread.status, unread.why)?;
    let status = unread.status;
    let _end = tell_file(unread.comes, desk);
    Ok(passed_over(text, status))
}

/// Tells what comes of the text of a file of this name, and answers what is said of it.
fn tell_end<D: Desk>(
    alloc: Global,
    asked: &FilesAsked<'_>,
    name: &str,
    end: TextEnd,
    desk: &mut D,
) -> Result<FileSaid, AllocError>
    requires { AreSeveral (asked_by asked.now) }
    ensures said { (settings : terms.Settings) (text : List ℕ) → IsEndOfText (asked_by asked.now) settings name.now text end
        → IfOk result (λ said. IsSaidOnce (asked_by asked.now) settings name.now (Some text) said (D.state desk.old) (D.state desk.new)) }
    ensures rest { D.state desk.new ≡ record (D.state desk.old) { told = (D.state desk.new).told } }
    ensures untold { OnErr result (D.state desk.new ≡ D.state desk.old) }
{
    match end {
        TextEnd::Found(found) => said_of(alloc, asked, name, found),
        TextEnd::Unread(unread) => tell_unread_text(alloc, asked, name, unread, desk),
        TextEnd::Refused(error) => refuse(alloc, asked.work, error, name, desk),
    }
}

/// Tells what comes of the file at this place, and answers what is said of it.
fn tell_at<D: Desk>(
    alloc: Global,
    asked: &FilesAsked<'_>,
    at: usize,
    texts: &[Option<Vec<u8>>],
    ends: &mut Vec<NumberedEnd>,
    settings: &Settings,
    desk: &mut D,
) -> Result<FileSaid, AllocError>
    requires asks { AskSettings asked.now.options settings.now }
    requires several { AreSeveral (asked_by asked.now) }
    requires texts { length texts.now ≡ length asked.now.files.now }
    requires at { at < length texts.now }
    requires ends { AreEndsOf (asked_by asked.now) settings.now (texts_of texts.now) ends.old.items }
    ensures ends { AreEndsOf (asked_by asked.now) settings.now (texts_of texts.now) ends.new.items }
    ensures said { (given : Bor (List ℕ)) (text : Option (List ℕ)) → slice_get asked.now.files.now at ≡ Some given
        → slice_get (texts_of texts.now) at ≡ Some text
        → IfOk result (λ said. IsSaidOnce (asked_by asked.now) settings.now given.now text said (D.state desk.old) (D.state desk.new)) }
    ensures rest { D.state desk.new ≡ record (D.state desk.old) { told = (D.state desk.new).told } }
    ensures untold { OnErr result (D.state desk.new ≡ D.state desk.old) }
{
    let name = asked.files[at];
    match &texts[at] {
        Some(text) => {
            let end = end_at(alloc, asked, at, name, text, ends, settings, &*desk)?;
            tell_end(alloc, asked, name, end, desk)
        }
        None => tell_lost(alloc, asked, name, desk),
    }
}

/// Tells what comes of file after file: what is printed of them all, and the status.
fn tell_files<D: Desk>(
    alloc: Global,
    asked: &FilesAsked<'_>,
    texts: &[Option<Vec<u8>>],
    mut ends: Vec<NumberedEnd>,
    settings: &Settings,
    desk: &mut D,
) -> Result<Checked, AllocError>
    requires asks { AskSettings asked.now.options settings.now }
    requires several { AreSeveral (asked_by asked.now) }
    requires jobs { 1 < asked.now.jobs }
    requires texts { length texts.now ≡ length asked.now.files.now }
    requires ends { AreEndsOf (asked_by asked.now) settings.now (texts_of texts.now) ends.items }
    ensures searched { (before : DeskState) → AllAreRead (asked_by asked.now) (texts_of texts.now) before (D.state desk.old)
        → IfOk result (λ checked. AreSearched (asked_by asked.now) checked.output.items checked.status before (D.state desk.new)) }
    ensures left { (before : DeskState) → AllAreRead (asked_by asked.now) (texts_of texts.now) before (D.state desk.old)
        → OnErr result (AreLeftTogether (asked_by asked.now) before (D.state desk.new)) }
{
    let mut output = begun(alloc, asked.work)?;
    let mut counts = NO_COUNTS;
    let mut status = NO_REPORT;
    for at in 0..texts.len() {
        let said = tell_at(alloc, asked, at, texts, &mut ends, settings, desk)?;
        output.extend_from_slice(&said.text)?;
        counts = counted(counts, said.verdict);
        status = worse(asked.work, status, said.status);
    }
    let output = with_last_line(alloc, asked, output, counts)?;
    Ok(Checked { output, status })
}

/// Looks into the files that are asked for, by as many threads as are asked for: what is printed of them all, and the
/// status.
fn look_together<R: Threads + Sync, D: Desk + Sync>(
    rt: &R,
    alloc: Global,
    asked: &FilesAsked<'_>,
    settings: &Settings,
    desk: &mut D,
) -> Result<Checked, AllocError>
    requires asks { AskSettings asked.now.options settings.now }
    requires several { AreSeveral (asked_by asked.now) }
    requires jobs { 1 < asked.now.jobs }
    ensures searched { IfOk result (λ checked. AreSearched (asked_by asked.now) checked.output.items checked.status
        (D.state desk.old) (D.state desk.new)) }
    ensures left { OnErr result (AreLeftTogether (asked_by asked.now) (D.state desk.old) (D.state desk.new)) }
{
    let texts = read_files(alloc, asked, desk)?;
    let ends = ends_by_threads(rt, alloc, asked, &texts, settings, &*desk)?;
    tell_files(alloc, asked, &texts, ends, settings, desk)
}

/// Goes over the files that are asked for, of which there are several, by several threads, and answers the status that
/// the program ends with.
pub(crate) fn carry_together<R: Threads + Sync, D: Desk + Sync>(
    rt: &R,
    alloc: Global,
    asked: &FilesAsked<'_>,
    desk: &mut D,
) -> u8
    requires bounds { KeepsBounds asked.now.options }
    requires several { AreSeveral (asked_by asked.now) }
    requires jobs { 1 < asked.now.jobs }
    ensures { FilesEnd (asked_by asked.now) result (D.state desk.old) (D.state desk.new) }
{
    let settings = match settings_for(alloc, &asked.options) {
        Ok(settings) => settings,
        Err(failure) => return tell(Complaint::Failure(failure), desk),
    };
    match look_together(rt, alloc, asked, &settings, desk) {
        Ok(found) => print_checked(&found, desk),
        Err(_) => tell(Complaint::Failure(Failure::OutOfMemory), desk),
    }
}
