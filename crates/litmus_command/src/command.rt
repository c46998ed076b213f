//! The command line: what the words ask for is done, and the status that the program ends with.

ghost use Rattle.std.specs.Prelude.{◌≡◌, ◌≢◌, ◌≤◌, ◌⊎◌, ℕ, List, IfErr, IfOk, None, OnErr, OnOk, Some, is_some, true, false, map};
ghost use Rattle.cli.specs.Bounds.{KeepsBounds, KeepsRunBounds, KeepsSearchBounds, MayBeAsked};
ghost use Rattle.cli.specs.Words.{AskForHelp, AskForVersion, MayFail};
ghost use Rattle.cli.specs.declared.request.Request as spec;
ghost use Rattle.clap.specs.Words.{kind_of};
ghost use Rattle.file_commands.specs.Check.{IsOutOfMemory};
ghost use Rattle.file_commands.specs.Desks.{DeskState, once_told};
ghost use Rattle.file_commands.specs.Statuses.{status_of};
ghost use Rattle.litmus_command.specs.Command.{AskForOne, AsksFor, EndsAs, EndsFor, HelpIsCut, HelpIsGiven, IsCut, IsDone, IsGiven, IsGivenInPart};
ghost use Rattle.litmus_command.specs.Command.{AreFilesSearched, AreJoined, AreRaced, IsChecked, IsOfFile, IsOfSeveral, IsRefusedOf, IsStopped, IsToldApart, IsToldWith, OfAsked};
ghost use Rattle.litmus_command.specs.Command.{DoesNotRead, DoesRead, IsFault, IsMisused, Reads, StatusComplaint, UsageIsTold, VersionIsCut, VersionIsGiven};
ghost use Rattle.litmus_command.specs.Command.{end_status_of, state_in};
ghost use Rattle.litmus_command.specs.Command.{run_additions_of, search_additions_of, times_of, with_trace};
ghost use Rattle.litmus_command.specs.Ends.{CommandEnds, IsCarriedOut, IsNoCheck};
ghost use Rattle.litmus_command.specs.Overwrite.{IsKept, Overwrites};
ghost use Rattle.file_commands.specs.StandardError.{heard};
ghost use Rattle.file_commands.specs.declared.failure.Failure.TheVariants.{OutOfMemory};
ghost use Rattle.picture_text.specs.declared.cells.Style.TheVariants.{Ascii};
ghost use Rattle.report_text.specs.Sink.{CountsFailure};
ghost use Rattle.std.specs.Option.{option_map};
ghost use Rattle.prepared_program.specs.step_schedule.Schedule.{entries_of};

use crate::additions::added;
use crate::engine::run_text;
use crate::overwrite::{overwritten, refuse_overwrite};
use crate::replay::replayed;
use crate::search::search_for;
use crate::show::{Wanted, drawn, drawn_with};
use clap::error::ErrorKind;
use cli::{
    ReplayRequest, Request, RunOptions, RunRequest, SearchRequest, ShowRequest, StepRequest, asked,
    version_line,
};
use diagnostics::text_check::calls;
use file_commands::advice::{Given, advise_given};
use file_commands::check::carry_check;
use file_commands::complaint::Complaint;
use file_commands::desk::Desk;
use file_commands::failure::{Failure, NO_REPORT, REPORTED, STOPPED, USAGE};
use file_commands::files::carry_searches;
use file_commands::settings::settings_for;
use file_search::additions::Additions;
use join_command::carry_join;
use litmus_parse::FILE_BYTES;
use litmus_step::Settings;
use page_command::carry_all_races;
use picture_text::Style;
use prepared_program::step_schedule::Schedule;
use run_output::Written;
use run_stats::{Times, run_text_often};
use std::alloc::Global;
use std::convert::AsStr;
use std::sync::Wait;
use std::thread::Threads;
use trace_replay::SIZE_LIMIT;

/// The whole program: does what the words ask for, and answers the status that the program ends
/// with. The first word is the program's name.
///
/// 0: no report, no race in files whose races are asked for, a trace that is accepted or drawn, files that read where
/// they are checked, help, or the version. 2: a report, or a race in a file. 64: usage, a file that would be written
/// over its input, a schedule that doesn't read or names a task that isn't there, or a place that doesn't read or
/// doesn't suit. 65: the file is refused, or files don't have the parts of one search. 66: it can't be read. 70: a task
/// is stuck. 71: out of memory, or a thread couldn't be started. 74: output can't be written. 75: a search was stopped,
/// at its limit or after its seconds, and tells of no report or race. Of several files the greatest status counts, but
/// of parts that of their search. At 64 to 71 nothing goes to standard output, but for what is printed of several
/// files, and no file is written but a page of files that were gone over. At 74 standard output and all files have what
/// they had, or standard output has a beginning of what should stand there.
pub fn command<R: Threads + Wait + Sync, S: AsStr, D: Desk + Sync>(
    rt: &R,
    alloc: Global,
    words: &[S],
    desk: &mut D,
) -> u8
    ensures reported { result ≡ 2 → AskForOne (map S.text words.now) (λ request.
        IsDone request true (state_in (D.state desk.old)) (state_in (D.state desk.new))) }
    ensures unreported { result ≡ 0 → AskForOne (map S.text words.now) (λ request.
        IsDone request false (state_in (D.state desk.old)) (state_in (D.state desk.new)))
        ⊎ HelpIsGiven (map S.text words.now) (state_in (D.state desk.old)) (state_in (D.state desk.new))
        ⊎ VersionIsGiven (map S.text words.now) (state_in (D.state desk.old)) (state_in (D.state desk.new)) }
    ensures stopped { result ≡ 75 → AskForOne (map S.text words.now) (λ request.
        IsStopped request (state_in (D.state desk.old)) (state_in (D.state desk.new))) }
    ensures unwritten { result ≡ 74 → AskForOne (map S.text words.now) (λ request.
        IsCut request (state_in (D.state desk.old)) (state_in (D.state desk.new)))
        ⊎ HelpIsCut (map S.text words.now) (state_in (D.state desk.old)) (state_in (D.state desk.new))
        ⊎ VersionIsCut (map S.text words.now) (state_in (D.state desk.old)) (state_in (D.state desk.new)) }
    ensures refused { IsOfFile result → AskForOne (map S.text words.now) (λ request.
        IsRefusedOf request result (state_in (D.state desk.old)) (state_in (D.state desk.new))) }
    ensures misused { result ≡ 64 → AskForOne (map S.text words.now) (λ request.
        IsMisused request (state_in (D.state desk.old)) (state_in (D.state desk.new)))
        ⊎ UsageIsTold (map S.text words.now) (D.state desk.old).told (D.state desk.new).told }
    ensures unread { result ≡ 66 → AskForOne (map S.text words.now) DoesRead }

    // What `check` found of each file, in order, is what `check_text` says of its text. So much was told and printed,
    // and the status follows.
    ensures checks { OfAsked (map S.text words.now) result (D.state desk.old)
        (D.state desk.new) (λ request. IsChecked request result (D.state desk.old) (D.state desk.new)) }

    // What was found of the races of each file, in order, is so of the program of its text: where the status is 0 each
    // file gave a text whose program is free of races. So much was told and printed, and the status follows.
    ensures races { OfAsked (map S.text words.now) result (D.state desk.old)
        (D.state desk.new) (λ request. AreRaced request result (D.state desk.old) (D.state desk.new)) }

    // What was found of each file that was searched, in order, is so of the program of its text. So much was told and
    // printed, and the status follows.
    ensures searches { OfAsked (map S.text words.now) result (D.state desk.old)
        (D.state desk.new) (λ request. AreFilesSearched request result (D.state desk.old) (D.state desk.new)) }

    // Where parts of a search are joined, these are a whole search, and what they give when they are joined was printed,
    // with what is wanted beside it; or a file that has no part, or why the parts are no whole, was told.
    ensures joins { OfAsked (map S.text words.now) result (D.state desk.old)
        (D.state desk.new) (λ request. AreJoined request result (D.state desk.old) (D.state desk.new)) }

    // A file that would be written over its input is named, and nothing else is done. `misused` and `tells` say that
    // this is said of no other.
    ensures keeps { OfAsked (map S.text words.now) result (D.state desk.old)
        (D.state desk.new) (λ request. (path : List ℕ) → Overwrites request path → IsKept path result
        (D.state desk.old) (D.state desk.new)) }

    // Only of several files, or where programs are to read what is found, more was read and told, and something printed
    // with a status from 64 to 66. Of the one file of a check its warnings were told first.
    ensures reads { AskForOne (map S.text words.now) IsOfSeveral ⊎ Reads result (D.state desk.old).faults (D.state desk.new).faults }
    ensures tells { AskForOne (map S.text words.now) (λ request.
        IsToldApart request ⊎ IsToldWith request result (D.state desk.old).told (D.state desk.new).told)
        ⊎ StatusComplaint result (D.state desk.old).told (D.state desk.new).told }
    ensures ends { AskForOne (map S.text words.now) (λ request.
        IsOfSeveral request ⊎ EndsFor request result (state_in (D.state desk.old)) (state_in (D.state desk.new)))
        ⊎ EndsAs result (state_in (D.state desk.old)) (state_in (D.state desk.new)) }
{
    match asked(alloc, words) {
        Ok(request) => carry_out(rt, alloc, &request, desk),
        Err(error) => explain(alloc, error, desk),
    }
}

/// Does what is asked, and answers the status that the program ends with.
pub fn carry_out<R: Threads + Wait + Sync, D: Desk + Sync>(
    rt: &R,
    alloc: Global,
    request: &Request<'_>,
    desk: &mut D,
) -> u8
    requires { MayBeAsked request.now }
    ensures { IsCarriedOut request.now result (D.state desk.old) (D.state desk.new) }
{
    // That a file would be lost comes before anything else that is wrong with what is asked.
    if let Some(path) = overwritten(request) {
        return refuse_overwrite(alloc, path, desk);
    }
    match request {
        Request::Step(request) => {
            let done = step(alloc, request, desk);
            let mut given = given(request.file, request.schedule, &request.options);
            given.stepped = Some(request.options);
            finish(alloc, done, Some(given), desk)
        }
        Request::Run(request) => {
            let done = run(rt, alloc, request, desk);
            let given = given(request.file, "", &request.options);
            finish(alloc, done, Some(given), desk)
        }
        Request::Search(request) => {
            let done = search(alloc, request, desk);
            let given = given(request.file, "", &request.options);
            finish(alloc, done, Some(given), desk)
        }
        Request::Replay(request) => {
            let done = replay(alloc, request, desk);
            finish(alloc, done, None, desk)
        }
        Request::Show(request) => {
            let done = show(alloc, request, desk);
            finish(alloc, done, given_source(request), desk)
        }
        // These tell of each file that isn't read, and all but the last of them go on.
        Request::Searches(request) => carry_searches(rt, alloc, request, desk),
        Request::Races(request) => carry_all_races(rt, alloc, request, desk),
        Request::Check(request) => carry_check(alloc, request, desk),
        Request::Join(request) => carry_join(alloc, request, desk),
        Request::Calls => {
            let done = list_calls(desk);
            finish(alloc, done, None, desk)
        }
    }
}

/// What a command of one litmus file was given that can be at fault.
fn given<'a>(file: &'a str, schedule: &'a str, options: &RunOptions<'a>) -> Given<'a> {
    Given {
        file,
        schedule,
        places: options.places,
        stepped: None,
    }
}

/// What `show` was given that can be at fault.
fn given_source<'a>(request: &ShowRequest<'a>) -> Option<Given<'a>> {
    match request.source {
        Some(file) => Some(Given {
            file,
            schedule: "",
            places: "",
            stepped: None,
        }),
        None => None,
    }
}

/// Ends what was asked: where it failed, standard error is told why, and the desk may say more of what was given, if it
/// was of a litmus file. The status that the program ends with.
fn finish<D: Desk>(
    alloc: Global,
    done: Result<u8, Failure>,
    given: Option<Given<'_>>,
    desk: &mut D,
) -> u8
    ensures { (request : spec.Request) (before : DeskState) → IsNoCheck request
        → CommandEnds request done before (D.state desk.old)
        → IsCarriedOut request result before (D.state desk.new) }
{
    match done {
        Ok(status) => status,
        Err(failure) => {
            let status = fail(failure, desk);
            advise_given(alloc, failure, given, &*desk);
            status
        }
    }
}

/// Says on standard error why the program ends, and answers its status.
fn fail<D: Desk>(failure: Failure, desk: &mut D) -> u8
    ensures status { result ≡ status_of failure }
    ensures known { ((64 ≤ result) × (result ≤ 66)) ⊎ ((result ≡ 70) ⊎ ((result ≡ 71) ⊎ (result ≡ 74))) }
    ensures stays { state_in (D.state desk.new) ≡ state_in (D.state desk.old) }
    ensures told { (D.state desk.new).told ≡ heard (D.state desk.old).told (Complaint.Failure failure) }
    ensures faults { (D.state desk.new).faults ≡ (D.state desk.old).faults }
    ensures whole { D.state desk.new ≡ once_told (Complaint.Failure failure) (D.state desk.old) }
{
    desk.complain(Complaint::Failure(failure));
    failure.status()
}

/// The settings and the schedule that are asked for, as the request's texts spell them.
fn asked_for(alloc: Global, request: &StepRequest<'_>) -> Result<(Settings, Schedule), Failure>
    requires { KeepsBounds request.now.options }
    ensures asks { IfOk result (λ run. AsksFor request.now run.0 (entries_of run.1)) }
    ensures misused { IfErr result (λ failure. status_of failure ≡ 64 → DoesNotRead (Request.Step request.now)) }
    ensures early { IfErr result (λ failure. (status_of failure ≡ 64) ⊎ (status_of failure ≡ 71)) }
{
    let Some(schedule) = Schedule::parse(alloc, request.schedule)? else {
        return Err(Failure::BadSchedule);
    };
    Ok((settings_for(alloc, &request.options)?, schedule))
}

/// Writes a trace, if one is asked for and there is one.
fn keep_trace<D: Desk>(
    path: Option<&str>,
    trace: &Option<Vec<u8>>,
    desk: &mut D,
) -> Result<(), Failure>
    ensures files { OnOk result ((D.state desk.new).files ≡ with_trace (D.state desk.old).files (option_map (λ path. path.now) path.entry)
        (option_map (λ bytes. bytes.items) trace.now)) }
    ensures written { (D.state desk.new).written ≡ (D.state desk.old).written }
    ensures failed { IfErr result (λ failure.
        (status_of failure ≡ 74) × CountsFailure (D.state desk.old).failures (D.state desk.new).failures) }
    ensures works { OnOk result ((D.state desk.new).failures ≡ (D.state desk.old).failures) }
    ensures there { OnErr result (is_some trace.now ≡ true) }
    ensures kept { OnErr result ((D.state desk.new).files ≡ (D.state desk.old).files) }
    ensures told { (D.state desk.new).told ≡ (D.state desk.old).told }
    ensures faults { (D.state desk.new).faults ≡ (D.state desk.old).faults }
{
    match path {
        None => Ok(()),
        Some(path) => match trace {
            None => Ok(()),
            Some(bytes) => match desk.write_file(path, bytes.as_slice()) {
                Ok(()) => Ok(()),
                Err(_) => Err(Failure::CannotWrite),
            },
        },
    }
}

/// The status that ends what was done: whether there was a report, and whether a search was stopped.
fn end_status(raced: bool, stopped: bool) -> u8
    ensures { result ≡ end_status_of raced stopped }
{
    if raced {
        REPORTED
    } else if stopped {
        // Without a report so far it is open whether there is one: neither status would be true.
        STOPPED
    } else {
        NO_REPORT
    }
}

/// Gives what is left of runs or of a search, which may have been stopped: the trace, if it is asked for and there is
/// one, and then the output. The status that the program ends with.
fn emit<D: Desk>(
    path: Option<&str>,
    written: &Written,
    stopped: bool,
    desk: &mut D,
) -> Result<u8, Failure>
    ensures status { IfOk result (λ status. status ≡ end_status_of written.now.raced stopped) }
    ensures given { OnOk result (IsGiven (option_map (λ path. path.now) path.entry) written.now.output.items
        (option_map (λ bytes. bytes.items) written.now.trace) (state_in (D.state desk.old))
        (state_in (D.state desk.new))) }
    ensures failed { IfErr result (λ failure.
        (status_of failure ≡ 74) × CountsFailure (D.state desk.old).failures (D.state desk.new).failures) }
    ensures part { OnErr result (IsGivenInPart (option_map (λ path. path.now) path.entry) written.now.output.items
        (option_map (λ bytes. bytes.items) written.now.trace) (state_in (D.state desk.old))
        (state_in (D.state desk.new))) }
    ensures told { (D.state desk.new).told ≡ (D.state desk.old).told }
    ensures faults { (D.state desk.new).faults ≡ (D.state desk.old).faults }
{
    // The trace comes first: where its file can't be written, that is known before standard output has anything.
    keep_trace(path, &written.trace, desk)?;
    match desk.print(written.output.as_slice()) {
        Ok(()) => Ok(end_status(written.raced, stopped)),
        Err(_) => Err(Failure::CannotWrite),
    }
}

/// What is printed beside what was found in runs, as it is asked for.
fn run_additions(options: &RunOptions<'_>) -> Additions
    ensures { result ≡ run_additions_of options.now }
{
    Additions {
        places: options.located,
        deadlocks: false,
        settings: false,
    }
}

/// What is printed beside what was found in a search, where standard output is a terminal or not.
fn search_additions(request: &SearchRequest<'_>, at_terminal: bool) -> Additions
    ensures { result ≡ search_additions_of request.now at_terminal }
{
    Additions {
        places: request.options.located,
        deadlocks: true,
        settings: request.settings || at_terminal,
    }
}

/// Steps a file, and gives what is left of that.
fn step<D: Desk>(alloc: Global, request: &StepRequest<'_>, desk: &mut D) -> Result<u8, Failure>
    requires { KeepsBounds request.now.options }
    ensures { CommandEnds (Request.Step request.now) result (D.state desk.old) (D.state desk.new) }
{
    let (settings, schedule) = asked_for(alloc, request)?;
    let text = desk.read_file(alloc, request.file, FILE_BYTES)?;
    let traced = request.options.trace.is_some();
    let unknown = request.options.unknown_origin;
    let written = run_text(alloc, &text, &settings, &schedule, traced, unknown)?;
    let wanted = run_additions(&request.options);
    let shown = added(alloc, wanted, request.file, &text, &settings, written)?;
    emit(request.options.trace, &shown, false, desk)
}

/// How often a program is run, and how, as it is asked for.
fn times_for(request: &RunRequest<'_>) -> Times
    ensures { result ≡ times_of request.now }
{
    Times {
        runs: request.runs,
        delay: request.delay,
        jobs: request.jobs,
        stop_at_first: request.stop_at_first,
        keep_going: request.keep_going,
        unknown_origin: request.options.unknown_origin,
    }
}

/// Where runs gave no report, the desk may say that a search goes over all schedules: on threads it is left to the
/// machine which come.
fn advise<D: Desk>(raced: bool, desk: &D) {
    if !raced {
        desk.advise_search();
    }
}

/// Runs a file on threads, and gives what is left of the runs.
fn run<R: Threads + Wait + Sync, D: Desk>(
    rt: &R,
    alloc: Global,
    request: &RunRequest<'_>,
    desk: &mut D,
) -> Result<u8, Failure>
    requires { KeepsRunBounds request.now }
    ensures { CommandEnds (Request.Run request.now) result (D.state desk.old) (D.state desk.new) }
{
    let settings = settings_for(alloc, &request.options)?;
    let text = desk.read_file(alloc, request.file, FILE_BYTES)?;
    let times = times_for(request);
    let traced = request.options.trace.is_some();
    let written = run_text_often(rt, alloc, &text, &settings, times, traced, &*desk)?;
    let wanted = run_additions(&request.options);
    let shown = added(alloc, wanted, request.file, &text, &settings, written)?;
    advise(shown.raced, &*desk);
    emit(request.options.trace, &shown, false, desk)
}

/// Searches a file, and gives what is left of that.
fn search<D: Desk>(alloc: Global, request: &SearchRequest<'_>, desk: &mut D) -> Result<u8, Failure>
    requires { KeepsSearchBounds request.now }
    ensures { CommandEnds (Request.Search request.now) result (D.state desk.old) (D.state desk.new) }
{
    let settings = settings_for(alloc, &request.options)?;
    let text = desk.read_file(alloc, request.file, FILE_BYTES)?;
    let found = search_for(alloc, request, &text, &settings, &*desk)?;
    let stopped = found.stopped;
    let wanted = search_additions(request, desk.is_terminal());
    let shown = added(alloc, wanted, request.file, &text, &settings, found.written)?;
    emit(request.options.trace, &shown, stopped, desk)
}

/// Checks a trace, and writes what is said of one that is accepted. No report is told of.
fn replay<D: Desk>(alloc: Global, request: &ReplayRequest<'_>, desk: &mut D) -> Result<u8, Failure>
    ensures { CommandEnds (Request.Replay request.now) result (D.state desk.old) (D.state desk.new) }
{
    let bytes = desk.read_file(alloc, request.trace, SIZE_LIMIT)?;
    let line = replayed(alloc, &bytes)?;
    match desk.print(&line) {
        Ok(()) => Ok(NO_REPORT),
        Err(_) => Err(Failure::CannotWrite),
    }
}

/// How a trace is drawn, as it is asked for, or else as the desk can show it.
fn style_for<D: Desk>(request: &ShowRequest<'_>, desk: &D) -> Style
    ensures { request.now.ascii ≡ true → result ≡ Ascii }
{
    if request.ascii || !desk.shows_utf8() {
        Style::Ascii
    } else {
        Style::Lines
    }
}

/// Prints the calls that are read.
fn list_calls<D: Desk>(desk: &mut D) -> Result<u8, Failure>
    ensures { CommandEnds Request.Calls result (D.state desk.old) (D.state desk.new) }
{
    match desk.print(calls().as_bytes()) {
        Ok(()) => Ok(NO_REPORT),
        Err(_) => Err(Failure::CannotWrite),
    }
}

/// How a trace is drawn, as it is asked for.
fn wanted_of<D: Desk>(request: &ShowRequest<'_>, desk: &D) -> Wanted
    ensures ascii { request.now.ascii ≡ true → result.style ≡ Ascii }
    ensures slots { result.slots ≡ request.now.slots }
    ensures svg { result.svg ≡ is_some request.now.svg }
{
    Wanted {
        style: style_for(request, desk),
        slots: request.slots,
        svg: request.svg.is_some(),
    }
}

/// Draws a trace of which nothing more is known, and gives what is left of that.
fn show_alone<D: Desk>(
    alloc: Global,
    request: &ShowRequest<'_>,
    desk: &mut D,
) -> Result<u8, Failure>
    requires { request.now.source ≡ None }
    ensures { CommandEnds (Request.Show request.now) result (D.state desk.old) (D.state desk.new) }
{
    let bytes = desk.read_file(alloc, request.trace, SIZE_LIMIT)?;
    let written = drawn(alloc, &bytes, wanted_of(request, &*desk))?;
    emit(request.svg, &written, false, desk)
}

/// Draws a trace with what the litmus file of this path says of it, and gives what is left of that.
fn show_sourced<D: Desk>(
    alloc: Global,
    request: &ShowRequest<'_>,
    path: &str,
    desk: &mut D,
) -> Result<u8, Failure>
    requires { option_map (λ path. path.now) request.now.source ≡ Some path.now }
    ensures { CommandEnds (Request.Show request.now) result (D.state desk.old) (D.state desk.new) }
{
    let bytes = desk.read_file(alloc, request.trace, SIZE_LIMIT)?;
    let text = desk.read_file(alloc, path, FILE_BYTES)?;
    let written = drawn_with(alloc, &bytes, &text, wanted_of(request, &*desk))?;
    emit(request.svg, &written, false, desk)
}

/// Draws a trace, and gives what is left of that. A report that the trace tells of doesn't count as one here.
fn show<D: Desk>(alloc: Global, request: &ShowRequest<'_>, desk: &mut D) -> Result<u8, Failure>
    ensures { CommandEnds (Request.Show request.now) result (D.state desk.old) (D.state desk.new) }
{
    match request.source {
        Some(path) => show_sourced(alloc, request, path, desk),
        None => show_alone(alloc, request, desk),
    }
}

/// Help and the version go to standard output, and what is wrong with the words to standard error.
fn explain<D: Desk>(alloc: Global, error: clap::Error, desk: &mut D) -> u8
    ensures answered { (words : List (List ℕ)) → MayFail words (kind_of error) → result ≡ 0
        → HelpIsGiven words (state_in (D.state desk.old)) (state_in (D.state desk.new))
        ⊎ VersionIsGiven words (state_in (D.state desk.old)) (state_in (D.state desk.new)) }
    ensures unreported { result ≢ 2 }
    ensures unstopped { result ≢ 75 }
    ensures of_words { ¬ IsOfFile result }
    ensures unwritten { (words : List (List ℕ)) → MayFail words (kind_of error) → result ≡ 74
        → HelpIsCut words (state_in (D.state desk.old)) (state_in (D.state desk.new))
        ⊎ VersionIsCut words (state_in (D.state desk.old)) (state_in (D.state desk.new)) }
    ensures usage { result ≡ 64 → IsFault (kind_of error) × ((D.state desk.new).told ≡ heard (D.state desk.old).told (Complaint.Usage error)) }
    ensures readable { result ≢ 66 }
    ensures memory { (kind_of error ≢ ErrorKind.OutOfMemory) ⊎ IsOutOfMemory result
        (D.state desk.old) (D.state desk.new) }
    ensures faults { (D.state desk.new).faults ≡ (D.state desk.old).faults }
    ensures tells { StatusComplaint result (D.state desk.old).told (D.state desk.new).told }
    ensures ends { EndsAs result (state_in (D.state desk.old)) (state_in (D.state desk.new)) }
{
    match error.kind() {
        ErrorKind::OutOfMemory => fail(Failure::OutOfMemory, desk),
        ErrorKind::DisplayHelp => help(alloc, error, desk),
        ErrorKind::DisplayVersion => version(alloc, desk),
        _ => {
            desk.complain(Complaint::Usage(error));
            USAGE
        }
    }
}

/// Writes the text of help.
fn help<D: Desk>(alloc: Global, help: clap::Error, desk: &mut D) -> u8
    ensures help { (words : List (List ℕ)) → AskForHelp words → result ≡ 0
        → HelpIsGiven words (state_in (D.state desk.old)) (state_in (D.state desk.new)) }
    ensures unreported { result ≢ 2 }
    ensures unstopped { result ≢ 75 }
    ensures of_words { ¬ IsOfFile result }
    ensures unwritten { (words : List (List ℕ)) → AskForHelp words → result ≡ 74
        → HelpIsCut words (state_in (D.state desk.old)) (state_in (D.state desk.new)) }
    ensures usage { result ≢ 64 }
    ensures readable { result ≢ 66 }
    ensures faults { (D.state desk.new).faults ≡ (D.state desk.old).faults }
    ensures tells { StatusComplaint result (D.state desk.old).told (D.state desk.new).told }
    ensures ends { EndsAs result (state_in (D.state desk.old)) (state_in (D.state desk.new)) }
{
    let Ok(text) = help.to_string(alloc) else {
        return fail(Failure::OutOfMemory, desk);
    };
    match desk.print(text.as_bytes()) {
        Ok(()) => NO_REPORT,
        Err(_) => fail(Failure::CannotWrite, desk),
    }
}

/// Writes the line that says the version: our own, since no clause of `clap` says what the text of its error is.
fn version<D: Desk>(alloc: Global, desk: &mut D) -> u8
    ensures version { (words : List (List ℕ)) → AskForVersion words → result ≡ 0
        → VersionIsGiven words (state_in (D.state desk.old)) (state_in (D.state desk.new)) }
    ensures unreported { result ≢ 2 }
    ensures unstopped { result ≢ 75 }
    ensures of_words { ¬ IsOfFile result }
    ensures unwritten { (words : List (List ℕ)) → AskForVersion words → result ≡ 74
        → VersionIsCut words (state_in (D.state desk.old)) (state_in (D.state desk.new)) }
    ensures usage { result ≢ 64 }
    ensures readable { result ≢ 66 }
    ensures faults { (D.state desk.new).faults ≡ (D.state desk.old).faults }
    ensures tells { StatusComplaint result (D.state desk.old).told (D.state desk.new).told }
    ensures ends { EndsAs result (state_in (D.state desk.old)) (state_in (D.state desk.new)) }
{
    let Ok(line) = version_line(alloc) else {
        return fail(Failure::OutOfMemory, desk);
    };
    match desk.print(line.as_bytes()) {
        Ok(()) => NO_REPORT,
        Err(_) => fail(Failure::CannotWrite, desk),
    }
}
