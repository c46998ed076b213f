//! What the words ask for.

ghost use Rattle.std.specs.Prelude.{◌≡◌, ◌↔◌, ◌⊎◌, ◌≤◌, ◌<◌, ◌∷◌, ℕ, IfErr, IfOk, IfSome, IsSome, IsTrue, Option, Some, [], codes, false, length, map, true};
ghost use Rattle.cli.specs.Bounds.{KeepsBounds, KeepsCheckBounds, KeepsPart, KeepsPreemptions, KeepsRacesBounds, KeepsRunBounds, KeepsSearchBounds, KeepsSearchesBounds, MayBeAsked};
ghost use Rattle.cli.specs.Words.{Ask, AskCheck, AskChoices, AskFormat, AskOptions, AskRaces, AskReplay, AskRun, AskSearch, AskSearches, AskSettings, AskShow, AskStep, AskSwitches};
ghost use Rattle.cli.specs.Words.{GoesWithPart, IsAskedBy, IsAskedOf, IsFormat, IsGiven, IsLayout, IsNumber, IsNumberIfGiven, IsSearchFormat, MayBeSaid, MayFail};
ghost use Rattle.cli.specs.Words.{NamesPart, SpellsNumber, choice_of, words_of};
ghost use Rattle.clap.specs.Words.{first_of, found_of, kind_of, rows_of, subcommand_rows_of};
ghost use Rattle.std.specs.Option.{option_map};

use crate::program::{
    AT_MOST, DELAY, JOBS, LIMIT, PARTS, RUNS, SECONDS, SKIP, SLOTS, TURNS, program,
};
use clap::ArgMatches;
use clap::error::ErrorKind;
use std::alloc::{AllocError, Global};
use std::convert::AsStr;
use watch_word::Layout;

/// What the program is asked to do.
#[derive(Debug, Drop)]
pub enum Request<'a> {
    /// To step the program of a litmus file.
    Step(StepRequest<'a>),
    /// To run the program of a litmus file on threads.
    Run(RunRequest<'a>),
    /// To step the program of a litmus file under all schedules, or those with few preemptions.
    Search(SearchRequest<'a>),
    /// To do so with the programs of several litmus files, or to print what is found in a format for programs.
    Searches(SearchesRequest<'a>),
    /// To join the parts of a search.
    Join(JoinRequest<'a>),
    /// To say which accesses of litmus programs race, and whether KCSAN can report that.
    Races(RacesRequest<'a>),
    /// To check a trace.
    Replay(ReplayRequest<'a>),
    /// To draw a trace.
    Show(ShowRequest<'a>),
    /// To say what litmus files mean to the program, or why they are refused.
    Check(CheckRequest<'a>),
    /// To list the calls that are read in litmus files.
    Calls,
}

/// What `replay` is asked to do.
#[derive(Clone, Copy, Debug)]
pub struct ReplayRequest<'a> {
    /// The name of the file that has the trace.
    pub trace: &'a str,
}

/// What `show` is asked to do.
#[derive(Clone, Copy, Debug)]
pub struct ShowRequest<'a> {
    /// The name of the file that has the trace.
    pub trace: &'a str,
    /// The name of the litmus file that the trace is of, if it is named.
    pub source: Option<&'a str>,
    /// The name of the file that a picture goes to as well, if it goes to one.
    pub svg: Option<&'a str>,
    /// Whether the text is drawn with ASCII alone.
    pub ascii: bool,
    /// Whether the index of each watchpoint is told.
    pub slots: bool,
}

/// What `step` is asked to do.
#[derive(Clone, Copy, Debug)]
pub struct StepRequest<'a> {
    /// The name of the litmus file.
    pub file: &'a str,
    /// The text of the schedule.
    pub schedule: &'a str,
    /// What `run` could be given as well.
    pub options: RunOptions<'a>,
}

/// What `run` is asked to do.
#[derive(Clone, Copy, Debug)]
pub struct RunRequest<'a> {
    /// The name of the litmus file.
    pub file: &'a str,
    /// How many runs there are to be.
    pub runs: u64,
    /// How many turns the delay of a watch takes at most.
    pub delay: u64,
    /// How many runs are made side by side.
    pub jobs: u64,
    /// Whether the first run with a report is the last.
    pub stop_at_first: bool,
    /// Whether runs in which a task gets stuck are counted, and the others go on.
    pub keep_going: bool,
    /// What `step` could be given as well.
    pub options: RunOptions<'a>,
}

/// How many preemptions a schedule that is searched may have.
#[derive(Clone, Copy, Debug)]
pub enum Switches {
    /// So often at most.
    AtMost(u64),
    /// Without a bound: all schedules are searched.
    All,
}

/// What `search` is asked to do with one file, where what it finds is printed as text.
#[derive(Clone, Copy, Debug)]
pub struct SearchRequest<'a> {
    /// The name of the litmus file.
    pub file: &'a str,
    /// How many preemptions a schedule may have.
    pub switches: Switches,
    /// After how many schedules the search stops, though others remain: after how many states, where all schedules are
    /// searched.
    pub limit: u64,
    /// After how many seconds it stops, if these are bounded.
    pub seconds: Option<u64>,
    /// Whether a search of all schedules may leave steps out that others make up for.
    pub reduces: bool,
    /// How many threads share several files. This one is searched by one thread, whatever this is.
    pub jobs: u64,
    /// Whether the settings are printed.
    pub settings: bool,
    /// What `step` could be given as well.
    pub options: RunOptions<'a>,
}

/// How what a search finds is printed.
#[derive(Clone, Copy, Debug)]
pub enum SearchFormat {
    /// As text.
    Text,
    /// As JSON.
    Json,
    /// As CSV.
    Csv,
    /// As herd7 writes its log.
    Herd,
    /// As JSON, of one part of the search.
    Part {
        /// The part's number, from 1.
        part: u64,
        /// How many parts there are.
        parts: u64,
    },
}

/// What `search` is asked to do with several files, or in a format for programs.
#[derive(Debug, Drop)]
pub struct SearchesRequest<'a> {
    /// The names of the litmus files: one at least, and two at least where what is found is printed as text.
    pub files: Vec<&'a str>,
    /// How many preemptions a schedule may have.
    pub switches: Switches,
    /// After how many schedules, or states, the search of a file stops, though others remain.
    pub limit: u64,
    /// After how many seconds it stops, if these are bounded.
    pub seconds: Option<u64>,
    /// Whether a search of all schedules may leave steps out that others make up for.
    pub reduces: bool,
    /// How many threads share the files, where there are several.
    pub jobs: u64,
    /// How what is found is printed.
    pub format: SearchFormat,
    /// Whether the settings are printed, where that is as text.
    pub settings: bool,
    /// What `step` could be given as well, without a trace.
    pub options: RunOptions<'a>,
}

/// What `join` is asked to do.
#[derive(Debug, Drop)]
pub struct JoinRequest<'a> {
    /// The names of the files that have the parts of a search: one at least.
    pub files: Vec<&'a str>,
    /// Whether it is said of each access of a report where it is.
    pub located: bool,
    /// Whether the settings are printed.
    pub settings: bool,
}

/// How races are printed.
#[derive(Clone, Copy, Debug)]
pub enum RacesFormat {
    /// As text.
    Text,
    /// As JSON.
    Json,
}

/// What `races` is asked to do.
#[derive(Debug, Drop)]
pub struct RacesRequest<'a> {
    /// The names of the litmus files: one at least.
    pub files: Vec<&'a str>,
    /// After how many states, or schedules, a search of a file stops, though others remain.
    pub limit: u64,
    /// After how many seconds it stops, if these are bounded.
    pub seconds: Option<u64>,
    /// How many threads share the files, where there are several.
    pub jobs: u64,
    /// How races are printed.
    pub format: RacesFormat,
    /// The name of the file that a page goes to, if it goes to one.
    pub html: Option<&'a str>,
    /// What `step` could be given as well, without a trace.
    pub options: RunOptions<'a>,
}

/// What `check` is asked to do.
#[derive(Debug, Drop)]
pub struct CheckRequest<'a> {
    /// The names of the litmus files: one at least.
    pub files: Vec<&'a str>,
    /// Whether the printed form is wanted too.
    pub print: bool,
    /// The text of the schedule.
    pub schedule: &'a str,
    /// The text of the place list.
    pub places: &'a str,
    /// How many page slots there are.
    pub slots: usize,
    /// How many bits a watch word has.
    pub layout: Layout,
}

/// The options that `step`, `run` and `search` all have, and `races` all but the trace.
#[derive(Clone, Copy, Debug)]
pub struct RunOptions<'a> {
    /// The text of the place list.
    pub places: &'a str,
    /// The name of the file that the trace goes to, if it goes to one.
    pub trace: Option<&'a str>,
    /// How many page slots there are.
    pub slots: usize,
    /// How many accesses are skipped between two that are watched.
    pub skip: u64,
    /// Whether skips are drawn at random.
    pub randomize: bool,
    /// The seed of the generator that skips are drawn from.
    pub seed: u64,
    /// Whether hits that leave the value as it was give no report, as by CONFIG_KCSAN_REPORT_VALUE_CHANGE_ONLY.
    pub value_change_only: bool,
    /// Whether aligned plain writes count as marked, as by CONFIG_KCSAN_ASSUME_PLAIN_WRITES_ATOMIC.
    pub plain_writes_atomic: bool,
    /// How many bits a watch word has.
    pub layout: Layout,
    /// At so many failed tries of one wait a task is stuck.
    pub turns: u64,
    /// Whether it is said of each access of a report where it is. `races` says that of each of its sites.
    pub located: bool,
    /// Whether reports of unknown origin are printed, as by CONFIG_KCSAN_REPORT_RACE_UNKNOWN_ORIGIN.
    pub unknown_origin: bool,
}

/// What the words ask for; the first of them is the program's name. An error is a mistake in them, or asks for help or
/// the version.
pub fn asked<'a, S: AsStr>(alloc: Global, words: &'a [S]) -> Result<Request<'a>, clap::Error>
    ensures bounds { IfOk result MayBeAsked }
    ensures asked { IfOk result (Ask (map S.text words.entry.now)) }
    ensures fails { IfErr result (λ error. MayFail (map S.text words.entry.now) (kind_of error)) }
{
    let matches = program(alloc)?.try_get_matches_from(words)?;
    let outcome = request_or_refusal(alloc, &matches);
    // By a call: where it goes out of scope, the proof follows the drop of all that is in it.
    drop(matches);
    outcome
}

/// What is asked, by the values of the words, or what is said where these ask for nothing.
fn request_or_refusal<'a>(
    alloc: Global,
    matches: &ArgMatches<'a>,
) -> Result<Request<'a>, clap::Error>
    ensures bounds { IfOk result MayBeAsked }
    ensures asked { IfOk result (IsAskedOf (subcommand_rows_of matches.now)) }
    ensures fails { IfErr result (λ error. MayBeSaid (subcommand_rows_of matches.now) (kind_of error)) }
{
    match request_of(alloc, matches)? {
        Some(request) => Ok(request),
        None => Err(refused(alloc, matches)?),
    }
}

/// What is said where a command's own rules let words through, and yet they ask for nothing.
fn refused(alloc: Global, matches: &ArgMatches<'_>) -> Result<clap::Error, AllocError>
    ensures { IfOk result (λ error. kind_of error ≡ ErrorKind.ValueValidation) }
{
    match matches.subcommand() {
        Some(("search", values)) => search_refused(alloc, values),
        Some((name, values)) => said(alloc, fault(name, values)),
        None => said(alloc, "no command"),
    }
}

/// This is said of the words.
fn said(alloc: Global, why: &str) -> Result<clap::Error, AllocError>
    ensures { IfOk result (λ error. kind_of error ≡ ErrorKind.ValueValidation) }
{
    let mut program = program(alloc)?;
    let error = program.error(ErrorKind::ValueValidation, why);
    // By a call: where it goes out of scope, the proof follows the drop of all that is in it.
    drop(program);
    error
}

/// What the fault is where the values of another command than `search` ask for nothing.
fn fault(name: &str, values: &ArgMatches<'_>) -> &'static str {
    if name == "check" {
        "'check' takes one FILE or more, or --calls and no FILE"
    } else {
        settings_fault(values)
    }
}

/// What the fault is of settings that ask for nothing.
fn settings_fault(values: &ArgMatches<'_>) -> &'static str {
    if values.get_str("kconfig").is_some() {
        "'--kconfig' has to be replaced by the options that it stands for"
    } else {
        "'--strict' cannot be used with '--value-change-only' or '--plain-writes-atomic'"
    }
}

/// What is said of the values of `search` where they ask for nothing: of that of `--switches`, if it asks for nothing,
/// or else of that of `--part`, if it does, or else of the others.
fn search_refused(alloc: Global, search: &ArgMatches<'_>) -> Result<clap::Error, AllocError>
    ensures { IfOk result (λ error. kind_of error ≡ ErrorKind.ValueValidation) }
{
    match (switches_asked(search), search.get_str("part")) {
        (None, _) => switches_refused(alloc, search),
        (_, Some(text)) => part_refused(alloc, text, search),
        (_, None) => said(alloc, search_fault(search)),
    }
}

/// What the fault is of the values of `search` but for those of `--switches` and `--part` where they ask for nothing:
/// the settings, if these do, or else `--trace`, the only other one that can be at fault.
fn search_fault(search: &ArgMatches<'_>) -> &'static str {
    match settings(search, None) {
        None => settings_fault(search),
        Some(_) => "'--trace' goes with one FILE and '--format text'",
    }
}

/// What is said of a value of `--part`, if it asks for nothing, or else of what stands beside it.
fn part_refused(
    alloc: Global,
    text: &str,
    search: &ArgMatches<'_>,
) -> Result<clap::Error, AllocError>
    ensures { IfOk result (λ error. kind_of error ≡ ErrorKind.ValueValidation) }
{
    if part_of(text).is_some() {
        return said(alloc, part_fault(search));
    }
    let why = format!(in alloc;
        "invalid value '{text}' for '--part <I/N>': not two numbers as 1/16, from 1/1 to 65536/65536"
    )?;
    said(alloc, why.as_str())
}

/// What the fault is where a part is named: the settings, or else what it doesn't go with.
fn part_fault(search: &ArgMatches<'_>) -> &'static str {
    if settings(search, None).is_none() {
        settings_fault(search)
    } else if search.get_str("trace").is_some() || is_output_asked(search) {
        "'--part' cannot be used with '--trace', '--where' or '--settings'"
    } else {
        "'--part' goes with one FILE, a number of '--switches' and '--format json'"
    }
}

/// What is said of a value of `--switches` that asks for nothing.
fn switches_refused(alloc: Global, search: &ArgMatches<'_>) -> Result<clap::Error, AllocError>
    ensures { IfOk result (λ error. kind_of error ≡ ErrorKind.ValueValidation) }
{
    let value = search.get_str("switches").unwrap_or("");
    let why = format!(in alloc;
        "invalid value '{value}' for '--switches <N>': not all, and no number in 0..=64"
    )?;
    said(alloc, why.as_str())
}

/// What is asked, by the values of the words.
fn request_of<'a>(
    alloc: Global,
    matches: &ArgMatches<'a>,
) -> Result<Option<Request<'a>>, AllocError>
    ensures bounds { IfOk result (λ request. IfSome request MayBeAsked) }
    ensures asked { IfOk result (λ request. IfSome request (IsAskedOf (subcommand_rows_of matches.now))) }
    ensures complete { (request : Request) → MayBeAsked request → IsAskedOf (subcommand_rows_of matches.now) request
        → IfOk result IsSome }
{
    match matches.subcommand() {
        Some((name, values)) => called(alloc, name, values),
        None => Ok(None),
    }
}

/// What a command of this name is asked to do, by its values.
fn called<'a>(
    alloc: Global,
    name: &str,
    values: &ArgMatches<'a>,
) -> Result<Option<Request<'a>>, AllocError>
    ensures bounds { IfOk result (λ request. IfSome request MayBeAsked) }
    ensures asked { IfOk result (λ request. IfSome request (IsAskedBy name.now (rows_of (found_of values.now)))) }
    ensures complete { (request : Request) → MayBeAsked request → IsAskedBy name.now (rows_of (found_of values.now)) request
        → IfOk result IsSome }
{
    match name {
        "step" => Ok(step_request(values)),
        "run" => Ok(run_request(values)),
        "search" => search_asked(alloc, values),
        "join" => join_asked(alloc, values),
        "races" => races_asked(alloc, values),
        "replay" => Ok(replay_request(values)),
        "show" => Ok(show_request(values)),
        "check" => check_asked(alloc, values),
        _ => Ok(None),
    }
}

/// What `check` is asked to do, by the values of its options: to check files, or, by `--calls` and no file, to list
/// the calls that are read.
fn check_asked<'a>(alloc: Global, check: &ArgMatches<'a>) -> Result<Option<Request<'a>>, AllocError>
    ensures bounds { IfOk result (λ request. IfSome request MayBeAsked) }
    ensures asked { IfOk result (λ request. IfSome request (IsAskedBy (codes "check") (rows_of (found_of check.now)))) }
    ensures complete { (request : Request) → MayBeAsked request
        → IsAskedBy (codes "check") (rows_of (found_of check.now)) request → IfOk result IsSome }
{
    let files = words_given(alloc, check, "FILE")?;
    match (files.is_empty(), is_given(check, "calls")) {
        (true, true) => Ok(Some(Request::Calls)),
        (false, false) => Ok(check_request(files, check)),
        _ => Ok(None),
    }
}

/// What `check` is asked to do with these files, by the values of its options.
fn check_request<'a>(files: Vec<&'a str>, check: &ArgMatches<'a>) -> Option<Request<'a>>
    requires some { 0 < length files.items }
    requires files { map (λ file. file.now) files.items ≡ words_of (codes "FILE") (rows_of (found_of check.now)) }
    requires uncalled { ¬ IsGiven (rows_of (found_of check.now)) (codes "calls") }
    ensures bounds { IfSome result MayBeAsked }
    ensures asked { IfSome result (IsAskedBy (codes "check") (rows_of (found_of check.now))) }
    ensures complete { (request : CheckRequest) → KeepsCheckBounds request → AskCheck (rows_of (found_of check.now)) request
        → IsSome result }
{
    Some(Request::Check(CheckRequest {
        files,
        print: check.get_flag("print"),
        schedule: check.get_str("schedule")?,
        places: check.get_str("place")?,
        slots: number(check, "slots", SLOTS)? as usize,
        layout: layout(check)?,
    }))
}

/// What `races` is asked to do, by the values of its options.
fn races_asked<'a>(alloc: Global, races: &ArgMatches<'a>) -> Result<Option<Request<'a>>, AllocError>
    ensures bounds { IfOk result (λ request. IfSome request MayBeAsked) }
    ensures asked { IfOk result (λ request. IfSome request (IsAskedBy (codes "races") (rows_of (found_of races.now)))) }
    ensures complete { (request : Request) → MayBeAsked request
        → IsAskedBy (codes "races") (rows_of (found_of races.now)) request → IfOk result IsSome }
{
    let files = words_given(alloc, races, "FILE")?;
    if files.is_empty() {
        return Ok(None);
    }
    Ok(races_request(files, races))
}

/// What `races` is asked to do with these files, by the values of its options.
fn races_request<'a>(files: Vec<&'a str>, races: &ArgMatches<'a>) -> Option<Request<'a>>
    requires some { 0 < length files.items }
    requires files { map (λ file. file.now) files.items ≡ words_of (codes "FILE") (rows_of (found_of races.now)) }
    ensures bounds { IfSome result MayBeAsked }
    ensures asked { IfSome result (IsAskedBy (codes "races") (rows_of (found_of races.now))) }
    ensures complete { (request : RacesRequest) → KeepsRacesBounds request → AskRaces (rows_of (found_of races.now)) request
        → IsSome result }
{
    Some(Request::Races(RacesRequest {
        files,
        limit: number(races, "limit", LIMIT)?,
        seconds: number_if_given(races, "seconds", SECONDS)?,
        jobs: number(races, "jobs", JOBS)?,
        format: format_asked(races)?,
        html: races.get_str("html"),
        options: settings(races, None)?,
    }))
}

/// What `join` is asked to do, by the values of its options.
fn join_asked<'a>(alloc: Global, join: &ArgMatches<'a>) -> Result<Option<Request<'a>>, AllocError>
    ensures bounds { IfOk result (λ request. IfSome request MayBeAsked) }
    ensures asked { IfOk result (λ request. IfSome request (IsAskedBy (codes "join") (rows_of (found_of join.now)))) }
    ensures complete { (request : Request) → MayBeAsked request
        → IsAskedBy (codes "join") (rows_of (found_of join.now)) request → IfOk result IsSome }
{
    let files = words_given(alloc, join, "FILE")?;
    if files.is_empty() {
        return Ok(None);
    }
    Ok(Some(Request::Join(JoinRequest {
        files,
        located: join.get_flag("where"),
        settings: join.get_flag("settings"),
    })))
}

/// The words that are given for an argument.
fn words_given<'a>(
    alloc: Global,
    matches: &ArgMatches<'a>,
    name: &str,
) -> Result<Vec<&'a str>, AllocError>
    ensures { IfOk result (λ words. map (λ word. word.now) words.items
        ≡ words_of name.now (rows_of (found_of matches.now))) }
{
    match matches.get_strs(name) {
        Some(words) => Vec::from_slice(alloc, words),
        None => Ok(Vec::new(alloc)),
    }
}

/// Whether an option that stands alone is given.
fn is_given(matches: &ArgMatches<'_>, option: &str) -> bool
    ensures { IsTrue result ↔ IsGiven (rows_of (found_of matches.now)) option.now }
{
    has_value(matches, option, "true")
}

/// Whether the first value of an option is this word.
fn has_value(matches: &ArgMatches<'_>, option: &str, word: &str) -> bool
    ensures { IsTrue result ↔ (first_of option.now (rows_of (found_of matches.now)) ≡ Some word.now) }
{
    match matches.get_str(option) {
        Some(value) => value == word,
        None => false,
    }
}

/// What `step` is asked to do, by the values of its options.
fn step_request<'a>(step: &ArgMatches<'a>) -> Option<Request<'a>>
    ensures bounds { IfSome result MayBeAsked }
    ensures asked { IfSome result (IsAskedBy (codes "step") (rows_of (found_of step.now))) }
    ensures complete { (request : StepRequest) → KeepsBounds request.options → AskStep (rows_of (found_of step.now)) request
        → IsSome result }
{
    Some(Request::Step(StepRequest {
        file: step.get_str("FILE")?,
        schedule: step.get_str("schedule")?,
        options: options(step)?,
    }))
}

/// What `run` is asked to do, by the values of its options.
fn run_request<'a>(run: &ArgMatches<'a>) -> Option<Request<'a>>
    ensures bounds { IfSome result MayBeAsked }
    ensures asked { IfSome result (IsAskedBy (codes "run") (rows_of (found_of run.now))) }
    ensures complete { (request : RunRequest) → KeepsRunBounds request → AskRun (rows_of (found_of run.now)) request → IsSome result }
{
    Some(Request::Run(RunRequest {
        file: run.get_str("FILE")?,
        runs: number(run, "runs", RUNS)?,
        delay: number(run, "delay", DELAY)?,
        jobs: number(run, "jobs", JOBS)?,
        stop_at_first: run.get_flag("stop-at-first"),
        keep_going: run.get_flag("keep-going"),
        options: options(run)?,
    }))
}

/// What `search` is asked to do, by the values of its options.
fn search_asked<'a>(
    alloc: Global,
    search: &ArgMatches<'a>,
) -> Result<Option<Request<'a>>, AllocError>
    ensures bounds { IfOk result (λ request. IfSome request MayBeAsked) }
    ensures asked { IfOk result (λ request.
        IfSome request (IsAskedBy (codes "search") (rows_of (found_of search.now)))) }
    ensures complete { (request : Request) → MayBeAsked request
        → IsAskedBy (codes "search") (rows_of (found_of search.now)) request → IfOk result IsSome }
{
    let files = words_given(alloc, search, "FILE")?;
    let Some(format) = search_format_asked(search, files.len()) else {
        return Ok(None);
    };
    match (files.as_slice(), format) {
        ([], _) => Ok(None),
        ([file], SearchFormat::Text) => Ok(search_request(file, search)),
        _ => Ok(searches_request(files, format, search)),
    }
}

/// What `search` is asked to do with this file, where what it finds is printed as text, by the values of its options.
fn search_request<'a>(file: &'a str, search: &ArgMatches<'a>) -> Option<Request<'a>>
    requires file { words_of (codes "FILE") (rows_of (found_of search.now)) ≡ file.now ∷ [] }
    requires format { AskFormat (rows_of (found_of search.now)) SearchFormat.Text }
    ensures bounds { IfSome result MayBeAsked }
    ensures asked { IfSome result (IsAskedBy (codes "search") (rows_of (found_of search.now))) }
    ensures complete { (request : SearchRequest) → KeepsSearchBounds request → AskSearch (rows_of (found_of search.now)) request
        → IsSome result }
{
    Some(Request::Search(SearchRequest {
        file,
        switches: switches_asked(search)?,
        limit: number(search, "limit", LIMIT)?,
        seconds: number_if_given(search, "seconds", SECONDS)?,
        reduces: choice(search.get_str("reduce")),
        jobs: number(search, "jobs", JOBS)?,
        settings: search.get_flag("settings"),
        options: options(search)?,
    }))
}

/// What `search` is asked to do with these files, by the values of its options: as text, only with two files at least,
/// and nothing where a trace is wanted.
fn searches_request<'a>(
    files: Vec<&'a str>,
    format: SearchFormat,
    search: &ArgMatches<'a>,
) -> Option<Request<'a>>
    requires some { 0 < length files.items }
    requires several { format ≡ SearchFormat.Text → 2 ≤ length files.items }
    requires files { map (λ file. file.now) files.items ≡ words_of (codes "FILE") (rows_of (found_of search.now)) }
    requires part { KeepsPart format }
    requires format { AskFormat (rows_of (found_of search.now)) format }
    ensures bounds { IfSome result MayBeAsked }
    ensures asked { IfSome result (IsAskedBy (codes "search") (rows_of (found_of search.now))) }
    ensures complete { (request : SearchesRequest) → KeepsSearchesBounds request
        → AskSearches (rows_of (found_of search.now)) request → IsSome result }
{
    if search.get_str("trace").is_some() {
        return None;
    }
    Some(Request::Searches(SearchesRequest {
        files,
        switches: switches_asked(search)?,
        limit: number(search, "limit", LIMIT)?,
        seconds: number_if_given(search, "seconds", SECONDS)?,
        reduces: choice(search.get_str("reduce")),
        jobs: number(search, "jobs", JOBS)?,
        format,
        settings: search.get_flag("settings"),
        options: settings(search, None)?,
    }))
}

/// How many preemptions a schedule that is searched may have, by the value of `--switches`.
fn switches_asked(search: &ArgMatches<'_>) -> Option<Switches>
    ensures bounds { IfSome result KeepsPreemptions }
    ensures asked { IfSome result (AskSwitches (rows_of (found_of search.now))) }
    ensures complete { (switches : Switches) → KeepsPreemptions switches → AskSwitches (rows_of (found_of search.now)) switches
        → IsSome result }
{
    if has_value(search, "switches", "all") {
        return Some(Switches::All);
    }
    Some(Switches::AtMost(number(search, "switches", AT_MOST)?))
}

/// What `replay` is asked to do, by its file.
fn replay_request<'a>(replay: &ArgMatches<'a>) -> Option<Request<'a>>
    ensures bounds { IfSome result MayBeAsked }
    ensures asked { IfSome result (IsAskedBy (codes "replay") (rows_of (found_of replay.now))) }
    ensures complete { (request : ReplayRequest) → AskReplay (rows_of (found_of replay.now)) request → IsSome result }
{
    Some(Request::Replay(ReplayRequest {
        trace: replay.get_str("TRACE")?,
    }))
}

/// What `show` is asked to do, by the values of its options.
fn show_request<'a>(show: &ArgMatches<'a>) -> Option<Request<'a>>
    ensures bounds { IfSome result MayBeAsked }
    ensures asked { IfSome result (IsAskedBy (codes "show") (rows_of (found_of show.now))) }
    ensures complete { (request : ShowRequest) → AskShow (rows_of (found_of show.now)) request → IsSome result }
{
    Some(Request::Show(ShowRequest {
        trace: show.get_str("TRACE")?,
        source: show.get_str("source"),
        svg: show.get_str("svg"),
        ascii: show.get_flag("ascii"),
        slots: show.get_flag("slots"),
    }))
}

/// The options that `step`, `run` and `search` all have, by their values.
fn options<'a>(matches: &ArgMatches<'a>) -> Option<RunOptions<'a>>
    ensures bounds { IfSome result KeepsBounds }
    ensures asked { IfSome result (AskOptions (rows_of (found_of matches.now))) }
    ensures complete { (options : RunOptions) → KeepsBounds options → AskOptions (rows_of (found_of matches.now)) options
        → IsSome result }
{
    settings(matches, matches.get_str("trace"))
}

/// The options that these and `races` all have, by their values, and this trace. A `--kconfig` that is left asks for
/// nothing: whoever reads the words replaces it by the options that it stands for.
fn settings<'a>(matches: &ArgMatches<'a>, trace: Option<&'a str>) -> Option<RunOptions<'a>>
    ensures bounds { IfSome result KeepsBounds }
    ensures asked { IfSome result (AskSettings (rows_of (found_of matches.now))) }
    ensures trace { IfSome result (λ options. options.trace ≡ trace.entry) }
    ensures complete { (options : RunOptions) → KeepsBounds options → AskSettings (rows_of (found_of matches.now)) options
        → IsSome result }
{
    if matches.get_str("kconfig").is_some() {
        return None;
    }
    let choices = choices_asked(matches)?;
    Some(RunOptions {
        places: matches.get_str("place")?,
        trace,
        slots: number(matches, "slots", SLOTS)? as usize,
        skip: number(matches, "skip", SKIP)?,
        randomize: matches.get_flag("randomize"),
        seed: number(matches, "seed", (0, u64::MAX))?,
        value_change_only: choices.value_change_only,
        plain_writes_atomic: choices.plain_writes_atomic,
        layout: layout(matches)?,
        turns: number(matches, "turns", TURNS)?,
        located: matches.get_flag("where"),
        unknown_origin: choice(matches.get_str("unknown-origin")),
    })
}

/// Two settings of KCSAN that are yes or no.
#[derive(Clone, Copy)]
pub(crate) struct Choices {
    /// Whether hits that leave the value as it was give no report.
    pub(crate) value_change_only: bool,
    /// Whether aligned plain writes count as marked.
    pub(crate) plain_writes_atomic: bool,
}

/// What these two settings are, by their options and `--strict`, which goes with neither of these.
fn choices_asked(matches: &ArgMatches<'_>) -> Option<Choices>
    ensures asked { IfSome result (AskChoices (rows_of (found_of matches.now))) }
    ensures complete { (choices : Choices) → AskChoices (rows_of (found_of matches.now)) choices → IsSome result }
{
    if is_given(matches, "strict") {
        return strict_choices(matches);
    }
    Some(Choices {
        value_change_only: choice(matches.get_str("value-change-only")),
        plain_writes_atomic: choice(matches.get_str("plain-writes-atomic")),
    })
}

/// Both are off with `--strict`, where the option of neither is given.
fn strict_choices(matches: &ArgMatches<'_>) -> Option<Choices>
    requires strict { IsGiven (rows_of (found_of matches.now)) (codes "strict") }
    ensures asked { IfSome result (AskChoices (rows_of (found_of matches.now))) }
    ensures complete { (choices : Choices) → AskChoices (rows_of (found_of matches.now)) choices → IsSome result }
{
    if matches.get_str("value-change-only").is_some() {
        return None;
    }
    if matches.get_str("plain-writes-atomic").is_some() {
        return None;
    }
    Some(Choices {
        value_change_only: false,
        plain_writes_atomic: false,
    })
}

/// What a setting is by the word of its option, if that is given, without `--strict`.
fn choice(word: Option<&str>) -> bool
    ensures { result ≡ choice_of (option_map (λ word. word.now) word.entry) false }
{
    match word {
        None => true,
        Some(word) => word == "yes",
    }
}

/// The number of an option, within its bounds.
fn number(matches: &ArgMatches<'_>, option: &str, bounds: (u64, u64)) -> Option<u64>
    ensures within { IfSome result (λ number. (bounds.0 ≤ number) × (number ≤ bounds.1)) }
    ensures asked { IfSome result (IsNumber (rows_of (found_of matches.now)) option.now) }
    ensures complete { (number : ℕ) → bounds.0 ≤ number → number ≤ bounds.1 → IsNumber (rows_of (found_of matches.now)) option.now number
        → IsSome result }
{
    let number = matches.get_one::<u64>(option)?;
    (bounds.0 <= number && number <= bounds.1).then_some(number)
}

/// The number of an option, within its bounds, if it is given.
fn number_if_given(
    matches: &ArgMatches<'_>,
    option: &str,
    bounds: (u64, u64),
) -> Option<Option<u64>>
    ensures within { IfSome result (λ given. IfSome given (λ number. (bounds.0 ≤ number) × (number ≤ bounds.1))) }
    ensures asked { IfSome result (IsNumberIfGiven (rows_of (found_of matches.now)) option.now) }
    ensures complete { (given : Option ℕ) → IfSome given (λ number. (bounds.0 ≤ number) × (number ≤ bounds.1))
        → IsNumberIfGiven (rows_of (found_of matches.now)) option.now given → IsSome result }
{
    match matches.get_str(option) {
        None => Some(None),
        Some(_) => Some(Some(number(matches, option, bounds)?)),
    }
}

/// How many bits a watch word is to have.
fn layout(matches: &ArgMatches<'_>) -> Option<Layout>
    ensures asked { IfSome result (IsLayout (rows_of (found_of matches.now)) (codes "word")) }
    ensures complete { (layout : Layout) → IsLayout (rows_of (found_of matches.now)) (codes "word") layout → IsSome result }
{
    let bits = matches.get_str("word")?;
    Some(if bits == "32" {
        Layout::W32
    } else {
        Layout::W64
    })
}

/// How races are to be printed.
fn format_asked(matches: &ArgMatches<'_>) -> Option<RacesFormat>
    ensures asked { IfSome result (IsFormat (rows_of (found_of matches.now)) (codes "format")) }
    ensures complete { (format : RacesFormat) → IsFormat (rows_of (found_of matches.now)) (codes "format") format → IsSome result }
{
    let name = matches.get_str("format")?;
    Some(if name == "json" {
        RacesFormat::Json
    } else {
        RacesFormat::Text
    })
}

/// How what a search of so many files finds is to be printed.
fn search_format_asked(search: &ArgMatches<'_>, files: usize) -> Option<SearchFormat>
    requires { files ≡ length (words_of (codes "FILE") (rows_of (found_of search.now))) }
    ensures bounds { IfSome result KeepsPart }
    ensures asked { IfSome result (AskFormat (rows_of (found_of search.now))) }
    ensures complete { (format : SearchFormat) → KeepsPart format → AskFormat (rows_of (found_of search.now)) format
        → IsSome result }
{
    let Some(text) = search.get_str("part") else {
        return Some(search_format_named(search));
    };
    if !goes_with_part(search, files) {
        return None;
    }
    part_of(text)
}

/// How what a search finds is to be printed, by the value of `--format`.
fn search_format_named(search: &ArgMatches<'_>) -> SearchFormat
    ensures part { KeepsPart result }
    ensures named { IsSearchFormat (rows_of (found_of search.now)) (codes "format") result }
{
    match search.get_str("format").unwrap_or("text") {
        "json" => SearchFormat::Json,
        "csv" => SearchFormat::Csv,
        "herd" => SearchFormat::Herd,
        _ => SearchFormat::Text,
    }
}

/// Whether a part goes with what stands beside it, but for `--trace`, of so many files.
fn goes_with_part(search: &ArgMatches<'_>, files: usize) -> bool
    requires { files ≡ length (words_of (codes "FILE") (rows_of (found_of search.now))) }
    ensures { IsTrue result ↔ GoesWithPart (rows_of (found_of search.now)) }
{
    if files != 1 || has_value(search, "switches", "all") || is_output_asked(search) {
        return false;
    }
    search.get_str("format").unwrap_or("json") == "json"
}

/// Whether `--where` or `--settings` is given.
fn is_output_asked(search: &ArgMatches<'_>) -> bool
    ensures { IsTrue result ↔ (IsGiven (rows_of (found_of search.now)) (codes "where")
        ⊎ IsGiven (rows_of (found_of search.now)) (codes "settings")) }
{
    is_given(search, "where") || is_given(search, "settings")
}

/// The part of a search that a text names, within its bounds.
fn part_of(text: &str) -> Option<SearchFormat>
    ensures bounds { IfSome result KeepsPart }
    ensures asked { IfSome result (NamesPart text.now) }
    ensures complete { (format : SearchFormat) → KeepsPart format → NamesPart text.now format → IsSome result }
{
    let (part, parts) = text.split_once('/')?;
    part_within(number_of(part)?, number_of(parts)?)
}

/// A part with this number of so many parts, within its bounds.
fn part_within(part: u64, parts: u64) -> Option<SearchFormat>
    ensures bounds { IfSome result KeepsPart }
    ensures is { IfSome result (λ format. format ≡ SearchFormat.Part part parts) }
    ensures complete { KeepsPart (SearchFormat.Part part parts) → IsSome result }
{
    let within = 1 <= part && part <= parts && parts <= PARTS;
    within.then_some(SearchFormat::Part { part, parts })
}

/// The number that a text is.
fn number_of(text: &str) -> Option<u64>
    ensures asked { IfSome result (SpellsNumber text.now) }
    ensures complete { (number : ℕ) → SpellsNumber text.now number → result ≡ Some number }
{
    text.parse::<u64>().ok()
}
