//! The commands that the program knows, with their options.

ghost use Rattle.std.specs.Prelude.{◌≡◌, IfOk, true};
ghost use Rattle.cli.specs.Words.{AreNames, IsProgram, check_app, join_app, races_app, replay_app, run_app, search_app, show_app, step_app};
ghost use Rattle.cli.specs.Words.{with_options, with_settings};
ghost use Rattle.clap.specs.Words.{App, app_of, new_app, with_subcommand};

use crate::arguments::Kind::{Name, Number, Text};
use crate::arguments::{Entry, NameList, Words, with_entries};
use crate::version::VERSION;
use clap::Command;
use cli_help as help;
use std::alloc::{AllocError, Global};

/// The fewest and the most runs.
pub(crate) const RUNS: (u64, u64) = (1, 100_000);

/// The fewest and the most loads of a delay.
pub(crate) const DELAY: (u64, u64) = (0, 1_000_000);

/// The fewest and the most runs side by side, and the fewest and the most threads of a search.
pub(crate) const JOBS: (u64, u64) = (1, 64);

/// The fewest and the most preemptions, where there are so many at most.
pub(crate) const AT_MOST: (u64, u64) = (0, 64);

/// Into how many parts a search is divided at most.
pub(crate) const PARTS: u64 = 65_536;

/// The fewest and the most schedules that a search may go through, or states.
pub(crate) const LIMIT: (u64, u64) = (1, 1_000_000_000);

/// After how many seconds a search stops.
pub(crate) const SECONDS: (u64, u64) = (1, 1_000_000);

/// The fewest and the most page slots.
pub(crate) const SLOTS: (u64, u64) = (3, 1024);

/// The fewest and the most accesses skipped between two that are watched.
pub(crate) const SKIP: (u64, u64) = (0, 1_000_000);

/// The fewest and the most failed tries of a wait.
pub(crate) const TURNS: (u64, u64) = (1, 1_000_000_000);

/// How many bits a watch word can have.
static BITS: [&str; 2] = ["64", "32"];

/// How races can be printed.
static FORMATS: [&str; 2] = ["text", "json"];

/// How what a search finds can be printed.
static SEARCH_FORMATS: [&str; 4] = ["text", "json", "csv", "herd"];

/// What a setting of KCSAN that is on or off can be.
static CHOICES: [&str; 2] = ["yes", "no"];

/// When the text that is printed can be coloured.
static COLORS: [&str; 3] = ["auto", "always", "never"];

/// The heading of options that say what `step` and `run` execute.
const RUN: &str = "Run";

/// The heading of options that say how far `search` and `races` go.
const SEARCH: &str = "Search";

/// The heading of options that say what is written.
const OUTPUT: &str = "Output";

/// The heading of KCSAN's settings.
const KCSAN: &str = "KCSAN";

/// Whether the text that is printed is coloured.
const COLOR: Entry = Entry::Value(
    "color",
    None,
    Name(NameList::Colors),
    Some("auto"),
    help::COLOR,
);

/// The file and the options of `step` alone.
static STEP_ENTRIES: [Entry; 3] = [
    Entry::Words("FILE", Words::One, help::FILE),
    Entry::Heading(RUN),
    Entry::Value("schedule", Some('s'), Text("S"), Some(""), help::SCHEDULE),
];

/// The file and the options of `run` alone.
static RUN_ENTRIES: [Entry; 7] = [
    Entry::Words("FILE", Words::One, help::FILE),
    Entry::Heading(RUN),
    Entry::Value("runs", Some('r'), Number(RUNS), Some("100"), help::RUNS),
    Entry::Value("delay", None, Number(DELAY), Some("64"), help::DELAY),
    Entry::Value("jobs", None, Number(JOBS), Some("1"), help::JOBS),
    Entry::Flag("stop-at-first", help::STOP_AT_FIRST),
    Entry::Flag("keep-going", help::KEEP_GOING),
];

/// The files and the options of `search` alone.
static SEARCH_ENTRIES: [Entry; 11] = [
    Entry::Words("FILE", Words::Several, help::FILES),
    Entry::Heading(OUTPUT),
    Entry::Value(
        "format",
        None,
        Name(NameList::SearchFormats),
        None,
        help::SEARCH_FORMAT,
    ),
    Entry::Flag("settings", help::SETTINGS),
    Entry::Heading(SEARCH),
    Entry::Value("switches", None, Text("N"), Some("2"), help::SWITCHES),
    Entry::Value("reduce", None, Name(NameList::Choices), None, help::REDUCE),
    Entry::Value("part", None, Text("I/N"), None, help::PART),
    Entry::Value("limit", None, Number(LIMIT), Some("1000000"), help::LIMIT),
    Entry::Value("seconds", None, Number(SECONDS), None, help::SECONDS),
    Entry::Value("jobs", None, Number(JOBS), Some("1"), help::SEARCH_JOBS),
];

/// The files and the options of `join`.
static JOIN_ENTRIES: [Entry; 5] = [
    Entry::Words("FILE", Words::Several, help::PARTS),
    Entry::Heading(OUTPUT),
    Entry::Flag("where", help::WHERE),
    Entry::Flag("settings", help::SETTINGS),
    COLOR,
];

/// The files and the options of `races` alone.
static RACES_ENTRIES: [Entry; 9] = [
    Entry::Words("FILE", Words::Several, help::FILES),
    Entry::Heading(OUTPUT),
    Entry::Value(
        "format",
        None,
        Name(NameList::Formats),
        Some("text"),
        help::FORMAT,
    ),
    Entry::Value("html", None, Text("PATH"), None, help::HTML),
    COLOR,
    Entry::Heading(SEARCH),
    Entry::Value(
        "limit",
        None,
        Number(LIMIT),
        Some("1000000"),
        help::RACES_LIMIT,
    ),
    Entry::Value("seconds", None, Number(SECONDS), None, help::RACES_SECONDS),
    Entry::Value("jobs", None, Number(JOBS), Some("1"), help::RACES_JOBS),
];

/// The file and the option of `replay`.
static REPLAY_ENTRIES: [Entry; 3] = [
    Entry::Words("TRACE", Words::One, help::REPLAYED),
    Entry::Heading(OUTPUT),
    COLOR,
];

/// The file and the options of `show`.
static SHOW_ENTRIES: [Entry; 6] = [
    Entry::Words("TRACE", Words::One, help::REPLAYED),
    Entry::Heading(OUTPUT),
    Entry::Value("source", None, Text("FILE"), None, help::SOURCE),
    Entry::Flag("slots", help::INDICES),
    Entry::Value("svg", Some('o'), Text("PATH"), None, help::SVG),
    Entry::Flag("ascii", help::ASCII),
];

/// The files and the options of `check`.
static CHECK_ENTRIES: [Entry; 11] = [
    Entry::Words("FILE", Words::Any, help::FILES),
    Entry::Heading(OUTPUT),
    Entry::Flag("print", help::PRINT),
    Entry::Flag("calls", help::CALLS),
    COLOR,
    Entry::Heading(RUN),
    Entry::Value(
        "schedule",
        Some('s'),
        Text("S"),
        Some(""),
        help::CHECK_SCHEDULE,
    ),
    Entry::Value("place", None, Text("LIST"), Some(""), help::PLACE),
    Entry::Heading(KCSAN),
    Entry::Value("slots", None, Number(SLOTS), Some("64"), help::SLOTS),
    Entry::Value("word", None, Name(NameList::Sizes), Some("64"), help::WORD),
];

/// The options that `step`, `run`, `search` and `races` share: the places and what a wait takes, under the heading that
/// the command is at, and KCSAN's settings.
static SETTINGS: [Entry; 13] = [
    Entry::Value("place", None, Text("LIST"), Some(""), help::PLACE),
    Entry::Value("turns", None, Number(TURNS), Some("1000000"), help::TURNS),
    Entry::Heading(KCSAN),
    Entry::Value("slots", None, Number(SLOTS), Some("64"), help::SLOTS),
    Entry::Value("skip", None, Number(SKIP), Some("0"), help::SKIP),
    Entry::Flag("randomize", help::RANDOMIZE),
    Entry::Value("seed", None, Number((0, u64::MAX)), Some("1"), help::SEED),
    Entry::Value(
        "value-change-only",
        None,
        Name(NameList::Choices),
        None,
        help::VALUE_CHANGE_ONLY,
    ),
    Entry::Value(
        "plain-writes-atomic",
        None,
        Name(NameList::Choices),
        None,
        help::PLAIN_WRITES_ATOMIC,
    ),
    Entry::Flag("strict", help::STRICT),
    Entry::Value(
        "unknown-origin",
        None,
        Name(NameList::Choices),
        None,
        help::UNKNOWN_ORIGIN,
    ),
    Entry::Value("kconfig", None, Text("FILE"), None, help::KCONFIG),
    Entry::Value("word", None, Name(NameList::Sizes), Some("64"), help::WORD),
];

/// The options that `step`, `run` and `search` share behind these.
static OUTPUT_OPTIONS: [Entry; 4] = [
    Entry::Heading(OUTPUT),
    Entry::Flag("where", help::WHERE),
    Entry::Value("trace", Some('o'), Text("PATH"), None, help::TRACE),
    COLOR,
];

/// The names that options take.
#[derive(Clone, Copy)]
pub struct Names {
    /// Those of `--word`.
    pub sizes: &'static [&'static str],
    /// Those of `--format` of `races`.
    pub formats: &'static [&'static str],
    /// Those of `--format` of `search`.
    pub search_formats: &'static [&'static str],
    /// Those of a setting that is on or off.
    pub choices: &'static [&'static str],
    /// Those of `--color`.
    pub colors: &'static [&'static str],
}

/// The names that options take.
fn option_names() -> Names
    ensures { AreNames result }
{
    let sizes = BITS.as_slice();
    let formats = FORMATS.as_slice();
    let search_formats = SEARCH_FORMATS.as_slice();
    let choices = CHOICES.as_slice();
    let colors = COLORS.as_slice();
    Names {
        sizes,
        formats,
        search_formats,
        choices,
        colors,
    }
}

/// The words that the program knows.
pub(crate) fn program<'a>(alloc: Global) -> Result<Command<'a>, AllocError>
    ensures { IfOk result IsProgram }
{
    let names = option_names();
    let top = named(alloc, "kcsan_litmus", help::PROGRAM, help::AFTER_PROGRAM);
    let command = Ok(top.version(VERSION).subcommand_required(true));
    let command = with_subcommand(command, step_command(alloc, names));
    let command = with_subcommand(command, run_command(alloc, names));
    let command = with_subcommand(command, search_command(alloc, names));
    let command = with_subcommand(command, join_command(alloc, names));
    let command = with_subcommand(command, races_command(alloc, names));
    let command = with_subcommand(command, replay_command(alloc, names));
    let command = with_subcommand(command, show_command(alloc, names));
    with_subcommand(command, check_command(alloc, names))
}

/// A command of this name, with what help says of it, and what all of the help says behind its options.
fn named<'a>(alloc: Global, name: &'a str, about: &'a str, after: &'a str) -> Command<'a>
    ensures { app_of result ≡ new_app name.entry.now }
{
    Command::new(alloc, name)
        .about(about)
        .after_long_help(after)
}

/// A command with one more subcommand. Want of memory is passed on.
fn with_subcommand<'a>(
    command: Result<Command<'a>, AllocError>,
    subcommand: Result<Command<'a>, AllocError>,
) -> Result<Command<'a>, AllocError>
    ensures { (app sub : App) → IfOk command.entry (λ before. app_of before ≡ app) → IfOk subcommand.entry (λ one. app_of one ≡ sub)
        → sub.top.is_plain ≡ true → IfOk result (λ more. app_of more ≡ with_subcommand app sub.top) }
{
    // By calls: where `?` drops a command, the proof follows the drop of all that is in it.
    let Ok(subcommand) = subcommand else {
        drop(command);
        return Err(AllocError);
    };
    let Ok(command) = command else {
        drop(subcommand);
        return Err(AllocError);
    };
    command.subcommand(subcommand)
}

/// `step`, with its file and its options.
fn step_command<'a>(alloc: Global, names: Names) -> Result<Command<'a>, AllocError>
    ensures { IfOk result (λ command. app_of command ≡ step_app names) }
{
    let command = Ok(named(alloc, "step", help::STEP, help::AFTER_STEP));
    let command = with_entries(alloc, command, &STEP_ENTRIES, names);
    with_options(alloc, command, names)
}

/// `run`, with its file and its options.
fn run_command<'a>(alloc: Global, names: Names) -> Result<Command<'a>, AllocError>
    ensures { IfOk result (λ command. app_of command ≡ run_app names) }
{
    let command = Ok(named(alloc, "run", help::RUN, help::AFTER_RUN));
    let command = with_entries(alloc, command, &RUN_ENTRIES, names);
    with_options(alloc, command, names)
}

/// `search`, with its files and its options.
fn search_command<'a>(alloc: Global, names: Names) -> Result<Command<'a>, AllocError>
    ensures { IfOk result (λ command. app_of command ≡ search_app names) }
{
    let command = Ok(named(alloc, "search", help::SEARCH, help::AFTER_SEARCH));
    let command = with_entries(alloc, command, &SEARCH_ENTRIES, names);
    with_options(alloc, command, names)
}

/// `join`, with its files and its options.
fn join_command<'a>(alloc: Global, names: Names) -> Result<Command<'a>, AllocError>
    ensures { IfOk result (λ command. app_of command ≡ join_app names) }
{
    let command = Ok(named(alloc, "join", help::JOIN, help::AFTER_JOIN));
    with_entries(alloc, command, &JOIN_ENTRIES, names)
}

/// `races`, with its files and its options.
fn races_command<'a>(alloc: Global, names: Names) -> Result<Command<'a>, AllocError>
    ensures { IfOk result (λ command. app_of command ≡ races_app names) }
{
    let command = Ok(named(alloc, "races", help::RACES, help::AFTER_RACES));
    let command = with_entries(alloc, command, &RACES_ENTRIES, names);
    with_settings(alloc, command, names)
}

/// `replay`, with its file and its option.
fn replay_command<'a>(alloc: Global, names: Names) -> Result<Command<'a>, AllocError>
    ensures { IfOk result (λ command. app_of command ≡ replay_app names) }
{
    let command = Ok(named(alloc, "replay", help::REPLAY, help::AFTER_REPLAY));
    with_entries(alloc, command, &REPLAY_ENTRIES, names)
}

/// `show`, with its file and its options.
fn show_command<'a>(alloc: Global, names: Names) -> Result<Command<'a>, AllocError>
    ensures { IfOk result (λ command. app_of command ≡ show_app) }
{
    let command = Ok(named(alloc, "show", help::SHOW, help::AFTER_SHOW));
    with_entries(alloc, command, &SHOW_ENTRIES, names)
}

/// `check`, with its files and its options.
fn check_command<'a>(alloc: Global, names: Names) -> Result<Command<'a>, AllocError>
    ensures { IfOk result (λ command. app_of command ≡ check_app names) }
{
    let command = Ok(named(alloc, "check", help::CHECK, help::AFTER_CHECK));
    with_entries(alloc, command, &CHECK_ENTRIES, names)
}

/// A command with the settings of a run. Want of memory is passed on.
fn with_settings<'a>(
    alloc: Global,
    command: Result<Command<'a>, AllocError>,
    names: Names,
) -> Result<Command<'a>, AllocError>
    ensures { (app : App) → IfOk command.entry (λ before. app_of before ≡ app)
        → IfOk result (λ more. app_of more ≡ with_settings app names) }
{
    with_entries(alloc, command, &SETTINGS, names)
}

/// A command with these, and with the options that say what is written. Want of memory is passed on.
fn with_options<'a>(
    alloc: Global,
    command: Result<Command<'a>, AllocError>,
    names: Names,
) -> Result<Command<'a>, AllocError>
    ensures { (app : App) → IfOk command.entry (λ before. app_of before ≡ app)
        → IfOk result (λ more. app_of more ≡ with_options app names) }
{
    let command = with_settings(alloc, command, names);
    with_entries(alloc, command, &OUTPUT_OPTIONS, names)
}
