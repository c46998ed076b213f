//! The arguments of a command as the entries of a table, and what clap makes of them.

ghost use Rattle.std.specs.Prelude.{◌≡◌, IfOk, Option, Some};
ghost use Rattle.cli.specs.Tables.{listed, parser_of, with_default, with_entries, with_entry, with_letter, with_parser, words_rule_of};
ghost use Rattle.cli.specs.Words.{IsArg, text_rule};
ghost use Rattle.clap.specs.Words.{App, Rule, app_of, new_rule};

use crate::program::Names;
use clap::builder::ValueParser;
use clap::{Arg, ArgAction, Command};
use cli_help::Help;
use std::alloc::{AllocError, Global};

/// An entry of a command's table.
#[derive(Clone, Copy)]
pub enum Entry {
    /// The heading under which help lists the arguments behind it.
    Heading(&'static str),
    /// An argument that is no option: its name, how many words it takes, and what help says of it.
    Words(&'static str, Words, Help),
    /// An option that stands alone: its name, and what help says of it.
    Flag(&'static str, Help),
    /// An option with a value: its name, the letter that it also goes by, what the value has to be, what it is where
    /// the option isn't given, and what help says of it.
    Value(&'static str, Option<char>, Kind, Option<&'static str>, Help),
}

/// How many words an argument takes.
#[derive(Clone, Copy)]
pub enum Words {
    /// One.
    One,
    /// One at least.
    Several,
    /// Any number, or none.
    Any,
}

/// What a value has to be.
#[derive(Clone, Copy)]
pub enum Kind {
    /// Any text, which help calls so.
    Text(&'static str),
    /// A number within these bounds.
    Number((u64, u64)),
    /// One of the names of a list. What help says of the option has them.
    Name(NameList),
}

/// A list of names.
#[derive(Clone, Copy)]
pub enum NameList {
    /// How many bits a watch word can have.
    Sizes,
    /// How races can be printed.
    Formats,
    /// How what a search finds can be printed.
    SearchFormats,
    /// What a setting that is on or off can be.
    Choices,
    /// When the text that is printed is coloured.
    Colors,
}

/// A command with the arguments of a table as well. Want of memory is passed on.
pub(crate) fn with_entries<'a>(
    alloc: Global,
    command: Result<Command<'a>, AllocError>,
    entries: &[Entry],
    names: Names,
) -> Result<Command<'a>, AllocError>
    ensures { (app : App) → IfOk command.entry (λ before. app_of before ≡ app)
        → IfOk result (λ more. app_of more ≡ with_entries names app entries.entry.now) }
{
    let mut command = command?;
    for entry in entries {
        command = with_entry(alloc, command, entry, names)?;
    }
    Ok(command)
}

/// A command with one more entry.
fn with_entry<'a>(
    alloc: Global,
    command: Command<'a>,
    entry: &Entry,
    names: Names,
) -> Result<Command<'a>, AllocError>
    ensures { IfOk result (λ more. app_of more ≡ with_entry names (app_of command.entry) entry.now) }
{
    match *entry {
        Entry::Heading(heading) => Ok(command.next_help_heading(heading)),
        Entry::Words(name, words, help) => command.arg(words_argument(alloc, name, words, help)),
        Entry::Flag(name, help) => {
            command.arg(explained(alloc, name, ArgAction::SetTrue, help).long(name))
        }
        Entry::Value(name, letter, kind, default, help) => {
            let option = with_parser(valued(alloc, name, kind, help), parser_of(kind, names));
            command.arg(with_letter(defaulted(option, default), letter))
        }
    }
}

/// An argument with what help says of it, and with what becomes of the values that it takes.
fn explained<'a>(alloc: Global, name: &'a str, action: ArgAction, help: Help) -> Arg<'a>
    ensures { IsArg (record (new_rule name.entry.now) { action = Some action }) result }
{
    Arg::new(alloc, name)
        .help(help.brief)
        .long_help(help.full)
        .action(action)
}

/// An argument that takes words, and is no option.
fn words_argument<'a>(alloc: Global, name: &'a str, words: Words, help: Help) -> Arg<'a>
    ensures { IsArg (words_rule_of words name.entry.now) result }
{
    match words {
        Words::One => explained(alloc, name, ArgAction::Set, help).required(true),
        Words::Several => explained(alloc, name, ArgAction::Append, help).required(true),
        Words::Any => explained(alloc, name, ArgAction::Append, help),
    }
}

/// An option that takes a value of a kind. What help says of the option has the names that the value can be.
fn valued<'a>(alloc: Global, name: &'a str, kind: Kind, help: Help) -> Arg<'a>
    ensures { IsArg (text_rule name.entry.now) result }
{
    explained(alloc, name, ArgAction::Set, help)
        .long(name)
        .value_name(called(kind))
        .hide_possible_values(true)
}

/// What help calls a value of a kind.
fn called(kind: Kind) -> &'static str {
    match kind {
        Kind::Text(name) => name,
        Kind::Number(_) => "N",
        Kind::Name(NameList::Sizes) => "BITS",
        Kind::Name(NameList::Choices) => "yes|no",
        Kind::Name(NameList::Colors) => "WHEN",
        Kind::Name(_) => "FORMAT",
    }
}

/// What checks a value of a kind, if something does.
fn parser_of<'a>(kind: Kind, names: Names) -> Option<ValueParser<'a>>
    ensures { result ≡ parser_of names kind }
{
    match kind {
        Kind::Text(_) => None,
        Kind::Number((low, high)) => Some(ValueParser::Unsigned(low, high)),
        Kind::Name(list) => Some(ValueParser::Names(listed(list, names))),
    }
}

/// The names of a list.
fn listed(list: NameList, names: Names) -> &'static [&'static str]
    ensures { result ≡ listed names list }
{
    match list {
        NameList::Sizes => names.sizes,
        NameList::Formats => names.formats,
        NameList::SearchFormats => names.search_formats,
        NameList::Choices => names.choices,
        NameList::Colors => names.colors,
    }
}

/// An option whose value is checked, if something checks it.
fn with_parser<'a>(option: Arg<'a>, parser: Option<ValueParser<'a>>) -> Arg<'a>
    ensures { (rule : Rule) → IsArg rule option.entry → IsArg (with_parser parser.entry rule) result }
{
    match parser {
        None => option,
        Some(parser) => option.value_parser(parser),
    }
}

/// An option that has a value where it isn't given, if there is one. Help doesn't say that it is empty.
fn defaulted<'a>(option: Arg<'a>, default: Option<&'a str>) -> Arg<'a>
    ensures { (rule : Rule) → IsArg rule option.entry → IsArg (with_default default.entry rule) result }
{
    match default {
        None => option,
        Some(default) => option
            .default_value(default)
            .hide_default_value(default.is_empty()),
    }
}

/// An argument that also goes by a letter, if there is one.
fn with_letter<'a>(argument: Arg<'a>, letter: Option<char>) -> Arg<'a>
    ensures { (rule : Rule) → IsArg rule argument.entry → IsArg (with_letter letter rule) result }
{
    match letter {
        None => argument,
        Some(letter) => argument.short(letter),
    }
}
