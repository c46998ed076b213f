//! The words that the program was started with, and what files that they name add to them: lists of litmus files, and
//! configurations of kernels.

ghost use Rattle.std.specs.Prelude.{◌≡◌, ◌==◌, bytes_eq, string_bytes};
ghost use Rattle.std.specs.List.{before_first, list_any};

use cli::kernel_config::{KernelConfig, MEANINGLESS, is_set};
use std::alloc::AllocError;
use std::{env, fs, io};

/// The commands that take several files.
const COMMANDS: [&str; 4] = ["search", "join", "races", "check"];

/// The commands that take the configuration of a kernel.
const CONFIGURED: [&str; 4] = ["step", "run", "search", "races"];

/// The option that names a file with the configuration of a kernel.
const KCONFIG: &str = "--kconfig";

/// Why there are no words.
#[derive(Drop)]
pub enum WordsFault {
    OutOfMemory,
    /// One of them is no text.
    NotText,
    /// The list of this name can't be read.
    NoList(String),
    /// The configuration of this name can't be read.
    NoConfig(String),
}

impl From<AllocError> for WordsFault {
    fn from(_error: AllocError) -> WordsFault {
        WordsFault::OutOfMemory
    }
}

/// The path at which a file of this name is read: `-` is standard input.
pub fn input_path(name: &str) -> &str {
    if name == "-" { "/dev/stdin" } else { name }
}

/// What an error says of the words.
fn fault_of(error: &io::Error) -> WordsFault {
    match error.kind() {
        io::ErrorKind::OutOfMemory => WordsFault::OutOfMemory,
        _ => WordsFault::NotText,
    }
}

/// Adds a word.
fn add(rt: &HostRuntime, words: &mut Vec<String>, word: &str) -> Result<(), AllocError> {
    words.push(String::from_str(rt.alloc(), word)?)?;
    Ok(())
}

/// Adds the files that a list names, one a line. Empty lines name none.
fn add_listed(rt: &HostRuntime, words: &mut Vec<String>, list: &str) -> Result<(), WordsFault> {
    let text = match fs::read_to_string(rt, input_path(list)) {
        Ok(text) => text,
        Err(error) if error.kind() == io::ErrorKind::OutOfMemory => {
            return Err(WordsFault::OutOfMemory);
        }
        Err(_) => return Err(WordsFault::NoList(String::from_str(rt.alloc(), list)?)),
    };
    for line in text.as_str().lines() {
        if !line.is_empty() {
            add(rt, words, line)?;
        }
    }
    Ok(())
}

/// The words, where each `@LIST` stands for the files that the list names.
fn with_lists(rt: &HostRuntime, given: &[String]) -> Result<Vec<String>, WordsFault> {
    let mut words = Vec::new(rt.alloc());
    for word in given {
        match word.as_str().strip_prefix("@") {
            Some(list) => add_listed(rt, &mut words, list)?,
            None => add(rt, &mut words, word.as_str())?,
        }
    }
    Ok(words)
}

/// The text of the configuration in a file. Bytes of it that are no text are replaced: no setting of KCSAN has any.
fn config_text(rt: &HostRuntime, file: &str) -> Result<String, WordsFault> {
    match fs::read(rt, input_path(file)) {
        Ok(bytes) => Ok(String::from_utf8_lossy(rt.alloc(), &bytes)?),
        Err(error) if error.kind() == io::ErrorKind::OutOfMemory => Err(WordsFault::OutOfMemory),
        Err(_) => Err(WordsFault::NoConfig(String::from_str(rt.alloc(), file)?)),
    }
}

/// The word is this option, alone or with a value behind `=`.
fn is_option(word: &str, option: &str) -> bool
    ensures { result ≡ bytes_eq (before_first (λ byte. byte == 61) word.now) option.now }
{
    match word.split_once('=') {
        Some((name, _)) => name == option,
        None => word == option,
    }
}

/// The option stands among the words.
fn has_option(words: &[String], option: &str) -> bool
    ensures { result ≡ list_any (λ word. bytes_eq (before_first (λ byte. byte == 61) (string_bytes word)) option.now) words.now }
{
    words.iter().any(|word| is_option(word.as_str(), option))
}

/// Adds an option with its value, if there is one, unless the option was given.
fn add_option(
    rt: &HostRuntime,
    words: &mut Vec<String>,
    given: &[String],
    option: &str,
    value: Option<&str>,
) -> Result<(), AllocError> {
    let Some(value) = value else {
        return Ok(());
    };
    if has_option(given, option) {
        return Ok(());
    }
    add(rt, words, option)?;
    add(rt, words, value)
}

/// The value of an option that is on or off.
fn yes_or_no(on: Option<bool>) -> Option<&'static str> {
    match on {
        Some(true) => Some("yes"),
        Some(false) => Some("no"),
        None => None,
    }
}

/// Adds the options that a configuration says, unless they were given. `--strict` gives the first two of them.
fn add_options(
    rt: &HostRuntime,
    words: &mut Vec<String>,
    given: &[String],
    config: &KernelConfig<'_>,
) -> Result<(), AllocError> {
    if !has_option(given, "--strict") {
        let change_only = yes_or_no(config.value_change_only);
        add_option(rt, words, given, "--value-change-only", change_only)?;
        let atomic = yes_or_no(config.plain_writes_atomic);
        add_option(rt, words, given, "--plain-writes-atomic", atomic)?;
    }
    add_option(rt, words, given, "--skip", config.skip)?;
    let unknown = yes_or_no(config.unknown_origin);
    add_option(rt, words, given, "--unknown-origin", unknown)?;
    if config.randomize == Some(true) && !has_option(given, "--randomize") {
        add(rt, words, "--randomize")?;
    }
    add_option(rt, words, given, "--slots", config.slots)
}

/// Says on standard error which settings of a configuration mean nothing here.
fn tell_meaningless(rt: &HostRuntime, text: &str) {
    for name in MEANINGLESS {
        if is_set(text, name) {
            let _ = eprintln!(rt; "kcsan_litmus: {name} has no meaning here");
        }
    }
}

/// Adds the options that the configuration in a file says, unless they were given.
fn add_config(
    rt: &HostRuntime,
    words: &mut Vec<String>,
    given: &[String],
    file: &str,
) -> Result<(), WordsFault> {
    let text = config_text(rt, file)?;
    let config = KernelConfig::read(text.as_str());
    add_options(rt, words, given, &config)?;
    tell_meaningless(rt, text.as_str());
    Ok(())
}

/// The words, where each `--kconfig FILE` stands for the options that the configuration in the file says.
fn with_configs(rt: &HostRuntime, given: &[String]) -> Result<Vec<String>, WordsFault> {
    let mut words = Vec::new(rt.alloc());
    let mut is_file = false;
    for word in given {
        let word = word.as_str();
        if is_file {
            add_config(rt, &mut words, given, word)?;
            is_file = false;
        } else if word == KCONFIG {
            is_file = true;
        } else if let Some(file) = word.strip_prefix("--kconfig=") {
            add_config(rt, &mut words, given, file)?;
        } else {
            add(rt, &mut words, word)?;
        }
    }
    if is_file {
        // No file comes: the words make no sense, which is said of them with all others.
        add(rt, &mut words, KCONFIG)?;
    }
    Ok(words)
}

/// The words are of one of these commands.
pub fn are_of(words: &[String], commands: &[&str]) -> bool {
    match words.get(1) {
        Some(command) => commands.contains(&command.as_str()),
        None => false,
    }
}

/// The words that the program was started with, as they were given.
fn given(rt: &HostRuntime) -> io::Result<Vec<String>> {
    let words = env::args(rt)?.collect(rt.alloc())?;
    Ok(words)
}

/// The words that the program was started with. Of a command that takes several files each `@LIST` stands for the
/// files that LIST names, one a line, so that a list may be longer than a command line. Of one that runs a program
/// `--kconfig FILE` stands for the options that the kernel's configuration in FILE says, but for those that are given.
pub fn words(rt: &HostRuntime) -> Result<Vec<String>, WordsFault> {
    let mut words = match given(rt) {
        Ok(words) => words,
        Err(error) => return Err(fault_of(&error)),
    };
    if are_of(&words, &CONFIGURED) {
        words = with_configs(rt, &words)?;
    }
    if are_of(&words, &COMMANDS) {
        words = with_lists(rt, &words)?;
    }
    Ok(words)
}
