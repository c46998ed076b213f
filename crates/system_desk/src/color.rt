//! Whether the text on standard output is coloured.

use crate::words::are_of;
use std::env;
use std::env::VarError;
use std::io::IsTerminal;

/// The commands whose text is coloured.
const COLORED: [&str; 7] = ["step", "run", "search", "join", "races", "replay", "check"];

/// The value of the last of these options among the words. Those behind `--` are no options.
fn last_value<'a>(words: &'a [String], option: &str) -> Option<&'a str> {
    let mut last = None;
    let mut is_value = false;
    for word in words {
        let word = word.as_str();
        if is_value {
            last = Some(word);
            is_value = false;
        } else if word == "--" {
            return last;
        } else if word == option {
            is_value = true;
        } else if let Some((name, value)) = word.split_once('=') {
            if name == option {
                last = Some(value);
            }
        }
    }
    last
}

/// What the words ask for is printed as text, and not in a format for programs, as a part of a search is.
fn are_of_text(words: &[String]) -> bool {
    if last_value(words, "--part").is_some() {
        return false;
    }
    match last_value(words, "--format") {
        Some(format) => format == "text",
        None => true,
    }
}

/// NO_COLOR is set, and not empty (no-color.org).
fn is_unwanted(rt: &HostRuntime) -> bool {
    match env::var(rt, "NO_COLOR") {
        Ok(value) => !value.is_empty(),
        Err(VarError::NotPresent) => false,
        Err(VarError::NotUnicode | VarError::OutOfMemory) => true,
    }
}

/// The terminal has no escapes, as TERM says.
fn is_dumb(rt: &HostRuntime) -> bool {
    match env::var(rt, "TERM") {
        Ok(terminal) => terminal.as_str() == "dumb",
        Err(_) => false,
    }
}

/// Whether the text that these words ask for is coloured: as `--color` says, or else, and by `auto`, where standard
/// output is a terminal, NO_COLOR is unset or empty, and TERM isn't `dumb`. Other outputs than text never are.
pub fn is_colored(rt: &HostRuntime, words: &[String]) -> bool {
    if !are_of(words, &COLORED) || !are_of_text(words) {
        return false;
    }
    match last_value(words, "--color") {
        Some("always") => true,
        Some("never") => false,
        _ => rt.stdout().is_terminal() && !is_unwanted(rt) && !is_dumb(rt),
    }
}
