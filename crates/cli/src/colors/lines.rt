//! A text whose lines are coloured by how they begin.

ghost use Rattle.std.specs.Prelude.{◌≡◌, ◌++◌, ◌∷◌, ℕ, IfOk, List, OnOk, map};
ghost use Rattle.cli.specs.colors.Colored as spec;
ghost use Rattle.cli.specs.colors.Colored.{row_of};

use std::alloc::{AllocError, Global};

/// How lines are coloured: what they begin with, and the parameters of the escape before them (SGR of ECMA-48).
#[derive(Clone, Copy)]
pub struct Style(pub &'static str, pub &'static str);

const BOLD: &str = "1";

const GREEN: &str = "32";

const YELLOW: &str = "33";

const BOLD_RED: &str = "1;31";

const BOLD_MAGENTA: &str = "1;35";

/// The parameters of the escape that ends what an escape has begun.
const END: &str = "0";

/// The styles: of the title of a report, of the verdicts of `races`, of the line on a trace, of the name of a file, and
/// of the heads of the tables of `check`.
static STYLES: [Style; 12] = [
    Style("BUG: KCSAN: ", BOLD_RED),
    Style("reported  ", BOLD_RED),
    Style("missed  ", BOLD_MAGENTA),
    Style("race  ", BOLD_MAGENTA),
    Style("not settled  ", YELLOW),
    Style("no race  ", GREEN),
    Style("apart  ", GREEN),
    Style("trace accepted: ", GREEN),
    Style("== ", BOLD),
    Style("access  ", BOLD),
    Style("variable  ", BOLD),
    Style("limit  ", BOLD),
];

/// Adds an escape with these parameters.
fn add_escape(text: &mut Vec<u8>, parameters: &str) -> Result<(), AllocError>
    ensures { OnOk result (text.new.items ≡ text.old.items ++ spec.escape parameters.now) }
{
    text.extend_from_slice(b"\x1b[")?;
    text.extend_from_slice(parameters.as_bytes())?;
    text.push(b'm')?;
    Ok(())
}

/// Adds a line between an escape with these parameters and its end.
fn add_styled(text: &mut Vec<u8>, parameters: &str, line: &[u8]) -> Result<(), AllocError>
    ensures { OnOk result (text.new.items ≡ text.old.items ++ spec.styled parameters.now line.now) }
{
    add_escape(text, parameters)?;
    text.extend_from_slice(line)?;
    add_escape(text, END)
}

/// Adds a line in the first of these styles that it begins as, if there is one.
fn add_line(text: &mut Vec<u8>, styles: &[Style], line: &[u8]) -> Result<(), AllocError>
    ensures { OnOk result (text.new.items ≡ text.old.items ++ spec.colored_line (map row_of styles.now) line.now) }
{
    match styles.split_first() {
        Some((style, others)) => {
            if line.starts_with(style.0.as_bytes()) {
                add_styled(text, style.1, line)
            } else {
                add_line(text, others, line)
            }
        }
        None => text.extend_from_slice(line),
    }
}

/// Goes on with a byte, behind the line so far: where it ends that line, the line is added in its style.
fn add_byte(
    text: &mut Vec<u8>,
    line: &mut Vec<u8>,
    styles: &[Style],
    byte: u8,
) -> Result<(), AllocError>
    ensures { (more : List ℕ) → OnOk result
        (text.new.items ++ spec.colored_from (map row_of styles.now) line.new.items more
        ≡ text.old.items ++ spec.colored_from (map row_of styles.now) line.old.items (byte ∷ more)) }
{
    if byte != b'\n' {
        line.push(byte)?;
        return Ok(());
    }
    add_line(text, styles, line)?;
    text.push(b'\n')?;
    line.clear();
    Ok(())
}

/// Adds a text behind the line so far, each line in its style.
fn add_text(
    text: &mut Vec<u8>,
    line: &mut Vec<u8>,
    styles: &[Style],
    added: &[u8],
) -> Result<(), AllocError>
    ensures { OnOk result
        (text.new.items ≡ text.old.items ++ spec.colored_from (map row_of styles.now) line.old.items added.now) }
{
    for byte in added {
        add_byte(text, line, styles, *byte)?;
    }
    add_line(text, styles, line)
}

/// A text whose lines are coloured by how they begin. All that is added are escapes, and nothing is taken away.
pub fn colored(alloc: Global, text: &[u8]) -> Result<Vec<u8>, AllocError>
    ensures { IfOk result (λ found. found.items ≡ spec.colored text.now) }
{
    let mut found = Vec::new(alloc);
    let mut line = Vec::new(alloc);
    add_text(&mut found, &mut line, &STYLES, text)?;
    Ok(found)
}
