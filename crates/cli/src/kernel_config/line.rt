//! What one line of a configuration says of a setting.

ghost use Rattle.std.specs.Prelude.{◌≡◌, ◌++◌, ◌↔◌, IsTrue, codes, option_map};
ghost use Rattle.cli.specs.kernel_config.Line as spec;
ghost use Rattle.cli.specs.kernel_config.Line.{unset_line};

/// The value of a line `NAME=VALUE` of this name.
fn assigned<'a>(line: &'a str, name: &str) -> Option<&'a str>
    ensures { option_map (λ value. value.now) result ≡ spec.assigned name.now line.now }
{
    match line.strip_prefix(name) {
        Some(rest) => rest.strip_prefix("="),
        None => None,
    }
}

/// The text is `NAME is not set`, of this name.
fn names_unset(text: &str, name: &str) -> bool
    ensures { IsTrue result ↔ (text.now ≡ name.now ++ codes " is not set") }
{
    match text.strip_prefix(name) {
        Some(rest) => rest == " is not set",
        None => false,
    }
}

/// The line is `# NAME is not set`, of this name.
fn is_unset(line: &str, name: &str) -> bool
    ensures { IsTrue result ↔ (line.now ≡ unset_line name.now) }
{
    match line.strip_prefix("# ") {
        Some(rest) => names_unset(rest, name),
        None => false,
    }
}

/// What a line says of the setting of this name: the value of `NAME=VALUE`, and `n` where it is `# NAME is not set`.
pub(crate) fn said<'a>(line: &'a str, name: &str) -> Option<&'a str>
    ensures { option_map (λ value. value.now) result ≡ spec.said name.now line.now }
{
    if let Some(value) = assigned(line, name) {
        return Some(value);
    }
    if is_unset(line, name) {
        Some("n")
    } else {
        None
    }
}
