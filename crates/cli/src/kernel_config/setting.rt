//! What a whole configuration says of a setting.

ghost use Rattle.std.specs.Prelude.{◌≡◌, option_map};
ghost use Rattle.cli.specs.kernel_config.Setting as spec;
ghost use Rattle.cli.specs.kernel_config.Setting.{switch_in, value_in};

use crate::kernel_config::line::said;

/// What a configuration says of the setting of this name: its last line that says anything of it counts, as for the
/// kernel's own build.
pub(crate) fn value<'a>(text: &'a str, name: &str) -> Option<&'a str>
    ensures { option_map (λ value. value.now) result ≡ value_in name.now text.now }
{
    let mut value = None;
    for line in text.lines() {
        value = said(line, name).or(value);
    }
    value
}

/// Whether a value is `y` or `n`; of others nothing.
fn switch_of(value: &str) -> Option<bool>
    ensures { result ≡ spec.switch_of value.now }
{
    if value == "y" {
        Some(true)
    } else if value == "n" {
        Some(false)
    } else {
        None
    }
}

/// Whether a configuration says `y` or `n` of the setting of this name.
pub(crate) fn switch(text: &str, name: &str) -> Option<bool>
    ensures { result ≡ switch_in name.now text.now }
{
    match value(text, name) {
        Some(value) => switch_of(value),
        None => None,
    }
}

/// Whether a configuration gives the setting of this name a value other than `n`.
pub fn is_set(text: &str, name: &str) -> bool
    ensures { result ≡ spec.is_set name.now text.now }
{
    match value(text, name) {
        Some(value) => value != "n",
        None => false,
    }
}
