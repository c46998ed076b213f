//! The settings of KCSAN that this program has too, and those that it hasn't.

ghost use Rattle.std.specs.Prelude.{◌≡◌, Some, false, if◌then◌else◌};
ghost use Rattle.cli.specs.kernel_config.Config.{IsSaidIn};

use crate::kernel_config::setting::{is_set, switch, value};

/// The settings of KCSAN that mean nothing to this program.
pub const MEANINGLESS: [&str; 7] = [
    "CONFIG_KCSAN_WEAK_MEMORY",
    "CONFIG_KCSAN_PERMISSIVE",
    "CONFIG_KCSAN_INTERRUPT_WATCHER",
    "CONFIG_KCSAN_IGNORE_ATOMICS",
    "CONFIG_KCSAN_UDELAY_TASK",
    "CONFIG_KCSAN_UDELAY_INTERRUPT",
    "CONFIG_KCSAN_DELAY_RANDOMIZE",
];

/// What a configuration says of the settings of KCSAN that this program has too. A number is the text that stands there.
#[derive(Clone, Copy)]
pub struct KernelConfig<'a> {
    /// Whether only hits that change the value are reported.
    pub value_change_only: Option<bool>,
    /// Whether aligned plain writes count as marked.
    pub plain_writes_atomic: Option<bool>,
    /// How many accesses are skipped between two that are watched.
    pub skip: Option<&'a str>,
    /// Whether skips are drawn at random.
    pub randomize: Option<bool>,
    /// How many watchpoints there are.
    pub slots: Option<&'a str>,
    /// Whether a change of a value that no other access is known to have made is reported.
    pub unknown_origin: Option<bool>,
}

/// What a configuration says of a setting that the kernel does without where `KCSAN_STRICT` is set.
fn loose(strict: bool, said: Option<bool>) -> Option<bool>
    ensures { result ≡ (if strict then Some false else said) }
{
    if strict { Some(false) } else { said }
}

impl<'a> KernelConfig<'a> {
    /// What a text says.
    pub fn read(text: &'a str) -> KernelConfig<'a>
        ensures { IsSaidIn text.now result }
    {
        let strict = is_set(text, "CONFIG_KCSAN_STRICT");
        let change_only = switch(text, "CONFIG_KCSAN_REPORT_VALUE_CHANGE_ONLY");
        let atomic = switch(text, "CONFIG_KCSAN_ASSUME_PLAIN_WRITES_ATOMIC");
        KernelConfig {
            value_change_only: loose(strict, change_only),
            plain_writes_atomic: loose(strict, atomic),
            skip: value(text, "CONFIG_KCSAN_SKIP_WATCH"),
            randomize: switch(text, "CONFIG_KCSAN_SKIP_WATCH_RANDOMIZE"),
            slots: value(text, "CONFIG_KCSAN_NUM_WATCHPOINTS"),
            unknown_origin: switch(text, "CONFIG_KCSAN_REPORT_RACE_UNKNOWN_ORIGIN"),
        }
    }
}
