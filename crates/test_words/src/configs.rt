//! What is read of a kernel's configuration.

use crate::same::{same, same_at};
use cli::kernel_config::{KernelConfig, is_set};

/// A part of a configuration, as the kernel's build writes it.
const WRITTEN: &str = "\
    # CONFIG_KASAN is not set\n\
    CONFIG_HAVE_ARCH_KCSAN=y\n\
    CONFIG_KCSAN=y\n\
    # CONFIG_KCSAN_VERBOSE is not set\n\
    CONFIG_KCSAN_NUM_WATCHPOINTS=64\n\
    CONFIG_KCSAN_UDELAY_TASK=80\n\
    CONFIG_KCSAN_SKIP_WATCH=4000\n\
    CONFIG_KCSAN_SKIP_WATCH_RANDOMIZE=y\n\
    # CONFIG_KCSAN_INTERRUPT_WATCHER is not set\n\
    CONFIG_KCSAN_REPORT_ONCE_IN_MS=3000\n\
    CONFIG_KCSAN_REPORT_RACE_UNKNOWN_ORIGIN=y\n\
    # CONFIG_KCSAN_STRICT is not set\n\
    CONFIG_KCSAN_REPORT_VALUE_CHANGE_ONLY=y\n\
    # CONFIG_KCSAN_ASSUME_PLAIN_WRITES_ATOMIC is not set\n\
    # CONFIG_KCSAN_PERMISSIVE is not set\n\
    CONFIG_LOCALVERSION=\"CONFIG_KCSAN_SKIP_WATCH=7\"\n";

/// What a configuration says of value-change-only, atomic plain writes, random skips and unknown origins.
fn switches(config: KernelConfig<'_>) -> [Option<bool>; 4] {
    [
        config.value_change_only,
        config.plain_writes_atomic,
        config.randomize,
        config.unknown_origin,
    ]
}

/// What it says of skips and slots.
fn numbers<'a>(config: KernelConfig<'a>) -> [Option<&'a str>; 2] {
    [config.skip, config.slots]
}

#[test]
fn settings_are_read(rt: HostRuntime) {
    let config = KernelConfig::read(WRITTEN);
    let wanted = [Some(true), Some(false), Some(true), Some(true)];
    same(&rt, switches(config), wanted);
    same(&rt, numbers(config), [Some("4000"), Some("64")]);
    for (name, wanted) in [
        ("CONFIG_KCSAN_UDELAY_TASK", true),
        ("CONFIG_KCSAN_INTERRUPT_WATCHER", false),
        ("CONFIG_KCSAN_WEAK_MEMORY", false),
    ] {
        same_at(&rt, name, is_set(WRITTEN, name), wanted);
    }
}

#[test]
fn the_last_line_decides(rt: HostRuntime) {
    let text =
        "CONFIG_KCSAN_SKIP_WATCH=1\r\nCONFIG_KCSAN_SKIP_WATCH=2\n#CONFIG_KCSAN_SKIP_WATCH=3\n\
        CONFIG_KCSAN_REPORT_VALUE_CHANGE_ONLY=y\n# CONFIG_KCSAN_REPORT_VALUE_CHANGE_ONLY is not set\n\
        CONFIG_KCSAN_ASSUME_PLAIN_WRITES_ATOMIC=m";
    let config = KernelConfig::read(text);
    same(&rt, switches(config), [Some(false), None, None, None]);
    same(&rt, numbers(config), [Some("2"), None]);
}

#[test]
fn a_strict_kernel_has_neither(rt: HostRuntime) {
    let config = KernelConfig::read("CONFIG_KCSAN_STRICT=y\n");
    same(
        &rt,
        switches(config),
        [Some(false), Some(false), None, None],
    );
    same(&rt, switches(KernelConfig::read("")), [None; 4]);
}
