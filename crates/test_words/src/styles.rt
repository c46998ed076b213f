//! Texts whose lines are coloured.

use crate::same::same_at;
use cli::colors::colored;

/// A text, and the same in colours. What a style begins with has to stand at the front of a line, and whole.
const TEXTS: [(&str, &str); 10] = [
    ("", ""),
    ("\n\n", "\n\n"),
    (
        "====\nBUG: KCSAN: data-race in P0 / P1\n\n",
        "====\n\x1b[1;31mBUG: KCSAN: data-race in P0 / P1\x1b[0m\n\n",
    ),
    (
        "reported     x\n             y\n",
        "\x1b[1;31mreported     x\x1b[0m\n             y\n",
    ),
    (
        "missed       x\nrace         y",
        "\x1b[1;35mmissed       x\x1b[0m\n\x1b[1;35mrace         y\x1b[0m",
    ),
    (
        "not settled  x\nno race      y\n",
        "\x1b[33mnot settled  x\x1b[0m\n\x1b[32mno race      y\x1b[0m\n",
    ),
    (
        "apart        x\ntrace accepted: 2\n",
        "\x1b[32mapart        x\x1b[0m\n\x1b[32mtrace accepted: 2\x1b[0m\n",
    ),
    (
        "== t\naccess  at\nvariable  type\nlimit  used",
        "\x1b[1m== t\x1b[0m\n\x1b[1maccess  at\x1b[0m\n\x1b[1mvariable  type\x1b[0m\n\x1b[1mlimit  used\x1b[0m",
    ),
    (
        "race at unknown origin\n BUG: KCSAN: \nreported\n==",
        "race at unknown origin\n BUG: KCSAN: \nreported\n==",
    ),
    ("\x1b[1mapart  \x1b", "\x1b[1mapart  \x1b"),
];

#[test]
fn lines_are_colored_by_how_they_begin(rt: HostRuntime) {
    for (text, wanted) in TEXTS {
        let found = colored(rt.alloc(), text.as_bytes()).expect(&rt, "a text");
        same_at(&rt, text, found.as_slice(), wanted.as_bytes());
    }
}
