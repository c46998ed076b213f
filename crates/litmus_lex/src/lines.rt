//! Lines of a text, and columns in them.

ghost use Rattle.std.specs.Prelude.{◌≡◌, ◌≤◌, length};
ghost use Rattle.litmus_lex.specs.Lines.{column_at, line_at};

/// The line of a place: 1 plus the number of LF before it.
pub fn line_of(text: &[u8], at: usize) -> usize
    requires { at ≤ length text.now }
    ensures { result ≡ line_at text.now at }
{
    1 + text[..at].iter().filter(|byte| **byte == b'\n').count()
}

/// The column of a place: 1 plus the number of bytes before it in its line. A tab counts as one.
pub fn column_of(text: &[u8], at: usize) -> usize
    requires { at ≤ length text.now }
    ensures { result ≡ column_at text.now at }
{
    let before = &text[..at];
    let mut column = 1;
    for byte in before {
        if *byte == b'\n' {
            column = 1;
        } else {
            column += 1;
        }
    }
    column
}
