//! Which texts of reports are printed.

ghost use Rattle.std.specs.Prelude.{◌≡◌};
ghost use Rattle.report_text.specs.printed_reports.Texts as spec;

/// How the text of a report begins in which no assertion has a part, up to the number of its first task.
static HEAD: [u8; 93] =
    *b"==================================================================\nBUG: KCSAN: data-race in P";

/// What stands behind the digits at the head of a text.
fn behind_digits(text: &[u8]) -> &[u8]
    ensures { result.now ≡ spec.behind_digits text.now }
{
    match text.split_first() {
        Some((byte, more)) if byte.is_ascii_digit() => behind_digits(more),
        _ => text,
    }
}

/// Whether a text is that of a report of unknown origin, of an access that asserts nothing: its title has no assertion,
/// and one task alone.
#[tactic(auto, unfolding(access_types::specs::ReportText::rule, crate::specs::printed_reports::Texts::is_hidden_text))]
pub fn is_hidden_text(text: &[u8]) -> bool
    ensures { result ≡ spec.is_hidden_text text.now }
{
    text.starts_with(&HEAD) && behind_digits(&text[HEAD.len()..]).starts_with(b"\n")
}
