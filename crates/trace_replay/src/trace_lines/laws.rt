//! What is true of the lines of traces: laws over their definitions alone.

ghost use Rattle.std.specs.Prelude.{◌≡◌, ◌++◌, ◌↔◌, ℕ, List, map};
ghost use Rattle.report_text.specs.Faults.{AreTrue, HeadStands};
ghost use Rattle.report_text.specs.Line.{line_text};
ghost use Rattle.report_text.specs.Standing.{Stands};
ghost use Rattle.report_text.specs.TraceText.{Head};
ghost use Rattle.report_text.specs.Truth.{IsTrueEnd, IsTrueLine};
ghost use Rattle.report_text.specs.declared.line.Line.{Line};
ghost use Rattle.trace_replay.specs.trace_lines.Plain.{IsPlainForm, KeepLimits, plain_line};
ghost use Rattle.trace_replay.specs.trace_lines.Reading.{IsPlain};

/// Law: bytes begin with one line at most, whatever follows.
pub fn law_lines_are_told_apart()
    ensures { (one other : Line) (rest more : List ℕ) → IsPlain one → IsPlain other
        → line_text one ++ rest ≡ line_text other ++ more → (one ≡ other) × (rest ≡ more) }
{}

/// Law: what may stand after lines of a trace, as its text tells it, may stand there, and has the
/// same text.
pub fn law_plain_lines_stand()
    ensures { (head : Head) (before : List Line) (line : Line) → HeadStands head → KeepLimits before
        → Stands head before line → IsPlainForm head before line (plain_line line) }
{}

/// Law: lines may stand behind lines, and are true there, exactly where all in their plain form may
/// stand and are true; and so is their end. So whoever reads the texts of lines alone decides it.
pub fn law_plain_lines_are_true()
    ensures stand { (head : Head) (before : List Line) (line : Line)
        → Stands head before line ↔ Stands head (map plain_line before) (plain_line line) }
    ensures are_true { (head : Head) (before : List Line) (line : Line)
        → IsTrueLine head before line ↔ IsTrueLine head (map plain_line before) (plain_line line) }
    ensures end { (head : Head) (all : List Line) → IsTrueEnd head all ↔ IsTrueEnd head (map plain_line all) }
    ensures traces { (head : Head) (before all : List Line)
        → AreTrue head before all ↔ AreTrue head (map plain_line before) (map plain_line all) }
{}
