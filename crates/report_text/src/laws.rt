//! What is true of traces: laws over their definitions alone.

ghost use Rattle.std.specs.Prelude.{ℕ, List, [], Contains, Option, fold};
ghost use Rattle.access_types.specs.declared.report.Report.TheVariants.{Two};
ghost use Rattle.access_types.specs.declared.report.ValueChange.{ValueChange};
ghost use Rattle.report_text.specs.Faults.{IsTrueTrace};
ghost use Rattle.report_text.specs.Groups.{AreGroupsOf, counted};
ghost use Rattle.report_text.specs.TraceText.{Head};
ghost use Rattle.report_text.specs.Truth.{IsRaceOf};
ghost use Rattle.report_text.specs.declared.line.Line.{Line};
ghost use Rattle.report_text.specs.declared.line.Line.TheVariants as lines;

/// Law: each race line of a true trace names two accesses of it that race: of different tasks, with
/// a common byte, conflicting, not both marked, neither silenced, and in progress at one moment.
pub fn law_race_lines_are_races()
    ensures { (bytes : List ℕ) (head : Head) (all : List Line) → IsTrueTrace bytes head all
        → (setter finder : ℕ) (seen : Option ValueChange)
        → Contains all (lines.Report (Two setter finder seen)) → IsRaceOf all setter finder }
{}

/// Law: texts that are counted one after the other, from no groups on, give each text once, in the
/// order in which they were first seen, with how often it is among them.
pub fn law_groups_are_of_their_texts()
    ensures { (texts : List (List ℕ)) → AreGroupsOf texts (fold counted [] texts) }
{}
