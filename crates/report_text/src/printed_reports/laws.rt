//! What is true of reports that are printed: laws over definitions.

ghost use Rattle.std.specs.Prelude.{◌≡◌, ℕ, Bool, List, map, true};
ghost use Rattle.access_types.specs.Sites.{AccessMap};
ghost use Rattle.access_types.specs.declared.report.Report as reports;
ghost use Rattle.report_text.specs.printed_reports.Printed.{AreNumbered, is_hidden, printed_reports};
ghost use Rattle.report_text.specs.printed_reports.Texts.{is_hidden_text, printed_texts};
ghost use Rattle.report_text.specs.ReportOf.{report_text};

/// Law: the text of a report says whether it is one that is hidden. So the texts that are printed are those of the
/// reports that are.
pub fn law_texts_tell_which_are_printed()
    ensures one { (sites : AccessMap) (report : reports.Report) → AreNumbered sites
        → is_hidden_text (report_text sites report) ≡ is_hidden sites report }
    ensures all { (unknown : Bool) (sites : AccessMap) (all : List reports.Report) → AreNumbered sites
        → printed_texts unknown (map (report_text sites) all) ≡ map (report_text sites) (printed_reports unknown sites all) }
{}

/// Law: where those of unknown origin are wanted, all reports are printed.
pub fn law_all_are_printed()
    ensures reports { (sites : AccessMap) (all : List reports.Report) → printed_reports true sites all ≡ all }
    ensures texts { (all : List (List ℕ)) → printed_texts true all ≡ all }
{}
