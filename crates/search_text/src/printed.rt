//! What is found, with the reports that are printed alone.

ghost use Rattle.std.specs.Prelude.{◌≡◌, Bool, List, false, not};
ghost use Rattle.report_text.specs.printed_reports.Texts as hidden;
ghost use Rattle.search_text.specs.Printed as spec;
ghost use Rattle.search_text.specs.Printed.{printed_lists};
ghost use Rattle.search_text.specs.SearchFindings.{Finds, Searched};
ghost use Rattle.search_text.specs.declared.found.SearchFindings as found;

use crate::found::SearchFindings;
use crate::seen::{Seen, Sightings};
use report_text::printed_reports::is_hidden_text;

impl Sightings {
    /// Keeps the texts that aren't hidden.
    fn keep_shown(&mut self)
        ensures { self.new ≡ spec.shown false self.old }
    {
        self.seen.retain(
            |text: &Vec<u8>, seen: &mut Seen| -> bool
                ensures { (result ≡ not (hidden.is_hidden_text text.now.items)) × (seen.new ≡ seen.old) }
            { !is_hidden_text(text.as_slice()) },
        );
    }
}

impl SearchFindings {
    /// Keeps the reports that are printed, where those of unknown origin are wanted or not.
    pub fn keep_printed(&mut self, unknown: bool)
        ensures { self.new ≡ spec.printed unknown self.old }
    {
        if unknown {
            return;
        }
        self.reports.keep_shown();
    }
}

/// Law: what is found of lists is, with the reports that are printed alone, what is found of the lists with these.
pub fn law_printed_findings_are_of_printed_lists()
    ensures { (unknown : Bool) (lists : List Searched) (all : found.SearchFindings) → Finds lists all
        → Finds (printed_lists unknown lists) (spec.printed unknown all) }
{}
