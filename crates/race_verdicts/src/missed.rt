//! Why races are missed.

ghost use Rattle.std.specs.Prelude.{◌≡◌, ◌↔◌, ◌⊎◌, Contains, IsTrue, List};
ghost use Rattle.context_bound.specs.completeness.Reaches.{CanBeSearched};
ghost use Rattle.executions.specs.execution.Execution.{Execution};
ghost use Rattle.executions.specs.execution.Run.{Run};
ghost use Rattle.race_search.specs.Facts.{AreFacts};
ghost use Rattle.race_verdicts.specs.Judged.{IsEither};
ghost use Rattle.race_search.specs.declared.facts.Fact.TheVariants as fact;
ghost use Rattle.races.specs.declared.report.SiteReport.TheVariants as said;
ghost use Rattle.race_search.specs.Reports.{IsKept, SomeSays};
ghost use Rattle.races.specs.declared.report.SiteReport.{SiteReport};
ghost use Rattle.races.specs.Pairs.{Conflicts};
ghost use Rattle.races.specs.declared.pair.SitePair.{SitePair};
ghost use Rattle.races.specs.Verdicts.{AreMissedReasons, AreReasonsSoFar, facts_of};
ghost use Rattle.slot_table.specs.declared.records.Record.{Record};
ghost use Rattle.state_equivalence.specs.state_coverage.Visited.{CoversAllStates};

use race_search::facts::Facts;
use race_search::site_reports::SiteReports;
use race_search::tellings::{
    law_explored_executions_tell_facts, law_next_records_show_facts,
    law_reports_say_what_executions_show,
};
use races::{MissedWhy, SitePair};

/// What was found between accesses at two sites.
#[derive(Clone, Copy)]
struct Between {
    same_value: bool,
    masked: bool,
    origin: bool,
    armed: bool,
    taken: bool,
}

impl Between {
    /// Whether none of the first three reasons for a missed race was found.
    fn has_no_reason(self) -> bool
        ensures { IsTrue result ↔ ((¬ IsTrue self.same_value) × (¬ IsTrue self.masked) × (¬ IsTrue self.origin)) }
    {
        !self.same_value && !self.masked && !self.origin
    }

    /// Why a race is missed; all was visited, or not.
    fn why(self, settled: bool) -> MissedWhy
        ensures same_value { result.same_value ≡ self.same_value }
        ensures masked { result.masked ≡ self.masked }
        ensures origin { result.origin ≡ self.origin }
        ensures never_taken { IsTrue result.never_taken ↔ (IsTrue settled
            × ((¬ IsTrue self.same_value) × (¬ IsTrue self.masked) × (¬ IsTrue self.origin))
            × IsTrue self.armed × (¬ IsTrue self.taken)) }
        ensures never_armed { IsTrue result.never_armed ↔ (IsTrue settled
            × ((¬ IsTrue self.same_value) × (¬ IsTrue self.masked) × (¬ IsTrue self.origin)) × (¬ IsTrue self.armed)) }
    {
        let none = self.has_no_reason();
        MissedWhy {
            same_value: self.same_value,
            masked: self.masked,
            origin: self.origin,
            never_taken: settled && none && self.armed && !self.taken,
            never_armed: settled && none && !self.armed,
        }
    }
}

/// What was found between accesses at the sites of a pair.
fn found_between(reports: &SiteReports, facts: &Facts, pair: SitePair) -> Between
    ensures same_value { IsTrue result.same_value ↔ IsEither facts.now (fact.SameValue pair.first pair.second)
        (fact.SameValue pair.second pair.first) }
    ensures masked { IsTrue result.masked ↔ IsEither facts.now (fact.Masked pair.first pair.second)
        (fact.Masked pair.second pair.first) }
    ensures origin { IsTrue result.origin ↔ (IsKept reports.now (said.Unknown pair.first)
        ⊎ IsKept reports.now (said.Unknown pair.second)) }
    ensures armed { IsTrue result.armed ↔ IsEither facts.now (fact.Armed pair.first) (fact.Armed pair.second) }
    ensures taken { IsTrue result.taken ↔ IsEither facts.now (fact.Taken pair.first pair.second)
        (fact.Taken pair.second pair.first) }
{
    Between {
        same_value: facts.is_same_value(pair.first, pair.second),
        masked: facts.is_masked(pair.first, pair.second),
        origin: reports.has_unknown(pair.first) || reports.has_unknown(pair.second),
        armed: facts.is_armed(pair.first) || facts.is_armed(pair.second),
        taken: facts.is_taken(pair.first, pair.second),
    }
}

/// Why two accesses that race are not reported, by what was found; all was visited, or not.
pub fn missed_why(reports: &SiteReports, facts: &Facts, pair: SitePair, settled: bool) -> MissedWhy
    ensures whole { (run : Run) (visited : List (List Record)) → CanBeSearched run → Conflicts run pair → IsTrue settled
        → ((records : List Record) → Contains visited records → Execution run records)
        → CoversAllStates run visited → AreFacts run visited facts.now
        → ((one : SiteReport) → IsKept reports.now one ↔ SomeSays run one)
        → AreMissedReasons (facts_of run pair) result }
    ensures so_far { (run : Run) (visited : List (List Record)) → CanBeSearched run → Conflicts run pair
        → ¬ IsTrue settled
        → ((records : List Record) → Contains visited records → Execution run records)
        → AreFacts run visited facts.now → ((one : SiteReport) → IsKept reports.now one → SomeSays run one)
        → AreReasonsSoFar (facts_of run pair) result }
{
    law_next_records_show_facts();
    law_explored_executions_tell_facts();
    law_reports_say_what_executions_show();
    found_between(reports, facts, pair).why(settled)
}
