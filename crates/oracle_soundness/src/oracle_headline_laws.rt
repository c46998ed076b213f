//! The headline that `oracle_headline` decides of a list that is given, beside the headline of executions: of what an
//! execution tells the first holds where the second does, and what it says of such a list the second says as well.

ghost use Rattle.std.specs.Prelude.{Bool, Contains, IsTrue, List};
ghost use Rattle.access_types.specs.Access.{Access};
ghost use Rattle.oracle_soundness.specs.oracle_headline_laws.Accounts.{HoldsAccesses, SaysAlike, account_of};
ghost use Rattle.oracle_soundness.specs.oracle_headline.Tried.{HasHeadline};
ghost use Rattle.soundness.specs.Headline.{Headline};
ghost use Rattle.executions.specs.execution.Run.{Run};
ghost use Rattle.executions.specs.execution.Execution.{AllHaveEnded, Execution};
ghost use Rattle.slot_table.specs.declared.records.Record.{Record};

/// Law: of each execution of which the headline holds, the headline that is decided of given lists holds, for the
/// moments and the outcomes that the list tells.
pub fn law_headlines_are_decided()
    ensures { (run : Run) (records : List Record) → (list : Execution run records) → Headline list
        → (accesses : List Access) → HoldsAccesses run accesses
        → (ended : Bool) → (IsTrue ended → AllHaveEnded run records)
        → HasHeadline (account_of list accesses ended) }
{}

/// Law: where it holds of what an execution tells, no arming of that list is taken twice, each report of two sides
/// names a true race and each of unknown origin bytes that changed, each taking whose two accesses have ended has one
/// answer, and the totals agree if all tasks have ended.
pub fn law_decided_headlines_say_alike()
    ensures { (run : Run) (records : List Record) → (list : Execution run records)
        → (accesses : List Access) (ended : Bool) → HasHeadline (account_of list accesses ended)
        → SaysAlike list ended }
{}
