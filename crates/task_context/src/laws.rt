//! What is true of the definitions: contexts stand for histories, and accesses are judged by what
//! came before they began.

ghost use Rattle.std.specs.Prelude.{◌≡◌, ◌↔◌, ◌++◌, ℕ, [], ◌∷◌, Bool, Contains};
ghost use Rattle.access_types.specs.Access as accesses;
ghost use Rattle.access_types.specs.History.{History, beginning};
ghost use Rattle.access_types.specs.Marked.{CountedAsMarked, CountsAfter, EndsRaised, Silenced};
ghost use Rattle.access_types.specs.Marked.{is_disable, is_enable, marks_of};
ghost use Rattle.access_types.specs.declared.history.Moment.{Moment};
ghost use Rattle.task_context.specs.Context as spec;
ghost use Rattle.task_context.specs.History.{Concerns, IsWithinCalls, LeadsTo};

/// Law: each history leads to one context, whatever is in it.
pub fn law_histories_lead_to_one_context()
    ensures some { (plain_writes_atomic : Bool) (task : ℕ) (moments : History)
        → (context : spec.Context) × LeadsTo plain_writes_atomic task moments context }
    ensures one { (plain_writes_atomic : Bool) (task : ℕ) (moments : History) (a b : spec.Context)
        → LeadsTo plain_writes_atomic task moments a → LeadsTo plain_writes_atomic task moments b
        → a ≡ b }
{}

/// Law: a moment that is no mark of the task and begins no access of it changes nothing.
pub fn law_other_moments_change_nothing()
    ensures { (plain_writes_atomic : Bool) (task : ℕ) (moments : History)
        (context : spec.Context) (moment : Moment)
        → ¬ Concerns task moment.task moment.happening
        → LeadsTo plain_writes_atomic task moments context
        → LeadsTo plain_writes_atomic task (moments ++ moment ∷ []) context }
{}

/// Law: a count is at most the number of calls that raise it.
pub fn law_counts_are_within_calls()
    ensures { (plain_writes_atomic : Bool) (task : ℕ) (moments : History) (context : spec.Context)
        → LeadsTo plain_writes_atomic task moments context → IsWithinCalls task moments context }
{}

/// Law: in a history in which an access begins once, what came before its begin decides whether it
/// counts as marked and whether it is silenced.
pub fn law_accesses_are_judged_at_their_begin()
    ensures marked { (plain_writes_atomic : Bool) (a : accesses.Access) (before later : History)
        → ¬ Contains (before ++ later) (beginning a)
        → (CountedAsMarked plain_writes_atomic (before ++ beginning a ∷ later) a
        ↔ CountsAfter plain_writes_atomic a before) }
    ensures silenced { (a : accesses.Access) (before later : History)
        → ¬ Contains (before ++ later) (beginning a)
        → (Silenced (before ++ beginning a ∷ later) a
        ↔ EndsRaised is_disable is_enable (marks_of a.task before)) }
{}
