//! What each run of a text keeps.

ghost use Rattle.std.specs.Prelude.{◌≡◌, ◌+◌, ◌-◌, ◌^◌, ◌++◌, ◌<◌, ◌≤◌, [], ◌∷◌, ℕ, List, count_by, true};
ghost use Rattle.access_types.specs.Access as access;
ghost use Rattle.access_types.specs.Marked.{is_disable, is_nest_open, marks_of};
ghost use Rattle.access_types.specs.declared.history.Happening.{Happening};
ghost use Rattle.access_types.specs.declared.history.Happening.TheVariants.{Begin, End};
ghost use Rattle.litmus_syntax.specs.Limits.{BlockScopes, block_rises, scoped_limit};
ghost use Rattle.litmus_syntax.specs.Tree.{Block};
ghost use Rattle.slot_table.specs.declared.records.Record.{Record};
ghost use Rattle.program_order.specs.text_bounds.Passes.{PassesALimit};
ghost use Rattle.program_order.specs.text_bounds.Scopes.{AreOfNoScope, in_force, is_scoped};
ghost use Rattle.program_order.specs.Standing.{Setting, Standing, moments};
ghost use Rattle.program_order.specs.WrittenOrder.{SpellsAll, StepsOfBlock};

/// Law: in a block, reports are turned off, and nestable atomic regions begin, no more often than its counts rise.
pub fn law_counts_rise_within_the_text()
    ensures disables { (s : Setting) (site : ℕ) (body : Block) (before : Standing) (records : List Record) (end : Standing) (rest : List Record)
        → StepsOfBlock s site body before records end rest
        → count_by is_disable (marks_of s.text.task (moments s end)) ≤ count_by is_disable (marks_of s.text.task (moments s before)) + block_rises body }
    ensures nest_opens { (s : Setting) (site : ℕ) (body : Block) (before : Standing) (records : List Record) (end : Standing) (rest : List Record)
        → StepsOfBlock s site body before records end rest
        → count_by is_nest_open (marks_of s.text.task (moments s end)) ≤ count_by is_nest_open (marks_of s.text.task (moments s before)) + block_rises body }
{}

/// Law: at no moment of a text that keeps the limit of scoped assertions are more in force than the limit. So where
/// one begins, fewer are. After the text none is.
pub fn law_few_scopes_are_in_force()
    ensures few { (s : Setting) (registers : ℕ) (body : Block) (records : List Record) → BlockScopes 0 body
        → (spells : SpellsAll s registers body records) → (front back : List Happening) → spells.end.progress.did ≡ front ++ back
        → in_force front ≤ scoped_limit }
    ensures room { (s : Setting) (registers : ℕ) (body : Block) (records : List Record) → BlockScopes 0 body
        → (spells : SpellsAll s registers body records) → (front : List Happening) (a : access.Access) (back : List Happening)
        → spells.end.progress.did ≡ front ++ Begin a ∷ back → is_scoped a.kind ≡ true → in_force front < scoped_limit }
    ensures none { (s : Setting) (registers : ℕ) (body : Block) (records : List Record) → BlockScopes 0 body
        → (spells : SpellsAll s registers body records) → in_force spells.end.progress.did ≡ 0 }
{}

/// Law: the begin of a scoped assertion puts one more in force, its end one less, and all else leaves as many.
pub fn law_scopes_are_counted()
    ensures opens { (did : List Happening) (a : access.Access) → is_scoped a.kind ≡ true → in_force (did ++ Begin a ∷ []) ≡ in_force did + 1 }
    ensures closes { (did : List Happening) (a : access.Access) → is_scoped a.kind ≡ true → in_force (did ++ End a ∷ []) ≡ in_force did - 1 }
    ensures others { (did does : List Happening) → AreOfNoScope does → in_force (did ++ does) ≡ in_force did }
{}

/// Law: no run of a text that keeps its limits passes one of them.
pub fn law_no_text_passes_its_limits()
    ensures { (s : Setting) (registers : ℕ) (body : Block) (records : List Record) → BlockScopes 0 body → block_rises body ≤ 2 ^ 32
        → (spells : SpellsAll s registers body records) → ¬ PassesALimit s spells.end }
{}
