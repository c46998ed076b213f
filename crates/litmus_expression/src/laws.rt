//! What is true of the readers of expressions and the grammar.

ghost use Rattle.std.specs.Prelude.{◌≡◌, ◌≤◌, ◌+◌, ℕ, List, Some, length, map};
ghost use Rattle.litmus_syntax.specs.Limits.{nesting_limit, registers_limit, repeats_limit};
ghost use Rattle.litmus_syntax.specs.Tree as tree;
ghost use Rattle.litmus_lex.specs.Words.{Symbol};
ghost use Rattle.litmus_expression.specs.Expressions.{Expression, Load, Pure};
ghost use Rattle.litmus_expression.specs.ExpressionReader.{expression_at, load_at, pure_at};
ghost use Rattle.litmus_expression.specs.Followed.{Differ, Follows, accesses, name_of};
ghost use Rattle.litmus_expression.specs.Names.{Names, Parameter};
ghost use Rattle.litmus_expression.specs.States.{State};

/// Law: what is read as an expression, as one without a load, or as a load, is spelled so.
pub fn law_what_is_read_is_spelled()
    ensures expression { (turns depth : ℕ) (s : State) (x : tree.Expression × State)
        → depth ≤ nesting_limit → length s.names ≤ registers_limit → expression_at turns depth s ≡ Some x
        → Expression s.parameters depth s.names s.symbols x.0 x.1.symbols x.1.names }
    ensures without_load { (turns depth : ℕ) (s : State) (x : tree.Pure × State)
        → depth ≤ nesting_limit → length s.names ≤ registers_limit → pure_at turns depth s ≡ Some x
        → Pure s.parameters depth s.names s.symbols x.0 x.1.symbols x.1.names }
    ensures load { (turns depth : ℕ) (s : State) (x : tree.Load × State)
        → depth ≤ nesting_limit → length s.names ≤ registers_limit → load_at turns depth s ≡ Some x
        → Load s.parameters depth s.names s.symbols x.0 x.1.symbols x.1.names }
{}

/// Law: what is spelled as an expression, as one without a load, or as a load, is read so, whatever follows it
/// that can't continue it, where the limits of accesses are kept. Names of parameters and of registers differ.
pub fn law_what_is_spelled_is_read()
    ensures expression { (turns depth : ℕ) (s : State) (e : tree.Expression) (rest : List Symbol) (later : Names)
        → Differ (map name_of s.parameters) → Differ s.names → Expression s.parameters depth s.names s.symbols e rest later → Follows 7 rest
        → s.repeats + accesses turns e ≤ repeats_limit
        → expression_at turns depth s ≡ Some (e, record s { symbols = rest; names = later; repeats = s.repeats + accesses turns e }) }
    ensures without_load { (turns depth : ℕ) (s : State) (e : tree.Pure) (rest : List Symbol) (later : Names)
        → Differ (map name_of s.parameters) → Differ s.names → Pure s.parameters depth s.names s.symbols e rest later → Follows 7 rest
        → s.repeats ≤ repeats_limit
        → pure_at turns depth s ≡ Some (e, record s { symbols = rest; names = later }) }
    ensures load { (turns depth : ℕ) (s : State) (l : tree.Load) (rest : List Symbol) (later : Names)
        → Differ (map name_of s.parameters) → Differ s.names → Load s.parameters depth s.names s.symbols l rest later
        → s.repeats + turns ≤ repeats_limit
        → load_at turns depth s ≡ Some (l, record s { symbols = rest; names = later; repeats = s.repeats + turns }) }
{}

/// Law: symbols spell at most one expression before what can't continue one.
pub fn law_symbols_spell_one_expression()
    ensures { (parameters : List Parameter) (depth : ℕ) (before after_one after_two : Names) (symbols rest_one rest_two : List Symbol) (one two : tree.Expression)
        → Differ (map name_of parameters) → Differ before
        → Expression parameters depth before symbols one rest_one after_one → Follows 7 rest_one
        → Expression parameters depth before symbols two rest_two after_two → Follows 7 rest_two
        → (one ≡ two) × (rest_one ≡ rest_two) × (after_one ≡ after_two) }
{}
