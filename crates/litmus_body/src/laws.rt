//! What is true of the readers of bodies and the grammar.

ghost use Rattle.std.specs.Prelude.{◌≡◌, ◌≤◌, ◌+◌, ℕ, List, Some, length, map};
ghost use Rattle.litmus_syntax.specs.Limits.{call_scopes, nesting_limit, own_repeats, registers_limit, repeats_limit, scoped_limit};
ghost use Rattle.litmus_syntax.specs.declared.statement.Call.{Call};
ghost use Rattle.litmus_lex.specs.declared.words.CallWord.{CallWord};
ghost use Rattle.litmus_lex.specs.declared.words.Word.TheVariants as words;
ghost use Rattle.litmus_lex.specs.Front.{first};
ghost use Rattle.litmus_lex.specs.Words.{Symbol, word};
ghost use Rattle.litmus_expression.specs.Counters.{AreCounters};
ghost use Rattle.litmus_expression.specs.Followed.{Differ, name_of};
ghost use Rattle.litmus_expression.specs.Names.{Names};
ghost use Rattle.litmus_expression.specs.Places.{NestingPlace};
ghost use Rattle.litmus_expression.specs.States.{State};
ghost use Rattle.litmus_body.specs.CallReader.{ReadsCall, call_accesses, call_at};
ghost use Rattle.litmus_body.specs.Reads.{EndsSimple, ReadsSimple};
ghost use Rattle.litmus_body.specs.SimpleReader.{simple_at};
ghost use Rattle.litmus_body.specs.Statements.{Calls, Enclosable, Simple, alone};

/// Law: what is read as a call is spelled so, and its scope and its access are counted.
pub fn law_what_is_read_as_a_call_is_spelled()
    ensures { (turns scopes : ℕ) (w : CallWord) (s : State) (x : Call × State)
        → scopes ≤ scoped_limit → first s.symbols ≡ word (words.Call w) → call_at turns scopes w s ≡ Some x
        → ReadsCall turns scopes s x }
{}

/// Law: what is spelled as a call is read so, whatever follows it, where its word is asked for and the limits of
/// scopes and accesses are kept. Names of parameters differ.
pub fn law_what_is_spelled_as_a_call_is_read()
    ensures { (turns scopes : ℕ) (s : State) (c : Call) (rest : List Symbol)
        → Differ (map name_of s.parameters) → Calls s.parameters s.symbols c rest
        → scopes + call_scopes c ≤ scoped_limit → s.repeats + call_accesses turns c ≤ repeats_limit
        → (w : CallWord) × (first s.symbols ≡ word (words.Call w))
        × (call_at turns scopes w s ≡ Some (c, record s { symbols = rest; repeats = s.repeats + call_accesses turns c })) }
{}

/// Law: what is read as a simple statement is spelled so, and its access is counted.
pub fn law_what_is_read_as_a_simple_statement_is_spelled()
    ensures { (p : NestingPlace) (counters : List ℕ) (s : State) (x : Enclosable × State)
        → AreCounters p.counters counters → p.depth ≤ nesting_limit → length s.names ≤ registers_limit → simple_at p s ≡ Some x
        → ReadsSimple p counters s x }
{}

/// Law: what is spelled as a simple statement is read so, whatever follows it that can't continue it, where the
/// limit of accesses is kept. Names of parameters and of registers differ.
pub fn law_what_is_spelled_as_a_simple_statement_is_read()
    ensures { (p : NestingPlace) (counters : List ℕ) (s : State) (x : Enclosable) (rest : List Symbol) (later : Names)
        → AreCounters p.counters counters → Differ (map name_of s.parameters) → Differ s.names → EndsSimple rest
        → s.repeats + own_repeats p.turns (alone x) ≤ repeats_limit
        → Simple s.parameters p.depth counters s.names s.symbols x rest later
        → simple_at p s ≡ Some (x, record s { symbols = rest; names = later; repeats = s.repeats + own_repeats p.turns (alone x) }) }
{}
