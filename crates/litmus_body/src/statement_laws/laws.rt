//! What is true of the readers of statements and blocks and of their grammar.

ghost use Rattle.std.specs.Prelude.{◌≡◌, ℕ, List, [], Option, Some, map};
ghost use Rattle.litmus_syntax.specs.Limits.{BodyKeepsLimits, block_count, block_repeats};
ghost use Rattle.litmus_syntax.specs.Tree as tree;
ghost use Rattle.litmus_lex.specs.Words.{Symbol};
ghost use Rattle.litmus_expression.specs.Followed.{Differ, name_of};
ghost use Rattle.litmus_expression.specs.Names.{Names, Parameter};
ghost use Rattle.litmus_expression.specs.Places.{NestingPlace, outermost};
ghost use Rattle.litmus_expression.specs.States.{State, entering};
ghost use Rattle.litmus_body.specs.StatementReader.{block_at, body_at, statement_at};
ghost use Rattle.litmus_body.specs.Statements.{Statements};
ghost use Rattle.litmus_body.specs.statement_laws.Reads.{ReadsBody, ReadsStatement, ReadsWhole, Stands};
ghost use Rattle.litmus_body.specs.statement_laws.Spelled.{begins_body};

/// Law: what is read as one statement, or as a body, is spelled so.
pub fn law_what_is_read_as_a_statement_is_spelled()
    ensures statement { (p : NestingPlace) (counters : List ℕ) (s : State) (x : Option tree.Statement × State)
        → Stands p counters s → statement_at p s ≡ Some x → ReadsStatement p counters s x }
    ensures body { (p : NestingPlace) (counters : List ℕ) (s : State) (x : tree.Block × State)
        → Stands p counters s → body_at p s ≡ Some x → ReadsBody p counters s x }
{}

/// Law: what is read as the whole body of a process is spelled so.
pub fn law_what_is_read_as_a_whole_body_is_spelled()
    ensures { (s : State) (x : tree.Block × State) → s.names ≡ [] → block_at outermost s ≡ Some x → ReadsWhole s x }
{}

/// Law: what is read as the whole body of a process keeps the limits.
pub fn law_what_is_read_as_a_whole_body_keeps_the_limits()
    ensures { (parameters : List Parameter) (symbols : List Symbol) (x : tree.Block × State)
        → block_at outermost (entering parameters symbols) ≡ Some x → BodyKeepsLimits x.0 }
{}

/// Law: what is spelled as the whole body of a process, and keeps the limits, is read so, whatever follows it.
/// Names of parameters differ.
pub fn law_what_is_spelled_as_a_whole_body_is_read()
    ensures { (parameters : List Parameter) (inside rest : List Symbol) (body : tree.Block) (registers : Names)
        → Differ (map name_of parameters) → Statements parameters 1 [] [] inside body rest registers → BodyKeepsLimits body
        → block_at outermost (begins_body parameters inside)
        ≡ Some (
          body,
          record {
            symbols = rest;
            parameters = parameters;
            names = registers;
            statements = block_count body;
            repeats = block_repeats 1 body;
          },
        ) }
{}

/// Law: symbols spell at most one whole body that keeps the limits.
pub fn law_symbols_spell_one_whole_body()
    ensures { (parameters : List Parameter) (inside rest_one rest_two : List Symbol) (one two : tree.Block) (registers_one registers_two : Names)
        → Differ (map name_of parameters)
        → Statements parameters 1 [] [] inside one rest_one registers_one → BodyKeepsLimits one
        → Statements parameters 1 [] [] inside two rest_two registers_two → BodyKeepsLimits two
        → (one ≡ two) × (rest_one ≡ rest_two) × (registers_one ≡ registers_two) }
{}
