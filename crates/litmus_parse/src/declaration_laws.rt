//! What is true of the readers of a text's parts and their grammar: what is spelled is read.

ghost use Rattle.std.specs.Prelude.{◌≡◌, ◌↔◌, ◌≤◌, ℕ, Bool, List, [], ◌∷◌, Some, false, get_or, length, map};
ghost use Rattle.litmus_lex.specs.declared.sign.Sign.TheVariants.{OpenBrace, OpenParen};
ghost use Rattle.litmus_syntax.specs.Tree as tree;
ghost use Rattle.litmus_syntax.specs.declared.proposition.Quantifier.{Quantifier};
ghost use Rattle.litmus_lex.specs.Front.{take_signed};
ghost use Rattle.litmus_lex.specs.Words.{Symbol, sign};
ghost use Rattle.litmus_syntax.specs.Limits.{connectives, operators_limit, variables_limit};
ghost use Rattle.litmus_expression.specs.Followed.{Differ};
ghost use Rattle.litmus_expression.specs.NameReader.{index_of};
ghost use Rattle.litmus_expression.specs.Names.{Names, Numbered, Parameter};
ghost use Rattle.litmus_expression.specs.States.{State};
ghost use Rattle.litmus_parse.specs.ConditionReader.{quantifier_at};
ghost use Rattle.litmus_parse.specs.Conditions.{Disjoined, IsKnown, Quantifies};
ghost use Rattle.litmus_parse.specs.Distinct.{AllDistinct};
ghost use Rattle.litmus_parse.specs.Entries.{Entry};
ghost use Rattle.litmus_parse.specs.HeaderReader.{value_at};
ghost use Rattle.litmus_parse.specs.ProcessHeaders.{Items, Parameters, Process, Signed, Value, mention_of};
ghost use Rattle.litmus_parse.specs.ItemReader.{initialization_at, unnamed};
ghost use Rattle.litmus_parse.specs.Mentions.{AreNumbered, Mention};
ghost use Rattle.litmus_parse.specs.ParameterReader.{parameters_at};
ghost use Rattle.litmus_parse.specs.PropositionReader.{whole_at};
ghost use Rattle.litmus_parse.specs.Seen.{seen};
ghost use Rattle.litmus_parse.specs.Typed.{AreTyped};
ghost use Rattle.litmus_parse.specs.VariableReader.{number_at};

/// Law: what is read as a number, with a sign or without, or as an initial value, is what is spelled as one.
pub fn law_values_are_read_as_they_are_spelled()
    ensures signed { (symbols rest : List Symbol) (value : ℕ) → Signed symbols value rest ↔ (take_signed symbols ≡ Some (value, rest)) }
    ensures initial { (symbols rest : List Symbol) (value : ℕ) → Value symbols value rest ↔ (value_at symbols ≡ Some (value, rest)) }
{}

/// Law: what is read as a quantifier is what is spelled as one.
pub fn law_quantifiers_are_read_as_they_are_spelled()
    ensures { (symbols rest : List Symbol) (quantifier : Quantifier)
        → Quantifies symbols quantifier rest ↔ (quantifier_at symbols ≡ Some (quantifier, rest)) }
{}

/// Law: among names that differ and are no more than there may be, the number that a name of a variable gets is the one
/// that it has, or the next one.
pub fn law_variables_are_numbered_as_they_appear()
    ensures { (names later : Names) (name : List ℕ) (number : ℕ) → Differ names → length names ≤ variables_limit
        → Numbered variables_limit names name number later ↔ (number_at names name ≡ Some (number, later)) }
{}

/// Law: what is spelled as an initialization block is read, with the names and the numbers that its items give, where
/// the names have types.
pub fn law_what_is_spelled_as_an_initialization_block_is_read()
    ensures { (all items : List Mention) (symbols rest : List Symbol) (names : Names)
        → Items symbols items rest → AreNumbered [] items names → AreTyped all items
        → (table : List Entry) × (initialization_at (unnamed (sign OpenBrace ∷ symbols))
        ≡ Some (record { symbols = rest; names = names; table = table })) }
{}

/// Law: what is spelled as the parameters of a first process is read, behind an initialization block that is read,
/// where the names have types.
pub fn law_what_is_spelled_as_parameters_is_read()
    ensures { (all items : List Mention) (symbols inside rest : List Symbol) (names later : Names) (table : List Entry)
        (parameters : List Parameter) → Items symbols items (sign OpenParen ∷ inside)
        → AreNumbered [] items names → AreTyped all items
        → initialization_at (unnamed (sign OpenBrace ∷ symbols))
        ≡ Some (record { symbols = sign OpenParen ∷ inside; names = names; table = table })
        → Parameters names inside parameters rest later → AreTyped all (map mention_of parameters)
        → (grown : List Entry) × (parameters_at (record { symbols = sign OpenParen ∷ inside; names = names; table = table })
        ≡ Some (parameters, record { symbols = rest; names = later; table = grown })) }
{}

/// Law: what is spelled as a whole proposition, with no more operators than one may have, is read so, behind processes
/// each of whose names differ, where the names and locks that the reader knows are those of the variables.
pub fn law_what_is_spelled_as_a_proposition_is_read()
    ensures { (mentions : List Mention) (names : Names) (locks : List Bool) (states : List State) (bodies : List tree.Block)
        (symbols : List Symbol) (proposition : tree.Proposition) (later : List Process)
        → ((name : List ℕ) (number : ℕ) → IsKnown mentions names name number
        → (index_of names name ≡ Some number) × (get_or locks number false ≡ false))
        → AllDistinct states → Disjoined mentions names 0 (seen states bodies) symbols proposition [] later
        → connectives proposition ≤ operators_limit
        → (after : List State) × (whole_at names locks symbols states ≡ Some (proposition, after)) × (seen after bodies ≡ later) }
{}
