//! The grammar, tried on small lists of symbols whose programs were worked out by hand.

ghost use Rattle.std.specs.Prelude.{◌≡◌, ℕ, List, [], ◌∷◌, Option, Some, codes};
ghost use Rattle.litmus_lex.specs.declared.sign.Sign.TheVariants.{Plus, Semicolon};
ghost use Rattle.litmus_syntax.specs.Tree as tree;
ghost use Rattle.litmus_lex.specs.declared.words.VariableType.{VariableType};
ghost use Rattle.litmus_lex.specs.Words.{Symbol, sign};
ghost use Rattle.litmus_expression.specs.Expressions.{Expression};
ghost use Rattle.litmus_expression.specs.Names.{Names, Parameter};
ghost use Rattle.litmus_body.specs.Statements.{Statement};
ghost use Rattle.litmus_parse.specs.Conditions.{Disjoined};
ghost use Rattle.litmus_parse.specs.Grammar.{Grammar};
ghost use Rattle.litmus_parse.specs.Headers.{Items, Parameters, Process};
ghost use Rattle.litmus_parse.specs.Mentions.{HasType, Mention};
ghost use Rattle.worked_examples.specs.example_grammar.Examples.{differences, differences_tree, factors, factors_tree, masks, masks_tree, loads, loads_tree, r0_r1, small, small_tree, x};
ghost use Rattle.worked_examples.specs.example_grammar.Examples.{a_counted, atomic_read, dangling, l_said, lock_asked, outer_else, own_counter, two_loads, two_types, x_twice};

/// Law: `1 - 2 - 3` is `(1 - 2) - 3`.
pub fn law_differences_group_from_the_left()
    ensures { Expression [] 1 [] differences differences_tree (sign Semicolon ∷ []) [] }
{}

/// Law: `1 + 2 * (3 + 4)` is `1 + (2 * (3 + 4))`.
pub fn law_products_are_stronger_than_sums()
    ensures { Expression [] 1 [] factors factors_tree (sign Semicolon ∷ []) [] }
{}

/// Law: `r0 & r1 == 2` is `r0 & (r1 == 2)`, and its registers are 0 and 1.
pub fn law_masks_are_weaker_than_comparisons()
    ensures { Expression [] 1 [] masks masks_tree (sign Semicolon ∷ []) r0_r1 }
{}

/// Law: `-data_race(*x)` negates the load, where `x` is a parameter.
pub fn law_loads_stand_in_expressions()
    ensures { Expression x 1 [] loads loads_tree (sign Semicolon ∷ []) [] }
{}

/// Law: no expression begins with `+`.
pub fn law_no_expression_begins_with_plus()
    ensures { (parameters : List Parameter) (depth : ℕ) (before : Names) (symbols : List Symbol) (e : tree.Expression)
        (rest : List Symbol) (after : Names) → ¬ Expression parameters depth before (sign Plus ∷ symbols) e rest after }
{}

/// Law: `{ } P0(int *x) { r0 = *x; } exists (0:r0=1)` spells its program.
pub fn law_a_small_program_is_spelled()
    ensures { Grammar small small_tree }
{}

/// Law: `r0 = *x + *x;` has two loads, and is no statement.
pub fn law_two_loads_are_no_statement()
    ensures { (depth : ℕ) (counters : List ℕ) (before : Names) (s : Option tree.Statement) (after : Names)
        → ¬ Statement x depth counters before two_loads s [] after }
{}

/// Law: no statement begins with `*a;` where `a` is an `atomic_t`.
pub fn law_a_plain_load_of_an_atomic_is_no_statement()
    ensures { (depth : ℕ) (counters : List ℕ) (before : Names) (s : Option tree.Statement) (rest : List Symbol) (after : Names)
        → ¬ Statement a_counted depth counters before atomic_read s rest after }
{}

/// Law: `for (i = 0; i < 3; i++) i = 1;` is no statement, since the body assigns the loop's own register.
pub fn law_a_loop_does_not_assign_its_register()
    ensures { (depth : ℕ) (counters : List ℕ) (s : Option tree.Statement) (rest : List Symbol) (after : Names)
        → ¬ Statement [] depth counters [] own_counter s rest after }
{}

/// Law: in `if (1) if (2) ; else ;` the `else` isn't the outer `if`'s.
pub fn law_an_else_belongs_to_the_nearest_if()
    ensures { (depth : ℕ) (counters : List ℕ) (before : Names) (rest : List Symbol) (after : Names)
        → ¬ Statement [] depth counters before dangling (Some outer_else) rest after }
{}

/// Law: `int *x, int *x)` are no parameters.
pub fn law_no_parameter_is_named_twice()
    ensures { (before : Names) (parameters : List Parameter) (rest : List Symbol) (after : Names)
        → ¬ Parameters before x_twice parameters rest after }
{}

/// Law: the items `char x; x = 1` give `x` no type where no parameter is named `x`.
pub fn law_an_item_without_a_type_is_an_int()
    ensures { (mentions : List Mention) (rest : List Symbol) (type : VariableType)
        → Items two_types mentions rest → ¬ HasType mentions (codes "x") type }
{}

/// Law: `(l=0)` is no proposition where `l` is a `spinlock_t`.
pub fn law_no_condition_asks_for_a_lock()
    ensures { (names : Names) (depth : ℕ) (before : List Process) (a : tree.Proposition) (rest : List Symbol) (after : List Process)
        → ¬ Disjoined l_said names depth before lock_asked a rest after }
{}
