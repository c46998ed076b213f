//! What is true of the printed form of litmus programs and of their grammar.

ghost use Rattle.std.specs.Prelude.{◌≡◌, ◌≤◌, ℕ, Contains, List, [], ◌∷◌, Some, length, map, slice_get};
ghost use Rattle.litmus_lex.specs.declared.sign.Sign.TheVariants.{CloseBrace};
ghost use Rattle.litmus_syntax.specs.Limits.{BodyKeepsLimits, variables_limit};
ghost use Rattle.litmus_syntax.specs.PrintedForm.{variable_name};
ghost use Rattle.litmus_syntax.specs.Tree as tree;
ghost use Rattle.litmus_syntax.specs.declared.program.Variable.{Variable};
ghost use Rattle.litmus_lex.specs.Words.{Symbol, sign};
ghost use Rattle.litmus_lex.specs.declared.words.VariableType.{VariableType};
ghost use Rattle.litmus_expression.specs.Expressions.{Expression};
ghost use Rattle.litmus_expression.specs.Followed.{Differ};
ghost use Rattle.litmus_expression.specs.Names.{Names, Parameter};
ghost use Rattle.litmus_body.specs.Statements.{Statements};
ghost use Rattle.litmus_parse.specs.Conditions.{Disjoined, IsKnown};
ghost use Rattle.litmus_parse.specs.Grammar.{Grammar, said_by, task_of};
ghost use Rattle.litmus_parse.specs.Headers.{IsProcess, Items, Process};
ghost use Rattle.litmus_parse.specs.Mentions.{AreDeclared, AreNumbered, Mention};
ghost use Rattle.print_roundtrip.specs.printed_texts.Covered.{Covers};
ghost use Rattle.print_roundtrip.specs.printed_texts.PrintedCondition.{PropositionNests, proposition_symbols};
ghost use Rattle.print_roundtrip.specs.printed_texts.PrintedNames.{AreNames, IsOf};
ghost use Rattle.print_roundtrip.specs.printed_texts.PrintedNesting.{BlockNests, ExpressionNests};
ghost use Rattle.print_roundtrip.specs.printed_texts.PrintedProcess.{task_symbols};
ghost use Rattle.print_roundtrip.specs.printed_texts.PrintedProgram.{Nests, items_symbols, mention_of, program_symbols};
ghost use Rattle.print_roundtrip.specs.printed_texts.PrintedSymbols.{block_symbols, expression_symbols};

/// Law: where some symbols spell an expression, those of its printed form spell it too, among registers that have the
/// names and numbers that they had there, if the printed form keeps the limit of nesting.
pub fn law_printed_expressions_are_spelled()
    ensures { (parameters : List Parameter) (variables : List Variable) (registers before after : Names) (depth there : ℕ)
        (symbols behind rest : List Symbol) (e : tree.Expression)
        → ((name : List ℕ) (number : ℕ) (type : VariableType)
        → Contains parameters (record { name = name; variable = number; type = type }) → variable_name variables number ≡ name)
        → ((number : ℕ) (name : List ℕ) → slice_get after number ≡ Some name → slice_get registers number ≡ Some name)
        → Expression parameters there before symbols e behind after → ExpressionNests depth e
        → Expression parameters depth registers (expression_symbols variables registers e rest) e rest registers }
{}

/// Law: where some symbols spell the statements of a block, those of their printed form spell them too, among registers
/// that have the names and numbers that they had there, if the printed form keeps the limit of nesting.
pub fn law_printed_bodies_are_spelled()
    ensures { (parameters : List Parameter) (variables : List Variable) (registers before after : Names) (depth there : ℕ)
        (counters : List ℕ) (symbols behind rest : List Symbol) (body : tree.Block)
        → ((name : List ℕ) (number : ℕ) (type : VariableType)
        → Contains parameters (record { name = name; variable = number; type = type }) → variable_name variables number ≡ name)
        → ((number : ℕ) (name : List ℕ) → slice_get after number ≡ Some name → slice_get registers number ≡ Some name)
        → Statements parameters there counters before symbols body behind after → BlockNests depth body
        → Statements parameters depth counters registers
        (block_symbols variables registers body (sign CloseBrace ∷ rest)) body rest registers }
{}

/// Law: where some symbols spell a proposition, those of its printed form spell it too, over processes that have all
/// the registers that are named in the end, if the printed form keeps the limit of nesting.
pub fn law_printed_propositions_are_spelled()
    ensures { (mentions said : List Mention) (names : Names) (variables : List Variable) (before later last : List Process)
        (depth there : ℕ) (symbols behind rest : List Symbol) (proposition : tree.Proposition)
        → ((name : List ℕ) (number : ℕ) → IsKnown mentions names name number
        → IsKnown said names (variable_name variables number) number)
        → Disjoined mentions names there before symbols proposition behind later → Covers later last
        → PropositionNests depth proposition
        → Disjoined said names depth last (proposition_symbols variables (map task_of last) proposition rest) proposition rest last }
{}

/// Law: where some symbols spell the body of a process, which keeps its limits, the symbols of the process's printed
/// form spell the process with these registers, if they have the names and numbers that they had there, and the printed
/// form keeps the limit of nesting.
pub fn law_printed_processes_are_spelled()
    ensures { (variables : List Variable) (names before : Names) (task : ℕ) (symbols behind rest : List Symbol) (process : Process)
        → AreNames variables names process.parameters process.registers
        → Statements process.parameters 1 [] [] symbols process.body behind before → BodyKeepsLimits process.body
        → ((number : ℕ) (name : List ℕ) → slice_get before number ≡ Some name → slice_get process.registers number ≡ Some name)
        → BlockNests 1 process.body
        → IsProcess task names (task_symbols variables task (task_of process) rest) process rest names }
{}

/// Law: the symbols of the printed initialization block spell items that give the variables the numbers that they have.
pub fn law_printed_items_are_spelled()
    ensures { (all : List Mention) (names : Names) (variables : List Variable) (rest : List Symbol) → AreDeclared all names variables
        → Differ names → length names ≤ variables_limit
        → Items (items_symbols variables (sign CloseBrace ∷ rest)) (map mention_of variables) rest
        × AreNumbered [] (map mention_of variables) names }
{}

/// Law: the printed initialization block declares the variables with the types and the values that they have, beside
/// parameters of their types.
pub fn law_printed_items_declare_their_variables()
    ensures { (all : List Mention) (names : Names) (variables : List Variable) (processes : List Process)
        → AreDeclared all names variables → Differ (map (λ (v : Variable). v.name) variables)
        → ((q : Process) → Contains processes q → (p : Parameter) → Contains q.parameters p → IsOf variables names p)
        → AreDeclared (said_by (map mention_of variables) processes) names variables }
{}

/// Law: where some symbols spell a program, those of its printed form spell it too, if this keeps the limit of nesting.
pub fn law_printed_programs_are_spelled()
    ensures { (symbols : List Symbol) (program : tree.Program) → Grammar symbols program → Nests program
        → Grammar (program_symbols program) program }
{}
