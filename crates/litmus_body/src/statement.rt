//! Statements and blocks of a process.
//!
//! Where a refusal leaves a statement or an expression behind, a call of `drop` drops it: at a `?` each of its forms
//! would be a path of the proof.

ghost use Rattle.std.specs.Prelude.{◌≡◌, ◌≤◌, ◌<◌, ◌+◌, ◌^◌, IfOk, IsTrue, OnOk, Some, option_map};
ghost use Rattle.litmus_syntax.specs.Limits.{registers_limit, turns_limit};
ghost use Rattle.litmus_syntax.specs.Tree as tree;
ghost use Rattle.litmus_syntax.specs.Views.{block_of, expression_of, statement_of};
ghost use Rattle.litmus_lex.specs.Cursor.{count_left};
ghost use Rattle.litmus_lex.specs.Front.{Answers, first, symbols_left};
ghost use Rattle.litmus_expression.specs.PlaceReader.{take_changed};
ghost use Rattle.litmus_expression.specs.Places.{place_of};
ghost use Rattle.litmus_expression.specs.States.{state_of};
ghost use Rattle.litmus_body.specs.SimpleReader.{data_race_at};
ghost use Rattle.litmus_body.specs.StatementReader as reader;
ghost use Rattle.litmus_body.specs.Statements.{kept};

use crate::call::{is_scoped, read_call};
use crate::simple::read_simple;
use litmus_expression::{Process, Surroundings, address_or_offence, open_call, take_behind};
use litmus_lex::{CallWord, Cursor, Expected, Fault, Refusal, Sign, Token, VariableType, Word};
use litmus_syntax::{Assignment, Call, Expression, Statement};
use std::alloc::Global;

/// How a statement begins.
#[derive(Clone, Copy)]
pub enum Opening {
    /// `;`
    Empty,
    /// A type of registers.
    Declaration,
    /// A statement that counts.
    Counted(Counted),
}

/// How a statement that counts begins.
#[derive(Clone, Copy)]
pub enum Counted {
    If,
    For,
    DataRace,
    Call(CallWord),
    Simple,
}

/// How a statement that begins with a word begins. None: no statement does.
fn opening_of_word(word: Word) -> Option<Opening>
    ensures { result ≡ reader.opening_of_word word }
{
    match word {
        Word::Type(VariableType::Atomic | VariableType::Lock) => None,
        Word::Type(_) => Some(Opening::Declaration),
        Word::If => Some(Opening::Counted(Counted::If)),
        Word::For => Some(Opening::Counted(Counted::For)),
        Word::DataRace => Some(Opening::Counted(Counted::DataRace)),
        Word::Call(call) => Some(Opening::Counted(Counted::Call(call))),
        Word::Load(_) | Word::Store(_) => Some(Opening::Counted(Counted::Simple)),
        _ => None,
    }
}

/// Whether the statement begins a scope.
fn begins_scope(statement: &Statement) -> bool
    ensures { result ≡ reader.begins_scope (statement_of statement.now) }
{
    match statement {
        Statement::Call(call) => is_scoped(call),
        _ => false,
    }
}

/// What stands round what is behind the statement in its block.
fn behind(
    process: &Process<'_>,
    around: Surroundings,
    statement: &Statement,
) -> Result<Surroundings, Refusal>
    ensures { Answers result place_of (reader.behind (place_of around) (Some (statement_of statement.now))) }
{
    if begins_scope(statement) {
        // As in the kernel it holds to the end of its block: what follows in this block has it in force.
        return around.asserting(process.cursor.at());
    }
    Ok(around)
}

/// Whether `else` is next.
fn is_at_else(cursor: &Cursor<'_>) -> bool
    ensures exact { result ≡ reader.is_else (first (symbols_left cursor.now)) }
    ensures some { IsTrue result → 0 < count_left cursor.now }
{
    matches!(cursor.word(), Some(Word::Else))
}

/// `{` statements `}`
#[cycle(statement)]
#[tactic(auto, using(crate::proofs::Unrolled::unrolls))]
pub fn read_block(
    process: &mut Process<'_>,
    around: Surroundings,
) -> Result<Vec<Statement>, Refusal>
    ensures moves { OnOk result (count_left process.new.cursor < count_left process.old.cursor) }
    ensures reads { Answers result (λ block. (block_of block.items, state_of process.new))
        (reader.block_at (place_of around) (state_of process.old)) }
{
    if !process.cursor.is_at(Sign::OpenBrace) {
        return Err(process.cursor.offence(Expected::Sign(Sign::OpenBrace)));
    }
    let mut inside = around.deeper(process.cursor.at())?;
    process.cursor.advance();
    let mut statements = Vec::new(process.alloc);
    while !process.cursor.accept(Sign::CloseBrace) {
        let statement = read_statement(process, inside)?;
        inside = keep(&mut statements, statement, process, inside)?;
    }
    Ok(statements)
}

/// Puts the statement, if it is one that is kept, at the end of its block, and answers what stands round what follows.
#[tactic(auto, using(crate::proofs::Blocks::block_more))]
fn keep(
    statements: &mut Vec<Statement>,
    statement: Option<Statement>,
    process: &Process<'_>,
    around: Surroundings,
) -> Result<Surroundings, Refusal>
    ensures added { OnOk result (block_of statements.new.items ≡ reader.added (block_of statements.old.items) (option_map statement_of statement)) }
    ensures reads { Answers result place_of (reader.behind (place_of around) (option_map statement_of statement)) }
{
    let Some(statement) = statement else {
        return Ok(around);
    };
    match behind(process, around, &statement) {
        Ok(later) => {
            statements.push(statement)?;
            Ok(later)
        }
        Err(refusal) => {
            drop(statement);
            Err(refusal)
        }
    }
}

/// A block, or one statement, which is a block of its own.
#[cycle(statement)]
#[tactic(auto, using(crate::proofs::Unrolled::unrolls))]
fn read_body(process: &mut Process<'_>, around: Surroundings) -> Result<Vec<Statement>, Refusal>
    ensures moves { OnOk result (count_left process.new.cursor < count_left process.old.cursor) }
    ensures reads { Answers result (λ block. (block_of block.items, state_of process.new))
        (reader.body_at (place_of around) (state_of process.old)) }
{
    if process.cursor.is_at(Sign::OpenBrace) {
        return read_block(process, around);
    }
    // A token that begins no statement offends before it could open a block.
    let _ = opening_of(process)?;
    let inside = around.deeper(process.cursor.at())?;
    let statement = read_statement(process, inside)?;
    block_of_one(process.alloc, statement)
}

/// A block of the statement, if it is one that is kept.
fn block_of_one(alloc: Global, statement: Option<Statement>) -> Result<Vec<Statement>, Refusal>
    ensures { Answers result (λ block. block_of block.items) (Some (kept (option_map statement_of statement) tree.empty)) }
{
    let mut statements = Vec::new(alloc);
    if let Some(statement) = statement {
        statements.push(statement)?;
    }
    Ok(statements)
}

/// One statement. `;` alone and a declaration without a value are none that is kept.
#[cycle(statement)]
#[tactic(auto, using(crate::proofs::Unrolled::unrolls))]
fn read_statement(
    process: &mut Process<'_>,
    around: Surroundings,
) -> Result<Option<Statement>, Refusal>
    ensures moves { OnOk result (count_left process.new.cursor < count_left process.old.cursor) }
    ensures reads { Answers result (λ found. (option_map statement_of found, state_of process.new))
        (reader.statement_at (place_of around) (state_of process.old)) }
{
    match opening_of(process)? {
        Opening::Empty => {
            process.cursor.advance();
            Ok(None)
        }
        Opening::Declaration => read_declaration(process, &around),
        Opening::Counted(counted) => {
            process.count_statement()?;
            Ok(Some(read_counted(process, counted, around)?))
        }
    }
}

/// How the statement that is next begins.
#[tactic(auto, unfolding(crate::specs::StatementReader::opening_at))]
fn opening_of(process: &Process<'_>) -> Result<Opening, Refusal>
    ensures some { OnOk result (0 < count_left process.now.cursor) }
    ensures reads { Answers result (λ opening. opening) (reader.opening_at (state_of process.now)) }
{
    match process.cursor.token() {
        Token::Sign(Sign::Semicolon) => Ok(Opening::Empty),
        Token::Sign(Sign::Star | Sign::OpenParen) => Ok(Opening::Counted(Counted::Simple)),
        Token::Name(name) => match process.cursor.word() {
            Some(word) => opening_of_word(word).ok_or(process.cursor.offence(Expected::Statement)),
            None => {
                process.cursor.refuse_call(Expected::Statement)?;
                // A variable's name alone is no access: only `*x` and the calls touch memory.
                if process.parameter(name).is_some() {
                    return Err(process.cursor.syntax(Fault::Variable, Expected::Statement));
                }
                Ok(Opening::Counted(Counted::Simple))
            }
        },
        _ => Err(address_or_offence(&process.cursor, Expected::Statement)),
    }
}

/// A statement that counts.
#[cycle(statement)]
#[tactic(auto, using(crate::proofs::Unrolled::unrolls))]
fn read_counted(
    process: &mut Process<'_>,
    counted: Counted,
    around: Surroundings,
) -> Result<Statement, Refusal>
    ensures moves { OnOk result (count_left process.new.cursor < count_left process.old.cursor) }
    ensures reads { Answers result (λ found. (statement_of found, state_of process.new))
        (reader.counted_at (place_of around) counted (state_of process.old)) }
{
    match counted {
        Counted::If => read_branch(process, around),
        Counted::For => read_repetition(process, around),
        Counted::DataRace => read_data_race(process, &around),
        Counted::Call(word) => {
            let call = read_call(process, word, &around)?;
            take_behind(&mut process.cursor, Statement::Call(call), Sign::Semicolon)
        }
        Counted::Simple => {
            let simple = read_simple(process, &around)?;
            take_behind(
                &mut process.cursor,
                simple.into_statement(),
                Sign::Semicolon,
            )
        }
    }
}

/// `stype REG {, REG} ;` or `stype REG = expr ;`
#[tactic(auto, unfolding(crate::specs::StatementReader::declaration_at))]
fn read_declaration(
    process: &mut Process<'_>,
    around: &Surroundings,
) -> Result<Option<Statement>, Refusal>
    ensures moves { OnOk result (count_left process.new.cursor < count_left process.old.cursor) }
    ensures reads { Answers result (λ found. (option_map statement_of found, state_of process.new))
        (reader.declaration_at (place_of around.now) (state_of process.old)) }
{
    process.cursor.advance();
    let register = take_declared_register(process, around)?;
    // With a value it is an assignment, which counts; without one it is nothing that a task does.
    if process.cursor.is_at(Sign::Assign) {
        return read_declared_value(process, register, around);
    }
    take_more_declared(process, around)?;
    process
        .cursor
        .take_where(Sign::Semicolon, Expected::DeclarationEnd)?;
    Ok(None)
}

/// `= expr ;` behind a register that is declared.
fn read_declared_value(
    process: &mut Process<'_>,
    register: usize,
    around: &Surroundings,
) -> Result<Option<Statement>, Refusal>
    ensures moves { OnOk result (count_left process.new.cursor < count_left process.old.cursor) }
    ensures reads { Answers result (λ found. (option_map statement_of found, state_of process.new))
        (reader.declared_value (place_of around.now) register (state_of process.old)) }
{
    process.count_statement()?;
    process.cursor.advance();
    let value = process.expression(around)?;
    let value = take_behind(&mut process.cursor, value, Sign::Semicolon)?;
    let assignment = Assignment::Register { register, value };
    Ok(Some(Statement::Assign {
        data_race: false,
        assignment,
    }))
}

/// Takes each `, REG` that is next.
#[tactic(auto, using(crate::proofs::Declared::more_unrolls))]
fn take_more_declared(process: &mut Process<'_>, around: &Surroundings) -> Result<(), Refusal>
    ensures moves { OnOk result (count_left process.new.cursor ≤ count_left process.old.cursor) }
    ensures reads { Answers result (λ _. state_of process.new)
        (reader.more_declared (place_of around.now).counters (state_of process.old) (symbols_left process.old.cursor)) }
{
    while process.cursor.accept(Sign::Comma) {
        let _ = take_declared_register(process, around)?;
    }
    Ok(())
}

/// A register that is declared. A pointer is unsupported.
#[tactic(auto, using(crate::proofs::Declared::starred))]
fn take_declared_register(
    process: &mut Process<'_>,
    around: &Surroundings,
) -> Result<usize, Refusal>
    ensures moves { OnOk result (count_left process.new.cursor < count_left process.old.cursor) }
    ensures reads { Answers result (λ register. (register, state_of process.new))
        (take_changed (place_of around.now).counters (state_of process.old)) }
{
    process.cursor.refuse_pointer(Expected::Register)?;
    process.take_changed_register(around)
}

/// `data_race ( simple ) ;`
#[tactic(auto, unfolding(crate::specs::SimpleReader::data_race_at))]
fn read_data_race(process: &mut Process<'_>, around: &Surroundings) -> Result<Statement, Refusal>
    ensures moves { OnOk result (count_left process.new.cursor < count_left process.old.cursor) }
    ensures reads { Answers result (λ found. (statement_of found, state_of process.new))
        (data_race_at (place_of around.now) (state_of process.old)) }
{
    open_call(&mut process.cursor)?;
    let simple = read_simple(process, around)?;
    let simple = take_behind(&mut process.cursor, simple, Sign::CloseParen)?;
    let simple = take_behind(&mut process.cursor, simple, Sign::Semicolon)?;
    Ok(simple.into_data_race())
}

/// `if ( expr )`
#[tactic(auto, unfolding(crate::specs::StatementReader::condition_at))]
fn read_condition(process: &mut Process<'_>, around: &Surroundings) -> Result<Expression, Refusal>
    ensures moves { OnOk result (count_left process.new.cursor < count_left process.old.cursor) }
    ensures reads { Answers result (λ found. (expression_of found, state_of process.new))
        (reader.condition_at (place_of around.now) (state_of process.old)) }
{
    open_call(&mut process.cursor)?;
    let condition = process.expression(around)?;
    take_behind(&mut process.cursor, condition, Sign::CloseParen)
}

/// `if ( expr ) body`, and `else body` or not.
#[cycle(statement)]
#[tactic(auto, using(crate::proofs::Joined::branches))]
fn read_branch(process: &mut Process<'_>, around: Surroundings) -> Result<Statement, Refusal>
    ensures moves { OnOk result (count_left process.new.cursor < count_left process.old.cursor) }
    ensures reads { Answers result (λ found. (statement_of found, state_of process.new))
        (reader.branch_at (place_of around) (state_of process.old)) }
{
    let condition = read_condition(process, &around)?;
    let body = match read_body(process, around) {
        Ok(body) => body,
        Err(refusal) => {
            drop(condition);
            return Err(refusal);
        }
    };
    // The body was read first, so an `else` behind it belonged to the nearest `if`, as in C.
    if !is_at_else(&process.cursor) {
        return Ok(Statement::If { condition, body });
    }
    process.cursor.advance();
    match read_body(process, around) {
        Ok(otherwise) => Ok(Statement::IfElse {
            condition,
            body,
            otherwise,
        }),
        Err(refusal) => {
            drop(condition);
            drop(body);
            Err(refusal)
        }
    }
}

/// `for ( REG = 0 ; REG < NUMBER ; REG ++ ) body`, over one register.
#[cycle(statement)]
#[tactic(auto, using(crate::proofs::Unrolled::unrolls))]
fn read_repetition(process: &mut Process<'_>, around: Surroundings) -> Result<Statement, Refusal>
    ensures moves { OnOk result (count_left process.new.cursor < count_left process.old.cursor) }
    ensures reads { Answers result (λ found. (statement_of found, state_of process.new))
        (reader.repetition_at (place_of around) (state_of process.old)) }
{
    process.cursor.advance();
    let header = read_loop_header(process, &around)?;
    let body = read_body(process, around.repeated(header.register, header.repeats))?;
    Ok(Statement::For {
        register: header.register,
        turns: header.turns,
        body,
    })
}

/// `( REG = 0 ; REG < NUMBER ; REG ++ )`
/// No other form is read: of this one the number of turns is known from the text alone.
#[tactic(auto, unfolding(crate::specs::StatementReader::header_at))]
fn read_loop_header(process: &mut Process<'_>, around: &Surroundings) -> Result<LoopHeader, Refusal>
    ensures moves { OnOk result (count_left process.new.cursor < count_left process.old.cursor) }
    ensures register { IfOk result (λ header. header.register < registers_limit) }
    ensures repeats { IfOk result (λ header. header.repeats ≤ turns_limit) }
    ensures reads { Answers result (λ header. (header, state_of process.new))
        (reader.header_at (place_of around.now) (state_of process.old)) }
{
    let register = read_counter(process, around)?;
    let header = read_bound(process, register, around)?;
    read_step(process, register)?;
    Ok(header)
}

/// `( REG = 0 ;`
#[tactic(auto, using(crate::proofs::Joined::counter_joins))]
fn read_counter(process: &mut Process<'_>, around: &Surroundings) -> Result<usize, Refusal>
    ensures moves { OnOk result (count_left process.new.cursor < count_left process.old.cursor) }
    ensures within { IfOk result (λ register. register < registers_limit) }
    ensures reads { Answers result (λ register. (register, state_of process.new))
        (reader.counter_at (place_of around.now).counters (state_of process.old)) }
{
    process.cursor.take_of_form(Sign::OpenParen)?;
    let register = take_counter(process, around)?;
    take_start(&mut process.cursor)?;
    Ok(register)
}

/// `= 0 ;`
fn take_start(cursor: &mut Cursor<'_>) -> Result<(), Refusal>
    ensures moves { OnOk result (count_left cursor.new < count_left cursor.old) }
    ensures reads { Answers result (λ _. symbols_left cursor.new) (reader.take_start (symbols_left cursor.old)) }
{
    cursor.take_of_form(Sign::Assign)?;
    take_zero(cursor)?;
    cursor.take_of_form(Sign::Semicolon)
}

/// `REG < NUMBER ;`
#[tactic(auto, using(crate::proofs::Joined::bound_joins), unfolding(litmus_lex::specs::Front::take_number))]
fn read_bound(
    process: &mut Process<'_>,
    register: usize,
    around: &Surroundings,
) -> Result<LoopHeader, Refusal>
    ensures moves { OnOk result (count_left process.new.cursor < count_left process.old.cursor) }
    ensures register { IfOk result (λ header. header.register ≡ register) }
    ensures repeats { IfOk result (λ header. header.repeats ≤ turns_limit) }
    ensures reads { Answers result (λ header. (header, state_of process.new))
        (reader.bound_at (place_of around.now) register (state_of process.old)) }
{
    take_counter_before(process, Sign::Less, register)?;
    let Token::Number(turns) = process.cursor.token() else {
        return Err(process.cursor.form_offence(Expected::Number));
    };
    let repeats = around.turns_of(turns, process.cursor.at())?;
    process.cursor.advance();
    process.cursor.take_of_form(Sign::Semicolon)?;
    Ok(LoopHeader {
        register,
        turns,
        repeats,
    })
}

/// `REG ++ )`
#[tactic(auto, using(crate::proofs::Joined::step_joins))]
fn read_step(process: &mut Process<'_>, register: usize) -> Result<(), Refusal>
    ensures moves { OnOk result (count_left process.new.cursor < count_left process.old.cursor) }
    ensures reads { Answers result (λ _. state_of process.new) (reader.step_at register (state_of process.old)) }
{
    take_counter_before(process, Sign::Increment, register)?;
    process.cursor.take_of_form(Sign::CloseParen)
}

/// The register of a loop, which counts no loop round it.
#[tactic(auto, using(crate::proofs::Declared::nameless))]
fn take_counter(process: &mut Process<'_>, around: &Surroundings) -> Result<usize, Refusal>
    ensures moves { OnOk result (count_left process.new.cursor < count_left process.old.cursor) }
    ensures within { IfOk result (λ register. register < registers_limit) }
    ensures reads { Answers result (λ register. (register, state_of process.new))
        (take_changed (place_of around.now).counters (state_of process.old)) }
{
    let Some(_name) = process.register_name() else {
        return Err(process.cursor.form_offence(Expected::Register));
    };
    process.take_changed_register(around)
}

/// The register of the loop once more, and the sign behind it.
#[tactic(auto, unfolding(crate::specs::StatementReader::take_again, crate::specs::StatementReader::again_before))]
fn take_counter_before(
    process: &mut Process<'_>,
    sign: Sign,
    register: usize,
) -> Result<(), Refusal>
    ensures moves { OnOk result (count_left process.new.cursor < count_left process.old.cursor) }
    ensures reads { Answers result (λ _. state_of process.new)
        (reader.again_before sign register (state_of process.old)) }
{
    match process.register_name() {
        Some(name) if process.register_of(name) == Some(register) => {
            process.cursor.advance();
            process.cursor.take_of_form(sign)
        }
        _ => Err(process.cursor.form_offence(Expected::Counter)),
    }
}

/// A zero, however it is spelled.
fn take_zero(cursor: &mut Cursor<'_>) -> Result<(), Refusal>
    ensures moves { OnOk result (count_left cursor.new < count_left cursor.old) }
    ensures reads { Answers result (λ _. symbols_left cursor.new) (reader.take_zero (symbols_left cursor.old)) }
{
    match cursor.token() {
        Token::Number(0) => {
            cursor.advance();
            Ok(())
        }
        _ => Err(cursor.form_offence(Expected::Zero)),
    }
}

/// What the parentheses of a loop say.
#[derive(Clone, Copy)]
pub struct LoopHeader {
    pub register: usize,
    pub turns: u64,
    /// How often it and the loops round it repeat its body.
    pub repeats: u64,
}
