//! Simple statements of a process: loads and assignments, which `data_race( )` may enclose.
//!
//! Where a refusal leaves a value or an assignment behind, a call of `drop` drops it: at a `?` each of its forms would
//! be a path of the proof.

ghost use Rattle.std.specs.Prelude.{◌≡◌, ◌≤◌, ◌<◌, ◌+◌, ◌^◌, ◌-◌, IfOk, OnOk};
ghost use Rattle.litmus_lex.specs.Cursor.{count_left};
ghost use Rattle.litmus_lex.specs.Front.{Answers};
ghost use Rattle.litmus_syntax.specs.Views.{assignment_of, statement_of};
ghost use Rattle.litmus_expression.specs.Places.{place_of};
ghost use Rattle.litmus_expression.specs.States.{state_of};
ghost use Rattle.litmus_body.specs.Simple.{data_races_of, enclosable_of};
ghost use Rattle.litmus_body.specs.SimpleReader as reader;
ghost use Rattle.litmus_body.specs.Statements.{alone, raced};
ghost use Rattle.litmus_body.specs.StoreReader as stores;

use litmus_expression::{Process, Surroundings, Takes, address_or_offence, open_call, take_behind};
use litmus_lex::{Expected, Refusal, Sign, StoreWord, Token, Word};
use litmus_syntax::{Assignment, Fetch, Load, ReadForm, Statement, WriteForm};

/// A simple statement.
#[derive(Drop)]
pub enum Simple {
    Load(Load),
    Assignment(Assignment),
}

impl Simple {
    /// The statement that it is.
    pub fn into_statement(self) -> Statement
        ensures { statement_of result ≡ alone (enclosable_of self) }
    {
        match self {
            Simple::Load(load) => Statement::Load(load),
            Simple::Assignment(assignment) => Statement::Assign {
                data_race: false,
                assignment,
            },
        }
    }

    /// The statement that it is inside `data_race( )`.
    pub fn into_data_race(self) -> Statement
        requires { data_races_of self < 2 ^ 64 - 1 }
        ensures { statement_of result ≡ raced (enclosable_of self) }
    {
        match self {
            Simple::Load(load) => Statement::Load(Load {
                data_races: load.data_races + 1,
                fetch: load.fetch,
            }),
            Simple::Assignment(assignment) => Statement::Assign {
                data_race: true,
                assignment,
            },
        }
    }
}

/// A simple statement, without what ends it.
#[tactic(auto, unfolding(crate::specs::SimpleReader::simple_at))]
pub fn read_simple(process: &mut Process<'_>, around: &Surroundings) -> Result<Simple, Refusal>
    ensures enclosed { IfOk result (λ simple. data_races_of simple < count_left process.old.cursor) }
    ensures moves { OnOk result (count_left process.new.cursor < count_left process.old.cursor) }
    ensures reads { Answers result (λ found. (enclosable_of found, state_of process.new))
        (reader.simple_at (place_of around.now) (state_of process.old)) }
{
    match process.cursor.token() {
        Token::Sign(Sign::Star) => read_starred(process, around),
        Token::Sign(Sign::OpenParen) => read_increment(process, around),
        Token::Name(_) => match process.cursor.word() {
            Some(Word::Store(word)) => read_store(process, word, around),
            Some(Word::DataRace | Word::Load(_)) => Ok(Simple::Load(process.load(around)?)),
            Some(_) => Err(process.cursor.offence(Expected::Simple)),
            None => read_register_assignment(process, around),
        },
        _ => Err(address_or_offence(&process.cursor, Expected::Simple)),
    }
}

/// `REG = expr`
#[tactic(auto, unfolding(crate::specs::SimpleReader::register_assignment))]
fn read_register_assignment(
    process: &mut Process<'_>,
    around: &Surroundings,
) -> Result<Simple, Refusal>
    ensures enclosed { IfOk result (λ simple. data_races_of simple ≡ 0) }
    ensures moves { OnOk result (count_left process.new.cursor < count_left process.old.cursor) }
    ensures reads { Answers result (λ found. (enclosable_of found, state_of process.new))
        (reader.assigned (reader.register_assignment (place_of around.now) (state_of process.old))) }
{
    process.cursor.refuse_call(Expected::Simple)?;
    let register = process.take_changed_register(around)?;
    process.cursor.take(Sign::Assign)?;
    let value = process.expression(around)?;
    Ok(Simple::Assignment(Assignment::Register { register, value }))
}

/// `* VAR = pure`, `* VAR += pure`, or the load `* VAR`.
#[tactic(auto, using(crate::proofs::Joined::starred_joins))]
fn read_starred(process: &mut Process<'_>, around: &Surroundings) -> Result<Simple, Refusal>
    ensures enclosed { IfOk result (λ simple. data_races_of simple ≡ 0) }
    ensures moves { OnOk result (count_left process.new.cursor < count_left process.old.cursor) }
    ensures reads { Answers result (λ found. (enclosable_of found, state_of process.new))
        (reader.starred (place_of around.now) (state_of process.old)) }
{
    let at = process.cursor.at();
    process.count_access_at(around, at)?;
    let variable = take_starred(process, Takes::Integers)?;
    read_behind_variable(process, variable, around)
}

/// `* VAR`
#[tactic(auto, unfolding(crate::specs::SimpleReader::starred_variable))]
pub fn take_starred(process: &mut Process<'_>, takes: Takes) -> Result<usize, Refusal>
    ensures moves { OnOk result (count_left process.new.cursor < count_left process.old.cursor) }
    ensures reads { Answers result (λ variable. (variable, state_of process.new))
        (reader.starred_variable takes (state_of process.old)) }
{
    process.take_star()?;
    process.take_variable(takes)
}

/// `= pure`, `+= pure`, or nothing, behind `* VAR`.
fn read_behind_variable(
    process: &mut Process<'_>,
    variable: usize,
    around: &Surroundings,
) -> Result<Simple, Refusal>
    ensures enclosed { IfOk result (λ simple. data_races_of simple ≡ 0) }
    ensures moves { OnOk result (count_left process.new.cursor ≤ count_left process.old.cursor) }
    ensures reads { Answers result (λ found. (enclosable_of found, state_of process.new))
        (reader.behind_variable (place_of around.now) variable (state_of process.old)) }
{
    if process.cursor.accept(Sign::Assign) {
        let value = process.pure(around)?;
        return Ok(Simple::Assignment(Assignment::Write {
            form: WriteForm::Plain,
            variable,
            value,
        }));
    }
    if process.cursor.accept(Sign::AddAssign) {
        let value = process.pure(around)?;
        return Ok(Simple::Assignment(Assignment::Add { variable, value }));
    }
    Ok(Simple::Load(Load {
        data_races: 0,
        fetch: Fetch::Read {
            form: ReadForm::Plain,
            variable,
        },
    }))
}

/// `( * VAR ) ++`
#[tactic(auto, using(crate::proofs::Joined::increment_joins))]
fn read_increment(process: &mut Process<'_>, around: &Surroundings) -> Result<Simple, Refusal>
    ensures enclosed { IfOk result (λ simple. data_races_of simple ≡ 0) }
    ensures moves { OnOk result (count_left process.new.cursor < count_left process.old.cursor) }
    ensures reads { Answers result (λ found. (enclosable_of found, state_of process.new))
        (reader.increment (place_of around.now) (state_of process.old)) }
{
    let at = process.cursor.at();
    process.count_access_at(around, at)?;
    process.cursor.take(Sign::OpenParen)?;
    process.take_star()?;
    let variable = process.take_variable_before(Sign::CloseParen, Takes::Integers)?;
    process.cursor.take(Sign::Increment)?;
    Ok(Simple::Assignment(Assignment::Increment { variable }))
}

/// A call that changes a variable.
#[tactic(auto, unfolding(crate::specs::StoreReader::store_at))]
fn read_store(
    process: &mut Process<'_>,
    word: StoreWord,
    around: &Surroundings,
) -> Result<Simple, Refusal>
    ensures enclosed { IfOk result (λ simple. data_races_of simple ≡ 0) }
    ensures moves { OnOk result (count_left process.new.cursor < count_left process.old.cursor) }
    ensures reads { Answers result (λ found. (enclosable_of found, state_of process.new))
        (reader.assigned (stores.store_at (place_of around.now).turns (place_of around.now).depth word (state_of process.old))) }
{
    let at = process.cursor.at();
    process.count_access_at(around, at)?;
    open_call(&mut process.cursor)?;
    let assignment = store_of_word(process, word, around)?;
    let assignment = take_behind(&mut process.cursor, assignment, Sign::CloseParen)?;
    Ok(Simple::Assignment(assignment))
}

/// What stands between the parentheses of a call that changes a variable.
#[tactic(auto, unfolding(crate::specs::StoreReader::stored))]
fn store_of_word(
    process: &mut Process<'_>,
    word: StoreWord,
    around: &Surroundings,
) -> Result<Assignment, Refusal>
    ensures moves { OnOk result (count_left process.new.cursor < count_left process.old.cursor) }
    ensures reads { Answers result (λ found. (assignment_of found, state_of process.new))
        (stores.stored (place_of around.now).turns (place_of around.now).depth word (state_of process.old)) }
{
    match word {
        StoreWord::Write(form) => read_write(process, form, around),
        StoreWord::Add => {
            let value = process.pure(around)?;
            let value = take_behind(&mut process.cursor, value, Sign::Comma)?;
            match process.take_variable(Takes::Atomics) {
                Ok(variable) => Ok(Assignment::AtomicAdd { value, variable }),
                Err(refusal) => {
                    drop(value);
                    Err(refusal)
                }
            }
        }
        StoreWord::Increment => {
            let variable = process.take_variable(Takes::Atomics)?;
            Ok(Assignment::AtomicIncrement { variable })
        }
        StoreWord::Decrement => {
            let variable = process.take_variable(Takes::Atomics)?;
            Ok(Assignment::AtomicDecrement { variable })
        }
    }
}

/// `* VAR , pure` for `WRITE_ONCE`, `VAR , pure` for the others. No word is a plain write.
#[tactic(auto, unfolding(crate::specs::StoreReader::write))]
fn read_write(
    process: &mut Process<'_>,
    form: WriteForm,
    around: &Surroundings,
) -> Result<Assignment, Refusal>
    ensures moves { OnOk result (count_left process.new.cursor < count_left process.old.cursor) }
    ensures reads { Answers result (λ found. (assignment_of found, state_of process.new))
        (stores.write (place_of around.now).turns (place_of around.now).depth form (state_of process.old)) }
{
    match form {
        WriteForm::Plain => Err(process.cursor.offence(Expected::Simple)),
        WriteForm::Once => {
            process.take_star()?;
            read_written(process, Takes::Integers, form, around)
        }
        WriteForm::Release => read_written(process, Takes::Integers, form, around),
        WriteForm::Atomic => read_written(process, Takes::Atomics, form, around),
    }
}

/// `VAR , pure`
#[tactic(auto, using(crate::proofs::Joined::written_joins))]
fn read_written(
    process: &mut Process<'_>,
    takes: Takes,
    form: WriteForm,
    around: &Surroundings,
) -> Result<Assignment, Refusal>
    ensures moves { OnOk result (count_left process.new.cursor < count_left process.old.cursor) }
    ensures reads { Answers result (λ found. (assignment_of found, state_of process.new))
        (stores.written (place_of around.now).turns (place_of around.now).depth takes form (state_of process.old)) }
{
    let variable = process.take_variable_before(Sign::Comma, takes)?;
    let value = process.pure(around)?;
    Ok(Assignment::Write {
        form,
        variable,
        value,
    })
}
