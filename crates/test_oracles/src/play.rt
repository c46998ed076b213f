//! Plays: the checkers of some tasks over one board.

ghost use Rattle.std.specs.Prelude.{◌<◌};

use crate::accesses::access_of;
use crate::moves::{Act, Came, Move};
use crate::setting::{CELLS, Setting};
use crate::words::{Fault, small_of};
use access_types::{Access, Sites, TASKS, ticket};
use oracle_steps::oracle_checks::{Reading, read_on};
use setup_access::{Checker, CheckerError};
use slot_table::{Board, BoardError, PlainBoard, Record, Shape, Step};
use std::alloc::Global;

impl From<BoardError> for Fault {
    fn from(error: BoardError) -> Fault {
        match error {
            BoardError::BadSlots => Fault::NoRow,
            BoardError::OutOfMemory => Fault::OutOfMemory,
        }
    }
}

impl From<CheckerError> for Fault {
    fn from(error: CheckerError) -> Fault {
        match error {
            CheckerError::BadSlots => Fault::NoRow,
            CheckerError::OutOfMemory => Fault::OutOfMemory,
        }
    }
}

/// A task of a play.
#[derive(Drop)]
struct Player {
    checker: Checker,
    /// Reads the records that the checker has made.
    reader: Checker,
    /// The records since the task's access began or its scope ended.
    made: Vec<Record>,
}

impl Player {
    /// A task that has done nothing yet.
    fn new(alloc: Global, task: u32, setting: &Setting) -> Result<Player, Fault>
        requires { task < 16 }
    {
        let mut checker = Checker::new(alloc, task, &setting.rules, &CELLS)?;
        let mut reader = Checker::new(alloc, task, &setting.rules, &CELLS)?;
        if setting.disabled == Some(task) {
            checker.context().disable();
            reader.context().disable();
        }
        let made = Vec::new(alloc);
        Ok(Player {
            checker,
            reader,
            made,
        })
    }

    /// An access begins.
    fn begin(&mut self, access: &Access) -> Result<Came, Fault> {
        if access.size() > 0 {
            self.checker.begin(access);
            self.reader.begin(access);
            self.made.clear();
            Ok(Came::Nothing)
        } else {
            Err(Fault::NoRow)
        }
    }

    /// Makes the step that the checker says.
    fn make(&mut self, board: &mut PlainBoard, sites: &Sites, task: u32) -> Result<Came, Fault> {
        let came = make_step(board, sites, &mut self.checker);
        if let Came::Made(step, answer) = came {
            self.made.push(Record { task, step, answer })?;
        }
        Ok(came)
    }

    /// How the check has ended, if it has.
    fn end(&mut self, sites: &Sites, task: u32) -> Came {
        if let Some(step) = self.checker.next() {
            return Came::GoesOn(step);
        }
        if self.checker.stuck() {
            return Came::Stuck;
        }
        let reading = read_on(&mut self.reader, sites, task, &self.made);
        if reading != Reading::Whole {
            return Came::Reads(reading);
        }
        if self.reader.outcomes() != self.checker.outcomes() {
            return Came::ReadsOtherOutcomes;
        }
        Came::Over(self.checker.outcomes().len())
    }

    /// Puts the assertion in force.
    fn open(&mut self) -> Came {
        self.checker.open_scoped();
        self.reader.open_scoped();
        Came::Nothing
    }

    /// Ends the scope of the newest assertion.
    fn close(&mut self) -> Came {
        self.checker.close_scoped();
        self.reader.close_scoped();
        self.made.clear();
        Came::Nothing
    }
}

/// Makes the step that a checker says, and gives it the answer.
fn make_step(board: &mut PlainBoard, sites: &Sites, checker: &mut Checker) -> Came {
    let Some(step) = checker.next() else {
        return Came::NoStep;
    };
    if !board.has(step) {
        return Came::NoStep;
    }
    let answer = board.step(step);
    checker.answer(answer, sites);
    Came::Made(step, answer)
}

/// Makes a step that no checker says.
fn make_other(board: &mut PlainBoard, step: Step) -> Came {
    if !board.has(step) {
        return Came::NoStep;
    }
    Came::Made(step, board.step(step))
}

/// A board, the accesses that are known, and all tasks.
#[derive(Drop)]
pub struct Play {
    board: PlainBoard,
    sites: Sites,
    players: Vec<Player>,
}

impl Play {
    /// The play of `ACCESS .. | RULE ..`, before its first move. Where no access is known there is a `-`.
    pub fn read(alloc: Global, text: &str) -> Result<Play, Fault> {
        let (accesses, setting) = text.split_once(" | ").ok_or(Fault::NoRow)?;
        let sites = if accesses == "-" {
            Sites::new(alloc)
        } else {
            sites_of(alloc, accesses)?
        };
        let shape = Shape {
            slots: 64,
            tasks: TASKS,
            locks: 0,
            cells: &[0; 16],
        };
        Ok(Play {
            board: PlainBoard::new(alloc, shape)?,
            sites,
            players: players(alloc, &Setting::read(setting)?)?,
        })
    }

    /// Makes the moves of `TASK MOVE, ..`, and says what comes of the first of which something else comes.
    pub fn otherwise(&mut self, alloc: Global, text: &str) -> Result<Option<String>, Fault> {
        let (task, moves) = text.split_once(' ').ok_or(Fault::NoRow)?;
        let task = small_of(task)?;
        for text in moves.split(", ") {
            let came = self.make(alloc, task, text)?;
            if came.is_some() {
                return Ok(came);
            }
        }
        Ok(None)
    }

    /// Makes a move, and says what comes of it where something else comes.
    fn make(&mut self, alloc: Global, task: u32, text: &str) -> Result<Option<String>, Fault> {
        let made = Move::read(text)?;
        match self.act(task, made.act) {
            Err(fault) => Err(fault),
            Ok(came) if came == made.comes => Ok(None),
            Ok(came) => Ok(Some(came.at(alloc, text)?)),
        }
    }

    /// What comes of something done with a task.
    fn act(&mut self, task: u32, act: Act) -> Result<Came, Fault> {
        let Some(player) = self.players.get_mut(task as usize) else {
            return Err(Fault::NoRow);
        };
        match act {
            Act::Begin(access) => player.begin(&access),
            Act::Make => player.make(&mut self.board, &self.sites, task),
            Act::Memory(step) => Ok(make_other(&mut self.board, step)),
            Act::Count => Ok(Came::Count(player.checker.outcomes().len())),
            Act::Look(number) => {
                let outcome = player.checker.outcomes().get(number);
                Ok(Came::Outcome(outcome.copied()))
            }
            Act::End => Ok(player.end(&self.sites, task)),
            Act::Open => Ok(player.open()),
            Act::Close => Ok(player.close()),
        }
    }
}

/// The accesses of words with a blank between two of them, each under its ticket.
fn sites_of(alloc: Global, words: &str) -> Result<Sites, Fault> {
    let mut sites = Sites::new(alloc);
    for word in words.split(' ') {
        let access = access_of(word)?;
        if sites.get(ticket(&access)).is_none() {
            sites.add(&access)?;
        } else {
            return Err(Fault::NoRow);
        }
    }
    Ok(sites)
}

/// All tasks.
fn players(alloc: Global, setting: &Setting) -> Result<Vec<Player>, Fault> {
    let mut players = Vec::new(alloc);
    for task in 0..TASKS {
        players.push(Player::new(alloc, task, setting)?)?;
    }
    Ok(players)
}
