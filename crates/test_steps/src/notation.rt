//! What tasks did, in the words of rows.

use crate::words::add_word;
use slot_table::{Answer, Step};
use std::alloc::{AllocError, Global};
use task_run::TaskRun;

/// What tasks did so far, as words with one blank between them.
#[derive(Drop)]
pub struct Story {
    alloc: Global,
    words: String,
    /// The task of the last step.
    task: Option<u64>,
}

impl Story {
    /// No step.
    pub fn new(alloc: Global) -> Story {
        Story {
            alloc,
            words: String::new(alloc),
            task: None,
        }
    }

    /// Adds a step and its answer, behind the task's name where another one made the step before.
    pub fn step(&mut self, task: u64, step: Step, answer: Answer) -> Result<(), AllocError> {
        if self.task != Some(task) {
            self.task = Some(task);
            let name = format!(in self.alloc; "P{task}")?;
            add_word(&mut self.words, &name)?;
        }
        self.asks(step)?;
        self.answers(answer)
    }

    /// Adds the name of a step and its numbers.
    fn asks(&mut self, step: Step) -> Result<(), AllocError> {
        match step {
            Step::Load(index) => self.call("load", index, &[]),
            Step::Insert(index, word) => self.call("insert", index, &[word]),
            Step::TryConsume(index, word) => self.call("try_consume", index, &[word]),
            Step::Consume(index) => self.call("consume", index, &[]),
            Step::Remove(index) => self.call("remove", index, &[]),
            Step::PairLoad(index) => self.call("pair_load", index, &[]),
            Step::Name(index, ticket) => self.call("name", index, &[u64::from(ticket)]),
            Step::Tell(index, ticket) => self.call("tell", index, &[u64::from(ticket)]),
            Step::Clear(index) => self.call("clear", index, &[]),
            Step::CellLoad(cell) => self.call("cell_load", cell, &[]),
            Step::CellExchange(cell, old, new) => self.call("cell_exchange", cell, &[old, new]),
            Step::LockTry(lock, task) => self.call("lock_try", lock, &[u64::from(task)]),
            Step::LockStore(lock) => self.call("lock_store", lock, &[]),
            Step::Clock => add_word(&mut self.words, "clock"),
        }
    }

    /// Adds the name of a step, and in parentheses the index of its word, in decimal digits, and its other numbers.
    fn call(&mut self, name: &str, index: usize, numbers: &[u64]) -> Result<(), AllocError> {
        let name = format!(in self.alloc; "{name}({index}")?;
        add_word(&mut self.words, &name)?;
        for number in numbers {
            self.words.push(',')?;
            self.number(*number)?;
        }
        self.words.push(')')?;
        Ok(())
    }

    /// Adds an answer.
    fn answers(&mut self, answer: Answer) -> Result<(), AllocError> {
        match answer {
            Answer::Word(word) => {
                self.words.push('=')?;
                self.number(word)
            }
            Answer::Flag(true) => self.add("=yes"),
            Answer::Flag(false) => self.add("=no"),
            Answer::Halves(setter, finder) => {
                self.words.push('=')?;
                self.number(u64::from(setter))?;
                self.words.push(',')?;
                self.number(u64::from(finder))
            }
            Answer::Done => Ok(()),
        }
    }

    /// Adds a number: a digit, or from ten on `0x` and hexadecimal digits.
    fn number(&mut self, number: u64) -> Result<(), AllocError> {
        let text = if number < 10 {
            format!(in self.alloc; "{number}")?
        } else {
            format!(in self.alloc; "0x{number:x}")?
        };
        self.add(&text)
    }

    /// Adds a text.
    fn add(&mut self, text: &str) -> Result<(), AllocError> {
        self.words.push_str(text)?;
        Ok(())
    }

    /// Adds each number, as a word.
    fn numbers(&mut self, numbers: &[u64]) -> Result<(), AllocError> {
        for number in numbers {
            self.words.push(' ')?;
            self.number(*number)?;
        }
        Ok(())
    }

    /// Adds the registers of the tasks.
    pub fn registers(&mut self, runs: &[TaskRun<'_>]) -> Result<(), AllocError> {
        add_word(&mut self.words, "|")?;
        for run in runs {
            self.numbers(run.registers())?;
        }
        Ok(())
    }

    /// Adds the cells of memory.
    pub fn cells(&mut self, cells: &[u64]) -> Result<(), AllocError> {
        add_word(&mut self.words, "|")?;
        self.numbers(cells)
    }

    /// Adds where each task stands.
    pub fn ends(&mut self, runs: &[TaskRun<'_>]) -> Result<(), AllocError> {
        add_word(&mut self.words, "|")?;
        for run in runs {
            self.stands(run)?;
        }
        Ok(())
    }

    /// Adds where a task stands, and how many of its calls had nothing to end, where there are any.
    fn stands(&mut self, run: &TaskRun<'_>) -> Result<(), AllocError> {
        let stands = match (run.next(), run.stuck()) {
            (Some(_), false) => "going",
            (None, false) => "ended",
            (None, true) => "stuck",
            (Some(_), true) => "going-and-stuck",
        };
        add_word(&mut self.words, stands)?;
        if run.unbalanced() > 0 {
            add_word(&mut self.words, "unbalanced=")?;
            self.number(run.unbalanced())?;
        }
        Ok(())
    }

    /// All words.
    pub fn into_words(self) -> String {
        self.words
    }
}
