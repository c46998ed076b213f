//! The desk of the system: the process's standard output and standard error, and its files.

ghost use Rattle.std.specs.Prelude.{◌≡◌, None, OnErr, OnOk};
ghost use Rattle.report_text.specs.Sink.{CountsFailure};

use crate::locale;
use crate::unread::{is_of_reading, reason_line, refusal_lines};
use crate::whole_file::write_whole;
use crate::words::input_path;
use cli::colors::colored;
use diagnostics::check_output::Lines;
use file_commands::complaint::Complaint;
use file_commands::desk::{Desk, ReadFault};
use file_commands::{Progress, SearchProgress};
use litmus_lex::{ReadError, Source, SourceFault, read_all};
use litmus_parse::FILE_BYTES;
use report_text::{Sink, SinkFault, WriteError, write_all};
use std::alloc::Global;
use std::collections::VecDeque;
use std::fs::File;
use std::io::{IsTerminal, Read};
use std::time::Instant;
use std::{fs, io};

/// An open file, which can't say what it will give.
#[derive(Drop)]
struct OpenFile {
    file: File,
    failures: u64,
    /// Why its last read failed, if one did.
    error: Option<io::Error>,
}

impl OpenFile {
    /// The file that stands at a path.
    fn open(rt: &HostRuntime, path: &str) -> io::Result<OpenFile> {
        let file = File::open(rt, path)?;
        Ok(OpenFile {
            file,
            failures: 0,
            error: None,
        })
    }
}

impl Source for OpenFile {
    ghost remaining = { λ _. None };

    ghost failures = { λ source. source.failures };

    fn read(&mut self, buffer: &mut [u8]) -> Result<usize, SourceFault> {
        match self.file.read(buffer) {
            Ok(count) => Ok(count),
            Err(error) => {
                self.failures = self.failures.saturating_add(1);
                self.error = Some(error);
                Err(SourceFault)
            }
        }
    }
}

/// What the file of a name gives when it is read once more: one byte beyond the limit of a litmus file at most. Nothing
/// where it isn't a plain file, since a pipe has given its bytes.
fn read_again(rt: &HostRuntime, name: &str) -> Option<Vec<u8>> {
    let path = input_path(name);
    if !fs::metadata(rt, path).ok()?.is_file() {
        return None;
    }
    let mut file = OpenFile::open(rt, path).ok()?;
    read_all(rt.alloc(), &mut file, FILE_BYTES).ok()
}

/// The process's standard output. What it took is not kept.
#[derive(Drop)]
struct Output {
    rt: HostRuntime,
    failures: u64,
}

impl Output {
    /// Counts a failure, short of 2^64.
    fn fail(&mut self) -> SinkFault
        ensures { CountsFailure self.old.failures self.new.failures }
    {
        self.failures = self.failures.saturating_add(1);
        SinkFault
    }

    /// Writes a text.
    fn put(&mut self, text: &[u8]) -> Result<(), WriteError>
        ensures works { OnOk result (self.new.failures ≡ self.old.failures) }
        ensures fails { OnErr result (CountsFailure self.old.failures self.new.failures) }
    {
        write_all(self, text)
    }
}

impl Sink for Output {
    ghost written = { λ _. None };

    ghost failures = { λ output. output.failures };

    fn write(&mut self, text: &[u8]) -> Result<usize, SinkFault> {
        match self.rt.write_some(text) {
            Ok(0) if !text.is_empty() => Err(self.fail()),
            Ok(count) => Ok(count),
            Err(_) => Err(self.fail()),
        }
    }
}

/// The process's streams and files. What was written is not kept.
#[derive(Drop)]
pub struct System {
    output: Output,
    /// Whether what is printed is coloured.
    is_colored: bool,
    /// How often the read of a file has failed.
    faults: u64,
    /// Why files can't be read of which nothing was told so far, in the order in which they were read. None are kept
    /// where standard error is no terminal.
    reasons: VecDeque<Lines>,
    /// When it was made, if the clock could be read.
    start: Option<Instant>,
}

impl System {
    /// The desk of a process that has written nothing, and of a text that is coloured or not.
    pub fn new(rt: HostRuntime, is_colored: bool) -> System {
        let start = Instant::now(&rt).ok();
        let reasons = VecDeque::new(rt.alloc());
        System {
            output: Output { rt, failures: 0 },
            is_colored,
            faults: 0,
            reasons,
            start,
        }
    }

    /// How many milliseconds have gone by since then: none where the clock can't be read.
    fn milliseconds(&self) -> u128 {
        let Some(start) = &self.start else {
            return 0;
        };
        match start.elapsed(&self.output.rt) {
            Ok(time) => time.as_millis(),
            Err(_) => 0,
        }
    }

    /// Keeps the reason why the file of this name can't be read, if there is one, and memory for it.
    fn keep_reason(&mut self, name: &str, error: Option<io::Error>)
        ensures output { self.new.output ≡ self.old.output }
        ensures faults { self.new.faults ≡ self.old.faults }
    {
        let rt = &self.output.rt;
        let Some(error) = error else {
            return;
        };
        if !rt.stderr().is_terminal() {
            return;
        }
        if let Ok(line) = reason_line(rt.alloc(), name, &error) {
            let _ = self.reasons.push_back(line);
        }
    }

    /// Tells the reason that was kept first of those that are there, if any is.
    fn tell_reason(&mut self)
        ensures output { self.new.output ≡ self.old.output }
        ensures faults { self.new.faults ≡ self.old.faults }
    {
        if let Some(line) = self.reasons.pop_front() {
            let _ = self.output.rt.eprint(line);
        }
    }

    /// Counts the read of the file of this name that failed, short of 2^64, and keeps the reason.
    fn fault(&mut self, name: &str, error: Option<io::Error>) -> ReadFault
        ensures fault { result ≡ ReadFault.CannotRead }
        ensures counts { CountsFailure self.old.faults self.new.faults }
        ensures output { self.new.output ≡ self.old.output }
    {
        self.keep_reason(name, error);
        self.faults = self.faults.saturating_add(1);
        ReadFault::CannotRead
    }
}

/// How many times the line of progress is written, at most.
const LINES: u64 = 100;

impl Progress for System {
    /// Where standard error is a terminal, a line there counts the runs, with how many of them a second, and for how
    /// many seconds the others go on at that rate. What is written next goes over it.
    fn ran(&self, runs: u64, of: u64) {
        let rt = &self.output.rt;
        let apart = (of / LINES).max(1);
        if runs.is_multiple_of(apart) && rt.stderr().is_terminal() {
            let time = self.milliseconds().max(1);
            // Of a thousand seconds, since a run may take longer than one.
            let many = (u128::from(runs) * 1_000_000 / time).max(1);
            let rate = many / 1000;
            let left = u128::from(of.saturating_sub(runs)) * 1000 / many;
            let _ = rt.eprint(format_args!(
                "run {runs} of {of}, {rate} a second, {left} s left\x1b[K\r"
            ));
        }
    }

    fn over(&self) {
        let rt = &self.output.rt;
        if rt.stderr().is_terminal() {
            let _ = rt.eprint("\x1b[K");
        }
    }
}

/// After so many nodes or states the line of progress is written again.
const STATES: u64 = 10_000;

impl SearchProgress for System {
    /// Where standard error is a terminal, a line there counts the nodes, with how many of them a second. What is
    /// written next goes over it.
    fn nodes(&self, nodes: u64) {
        let rt = &self.output.rt;
        if nodes.is_multiple_of(STATES) && rt.stderr().is_terminal() {
            let time = self.milliseconds().max(1);
            let rate = u128::from(nodes) * 1000 / time;
            let _ = rt.eprint(format_args!("searched {nodes} nodes, {rate} a second\x1b[K\r"));
        }
    }

    /// So it counts the states, and says how many are left to go on from.
    fn visited(&self, states: u64, left: u64) {
        let rt = &self.output.rt;
        if states.is_multiple_of(STATES) && rt.stderr().is_terminal() {
            let time = self.milliseconds().max(1);
            let rate = u128::from(states) * 1000 / time;
            let _ = rt.eprint(format_args!(
                "searched {states} states, {rate} a second, {left} left\x1b[K\r"
            ));
        }
    }

    fn search_over(&self) {
        let rt = &self.output.rt;
        if rt.stderr().is_terminal() {
            let _ = rt.eprint("\x1b[K");
        }
    }

    fn seconds(&self) -> u64 {
        let seconds = self.milliseconds() / 1000;
        u64::try_from(seconds).unwrap_or(u64::MAX)
    }
}

impl Desk for System {
    ghost state = { λ system. record {
      written = None;
      failures = system.output.failures;
      files = None;
      told = None;
      faults = system.faults;
    } };

    fn print(&mut self, text: &[u8]) -> Result<(), WriteError> {
        if self.is_colored {
            // Where there is no memory for the colours, the text goes without them.
            if let Ok(text) = colored(self.output.rt.alloc(), text) {
                return self.output.put(&text);
            }
        }
        self.output.put(text)
    }

    fn read_file(&mut self, alloc: Global, path: &str, limit: usize) -> Result<Vec<u8>, ReadFault> {
        let mut file = match OpenFile::open(&self.output.rt, input_path(path)) {
            Ok(file) => file,
            Err(error) => return Err(self.fault(path, Some(error))),
        };
        match read_all(alloc, &mut file, limit) {
            Ok(bytes) => Ok(bytes),
            Err(ReadError::OutOfMemory) => Err(ReadFault::OutOfMemory),
            Err(ReadError::SourceFailed) => Err(self.fault(path, file.error)),
        }
    }

    fn write_file(&mut self, path: &str, bytes: &[u8]) -> Result<(), WriteError> {
        if write_whole(&self.output.rt, path, bytes).is_err() {
            self.output.fail();
            return Err(WriteError::SinkFailed);
        }
        Ok(())
    }

    /// Says so where standard error is a terminal.
    fn advise_search(&self) {
        let rt = &self.output.rt;
        if rt.stderr().is_terminal() {
            let _ = rt.eprint(
                "kcsan_litmus: no report; 'kcsan_litmus search' tries every schedule with few switches\n",
            );
        }
    }

    /// Where standard error is a terminal, says what `check` would, if the file can be read again.
    fn advise_check(&self, file: &str) {
        let rt = &self.output.rt;
        if !rt.stderr().is_terminal() {
            return;
        }
        let text = read_again(rt, file);
        match text.and_then(|text| refusal_lines(rt.alloc(), file, &text)) {
            Some(lines) => {
                let _ = rt.eprint(lines);
            }
            None => {
                let _ = rt.eprint(format_args!(
                    "kcsan_litmus: 'kcsan_litmus check {file}' says more\n"
                ));
            }
        }
    }

    /// Gives them where standard error is a terminal.
    fn read_again(&self, _alloc: Global, file: &str) -> Option<Vec<u8>> {
        let rt = &self.output.rt;
        if !rt.stderr().is_terminal() {
            return None;
        }
        read_again(rt, file)
    }

    /// Says so where standard error is a terminal.
    fn advise_item(&self, line: &Lines) {
        let rt = &self.output.rt;
        if rt.stderr().is_terminal() {
            let _ = rt.eprint(format_args!("{line}"));
        }
    }

    fn is_terminal(&self) -> bool {
        self.output.rt.stdout().is_terminal()
    }

    fn shows_utf8(&self) -> bool {
        locale::shows_utf8(&self.output.rt)
    }

    /// Where standard error is a terminal, the reason why a file can't be read comes behind that.
    fn complain(&mut self, complaint: Complaint) {
        let has_reason = is_of_reading(&complaint);
        let _ = self.output.rt.eprint(complaint);
        if has_reason {
            self.tell_reason();
        }
    }
}
