//! What the program stands on.

ghost use Rattle.std.specs.Prelude.{◌≡◌, ◌≤◌, ◌+◌, IfOk, IsErrOf, OnErr, OnOk, vec_len};
ghost use Rattle.file_commands.specs.Desks.{DeskState};
ghost use Rattle.file_commands.specs.Files.{Gave, Has, noted};
ghost use Rattle.file_commands.specs.StandardError.{heard};
ghost use Rattle.file_commands.specs.declared.desk.ReadFault.TheVariants.{CannotRead};
ghost use Rattle.report_text.specs.Sink.{CountsFailure, Writes};

use crate::complaint::Complaint;
use diagnostics::check_output::Lines;
use report_text::WriteError;
use run_stats::Progress;
use search_output::SearchProgress;
use std::alloc::Global;

/// Why a file gives no bytes.
#[derive(Clone, Copy)]
pub enum ReadFault {
    OutOfMemory,
    CannotRead,
}

/// What a program stands on: standard output, standard error and named files. It is told how far runs on threads and
/// searches have come.
pub trait Desk: Progress + SearchProgress {
    /// What it has taken, and what it was told.
    ghost state: { Self → DeskState };

    /// Writes a text to standard output.
    ///
    /// `SinkFailed`: it failed in this call, and has a beginning of the text.
    fn print(&mut self, text: &[u8]) -> Result<(), WriteError>
        ensures writes { Writes (λ desk. (state desk).written) (λ desk. (state desk).failures) result text.now self.old self.new }
        ensures files { (state self.new).files ≡ (state self.old).files }
        ensures told { (state self.new).told ≡ (state self.old).told }
        ensures faults { (state self.new).faults ≡ (state self.old).faults };

    /// The bytes of a named file, or `limit` + 1 of them, which say that it has more than `limit`.
    ///
    /// `CannotRead`: the read failed in this call.
    fn read_file(&mut self, alloc: Global, path: &str, limit: usize) -> Result<Vec<u8>, ReadFault>
        ensures gave { IfOk result (λ bytes. (state self.new).files ≡ noted (state self.old).files (Gave path.now limit bytes.items)) }
        ensures within { IfOk result (λ bytes. vec_len bytes ≤ limit + 1) }
        ensures refused { OnErr result ((state self.new).files ≡ (state self.old).files) }
        ensures failed { IsErrOf result CannotRead → CountsFailure (state self.old).faults (state self.new).faults }
        ensures works { (IsErrOf result CannotRead → ⊥) → (state self.new).faults ≡ (state self.old).faults }
        ensures written { (state self.new).written ≡ (state self.old).written }
        ensures failures { (state self.new).failures ≡ (state self.old).failures }
        ensures told { (state self.new).told ≡ (state self.old).told };

    /// Writes a named file, which then has these bytes and no others, or, where that fails, what it had.
    fn write_file(&mut self, path: &str, bytes: &[u8]) -> Result<(), WriteError>
        ensures has { OnOk result ((state self.new).files ≡ noted (state self.old).files (Has path.now bytes.now)) }
        ensures kept { OnErr result ((state self.new).files ≡ (state self.old).files) }
        ensures works { OnOk result ((state self.new).failures ≡ (state self.old).failures) }
        ensures failed { OnErr result (CountsFailure (state self.old).failures (state self.new).failures) }
        ensures written { (state self.new).written ≡ (state self.old).written }
        ensures told { (state self.new).told ≡ (state self.old).told }
        ensures faults { (state self.new).faults ≡ (state self.old).faults };

    /// Is told that runs gave no report, where a search might. What it says of that is no complaint.
    fn advise_search(&self);

    /// Is told that a litmus file of this name is refused, of which `check` says more. What it says of that is no
    /// complaint.
    fn advise_check(&self, file: &str);

    /// The bytes of a file that was read, once more, where a line that `advise_item` is told can be read by a person.
    fn read_again(&self, alloc: Global, file: &str) -> Option<Vec<u8>>;

    /// Is told which item of a schedule or a place list is malformed, by a line, or why a task is stuck. What it says of
    /// that is no complaint.
    fn advise_item(&self, line: &Lines);

    /// Whether standard output is a terminal.
    fn is_terminal(&self) -> bool;

    /// Whether signs beyond ASCII can be shown where standard output goes.
    fn shows_utf8(&self) -> bool;

    /// Tells standard error.
    fn complain(&mut self, complaint: Complaint)
        ensures told { (state self.new).told ≡ heard (state self.old).told complaint }
        ensures faults { (state self.new).faults ≡ (state self.old).faults }
        ensures files { (state self.new).files ≡ (state self.old).files }
        ensures written { (state self.new).written ≡ (state self.old).written }
        ensures failures { (state self.new).failures ≡ (state self.old).failures };
}
