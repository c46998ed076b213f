//! A file that what comes of it would be written over, which is refused.

ghost use Rattle.std.specs.Prelude.{◌≡◌, ◌⊎◌, ℕ, List, IfNone, IfOk, IfSome, bytes_eq};
ghost use Rattle.std.specs.List.{list_any};
ghost use Rattle.std.specs.Option.{option_map};
ghost use Rattle.litmus_command.specs.Overwrite as spec;
ghost use Rattle.litmus_command.specs.Overwrite.{AreNamedPath, AreSamePath, IsKept, IsPathOfOne, Overwrites};

use cli::Request;
use diagnostics::check_output::Lines;
use file_commands::check::tell;
use file_commands::complaint::Complaint;
use file_commands::desk::Desk;
use file_commands::failure::Failure;
use program_table::text_pieces::{joined, shown};
use std::alloc::{AllocError, Global};

/// The path of a file that is to be written, where that of the one that is read is the same text.
fn same_path<'a>(input: &str, output: Option<&'a str>) -> Option<&'a str>
    ensures same { IfSome result (λ path. AreSamePath input.now (option_map (λ path. path.now) output.entry) path.now) }
    ensures other { IfNone result ((path : List ℕ) → AreSamePath input.now (option_map (λ path. path.now) output.entry) path → ⊥) }
{
    match output {
        Some(path) if path == input => Some(path),
        _ => None,
    }
}

/// The path of a file that is to be written, where that of a file that is read, if one is named, is the same text.
fn same_named<'a>(input: Option<&str>, output: Option<&'a str>) -> Option<&'a str>
    ensures same { IfSome result (λ path. AreNamedPath (option_map (λ path. path.now) input.entry) (option_map (λ path. path.now) output.entry) path.now) }
    ensures other { IfNone result ((path : List ℕ) → AreNamedPath (option_map (λ path. path.now) input.entry) (option_map (λ path. path.now) output.entry) path → ⊥) }
{
    match input {
        Some(input) => same_path(input, output),
        None => None,
    }
}

/// The path of a file that is to be written, where that of one of two that are read is the same text; the second may not
/// be named.
fn same_of_two<'a>(first: &str, second: Option<&str>, output: Option<&'a str>) -> Option<&'a str>
    ensures same { IfSome result (λ path. AreSamePath first.now (option_map (λ path. path.now) output.entry) path.now
        ⊎ AreNamedPath (option_map (λ path. path.now) second.entry) (option_map (λ path. path.now) output.entry) path.now) }
    ensures other { IfNone result ((path : List ℕ) → AreSamePath first.now (option_map (λ path. path.now) output.entry) path
        ⊎ AreNamedPath (option_map (λ path. path.now) second.entry) (option_map (λ path. path.now) output.entry) path → ⊥) }
{
    match same_path(first, output) {
        Some(path) => Some(path),
        None => same_named(second, output),
    }
}

/// Whether one of the files that are read has this path.
fn has_path(inputs: &[&str], path: &str) -> bool
    ensures { result ≡ list_any (λ input. bytes_eq input.now path.now) inputs.now }
{
    inputs.contains(&path)
}

/// The path of a file that is to be written, where that of one of those that are read is the same text.
fn path_of_one<'a>(inputs: &[&str], output: Option<&'a str>) -> Option<&'a str>
    ensures same { IfSome result (λ path. IsPathOfOne inputs.now (option_map (λ path. path.now) output.entry) path.now) }
    ensures other { IfNone result ((path : List ℕ) → IsPathOfOne inputs.now (option_map (λ path. path.now) output.entry) path → ⊥) }
{
    match output {
        Some(path) if has_path(inputs, path) => Some(path),
        _ => None,
    }
}

/// The path of the file that is read for what is asked, where it is to be written too.
pub(crate) fn overwritten<'a>(request: &Request<'a>) -> Option<&'a str>
    ensures same { IfSome result (λ path. Overwrites request.now path.now) }
    ensures other { IfNone result ((path : List ℕ) → Overwrites request.now path → ⊥) }
{
    match request {
        Request::Step(request) => same_path(request.file, request.options.trace),
        Request::Run(request) => same_path(request.file, request.options.trace),
        Request::Search(request) => same_path(request.file, request.options.trace),
        Request::Show(request) => same_of_two(request.trace, request.source, request.svg),
        Request::Races(request) => path_of_one(request.files.as_slice(), request.html),
        Request::Searches(_)
        | Request::Replay(_)
        | Request::Check(_)
        | Request::Join(_)
        | Request::Calls => None,
    }
}

/// The line that says that a file would be overwritten.
#[tactic(auto, unfolding(crate::specs::Overwrite::overwrite_line))]
fn overwrite_line(alloc: Global, path: &str) -> Result<Vec<u8>, AllocError>
    ensures { IfOk result (λ line. line.items ≡ spec.overwrite_line path.now) }
{
    let file = shown(alloc, path.as_bytes())?;
    joined(alloc, &[&file, b" would overwrite its input\n"])
}

/// Tells that the file of this path would be overwritten, and answers the status that this comes with.
/// Nothing else is done.
pub(crate) fn refuse_overwrite<D: Desk>(alloc: Global, path: &str, desk: &mut D) -> u8
    ensures { IsKept path.now result (D.state desk.old) (D.state desk.new) }
{
    match overwrite_line(alloc, path) {
        Ok(bytes) => tell(Complaint::Overwrites(Lines { bytes }), desk),
        Err(_) => tell(Complaint::Failure(Failure::OutOfMemory), desk),
    }
}
