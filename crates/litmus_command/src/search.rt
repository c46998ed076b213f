//! A litmus text is searched as it is asked for.

ghost use Rattle.std.specs.Prelude.{◌≡◌, ◌<◌, IfErr, IfOk};
ghost use Rattle.std.specs.Option.{option_map};
ghost use Rattle.litmus_command.specs.Command.{IsSearchedFor, all_wanted_of, wanted_of};
ghost use Rattle.search_output.specs.Texts.{IsRefused};

use cli::{SearchRequest, Switches};
use litmus_step::Settings;
use run_output::EngineError;
use search_all::{AllWanted, search_all};
use search_output::{SearchProgress, SearchText};
use search_run::{Wanted, search_text};
use std::alloc::Global;

/// What is wanted of a search of schedules with at most so many preemptions, as it is asked for.
fn wanted_for(request: &SearchRequest<'_>, most: u64) -> Wanted
    ensures { result ≡ wanted_of request.now most }
{
    Wanted {
        switches: most,
        limit: request.limit,
        seconds: request.seconds,
        traced: request.options.trace.is_some(),
        unknown_origin: request.options.unknown_origin,
    }
}

/// What is wanted of a search of all schedules, as it is asked for.
fn all_wanted_for(request: &SearchRequest<'_>) -> AllWanted
    ensures { result ≡ all_wanted_of request.now }
{
    AllWanted {
        limit: request.limit,
        seconds: request.seconds,
        traced: request.options.trace.is_some(),
        reduces: request.reduces,
        unknown_origin: request.options.unknown_origin,
    }
}

/// Searches a litmus text, over schedules with at most so many preemptions or over all, as it is asked for. One thread
/// searches, however many are asked for: what is found doesn't depend on their number.
pub(crate) fn search_for<P: SearchProgress>(
    alloc: Global,
    request: &SearchRequest<'_>,
    text: &[u8],
    settings: &Settings,
    progress: &P,
) -> Result<SearchText, EngineError>
    requires { 0 < settings.now.turns }
    ensures searched { IfOk result (λ found. IsSearchedFor request.now request.now.switches text.now settings.now found.written.raced
        found.stopped found.written.output.items (option_map (λ trace. trace.items) found.written.trace)) }
    ensures refused { IfErr result (IsRefused text.now settings.now) }
{
    match request.switches {
        Switches::AtMost(most) => {
            let wanted = wanted_for(request, most);
            search_text(alloc, text, settings, wanted, progress)
        }
        Switches::All => search_all(alloc, text, settings, all_wanted_for(request), progress),
    }
}
