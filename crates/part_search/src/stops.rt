//! How a search was stopped of which parts were.

ghost use Rattle.std.specs.Prelude.{◌≡◌};
ghost use Rattle.part_search.specs.Parted as spec;

use search_output::Stopped;

/// The first stop of two.
pub(crate) fn first_of(stopped: Stopped, later: Stopped) -> Stopped
    ensures { result ≡ spec.first_of stopped later }
{
    match stopped {
        Stopped::No => later,
        Stopped::AtLimit => Stopped::AtLimit,
        Stopped::AfterSeconds(seconds) => Stopped::AfterSeconds(seconds),
    }
}
