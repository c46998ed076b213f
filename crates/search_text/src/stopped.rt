//! Whether a search was stopped, and what is written of that.

ghost use Rattle.std.specs.Prelude.{◌≡◌};
ghost use Rattle.report_text.specs.Sink.{Writes};
ghost use Rattle.search_text.specs.Stops as spec;
ghost use Rattle.search_text.specs.Write.{out_of_time_line};

use report_text::pieces::{Piece, write_pieces};
use report_text::{Sink, WriteError};

/// Whether a search was stopped.
#[derive(Clone, Copy, PartialEq, Eq)]
pub enum Stopped {
    /// It was not: all was searched.
    No,
    /// As much was searched as is allowed, and there is more.
    AtLimit,
    /// So many seconds have gone by, and there may be more.
    AfterSeconds(u64),
}

impl Stopped {
    /// Whether it was.
    pub fn is_stopped(self) -> bool
        ensures { result ≡ spec.is_stopped self }
    {
        match self {
            Stopped::No => false,
            Stopped::AtLimit | Stopped::AfterSeconds(_) => true,
        }
    }
}

/// Writes that the search was stopped after so many seconds.
#[tactic(auto, unfolding(crate::specs::Write::out_of_time_line))]
pub(crate) fn write_out_of_time<K: Sink>(sink: &mut K, seconds: u64) -> Result<(), WriteError>
    ensures { Writes K.written K.failures result (out_of_time_line seconds) sink.old sink.new }
{
    write_pieces(
        sink,
        &[
            Piece::Text("stopped after "),
            Piece::Decimal(seconds),
            Piece::Text(" seconds: others remain\n"),
        ],
    )
}
