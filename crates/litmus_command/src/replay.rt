//! What is written of a trace that is accepted.

ghost use Rattle.std.specs.Prelude.{IfErr, IfOk};
ghost use Rattle.litmus_command.specs.Replay.{IsLineOf, accepted_line, first_line, second_line};
ghost use Rattle.report_text.specs.Sink.{Writes};
ghost use Rattle.trace_replay.specs.Answer.{IsRefused};

use report_text::pieces::{Piece, write_pieces};
use report_text::{MemorySink, Sink, WriteError};
use std::alloc::Global;
use trace_replay::{Accepted, TraceError, replay};

/// Writes the line on a trace of version 1.
///
/// `SinkFailed`: the sink failed in this call, and holds a beginning of the line.
fn write_first<K: Sink>(accesses: usize, reports: usize, sink: &mut K) -> Result<(), WriteError>
    ensures { Writes K.written K.failures result (first_line accesses reports) sink.old sink.new }
{
    write_pieces(
        sink,
        &[
            Piece::Text("trace accepted: "),
            Piece::Decimal(accesses as u64),
            Piece::Text(" accesses, "),
            Piece::Decimal(reports as u64),
            Piece::Text(" reports\n"),
        ],
    )
}

/// Writes the line on a trace of version 2.
///
/// `SinkFailed`: the sink failed in this call, and holds a beginning of the line.
fn write_second<K: Sink>(
    accesses: usize,
    arms: usize,
    takes: usize,
    reports: usize,
    sink: &mut K,
) -> Result<(), WriteError>
    ensures { Writes K.written K.failures result (second_line accesses arms takes reports) sink.old sink.new }
{
    write_pieces(
        sink,
        &[
            Piece::Text("trace accepted: "),
            Piece::Decimal(accesses as u64),
            Piece::Text(" accesses, "),
            Piece::Decimal(arms as u64),
            Piece::Text(" arms, "),
            Piece::Decimal(takes as u64),
            Piece::Text(" takes, "),
            Piece::Decimal(reports as u64),
            Piece::Text(" reports\n"),
        ],
    )
}

/// Writes the line on a trace that is accepted: how many lines of each kind it has.
///
/// `SinkFailed`: the sink failed in this call, and holds a beginning of the line.
fn write_accepted<K: Sink>(accepted: Accepted, sink: &mut K) -> Result<(), WriteError>
    ensures { Writes K.written K.failures result (accepted_line accepted) sink.old sink.new }
{
    match accepted {
        Accepted::First { accesses, reports } => write_first(accesses, reports, sink),
        Accepted::Second {
            accesses,
            arms,
            takes,
            reports,
        } => write_second(accesses, arms, takes, reports, sink),
    }
}

/// Checks a trace. The line that is written of it where it is accepted.
pub fn replayed(alloc: Global, bytes: &[u8]) -> Result<Vec<u8>, TraceError>
    ensures accepted { IfOk result (λ line. IsLineOf bytes.now line.items) }
    ensures refused { IfErr result (IsRefused bytes.now) }
{
    let accepted = replay(alloc, bytes)?;
    let mut sink = MemorySink::new(alloc);
    match write_accepted(accepted, &mut sink) {
        Ok(()) => Ok(sink.into_bytes()),
        Err(_) => Err(TraceError::OutOfMemory),
    }
}
