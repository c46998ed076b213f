//! What is true of the answers to bytes: a law over its definition alone.

ghost use Rattle.std.specs.Prelude.{◌≡◌, ℕ, List, Result};
ghost use Rattle.trace_replay.specs.Answer.{IsAnswerTo};
ghost use Rattle.trace_replay.specs.declared.accepted.Accepted.{Accepted};
ghost use Rattle.trace_replay.specs.declared.accepted.TraceError.{TraceError};

/// Law: bytes have one answer at most. So no bytes are a true trace and fail, nor have they two first lines that fail.
pub fn law_bytes_have_one_answer()
    ensures { (bytes : List ℕ) (one other : Result Accepted TraceError) → IsAnswerTo bytes one → IsAnswerTo bytes other → one ≡ other }
{}
