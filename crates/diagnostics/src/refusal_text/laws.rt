//! What is true of each refusal: a law over definitions alone.

ghost use Rattle.std.specs.Prelude.{◌≢◌, ℕ, List, []};
ghost use Rattle.diagnostics.specs.refusal_text.FormNotes.{note_line};
ghost use Rattle.litmus_parse.specs.declared.answer.Reason.{Reason};
ghost use Rattle.litmus_parse.specs.declared.answer.Reason.TheVariants as reasons;

/// Law: the line on what to write, with which all that is said of a refused text ends, is never empty, whatever the
/// reason, the token and the text, unless memory is refused.
pub fn law_each_refusal_has_a_note()
    ensures { (reason : Reason) → reason ≢ reasons.OutOfMemory → (token before rest : List ℕ)
        → note_line reason token before rest ≢ [] }
{}
