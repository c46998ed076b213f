//! Laws of the definitions, each the contract of a function that does nothing.

ghost use Rattle.std.specs.Prelude.{◌≡◌, ℕ, List};
ghost use Rattle.litmus_lex.specs.declared.token.Part.{Part};
ghost use Rattle.litmus_lex.specs.Head.{IsText};
ghost use Rattle.litmus_lex.specs.Tokens.{AreTokens, Placed};

/// Bytes have at most one list of tokens, in one part of the text and at one place.
pub fn law_bytes_have_one_list_of_tokens()
    ensures { (part : Part) (at : ℕ) (bytes : List ℕ) (first second : List Placed)
        → AreTokens part at bytes first → AreTokens part at bytes second → first ≡ second }
{}

/// A text has at most one name and one list of tokens.
pub fn law_a_text_has_one_reading()
    ensures { (text name other : List ℕ) (first second : List Placed)
        → IsText text name first → IsText text other second → (name ≡ other) × (first ≡ second) }
{}
