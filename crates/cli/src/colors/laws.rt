//! What is true of coloured texts: a law over definitions.

ghost use Rattle.std.specs.Prelude.{◌≡◌, ◌≢◌, ℕ, All, List};
ghost use Rattle.cli.specs.colors.Colored.{colored};
ghost use Rattle.cli.specs.colors.Escapes.{without_escapes};

/// Law: without its escapes a coloured text is the text, where that has no ESC of its own.
pub fn law_without_escapes_it_is_the_text()
    ensures { (text : List ℕ) → All (λ byte. byte ≢ 27) text → without_escapes (colored text) ≡ text }
{}
