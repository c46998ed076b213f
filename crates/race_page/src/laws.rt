//! Laws of pages: functions that do nothing, and whose contracts are the lemmas.

ghost use Rattle.std.specs.Prelude.{◌≡◌, ◌++◌, ◌∷◌, ◌<◌, ℕ, All, List, true};
ghost use Rattle.std.specs.List.{list_any};
ghost use Rattle.race_page.specs.Escape.{IsHarmless, entities, escaped};
ghost use Rattle.race_page.specs.Followed.{is_prefix};
ghost use Rattle.race_page.specs.Page.{page_text};
ghost use Rattle.race_page.specs.Tags.{IsDrawn, tags};
ghost use Rattle.race_page.specs.declared.values.Page.{Page};

/// Law: an escaped text has no `<`, `>`, `"` or `'`, so that it neither opens a tag nor ends the value of an attribute;
/// and all its bytes can be shown.
pub fn law_escaped_text_opens_no_tag()
    ensures { (text : List ℕ) → All (λ byte. byte < 256) text → All IsHarmless (escaped text) }
{}

/// Law: each `&` of an escaped text is that of an entity which stands for one byte.
pub fn law_escaped_text_has_its_own_entities()
    ensures { (text before after : List ℕ) → All (λ byte. byte < 256) text → escaped text ≡ before ++ 38 ∷ after
        → list_any (λ entity. is_prefix entity after) entities ≡ true }
{}

/// Law: whatever files are called and have in their texts, each `<` of a page is that of one of its own tags or of a
/// picture's, if the pictures have no others. So a page has no script, and loads nothing from outside.
pub fn law_page_has_its_own_tags()
    ensures { (page : Page) (before after : List ℕ) → All IsDrawn page.files.now → page_text page ≡ before ++ 60 ∷ after
        → list_any (λ tag. is_prefix tag after) tags ≡ true }
{}
