//! The words for verdicts on a page, each in a class of its own.

ghost use Rattle.std.specs.Prelude.{◌≡◌, IfOk, Option};
ghost use Rattle.race_output.specs.Words as words;
ghost use Rattle.race_page.specs.Verdicts as spec;

use output_pieces::TextBuilder;
use race_output::FileVerdict;
use race_output::words::{Said, file_word};
use std::alloc::{AllocError, Global};

/// How bad a verdict is: a race that KCSAN doesn't report is the worst.
pub fn severity(said: Said) -> u8
    ensures { result ≡ spec.severity said }
{
    match said {
        Said::Apart => 0,
        Said::NoRace => 1,
        Said::NotSettled => 2,
        Said::Reported => 3,
        Said::Race => 4,
        Said::Missed => 5,
    }
}

/// The worse of two verdicts, of which the first may be none.
pub fn worse(so_far: Option<Said>, said: Said) -> Said
    ensures { result ≡ spec.worse so_far said }
{
    match so_far {
        Some(own) if severity(said) <= severity(own) => own,
        _ => said,
    }
}

/// The words for what is said of a pair.
pub fn said_words(said: Said) -> &'static str
    ensures { result.now ≡ words.said_words said }
{
    match said {
        Said::Reported => "reported",
        Said::Missed => "missed",
        Said::Race => "race",
        Said::NoRace => "no race",
        Said::Apart => "apart",
        Said::NotSettled => "not settled",
    }
}

/// The class of what is said of a pair, by which it has its looks.
pub fn said_class(said: Said) -> &'static str
    ensures { result.now ≡ spec.said_class said }
{
    match said {
        Said::Reported => "reported",
        Said::Missed => "missed",
        Said::Race => "race",
        Said::NoRace => "no-race",
        Said::Apart => "apart",
        Said::NotSettled => "not-settled",
    }
}

/// Words in a class, strong.
pub(crate) fn strong(alloc: Global, class: &str, words: &str) -> Result<Vec<u8>, AllocError>
    ensures { IfOk result (λ text. text.items ≡ spec.strong class.now words.now) }
{
    TextBuilder::new(alloc)
        .piece(b"<b class=\"")
        .words(class)
        .piece(b"\">")
        .words(words)
        .piece(b"</b>")
        .build()
}

/// What is said of a pair.
pub fn said_text(alloc: Global, said: Said) -> Result<Vec<u8>, AllocError>
    ensures { IfOk result (λ text. text.items ≡ spec.said_text said) }
{
    strong(alloc, said_class(said), said_words(said))
}

/// What is said of a file.
pub fn file_text(alloc: Global, verdict: FileVerdict) -> Result<Vec<u8>, AllocError>
    ensures { IfOk result (λ text. text.items ≡ spec.file_text verdict) }
{
    strong(alloc, file_word(verdict), file_word(verdict))
}
