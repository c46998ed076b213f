//! The whole page. It has all that it needs: no script, and no style, font or picture from outside.

ghost use Rattle.std.specs.Prelude.{◌≡◌, IfOk};
ghost use Rattle.race_page.specs.Page as spec;

use crate::counts::file_counts;
use crate::escape::escaped;
use crate::files::{file_rows, file_sections};
use crate::looks::{HEAD, LEGEND, LOOKS, TABLE_HEAD};
use crate::values::{FileTold, Page};
use output_pieces::TextBuilder;
use race_output::last_line;
use race_output::settings_text::settings_line;
use std::alloc::{AllocError, Global};

/// What is written in front of the files.
fn head(alloc: Global) -> Result<Vec<u8>, AllocError>
    ensures { IfOk result (λ text. text.items ≡ spec.head) }
{
    TextBuilder::new(alloc)
        .words(HEAD)
        .piece(b"<style>\n")
        .words(LOOKS)
        .piece(b"</style>\n</head>\n<body>\n<h1>Data races</h1>\n")
        .build()
}

/// How many files have which verdict, and the table of files.
fn table(alloc: Global, files: &[FileTold]) -> Result<Vec<u8>, AllocError>
    ensures { IfOk result (λ text. text.items ≡ spec.table files.now) }
{
    TextBuilder::new(alloc)
        .piece(b"<p>")
        .text(last_line(alloc, file_counts(files)))
        .piece(b"</p>\n<div class=\"wide\">\n<table class=\"files\">\n")
        .words(TABLE_HEAD)
        .piece(b"<tbody>\n")
        .text(file_rows(alloc, files))
        .piece(b"</tbody>\n</table>\n</div>\n")
        .build()
}

/// What is written behind the files: what the words mean, the settings, and the program.
fn foot(alloc: Global, page: &Page<'_>) -> Result<Vec<u8>, AllocError>
    ensures { IfOk result (λ text. text.items ≡ spec.foot page.now) }
{
    TextBuilder::new(alloc)
        .piece(b"<footer>\n")
        .words(LEGEND)
        .piece(b"<p>")
        .text(settings_line(alloc, page.settings))
        .piece(b"</p>\n<p>")
        .text(escaped(alloc, page.program.as_bytes()))
        .piece(b"</p>\n</footer>\n</body>\n</html>\n")
        .build()
}

/// The page: a table of the files with their verdicts; of each file its text, in which each site is marked by its worst
/// verdict, and its pairs, with pictures; and at the foot the settings and the program. Texts from files are escaped:
/// only a picture is written as it stands.
pub fn page_bytes(alloc: Global, page: &Page<'_>) -> Result<Vec<u8>, AllocError>
    ensures { IfOk result (λ bytes. bytes.items ≡ spec.page_text page.now) }
{
    TextBuilder::new(alloc)
        .text(head(alloc))
        .text(table(alloc, page.files))
        .text(file_sections(alloc, page.files))
        .text(foot(alloc, page))
        .build()
}
