//! The worst verdict on the sites that begin at each place of a text.

ghost use Rattle.std.specs.Prelude.{◌≡◌, ◌<◌, ℕ, IfOk, None, length, slice_index_or, vec_len};
ghost use Rattle.race_page.specs.Marks as spec;
ghost use Rattle.race_page.specs.Marks.{AreMarks};

use crate::values::PairTold;
use crate::verdicts::worse;
use race_output::sites::SiteTold;
use race_output::words::{Said, said_of};
use std::alloc::{AllocError, Global};

/// Notes a verdict at the place where a site begins, unless a worse one is noted there.
fn mark_site(marks: &mut [Option<Said>], site: SiteTold, said: Said)
    ensures { (k : ℕ) → k < length marks.old
        → slice_index_or marks.new k None ≡ spec.with_site site said k (slice_index_or marks.old k None) }
{
    if let Some(at) = site.at {
        if at < marks.len() {
            marks[at] = Some(worse(marks[at], said));
        }
    }
}

/// Notes the verdict on a pair at the places where its sites begin.
fn mark_pair(marks: &mut [Option<Said>], one: &PairTold)
    ensures { (k : ℕ) → k < length marks.old
        → slice_index_or marks.new k None ≡ spec.with_pair k (slice_index_or marks.old k None) one.now }
{
    let said = said_of(one.verdict);
    mark_site(marks, one.first, said);
    mark_site(marks, one.second, said);
}

/// The worst verdict at each place of a text of so many bytes.
pub(crate) fn marks_of(
    alloc: Global,
    len: usize,
    pairs: &[PairTold],
) -> Result<Vec<Option<Said>>, AllocError>
    ensures { IfOk result (λ marks. AreMarks pairs.now len marks.items) }
{
    let mut marks = vec![in alloc; None; len]?;
    for one in pairs {
        mark_pair(&mut marks, one);
    }
    Ok(marks)
}
