//! The values of an access's bytes, before and after its watch.

ghost use Rattle.std.specs.Prelude.{◌≡◌, ◌+◌, ◌<◌, ◌≤◌, IfSome, position};
ghost use Rattle.access_types.specs.Sites.{AccessMap};
ghost use Rattle.setup_access.specs.Kept.{setting_with};
ghost use Rattle.setup_access.specs.Values as spec;

use crate::setting::Setting;
use crate::source::Source;
use access_types::Access;

/// The cell that an access lies in, if it lies in one.
#[inline(always)]
fn cell_of(setting: &Setting, access: &Access) -> Option<usize>
    ensures { result ≡ position (spec.lies_in access.now) setting.now.cells.items }
{
    setting.cells.iter().position(|cell| lies_in(access, *cell))
}

/// Where an access's value is loaded from, if it has one: its bytes are 1, 2, 4 or 8, and lie in one cell.
#[inline(always)]
pub(crate) fn source_of(setting: &Setting, access: &Access) -> Option<Source>
    requires { 0 < access.now.size }
    ensures value { (sites : AccessMap) → result ≡ spec.source_of (setting_with setting.now sites) access.now }
    ensures in_cell { IfSome result (λ source. source.first + access.now.size ≤ 8) }
{
    // As KCSAN's read_instrumented_memory(), which reads bytes of these sizes alone: others aren't compared.
    if !matches!(access.size(), 1 | 2 | 4 | 8) {
        return None;
    }
    let cell = cell_of(setting, access)?;
    let first = access.addr() - setting.cells[cell];
    Some(Source { cell, first })
}

/// Whether the range of the access lies in the cell of eight bytes at an address.
#[inline(always)]
fn lies_in(access: &Access, cell: u64) -> bool
    ensures { result ≡ spec.lies_in access.now cell }
{
    cell <= access.addr() && access.addr() - cell + access.size() <= 8
}

/// The bytes of the access in the word of its cell, the lowest first.
#[inline(always)]
pub fn value_in(access: &Access, source: Source, word: u64) -> u64
    ensures { result ≡ spec.value_in access.now source word }
{
    if source.first > 7 {
        return 0;
    }
    let from = word >> (8 * source.first);
    if access.size() < 8 {
        from % (1 << (8 * access.size()))
    } else {
        from
    }
}
