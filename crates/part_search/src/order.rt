//! Parts in the order of their numbers.

ghost use Rattle.std.specs.Prelude.{◌≡◌, ◌==◌, ◌∷◌, IfOk, MatchOption, false, position};
ghost use Rattle.std.specs.List.Sorted.{IsPermutation};
ghost use Rattle.part_search.specs.part_file.Wholes.{has_number};
ghost use Rattle.part_search.specs.Order.{AreInOrder, HasAll};

use crate::part_file::Part;
use std::alloc::{AllocError, Global};

/// Where the first part of a number stands, if there is one.
fn place_of(parts: &[Part], number: u64) -> Option<usize>
    ensures { result ≡ position (λ part. part.part == number) parts.now }
{
    parts.iter().position(|part| part.part == number)
}

/// Takes the first part of a number from the others, which come in another order.
fn take_numbered(parts: &mut Vec<Part>, number: u64) -> Option<Part>
    ensures { MatchOption result (has_number parts.old.items number ≡ false)
        (λ part. (part.part ≡ number) × IsPermutation parts.old.items (part ∷ parts.new.items)) }
{
    match place_of(parts, number) {
        Some(at) => Some(parts.swap_remove(at)),
        None => None,
    }
}

/// One part of each number from 1 to this one, in the order of their numbers. There has to be one of each.
pub(crate) fn in_order(
    alloc: Global,
    mut parts: Vec<Part>,
    count: u64,
) -> Result<Vec<Part>, AllocError>
    requires { HasAll parts.items count }
    ensures { IfOk result (λ ordered. AreInOrder parts.items count ordered.items) }
{
    let mut ordered = Vec::new(alloc);
    for before in 0..count {
        let Some(part) = take_numbered(&mut parts, before + 1) else {
            unreachable!()
        };
        ordered.push(part)?;
    }
    Ok(ordered)
}
