//! Values on cache lines of their own.
ghost use Rattle.std.specs.Prelude.{◌≡◌, ◌≤◌, [], length, map, IfOk, vec_capacity};
ghost use Rattle.crossbeam_utils.specs.Padded.{padded_value};

use crossbeam_utils::CachePadded;
use std::alloc::{AllocError, Global};

/// Each value with nothing else on its cache lines.
pub(crate) fn pad<W: Drop>(alloc: Global, values: Vec<W>) -> Result<Vec<CachePadded<W>>, AllocError>
    ensures { IfOk result (λ v. map padded_value v.items ≡ values.items) }
{
    let mut padded = Vec::with_capacity(alloc, values.len())?;
    for value in values {
        padded.push_reserved(CachePadded::new(value));
    }
    Ok(padded)
}

/// The values again, in a list that has room for them.
pub(crate) fn unpad<W: Drop>(padded: Vec<CachePadded<W>>, values: &mut Vec<W>)
    requires empty { values.old.items ≡ [] }
    requires room { length padded.items ≤ vec_capacity values.old }
    ensures { values.new.items ≡ map padded_value padded.items }
{
    for value in padded {
        values.push_reserved(value.into_inner());
    }
}
