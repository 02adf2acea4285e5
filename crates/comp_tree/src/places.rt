//! The numbers of references.

ghost use Rattle.std.specs.List.{range_with_len};
ghost use Rattle.std.specs.Prelude.{◌≡◌, IfOk};

use std::alloc::{AllocError, Global};

/// So many places, from 0 on.
pub fn first_places(alloc: Global, count: u32) -> Result<Vec<u32>, AllocError>
    ensures { IfOk result (λ r. r.items ≡ range_with_len 0 count) }
{
    let mut list = Vec::new(alloc);
    for place in 0..count {
        list.push(place)?;
    }
    Ok(list)
}
