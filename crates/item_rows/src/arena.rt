//! Parts of rows, put into the arena.

ghost use Rattle.std.specs.Prelude.{◌≡◌, IfOk};

use bumpalo::Bump;
use std::alloc::AllocError;

/// One part in the arena. It is refused where memory ran out.
pub fn place<'t, T: Copy>(bump: &'t Bump, part: T) -> Result<&'t T, AllocError>
    ensures { IfOk result (λ r. r.now ≡ part) }
{
    match bump.try_alloc(part) {
        Ok(placed) => Ok(&*placed),
        Err(_) => Err(AllocError),
    }
}

/// A list of parts in the arena, in one piece. It is refused where memory ran out.
pub fn place_all<'t, T: Copy>(bump: &'t Bump, parts: &[T]) -> Result<&'t [T], AllocError>
    ensures { IfOk result (λ r. r.now ≡ parts.now) }
{
    match bump.try_alloc_slice_copy(parts) {
        Ok(placed) => Ok(&*placed),
        Err(_) => Err(AllocError),
    }
}
