//! Parts behind the end of a list, which go into the arena.

ghost use Rattle.std.specs.Prelude.{◌≡◌, ◌≤◌, List, IfOk, OnOk, map, take, drop, length};
ghost use Rattle.comp_model.specs.CoreModules.{CoreModule, Field};
ghost use Rattle.text_rules.specs.Made.{first_row, first_place};
ghost use Rattle.comp_tree.specs.Model.{leaf_of};
ghost use Rattle.tree_build.specs.Cores.{Final, Grows};
ghost use Rattle.tree_build.specs.Held.{loose};

use crate::cores::Cores;
use crate::modules::settle;
use bumpalo::Bump;
use comp_model::Row;
use comp_tree::{Leaf, place_all};
use std::alloc::AllocError;

/// The first row behind an end, which goes with all others there.
#[inline]
pub(crate) fn take_row(rows: &mut Vec<Row>, end: usize) -> Row
    ensures row { result ≡ first_row (drop end rows.old.items) }
    ensures rest { rows.new.items ≡ take end rows.old.items }
{
    let row = row_at(rows, end);
    rows.truncate(end);
    row
}

/// The first row behind an end.
#[inline]
fn row_at(rows: &[Row], end: usize) -> Row
    ensures { result ≡ first_row (drop end rows.now) }
{
    if end < rows.len() {
        rows[end]
    } else {
        Row::Primitive
    }
}

/// The first offset behind an end.
#[inline]
pub(crate) fn place_at(places: &[u32], end: usize) -> u32
    ensures { result ≡ first_place (drop end places.now) }
{
    if end < places.len() { places[end] } else { 0 }
}

/// Moves all parts behind an end from a stack into the arena. Fails when memory runs out.
#[inline]
pub fn take_all<'a, T: Copy>(
    bump: &'a Bump,
    parts: &mut Vec<T>,
    end: usize,
) -> Result<&'a [T], AllocError>
    requires { end ≤ length parts.old.items }
    ensures taken { IfOk result (λ n. n.now ≡ drop end parts.old.items) }
    ensures rest { OnOk result (parts.new.items ≡ take end parts.old.items) }
{
    match place_all(bump, &parts[end..]) {
        Ok(placed) => {
            parts.truncate(end);
            Ok(placed)
        }
        Err(AllocError) => Err(AllocError),
    }
}

/// The leaves behind an end.
#[inline]
pub(crate) fn take_leaves<'t, 'a>(
    bump: &'t Bump,
    cores: &mut Cores<'a>,
    leaves: &mut Vec<Leaf<'t, 'a>>,
    end: usize,
) -> Result<&'t [Leaf<'t, 'a>], AllocError>
    requires { end ≤ length leaves.old.items }
    ensures grows { OnOk result (Grows cores.old cores.new) }
    ensures taken { (fs : List (List Field)) (cs : List CoreModule) → Final fs cs cores.new → IfOk result (λ n. map (leaf_of cs) n.now ≡ map (loose fs cs) (drop end leaves.old.items)) }
    ensures rest { OnOk result (leaves.new.items ≡ take end leaves.old.items) }
{
    match bump.try_alloc_slice_copy(&leaves[end..]) {
        Ok(placed) => match settle(cores, placed) {
            Ok(()) => {
                leaves.truncate(end);
                Ok(&*placed)
            }
            Err(AllocError) => Err(AllocError),
        },
        Err(_) => Err(AllocError),
    }
}
