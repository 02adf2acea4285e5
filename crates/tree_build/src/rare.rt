//! What is rarely made of all that a part left.

ghost use Rattle.std.specs.Prelude.{◌≡◌, ◌≤◌, drop, length};
ghost use Rattle.comp_model.specs.declared.row.Row.TheVariants as rows;
ghost use Rattle.comp_model.specs.RowNumbers.{same_row};
ghost use Rattle.text_rules.specs.Rule.{alone, dropped, last_first, results, swapped};
ghost use Rattle.text_rules.specs.Made.{first_row};
ghost use Rattle.tree_build.specs.Adds.{MakesOf};
ghost use Rattle.tree_build.specs.AllEnds.{AtEnds, IsAtEnds};
ghost use Rattle.tree_build.specs.Rare.{Cut, Makes};

use crate::scratch::Scratch;
use comp_model::Row;
use comp_tree::{Leaf, place_all};
use std::alloc::AllocError;

/// Where all stacks end: how many parts stand on each.
#[derive(Clone, Copy)]
pub struct Ends {
    /// Rows.
    pub rows: usize,
    /// Leaves.
    pub leaves: usize,
    /// Entries of lists.
    pub nodes: usize,
    /// Ids.
    pub ids: usize,
    /// Labels.
    pub labels: usize,
    /// Inline exports.
    pub exports: usize,
    /// Offsets.
    pub places: usize,
    /// Definitions.
    pub defs: usize,
}

impl Ends {
    /// Where they end now.
    pub fn of(scratch: &Scratch<'_, '_>) -> Ends
        ensures { AtEnds result scratch.now }
    {
        Ends {
            rows: scratch.rows.len(),
            leaves: scratch.leaves.len(),
            nodes: scratch.nodes.len(),
            ids: scratch.ids.len(),
            labels: scratch.labels.len(),
            exports: scratch.exports.len(),
            places: scratch.places.len(),
            defs: scratch.defs.len(),
        }
    }
}

/// Drops what stands behind the ends.
fn cut(scratch: &mut Scratch<'_, '_>, ends: Ends)
    ensures { Cut ends scratch.old scratch.new }
{
    scratch.rows.truncate(ends.rows);
    scratch.leaves.truncate(ends.leaves);
    scratch.nodes.truncate(ends.nodes);
    scratch.ids.truncate(ends.ids);
    scratch.labels.truncate(ends.labels);
    scratch.exports.truncate(ends.exports);
    scratch.places.truncate(ends.places);
    scratch.defs.truncate(ends.defs);
}

/// Drops all parts behind the ends; the stacks are as they were at them. Core modules that were read stay in their list.
pub fn wrap_dropped(scratch: &mut Scratch<'_, '_>, ends: Ends)
    ensures { Makes dropped (IsAtEnds ends) scratch.old scratch.new }
{
    cut(scratch, ends);
}

/// Whether this is the row of what is declared in another way.
fn is_other_entity(row: Row) -> bool
    ensures { result ≡ same_row row rows.OtherEntity }
{
    match row {
        Row::OtherEntity => true,
        _ => false,
    }
}

/// Whether that is the first row behind an end.
fn other_stands(stack: &[Row], end: usize) -> bool
    ensures { result ≡ same_row (first_row (drop end stack.now)) rows.OtherEntity }
{
    end < stack.len() && is_other_entity(stack[end])
}

/// Drops what stands beside the row of something that is declared in another way, if that is the first row behind the ends; all else stays.
pub fn wrap_other_alone(scratch: &mut Scratch<'_, '_>, ends: Ends)
    ensures { Makes (alone rows.OtherEntity) (IsAtEnds ends) scratch.old scratch.new }
{
    if other_stands(&scratch.rows, ends.rows) {
        let rows = scratch.rows.len();
        cut(scratch, Ends { rows, ..ends });
    }
}

/// Adds the ids behind an end as one leaf, that of the results of a signature. The ids stay. Fails when memory runs out.
pub fn wrap_results(scratch: &mut Scratch<'_, '_>, ids: usize) -> Result<(), AllocError>
    requires { ids ≤ length scratch.old.ids.items }
    ensures { MakesOf results (λ a. length a.ids ≡ ids) result scratch.old scratch.new }
{
    match place_all(scratch.bump, &scratch.ids[ids..]) {
        Ok(ids) => scratch.leaf(Leaf::Results(ids)),
        Err(AllocError) => Err(AllocError),
    }
}

/// Exchanges the last two of three leaves behind an end; any other number of leaves stays as it is.
pub fn wrap_swapped(scratch: &mut Scratch<'_, '_>, leaves: usize)
    requires { leaves ≤ length scratch.old.leaves.items }
    ensures { Makes swapped (λ a. length a.leaves ≡ leaves) scratch.old scratch.new }
{
    if scratch.leaves.len() - leaves == 3 {
        scratch.leaves.swap(leaves + 1, leaves + 2);
    }
}

/// Puts the last leaf behind an end in front of all others there. Fails when memory runs out.
pub fn wrap_last_first(scratch: &mut Scratch<'_, '_>, leaves: usize) -> Result<(), AllocError>
    requires { leaves ≤ length scratch.old.leaves.items }
    ensures { MakesOf last_first (λ a. length a.leaves ≡ leaves) result scratch.old scratch.new }
{
    if leaves == scratch.leaves.len() {
        return Ok(());
    }
    match scratch.leaves.pop() {
        Some(last) => match scratch.leaves.insert(leaves, last) {
            Ok(()) => Ok(()),
            Err(_) => Err(AllocError),
        },
        None => Ok(()),
    }
}
