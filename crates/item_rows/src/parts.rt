//! Rows of none to three leaves.

ghost use Rattle.std.specs.Prelude.{◌≡◌, IfOk};
ghost use Rattle.comp_model.specs.Model as m;
ghost use Rattle.comp_model.specs.Model.{no_leaf, ◌▸◌};
ghost use Rattle.wire_tree.specs.Lists.{node_of};
ghost use Rattle.wire_tree.specs.Model.{leaf_of};

use crate::arena::place_all;
use bumpalo::Bump;
use comp_model::Row;
use std::alloc::AllocError;
use wire_tree::{Leaf, Node};

/// A row without leaves.
pub fn of_none<'t>(row: Row) -> Node<'t, 't>
    ensures { node_of result ≡ m.row row no_leaf }
{
    Node { row, leaves: &[] }
}

/// A row of one leaf.
pub fn of_one<'t>(bump: &'t Bump, row: Row, leaf: Leaf<'t, 't>) -> Result<Node<'t, 't>, AllocError>
    ensures { IfOk result (λ n. node_of n ≡ m.row row (leaf_of leaf.entry ▸ no_leaf)) }
{
    let leaves = place_all(bump, &[leaf])?;
    Ok(Node { row, leaves })
}

/// A row of two leaves.
pub fn of_two<'t>(
    bump: &'t Bump,
    row: Row,
    first: Leaf<'t, 't>,
    second: Leaf<'t, 't>,
) -> Result<Node<'t, 't>, AllocError>
    ensures { IfOk result (λ n. node_of n ≡ m.row row (leaf_of first.entry ▸ leaf_of second.entry ▸ no_leaf)) }
{
    let leaves = place_all(bump, &[first, second])?;
    Ok(Node { row, leaves })
}

/// A row of three leaves.
pub fn of_three<'t>(
    bump: &'t Bump,
    row: Row,
    first: Leaf<'t, 't>,
    second: Leaf<'t, 't>,
    third: Leaf<'t, 't>,
) -> Result<Node<'t, 't>, AllocError>
    ensures { IfOk result (λ n. node_of n ≡ m.row row (leaf_of first.entry ▸ leaf_of second.entry ▸ leaf_of third.entry ▸ no_leaf)) }
{
    let leaves = place_all(bump, &[first, second, third])?;
    Ok(Node { row, leaves })
}
