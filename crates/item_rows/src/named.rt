//! Lists of names with a space and an index: arguments, and exports of instances.

ghost use Rattle.std.specs.Prelude.{◌≡◌, IfOk};
ghost use Rattle.comp_model.specs.Model as m;
ghost use Rattle.comp_wire.specs.Values.{rows_of_list};
ghost use Rattle.wire_tree.specs.Lists.{node_of, nodes_listed};
ghost use Rattle.wire_tree.specs.Model.{leaf_of};
ghost use Rattle.item_rows.specs.Named.{named_row};

use crate::arena::place_all;
use crate::parts::of_two;
use bumpalo::Bump;
use comp_model::{Row, Space};
use std::alloc::{AllocError, Global};
use wire_tree::{Leaf, Node};

/// The row of a name, its space and its index.
fn named_node<'t, 'a: 't>(
    bump: &'t Bump,
    row: Row,
    item: &(&'a [u8], Space, u32),
) -> Result<Node<'t, 't>, AllocError>
    ensures { IfOk result (λ n. node_of n ≡ named_row row item.now) }
{
    of_two(bump, row, Leaf::Text(item.0), Leaf::Index(item.1, item.2))
}

/// The rows of names.
#[tactic(auto, using(crate::proofs::ListRows::all_rows))]
fn named_nodes<'t, 'a: 't>(
    alloc: Global,
    bump: &'t Bump,
    row: Row,
    items: &[(&'a [u8], Space, u32)],
) -> Result<&'t [Node<'t, 't>], AllocError>
    ensures { IfOk result (λ ns. nodes_listed ns.now ≡ rows_of_list (named_row row) items.now) }
{
    let mut nodes = Vec::new(alloc);
    for item in items {
        let node = named_node(bump, row, item)?;
        nodes.push(node)?;
    }
    let placed = place_all(bump, nodes.as_slice())?;
    Ok(placed)
}

/// A list of names, each an entry of this row.
#[tactic(auto, using(wire_tree::proofs::Leaves::leaf_nodes))]
pub fn named_items<'t, 'a: 't>(
    alloc: Global,
    bump: &'t Bump,
    row: Row,
    items: &[(&'a [u8], Space, u32)],
) -> Result<Leaf<'t, 't>, AllocError>
    ensures { IfOk result (λ l. leaf_of l ≡ m.nodes (rows_of_list (named_row row) items.now)) }
{
    let nodes = named_nodes(alloc, bump, row, items)?;
    Ok(Leaf::Nodes(nodes))
}
