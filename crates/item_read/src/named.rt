//! Lists of names with a space and an index: arguments, and exports of instances.

ghost use Rattle.std.specs.Prelude.{◌≡◌, IfOk};
ghost use Rattle.comp_model.specs.declared.row.Row.{Row};
ghost use Rattle.comp_model.specs.Model as m;
ghost use Rattle.comp_model.specs.Model.{no_leaf, ◌▸◌};
ghost use Rattle.comp_wire.specs.Values.{rows_of_list};
ghost use Rattle.wire_tree.specs.Lists.{listed, nodes_listed};
ghost use Rattle.wire_tree.specs.Model.{leaf_of};
ghost use Rattle.item_read.specs.Leaves.{Each, IsItem, IsList, IsText};
ghost use Rattle.item_read.specs.Named.{named_row};
ghost use Rattle.item_read.specs.Parts.{Two};
ghost use Rattle.item_read.specs.Rows.{IsNamedItem};

use crate::leaves::{item, text};
use crate::parts::two;
use comp_model::Space;
use comp_wire::Seq;
use std::alloc::{AllocError, Global};
use wire_tree::{Leaf, Node};

/// The name, space and index that a node is.
fn named_item<'a>(node: &Node<'_, 'a>) -> (&'a [u8], Space, u32)
    requires { Two IsText IsItem (listed node.now.leaves.now) }
    ensures { m.text result.0.now ▸ m.ref result.1 (m.index result.2) ▸ no_leaf ≡ listed node.now.leaves.now }
{
    let (name, named) = two(node.leaves);
    let (space, index) = item(named);
    (text(name), space, index)
}

/// Those that nodes are.
fn all_named<'a>(
    alloc: Global,
    nodes: &[Node<'_, 'a>],
) -> Result<Seq<(&'a [u8], Space, u32)>, AllocError>
    requires { (r : Row) × Each (IsNamedItem r) (nodes_listed nodes.now) }
    ensures { (r : Row) → Each (IsNamedItem r) (nodes_listed nodes.now) → IfOk result (λ v. rows_of_list (named_row r) v ≡ nodes_listed nodes.now) }
{
    let mut found = Vec::new(alloc);
    for node in nodes {
        found.push(named_item(node))?;
    }
    Ok(Seq::from_vec(found))
}

/// Those of a list, each of which is of one row.
pub fn named_items<'a>(
    alloc: Global,
    leaf: &Leaf<'_, 'a>,
) -> Result<Seq<(&'a [u8], Space, u32)>, AllocError>
    requires { (r : Row) × IsList (IsNamedItem r) (leaf_of leaf.now) }
    ensures { (r : Row) → IsList (IsNamedItem r) (leaf_of leaf.now) → IfOk result (λ v. m.nodes (rows_of_list (named_row r) v) ≡ leaf_of leaf.now) }
{
    match leaf {
        Leaf::Nodes(nodes) => all_named(alloc, nodes),
        _ => unreachable!(),
    }
}
