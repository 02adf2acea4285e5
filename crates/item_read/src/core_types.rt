//! Core types, but for those of modules.

ghost use Rattle.std.specs.Prelude.{◌≡◌, IfOk};
ghost use Rattle.comp_model.specs.Model as m;
ghost use Rattle.comp_wire.specs.Values.{function_row, rows_of_list};
ghost use Rattle.wire_tree.specs.Lists.{node_of, nodes_listed};
ghost use Rattle.wire_tree.specs.Model.{leaf_of};
ghost use Rattle.item_tree.specs.Model.{core_type_row};
ghost use Rattle.item_read.specs.Leaves.{Each, IsList};
ghost use Rattle.item_read.specs.Rows.{IsCoreFunction, IsCoreType};

use crate::entries::entries;
use crate::parts::{one, two};
use comp_model::Row;
use comp_wire::{Seq, WireFunc, WireVal};
use item_tree::ItemCoreType;
use std::alloc::{AllocError, Global};
use wire_tree::{Leaf, Node};

/// The function type that a node is.
fn function_of(alloc: Global, node: &Node<'_, '_>) -> Result<WireFunc, AllocError>
    requires { IsCoreFunction (node_of node.now) }
    ensures { IfOk result (λ v. function_row v ≡ node_of node.now) }
{
    let (params, results) = two(node.leaves);
    let params = entries::<WireVal>(alloc, params)?;
    let results = entries::<WireVal>(alloc, results)?;
    Ok(WireFunc { params, results })
}

/// The function types that nodes are.
#[tactic(auto, using(crate::proofs::ListRows::all_rows, crate::proofs::ListRows::one_of_all))]
fn all_functions(alloc: Global, nodes: &[Node<'_, '_>]) -> Result<Seq<WireFunc>, AllocError>
    requires { Each IsCoreFunction (nodes_listed nodes.now) }
    ensures { IfOk result (λ v. rows_of_list function_row v ≡ nodes_listed nodes.now) }
{
    let mut found = Vec::new(alloc);
    for node in nodes {
        let function = function_of(alloc, node)?;
        found.push(function)?;
    }
    Ok(Seq::from_vec(found))
}

/// The function types of a group.
#[tactic(auto, using(crate::proofs::Held::nodes_held, crate::proofs::Held::list_held))]
fn functions(alloc: Global, leaf: &Leaf<'_, '_>) -> Result<Seq<WireFunc>, AllocError>
    requires { IsList IsCoreFunction (leaf_of leaf.now) }
    ensures { IfOk result (λ v. m.nodes (rows_of_list function_row v) ≡ leaf_of leaf.now) }
{
    match leaf {
        Leaf::Nodes(nodes) => {
            let found = all_functions(alloc, nodes)?;
            Ok(found)
        }
        _ => unreachable!(),
    }
}

/// The core type that a node is.
pub fn core_type_of<'a>(alloc: Global, node: &Node<'_, 'a>) -> Result<ItemCoreType<'a>, AllocError>
    requires { IsCoreType (node_of node.now) }
    ensures { IfOk result (λ v. core_type_row v ≡ node_of node.now) }
{
    match node.row {
        Row::CoreFunctionType => {
            let found = function_of(alloc, node)?;
            Ok(ItemCoreType::Func(found))
        }
        Row::CoreRec => {
            let found = functions(alloc, one(node.leaves))?;
            Ok(ItemCoreType::Rec(found))
        }
        _ => unreachable!(),
    }
}
