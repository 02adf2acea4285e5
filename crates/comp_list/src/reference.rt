//! References of a definition.

ghost use Rattle.std.specs.Prelude.{◌≡◌, ◌++◌, OnOk, IfOk};
ghost use Rattle.comp_model.specs.declared.row.Row.TheVariants as rows;
ghost use Rattle.comp_wire.specs.Values.{core_value_of};
ghost use Rattle.wire_tree.specs.Lists.{listed, nodes_listed};
ghost use Rattle.wire_tree.specs.Model.{leaf_of};
ghost use Rattle.comp_list.specs.References.{references, leaf_references, node_references, value_references, maybe_reference, outer_count};

use comp_model::{Row, Space};
use comp_wire::{WireHeap, WireVal};
use std::alloc::{AllocError, Global};
use wire_tree::{Leaf, Node};

/// An index of a space.
#[derive(Clone, Copy, PartialEq, Eq, Debug)]
pub struct Reference {
    /// The space.
    pub space: Space,
    /// The index.
    pub index: u32,
}

/// The reference in a core value type: the index of a core type.
pub fn value_reference(value: WireVal) -> Option<Reference>
    ensures { maybe_reference result ≡ value_references (core_value_of value) }
{
    match value {
        WireVal::Ref {
            nullable: _,
            heap: WireHeap::Concrete(index),
        } => Some(Reference {
            space: Space::CoreType,
            index,
        }),
        _ => None,
    }
}

/// How many scopes outward an outer alias refers; none of any other row.
pub fn outer_count(node: &Node<'_, '_>) -> Option<u32>
    ensures { result ≡ outer_count node.now.row (listed node.now.leaves.now) }
{
    match node.row {
        Row::AliasOuter => first_count(node.leaves),
        _ => None,
    }
}

/// The count of scopes that stands first among leaves.
fn first_count(leaves: &[Leaf<'_, '_>]) -> Option<u32>
    ensures { result ≡ outer_count rows.AliasOuter (listed leaves.now) }
{
    if leaves.is_empty() {
        return None;
    }
    match &leaves[0] {
        Leaf::Outward(count) => Some(*count),
        _ => None,
    }
}

/// Puts a reference, if there is one, behind others.
pub fn push_some(found: &mut Vec<Reference>, reference: Option<Reference>) -> Result<(), AllocError>
    ensures { OnOk result (found.new.items ≡ found.old.items ++ maybe_reference reference) }
{
    if let Some(reference) = reference {
        found.push(reference)?;
    }
    Ok(())
}

/// Puts the references of a leaf behind others.
#[cycle(references)]
fn push_leaf(found: &mut Vec<Reference>, leaf: &Leaf<'_, '_>) -> Result<(), AllocError>
    ensures { OnOk result (found.new.items ≡ found.old.items ++ leaf_references (leaf_of leaf.now)) }
{
    match leaf {
        Leaf::Index(space, index) => {
            let reference = Reference {
                space: *space,
                index: *index,
            };
            push_some(found, Some(reference))
        }
        Leaf::CoreValue(value) => push_some(found, value_reference(*value)),
        Leaf::Present(part) => push_leaf(found, part),
        Leaf::Node(node) => push_leaves(found, node.leaves),
        Leaf::Nodes(nodes) => push_nodes(found, nodes),
        Leaf::Text(_) => Ok(()),
        Leaf::Number(_) => Ok(()),
        Leaf::Kind(_) => Ok(()),
        Leaf::Outward(_) => Ok(()),
        Leaf::Absent => Ok(()),
        Leaf::NoId => Ok(()),
        Leaf::Results(_) => Ok(()),
        Leaf::Module(_) => Ok(()),
        Leaf::Scope(_) => Ok(()),
    }
}

/// Puts the references of leaves behind others.
#[cycle(references)]
fn push_leaves(found: &mut Vec<Reference>, leaves: &[Leaf<'_, '_>]) -> Result<(), AllocError>
    ensures { OnOk result (found.new.items ≡ found.old.items ++ references (listed leaves.now)) }
{
    for leaf in leaves {
        push_leaf(found, leaf)?;
    }
    Ok(())
}

/// Puts the references of nodes behind others.
#[cycle(references)]
fn push_nodes(found: &mut Vec<Reference>, nodes: &[Node<'_, '_>]) -> Result<(), AllocError>
    ensures { OnOk result (found.new.items ≡ found.old.items ++ node_references (nodes_listed nodes.now)) }
{
    for node in nodes {
        push_leaves(found, node.leaves)?;
    }
    Ok(())
}

/// The references of a definition, in the order of its leaves. It is refused where memory ran out.
pub fn references_of(alloc: Global, leaves: &[Leaf<'_, '_>]) -> Result<Vec<Reference>, AllocError>
    ensures { IfOk result (λ v. v.items ≡ references (listed leaves.now)) }
{
    let mut found = Vec::new(alloc);
    push_leaves(&mut found, leaves)?;
    Ok(found)
}
