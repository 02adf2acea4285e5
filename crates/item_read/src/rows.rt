//! Rows that stand in others: descriptions of imports and exports, and entities of core modules.

ghost use Rattle.std.specs.Prelude.{◌≡◌};
ghost use Rattle.comp_model.specs.Model as m;
ghost use Rattle.comp_wire.specs.Values.{optional_of, description_row, description_leaf, entity_row};
ghost use Rattle.wire_tree.specs.Lists.{node_of};
ghost use Rattle.wire_tree.specs.Model.{leaf_of};
ghost use Rattle.item_read.specs.Leaves.{IsOptional, IsRow};
ghost use Rattle.item_read.specs.Rows.{IsDescription, IsEntity};

use crate::leaves::{core_value, flag, index, number, optional_number};
use crate::parts::{one, three, two};
use comp_model::Row;
use comp_wire::{ComponentTypeRef, TypeBounds, WireEntity};
use wire_tree::{Leaf, Node};

/// The description that a node is.
fn description_of(node: &Node<'_, '_>) -> ComponentTypeRef
    requires { IsDescription (node_of node.now) }
    ensures { description_row result ≡ node_of node.now }
{
    match node.row {
        Row::ModuleDescription => ComponentTypeRef::Module(index(one(node.leaves))),
        Row::FuncDescription => ComponentTypeRef::Func(index(one(node.leaves))),
        Row::TypeEq => ComponentTypeRef::Ty(TypeBounds::Eq(index(one(node.leaves)))),
        Row::SubResource => ComponentTypeRef::Ty(TypeBounds::SubResource),
        Row::ComponentDescription => ComponentTypeRef::Component(index(one(node.leaves))),
        Row::InstanceDescription => ComponentTypeRef::Instance(index(one(node.leaves))),
        _ => unreachable!(),
    }
}

/// A description.
pub fn description(leaf: &Leaf<'_, '_>) -> ComponentTypeRef
    requires { IsRow IsDescription (leaf_of leaf.now) }
    ensures { description_leaf result ≡ leaf_of leaf.now }
{
    match leaf {
        Leaf::Node(node) => description_of(node),
        _ => unreachable!(),
    }
}

/// A description, if there is one.
pub fn optional_description(leaf: &Leaf<'_, '_>) -> Option<ComponentTypeRef>
    requires { IsOptional (IsRow IsDescription) (leaf_of leaf.now) }
    ensures { optional_of description_leaf result ≡ leaf_of leaf.now }
{
    match leaf {
        Leaf::Absent => None,
        Leaf::Present(part) => Some(description(part)),
        _ => unreachable!(),
    }
}

/// The entity that a node is.
fn entity_of(node: &Node<'_, '_>) -> WireEntity
    requires { IsEntity (node_of node.now) }
    ensures { entity_row result ≡ node_of node.now }
{
    match node.row {
        Row::FuncEntity => WireEntity::Func(index(one(node.leaves))),
        Row::TableEntity => {
            let (element, least, most) = three(node.leaves);
            WireEntity::Table(core_value(element), number(least), optional_number(most))
        }
        Row::MemoryEntity => {
            let (least, most) = two(node.leaves);
            WireEntity::Memory(number(least), optional_number(most))
        }
        Row::GlobalEntity => {
            let (value, mutable) = two(node.leaves);
            WireEntity::Global(core_value(value), flag(mutable))
        }
        _ => unreachable!(),
    }
}

/// An entity.
pub fn entity(leaf: &Leaf<'_, '_>) -> WireEntity
    requires { IsRow IsEntity (leaf_of leaf.now) }
    ensures { m.node (entity_row result) ≡ leaf_of leaf.now }
{
    match leaf {
        Leaf::Node(node) => entity_of(node),
        _ => unreachable!(),
    }
}
