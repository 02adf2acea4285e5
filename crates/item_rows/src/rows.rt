//! Rows that stand in others: descriptions of imports and exports, and entities of core modules.

ghost use Rattle.std.specs.Prelude.{◌≡◌, IfOk};
ghost use Rattle.comp_model.specs.Model as m;
ghost use Rattle.comp_wire.specs.Values.{optional_of, bounds_row, description_row, description_leaf, entity_row};
ghost use Rattle.wire_tree.specs.Lists.{node_of};
ghost use Rattle.wire_tree.specs.Model.{leaf_of};

use crate::arena::place;
use crate::leaves::{flag, optional_number, present};
use crate::parts::{of_none, of_one, of_three, of_two};
use bumpalo::Bump;
use comp_model::{Row, Space};
use comp_wire::{ComponentTypeRef, TypeBounds, WireEntity};
use std::alloc::AllocError;
use wire_tree::{Leaf, Node};

/// The row of a bound.
fn bounds_node<'t>(bump: &'t Bump, bounds: TypeBounds) -> Result<Node<'t, 't>, AllocError>
    ensures { IfOk result (λ n. node_of n ≡ bounds_row bounds) }
{
    match bounds {
        TypeBounds::Eq(ty) => of_one(bump, Row::TypeEq, Leaf::Index(Space::Ty, ty)),
        TypeBounds::SubResource => Ok(of_none(Row::SubResource)),
    }
}

/// The row of a description.
fn description_node<'t>(
    bump: &'t Bump,
    description: ComponentTypeRef,
) -> Result<Node<'t, 't>, AllocError>
    ensures { IfOk result (λ n. node_of n ≡ description_row description) }
{
    match description {
        ComponentTypeRef::Module(ty) => of_one(
            bump,
            Row::ModuleDescription,
            Leaf::Index(Space::CoreType, ty),
        ),
        ComponentTypeRef::Func(ty) => of_one(
            bump,
            Row::FuncDescription,
            Leaf::Index(Space::Ty, ty),
        ),
        ComponentTypeRef::Ty(bounds) => bounds_node(bump, bounds),
        ComponentTypeRef::Component(ty) => of_one(
            bump,
            Row::ComponentDescription,
            Leaf::Index(Space::Ty, ty),
        ),
        ComponentTypeRef::Instance(ty) => of_one(
            bump,
            Row::InstanceDescription,
            Leaf::Index(Space::Ty, ty),
        ),
    }
}

/// A row as a leaf.
#[tactic(auto, using(wire_tree::proofs::Leaves::leaf_node))]
fn node_leaf<'t>(bump: &'t Bump, node: Node<'t, 't>) -> Result<Leaf<'t, 't>, AllocError>
    ensures { IfOk result (λ l. leaf_of l ≡ m.node (node_of node.entry)) }
{
    let placed = place(bump, node)?;
    Ok(Leaf::Node(placed))
}

/// A description.
pub fn description<'t>(
    bump: &'t Bump,
    description: ComponentTypeRef,
) -> Result<Leaf<'t, 't>, AllocError>
    ensures { IfOk result (λ l. leaf_of l ≡ description_leaf description) }
{
    let node = description_node(bump, description)?;
    node_leaf(bump, node)
}

/// A description that may be missing.
pub fn optional_description<'t>(
    bump: &'t Bump,
    found: Option<ComponentTypeRef>,
) -> Result<Leaf<'t, 't>, AllocError>
    ensures { IfOk result (λ l. leaf_of l ≡ optional_of description_leaf found) }
{
    match found {
        None => Ok(Leaf::Absent),
        Some(found) => {
            let part = description(bump, found)?;
            present(bump, part)
        }
    }
}

/// The row of an entity.
fn entity_node<'t>(bump: &'t Bump, entity: WireEntity) -> Result<Node<'t, 't>, AllocError>
    ensures { IfOk result (λ n. node_of n ≡ entity_row entity) }
{
    match entity {
        WireEntity::Func(ty) => of_one(bump, Row::FuncEntity, Leaf::Index(Space::CoreType, ty)),
        WireEntity::Table(element, least, most) => {
            let most = optional_number(bump, most)?;
            let element = Leaf::CoreValue(element);
            of_three(bump, Row::TableEntity, element, Leaf::Number(least), most)
        }
        WireEntity::Memory(least, most) => {
            let most = optional_number(bump, most)?;
            of_two(bump, Row::MemoryEntity, Leaf::Number(least), most)
        }
        WireEntity::Global(value, mutable) => {
            let value = Leaf::CoreValue(value);
            of_two(bump, Row::GlobalEntity, value, flag(mutable))
        }
    }
}

/// An entity.
pub fn entity<'t>(bump: &'t Bump, entity: WireEntity) -> Result<Leaf<'t, 't>, AllocError>
    ensures { IfOk result (λ l. leaf_of l ≡ m.node (entity_row entity)) }
{
    let node = entity_node(bump, entity)?;
    node_leaf(bump, node)
}
