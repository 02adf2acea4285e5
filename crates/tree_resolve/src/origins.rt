//! The marks of a resolved component, as a value of their own.

ghost use Rattle.std.specs.Prelude.{◌≡◌, Bool, List, [], IfOk, OnOk};
ghost use Rattle.comp_model.specs.CoreModules.{CoreModule};
ghost use Rattle.comp_wire.specs.Origins.{origin_of, origins_of};
ghost use Rattle.comp_tree.specs.OriginMarks.{held_without_places, inside_by, item_mark, marks_after, marks_of_items, marks_shown, without_places};
ghost use Rattle.tree_resolve.specs.Planned.{section_mark, planned_in, planned_listed, planned_nodes, planned_of};

use crate::naming::needs_section;
use comp_tree::{Leaf, Node, Scope, item_origin, origins_of_items};
use comp_wire::{ItemOrigin, Origin, ScopeOrigins, Seq};
use std::alloc::{AllocError, Global};

/// A mark without places.
fn bare(alloc: Global, origin: Origin, inner: Option<ScopeOrigins>) -> ItemOrigin
    ensures { item_mark result ≡ (origin_of origin, ([], inside_by inner)) }
{
    item_origin(origin, Seq::from_vec(Vec::new(alloc)), inner)
}

/// The mark of the name section after others, where it is due. An `Err` is want of memory.
fn push_section(alloc: Global, items: &mut Vec<ItemOrigin>, due: bool) -> Result<(), AllocError>
    ensures { OnOk result (marks_of_items items.new.items ≡ marks_after (marks_of_items items.old.items) (without_places (section_mark due))) }
{
    if due {
        items.push(bare(alloc, Origin::NameSection, None))?;
    }
    Ok(())
}

/// The marks of the scope in a leaf, if there is one.
#[cycle(planned)]
fn leaf_plan(alloc: Global, leaf: &Leaf<'_, '_>) -> Result<Option<ScopeOrigins>, AllocError>
    ensures { (C : List CoreModule) → IfOk result (λ r. inside_by r ≡ held_without_places (planned_in C leaf.now)) }
{
    match leaf {
        Leaf::Present(inner) => leaf_plan(alloc, inner),
        Leaf::Node(node) => leaves_plan(alloc, node.leaves),
        Leaf::Nodes(nodes) => nodes_plan(alloc, nodes),
        Leaf::Scope(scope) => match scope_plan(alloc, scope) {
            Ok(inner) => Ok(Some(inner)),
            Err(error) => Err(error),
        },
        Leaf::Text(_) => Ok(None),
        Leaf::Pieces(_) => Ok(None),
        Leaf::Number(_) => Ok(None),
        Leaf::Kind(_) => Ok(None),
        Leaf::CoreValue(_) => Ok(None),
        Leaf::Numeral(_, _, _) => Ok(None),
        Leaf::Name(_, _, _) => Ok(None),
        Leaf::Path(_, _) => Ok(None),
        Leaf::Place(_) => Ok(None),
        Leaf::Absent => Ok(None),
        Leaf::Inline(_, _) => Ok(None),
        Leaf::Bundle(_, _) => Ok(None),
        Leaf::CaseId(_) => Ok(None),
        Leaf::Results(_) => Ok(None),
        Leaf::Core(_) => Ok(None),
    }
}

/// The marks of the scope in leaves, if there is one.
#[cycle(planned)]
fn leaves_plan(alloc: Global, leaves: &[Leaf<'_, '_>]) -> Result<Option<ScopeOrigins>, AllocError>
    ensures { (C : List CoreModule) → IfOk result (λ r. inside_by r ≡ held_without_places (planned_listed C leaves.now)) }
{
    for leaf in leaves {
        match leaf_plan(alloc, leaf) {
            Ok(None) => {}
            Ok(Some(inner)) => return Ok(Some(inner)),
            Err(error) => return Err(error),
        }
    }
    Ok(None)
}

/// The marks of the scope in the entries of a list, if there is one.
#[cycle(planned)]
fn nodes_plan(alloc: Global, nodes: &[Node<'_, '_>]) -> Result<Option<ScopeOrigins>, AllocError>
    ensures { (C : List CoreModule) → IfOk result (λ r. inside_by r ≡ held_without_places (planned_nodes C nodes.now)) }
{
    for node in nodes {
        match leaves_plan(alloc, node.leaves) {
            Ok(None) => {}
            Ok(Some(inner)) => return Ok(Some(inner)),
            Err(error) => return Err(error),
        }
    }
    Ok(None)
}

/// The marks of a resolved scope: the origin of each definition, with the marks of the scope in it, and after those of a component with a
/// name that of its name section.
#[cycle(planned)]
fn scope_plan(alloc: Global, scope: &Scope<'_, '_>) -> Result<ScopeOrigins, AllocError>
    ensures { (C : List CoreModule) → IfOk result (λ r. marks_shown r ≡ without_places (planned_of C scope.now)) }
{
    let mut items = Vec::new(alloc);
    for def in scope.defs {
        let inner = leaves_plan(alloc, def.node.leaves)?;
        items.push(bare(alloc, def.origin, inner))?;
    }
    push_section(alloc, &mut items, needs_section(alloc, scope)?)?;
    Ok(origins_of_items(items))
}

/// The marks of a resolved scope: the origin of each definition, with the marks of the scope in it, and after those of a component with a
/// name that of its name section (Component Model binary format, "Name Section"). No places are recorded; `scope_origins` of `tree_walks`
/// gives the marks of an expanded scope with them. An `Err` is want of memory.
pub fn planned_origins(alloc: Global, scope: &Scope<'_, '_>) -> Result<ScopeOrigins, AllocError>
    ensures plan { (C : List CoreModule) → IfOk result (λ r. origins_of r ≡ planned_of C scope.now) }
    ensures places { IfOk result (λ r. marks_shown r ≡ without_places (origins_of r)) }
{
    scope_plan(alloc, scope)
}
