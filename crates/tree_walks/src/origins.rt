//! The origins of the definitions of a tree, as a value of their own.

ghost use Rattle.std.specs.Prelude.{◌≡◌, ◌<◌, ◌^◌, IfOk, length, map};
ghost use Rattle.comp_wire.specs.Origins.{origin_of};
ghost use Rattle.comp_tree.specs.Marks.{inside_of, inside_listed, marks_of, nodes_inside, places_in};
ghost use Rattle.comp_tree.specs.OriginMarks.{FewInside, FewPlaces, inside_by, marks_shown, recorded, recorded_inside, recorded_places};

use crate::measures::count_references;
use comp_tree::{Def, Leaf, Node, Scope, first_places, item_origin, origins_of_items};
use comp_walks::CoreSource;
use comp_wire::{Origin, ScopeOrigins, Seq};
use std::alloc::{AllocError, Global};

/// The places of the references of a definition.
fn all_places<M: CoreSource>(
    alloc: Global,
    cores: &[M],
    def: &Def<'_, '_>,
) -> Result<Seq<u32>, AllocError>
    requires { length (places_in (map M.core_module cores.now) def.now) < 2 ^ 32 }
    ensures { IfOk result (λ ps. ps ≡ places_in (map M.core_module cores.now) def.now) }
{
    if def.places.len() > 0 {
        return Ok(Seq::from_vec(Vec::from_slice(alloc, def.places)?));
    }
    let count = count_references(cores, &def.node);
    Ok(Seq::from_vec(first_places(alloc, count as u32)?))
}

/// The places that are recorded beside a definition.
fn places_of<M: CoreSource>(
    alloc: Global,
    cores: &[M],
    def: &Def<'_, '_>,
) -> Result<Seq<u32>, AllocError>
    requires { length (recorded_places (origin_of def.now.origin) (places_in (map M.core_module cores.now) def.now)) < 2 ^ 32 }
    ensures { IfOk result (λ ps. ps ≡ recorded_places (origin_of def.now.origin) (places_in (map M.core_module cores.now) def.now)) }
{
    match def.origin {
        Origin::Written(_) => all_places(alloc, cores, def),
        Origin::InlineType { .. } => all_places(alloc, cores, def),
        Origin::Bundle { .. } => all_places(alloc, cores, def),
        Origin::InlineExport { .. } => Ok(Seq::from_vec(Vec::new(alloc))),
        Origin::ExportStep { .. } => Ok(Seq::from_vec(Vec::new(alloc))),
        Origin::OuterAlias { .. } => Ok(Seq::from_vec(Vec::new(alloc))),
        Origin::NameSection => Ok(Seq::from_vec(Vec::new(alloc))),
    }
}

/// The marks of the scope in a leaf, if there is one.
#[cycle(marks)]
fn leaf_origins<M: CoreSource>(
    alloc: Global,
    cores: &[M],
    leaf: &Leaf<'_, '_>,
) -> Result<Option<ScopeOrigins>, AllocError>
    requires { FewInside (recorded_inside (inside_of (map M.core_module cores.now) leaf.now)) }
    ensures { IfOk result (λ r. inside_by r ≡ recorded_inside (inside_of (map M.core_module cores.now) leaf.now)) }
{
    match leaf {
        Leaf::Present(inner) => leaf_origins(alloc, cores, inner),
        Leaf::Node(node) => leaves_origins(alloc, cores, node.leaves),
        Leaf::Nodes(nodes) => nodes_origins(alloc, cores, nodes),
        Leaf::Scope(scope) => match scope_origins(alloc, cores, scope) {
            Ok(inner) => Ok(Some(inner)),
            Err(error) => Err(error),
        },
        Leaf::Text(_) => Ok(None),
        Leaf::Pieces(_) => Ok(None),
        Leaf::Number(_) => Ok(None),
        Leaf::Kind(_) => Ok(None),
        Leaf::CoreValue(_) => Ok(None),
        Leaf::Numeral(_, _, _) => Ok(None),
        Leaf::Name(_, _, _) => Ok(None),
        Leaf::Path(_, _) => Ok(None),
        Leaf::Place(_) => Ok(None),
        Leaf::Absent => Ok(None),
        Leaf::Inline(_, _) => Ok(None),
        Leaf::Bundle(_, _) => Ok(None),
        Leaf::CaseId(_) => Ok(None),
        Leaf::Results(_) => Ok(None),
        Leaf::Core(_) => Ok(None),
    }
}

/// The marks of the scope in leaves, if there is one.
#[cycle(marks)]
fn leaves_origins<M: CoreSource>(
    alloc: Global,
    cores: &[M],
    leaves: &[Leaf<'_, '_>],
) -> Result<Option<ScopeOrigins>, AllocError>
    requires { FewInside (recorded_inside (inside_listed (map M.core_module cores.now) leaves.now)) }
    ensures { IfOk result (λ r. inside_by r ≡ recorded_inside (inside_listed (map M.core_module cores.now) leaves.now)) }
{
    for leaf in leaves {
        match leaf_origins(alloc, cores, leaf) {
            Ok(None) => {}
            Ok(Some(inner)) => return Ok(Some(inner)),
            Err(error) => return Err(error),
        }
    }
    Ok(None)
}

/// The marks of the scope in the entries of a list, if there is one.
#[cycle(marks)]
fn nodes_origins<M: CoreSource>(
    alloc: Global,
    cores: &[M],
    nodes: &[Node<'_, '_>],
) -> Result<Option<ScopeOrigins>, AllocError>
    requires { FewInside (recorded_inside (nodes_inside (map M.core_module cores.now) nodes.now)) }
    ensures { IfOk result (λ r. inside_by r ≡ recorded_inside (nodes_inside (map M.core_module cores.now) nodes.now)) }
{
    for node in nodes {
        match leaves_origins(alloc, cores, node.leaves) {
            Ok(None) => {}
            Ok(Some(inner)) => return Ok(Some(inner)),
            Err(error) => return Err(error),
        }
    }
    Ok(None)
}

/// The marks of a scope: the origin of each definition, with the marks of the scope in it, and the places in the text of the references of
/// what is written, an inline type or a bundle. No definition of these may have 2^32 references. An `Err` is want of memory.
#[cycle(marks)]
pub fn scope_origins<M: CoreSource>(
    alloc: Global,
    cores: &[M],
    scope: &Scope<'_, '_>,
) -> Result<ScopeOrigins, AllocError>
    requires few { FewPlaces (recorded (marks_of (map M.core_module cores.now) scope.now)) }
    ensures marks { IfOk result (λ r. marks_shown r ≡ recorded (marks_of (map M.core_module cores.now) scope.now)) }
{
    let mut items = Vec::new(alloc);
    for def in scope.defs {
        let inner = leaves_origins(alloc, cores, def.node.leaves)?;
        let places = places_of(alloc, cores, def)?;
        items.push(item_origin(def.origin, places, inner))?;
    }
    Ok(origins_of_items(items))
}
