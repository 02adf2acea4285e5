//! References that are held in another form: those of outer aliases and of core value types.

ghost use Rattle.std.specs.Prelude.{◌≡◌, ◌≤◌, ◌∷◌, ℕ, List, [], IfOk, length, option_map};
ghost use Rattle.comp_model.specs.CoreModules.{CoreModule, Field};
ghost use Rattle.comp_model.specs.declared.Space as spaces;
ghost use Rattle.comp_model.specs.Model as m;
ghost use Rattle.text_rules.specs.Rule.{heap, outer};
ghost use Rattle.text_rules.specs.Made.{heap_of};
ghost use Rattle.text_rules.specs.Makes as makes;
ghost use Rattle.text_rules.specs.Makes.{alias_leaves, at_place};
ghost use Rattle.comp_model.specs.Core as core;
ghost use Rattle.comp_model.specs.Core.{outward, Place as ModelPlace};
ghost use Rattle.comp_tree.specs.Model.{core_reference, index_of, place_at, place_of, path_of, reach_of};
ghost use Rattle.tree_build.specs.Held.{loose};
ghost use Rattle.tree_build.specs.Adds.{MakesOf};
ghost use Rattle.tree_build.specs.References.{kind_in, target_in};

use crate::scratch::Scratch;
use crate::take;
use bumpalo::Bump;
use comp_model::Space;
use comp_tree::{Concrete, CoreValue, Leaf, PathUse, Place, Reach, place};
use std::alloc::AllocError;
use wast_parser::{Index, Span};

/// The kind in a loose leaf.
fn kind_of(leaf: &Leaf<'_, '_>) -> Option<Space>
    ensures { (fs : List (List Field)) (cs : List CoreModule) → result ≡ kind_in (loose fs cs leaf.now) }
{
    match leaf {
        Leaf::Kind(space) => Some(*space),
        _ => None,
    }
}

/// The index of what is no index.
fn no_index<'a>() -> Index<'a>
    ensures { (offset : ℕ) → place_at offset result ≡ makes.place_of offset (m.index 0) }
{
    Index::Num(0, Span { offset: 0 })
}

/// The index of a reference by a path: that of its root, if no names stand behind it.
fn path_index<'a>(root: Index<'a>, names: &[&str]) -> Index<'a>
    ensures { (offset : ℕ) → place_at offset result ≡ makes.place_of offset (path_of root.entry names.now) }
{
    if names.len() == 0 { root } else { no_index() }
}

/// The index by which a loose leaf names a scope, if it is a reference.
fn scope_index<'a>(leaf: &Leaf<'_, 'a>) -> Option<Index<'a>>
    ensures { (fs : List (List Field)) (cs : List CoreModule) (offset : ℕ) → option_map (place_at offset) result ≡ option_map (makes.place_of offset) (target_in (loose fs cs leaf.now)) }
{
    match leaf {
        Leaf::Numeral(_, number, span) => Some(Index::Num(*number, *span)),
        Leaf::Name(_, _, id) => Some(Index::Id(**id)),
        Leaf::Path(_, path) => Some(path_index(path.root, path.exports)),
        Leaf::Inline(_, _) => Some(no_index()),
        Leaf::Bundle(_, _) => Some(no_index()),
        Leaf::Text(_) => None,
        Leaf::Pieces(_) => None,
        Leaf::Number(_) => None,
        Leaf::Kind(_) => None,
        Leaf::CoreValue(_) => None,
        Leaf::Place(_) => None,
        Leaf::Absent => None,
        Leaf::Present(_) => None,
        Leaf::Node(_) => None,
        Leaf::Nodes(_) => None,
        Leaf::CaseId(_) => None,
        Leaf::Results(_) => None,
        Leaf::Core(_) => None,
        Leaf::Scope(_) => None,
    }
}

/// A reference by an index to an item of the scope at a place, where its name is looked for.
fn index_at<'t, 'a>(space: Space, reach: &'t Reach<'t, 'a>, index: &'t Index<'a>) -> Leaf<'t, 'a>
    ensures { (fs : List (List Field)) (cs : List CoreModule) (p : ModelPlace) → reach_of reach.entry.now ≡ core.at_place p → loose fs cs result ≡ m.ref space (at_place p (index_of outward index.entry.now)) }
{
    match index {
        Index::Num(number, span) => Leaf::Numeral(space, *number, *span),
        Index::Id(id) => Leaf::Name(space, reach, id),
    }
}

/// A reference by a path to an item of the scope at a place, where its name is looked for if no names stand behind it.
fn path_at<'t, 'a>(
    space: Space,
    reach: &'t Reach<'t, 'a>,
    path: &'t PathUse<'t, 'a>,
) -> Leaf<'t, 'a>
    ensures { (fs : List (List Field)) (cs : List CoreModule) (p : ModelPlace) → reach_of reach.entry.now ≡ core.at_place p → loose fs cs result ≡ m.ref space (at_place p (path_of path.entry.now.root path.entry.now.exports.now)) }
{
    if path.exports.len() == 0 {
        index_at(space, reach, &path.root)
    } else {
        Leaf::Path(space, path)
    }
}

/// A reference to an item of a kind in the scope at a place, where its name is looked for.
fn item_at<'t, 'a>(leaf: Leaf<'t, 'a>, space: Space, reach: &'t Reach<'t, 'a>) -> Leaf<'t, 'a>
    ensures { (fs : List (List Field)) (cs : List CoreModule) (u : spaces.Space) (t : m.Target) (p : ModelPlace) → loose fs cs leaf.entry ≡ m.ref u t → reach_of reach.entry.now ≡ core.at_place p → loose fs cs result ≡ m.ref space (at_place p t) }
{
    match leaf {
        Leaf::Numeral(_, number, span) => Leaf::Numeral(space, number, span),
        Leaf::Name(_, _, id) => Leaf::Name(space, reach, id),
        Leaf::Path(_, path) => path_at(space, reach, path),
        Leaf::Inline(_, node) => Leaf::Inline(space, node),
        Leaf::Bundle(_, node) => Leaf::Bundle(space, node),
        Leaf::Text(_) => leaf,
        Leaf::Pieces(_) => leaf,
        Leaf::Number(_) => leaf,
        Leaf::Kind(_) => leaf,
        Leaf::CoreValue(_) => leaf,
        Leaf::Place(_) => leaf,
        Leaf::Absent => leaf,
        Leaf::Present(_) => leaf,
        Leaf::Node(_) => leaf,
        Leaf::Nodes(_) => leaf,
        Leaf::CaseId(_) => leaf,
        Leaf::Results(_) => leaf,
        Leaf::Core(_) => leaf,
        Leaf::Scope(_) => leaf,
    }
}

/// The first two parts of an alias.
#[derive(Clone, Copy)]
struct Parts<'t, 'a> {
    scope: Leaf<'t, 'a>,
    item: Leaf<'t, 'a>,
}

/// The first two parts of an alias whose word stands at an offset: a place and a reference to an item there, if it is an outer one.
fn alias_parts<'t, 'a>(
    bump: &'t Bump,
    offset: u32,
    scope: Leaf<'t, 'a>,
    item: Leaf<'t, 'a>,
    kind: Leaf<'t, 'a>,
) -> Result<Parts<'t, 'a>, AllocError>
    ensures { (fs : List (List Field)) (cs : List CoreModule) → IfOk result (λ r. loose fs cs r.scope ∷ loose fs cs r.item ∷ loose fs cs kind.entry ∷ [] ≡ alias_leaves offset (loose fs cs scope.entry ∷ loose fs cs item.entry ∷ loose fs cs kind.entry ∷ [])) }
{
    let Some(space) = kind_of(&kind) else {
        return Ok(Parts { scope, item });
    };
    let Some(index) = scope_index(&scope) else {
        return Ok(Parts { scope, item });
    };
    if scope_index(&item).is_none() {
        return Ok(Parts { scope, item });
    }
    let outer = place(
        bump,
        Place {
            alias: Span { offset },
            scope: index,
        },
    )?;
    let reach = place(bump, Reach::At(outer))?;
    Ok(Parts {
        scope: Leaf::Place(outer),
        item: item_at(item, space, reach),
    })
}

/// Turns two references and a kind behind an end of the leaves into the parts of an outer alias: the place of a scope, and a reference to an item
/// there. The offset of the alias is the first behind an end of the places. Any other leaves stay as they are. Fails when memory runs out.
pub fn wrap_outer(
    scratch: &mut Scratch<'_, '_>,
    leaves: usize,
    places: usize,
) -> Result<(), AllocError>
    requires { leaves ≤ length scratch.old.leaves.items }
    ensures { MakesOf outer (λ a. (length a.leaves ≡ leaves) × (length a.places ≡ places)) result scratch.old scratch.new }
{
    if scratch.leaves.len() - leaves != 3 {
        return Ok(());
    }
    let parts = alias_parts(
        scratch.bump,
        take::place_at(&scratch.places, places),
        scratch.leaves[leaves],
        scratch.leaves[leaves + 1],
        scratch.leaves[leaves + 2],
    )?;
    scratch.leaves[leaves] = parts.scope;
    scratch.leaves[leaves + 1] = parts.item;
    Ok(())
}

/// A core value type that is a reference to a value of the core type with an index.
fn concrete<'t, 'a>(
    bump: &'t Bump,
    reach: Reach<'t, 'a>,
    index: Index<'a>,
    nullable: bool,
) -> Result<Leaf<'t, 'a>, AllocError>
    ensures { (fs : List (List Field)) (cs : List CoreModule) → IfOk result (λ r. loose fs cs r ≡ m.core_value (core_reference nullable (reach_of reach.entry) index.entry)) }
{
    match place(bump, Concrete { reach, index }) {
        Ok(placed) => Ok(Leaf::CoreValue(CoreValue::RefConcrete(nullable, placed))),
        Err(AllocError) => Err(AllocError),
    }
}

/// A reference by a path as a core value type, if no names stand behind its root.
fn path_type<'t, 'a>(
    bump: &'t Bump,
    space: Space,
    path: &'t PathUse<'t, 'a>,
    nullable: bool,
) -> Result<Leaf<'t, 'a>, AllocError>
    ensures { (fs : List (List Field)) (cs : List CoreModule) → IfOk result (λ r. loose fs cs r ∷ [] ≡ heap_of nullable (m.ref space (path_of path.entry.now.root path.entry.now.exports.now) ∷ [])) }
{
    if path.exports.len() > 0 {
        Ok(Leaf::Path(space, path))
    } else {
        concrete(bump, Reach::Outward, path.root, nullable)
    }
}

/// A reference as a core value type, which is nullable or not; any other leaf as it is.
fn heap_type<'t, 'a>(
    bump: &'t Bump,
    leaf: Leaf<'t, 'a>,
    nullable: bool,
) -> Result<Leaf<'t, 'a>, AllocError>
    ensures { (fs : List (List Field)) (cs : List CoreModule) → IfOk result (λ r. loose fs cs r ∷ [] ≡ heap_of nullable (loose fs cs leaf.entry ∷ [])) }
{
    match leaf {
        Leaf::Numeral(_, number, span) => concrete(
            bump,
            Reach::Outward,
            Index::Num(number, span),
            nullable,
        ),
        Leaf::Name(_, reach, id) => concrete(bump, *reach, Index::Id(*id), nullable),
        Leaf::Path(space, path) => path_type(bump, space, path, nullable),
        _ => Ok(leaf),
    }
}

/// Turns a reference that is the one leaf behind an end into a core value type, which is nullable or not. A reference by names of exports, one
/// in whose place a node stands, and any other leaves stay as they are. Fails when memory runs out.
pub fn wrap_heap(
    scratch: &mut Scratch<'_, '_>,
    nullable: bool,
    leaves: usize,
) -> Result<(), AllocError>
    requires { leaves ≤ length scratch.old.leaves.items }
    ensures { MakesOf (heap nullable) (λ a. length a.leaves ≡ leaves) result scratch.old scratch.new }
{
    if scratch.leaves.len() - leaves != 1 {
        return Ok(());
    }
    let leaf = heap_type(scratch.bump, scratch.leaves[leaves], nullable)?;
    scratch.leaves[leaves] = leaf;
    Ok(())
}
