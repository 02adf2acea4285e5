//! What an inline node becomes behind the walk over its leaves: the name of an equal type, or a definition of its own.

ghost use Rattle.std.specs.Prelude.{◌≡◌, ℕ, ◌+◌, ◌++◌, ◌∷◌, [], true, List, IfOk, OnOk, Some, None};
ghost use Rattle.comp_model.specs.CoreModules.{CoreModule};
ghost use Rattle.comp_model.specs.Model.{Leaves};
ghost use Rattle.comp_model.specs.Origins.{inline_type, bundle_of};
ghost use Rattle.comp_scopes.specs.References.{references};
ghost use Rattle.comp_expanded.specs.Expansion.{generated_names};
ghost use Rattle.comp_tree.specs.Entries.{entries_of};
ghost use Rattle.comp_tree.specs.Lists.{listed};
ghost use Rattle.comp_tree.specs.Marks.{places_of, inside_listed};
ghost use Rattle.comp_tree.specs.Model.{id_of};
ghost use Rattle.comp_wire.specs.Origins.{origin_of};
ghost use Rattle.type_keys.specs.Keys.{part_end, LeavesPassed, stands_for};
ghost use Rattle.tree_expand.specs.KeyParts.{begun_parts, leaves_parts, KeyShows};
ghost use Rattle.tree_expand.specs.Known.{Shows};
ghost use Rattle.tree_expand.specs.Numbering.{id_numbered, noted_inline};
ghost use Rattle.tree_expand.specs.Passed.{Noted, types_in};
ghost use Rattle.tree_expand.specs.Walked.{NamedBy};

use crate::key::is_shared;
use crate::known::{Known, push_part, push_type};
use crate::names::generate;
use crate::parts::{Own, Parts, append, push_generated};
use crate::places::Places;
use crate::position::id_by_number;
use bumpalo::Bump;
use comp_model::Row;
use comp_tree::{Def, Leaf, Node, place};
use comp_wire::Origin;
use std::alloc::AllocError;
use std::mem;
use type_keys::{KeyPart, TypeKey};
use wast_parser::{Gensym, Id};

/// The number of the type to which one of this row and key is equal, if there is one.
fn find_equal<'a>(known: &Known<'a>, row: Row, key: &Option<TypeKey<'a>>) -> Option<u32>
    ensures { (xs : List Noted) (ls : Leaves) → Shows known.now xs → KeyShows key.now ((begun_parts true row ++ leaves_parts (types_in xs) ls) ++ part_end ∷ []) → LeavesPassed (types_in xs) ls → result ≡ stands_for (types_in xs) row ls }
{
    if !is_shared(row) {
        return None;
    }
    known.find(key)
}

/// Notes an inline type to which no earlier one is equal, if it may be shared, and answers the number that stands for it. Its key is taken.
fn note_own<'a>(
    known: &mut Known<'a>,
    row: Row,
    key: &mut Option<TypeKey<'a>>,
    id: Id<'a>,
) -> Result<Option<u32>, AllocError>
    ensures { (xs : List Noted) (ls : Leaves) (k u : ℕ) → Shows known.old xs → KeyShows key.old ((begun_parts true row ++ leaves_parts (types_in xs) ls) ++ part_end ∷ []) → LeavesPassed (types_in xs) ls → stands_for (types_in xs) row ls ≡ None → IfOk result (λ n. Shows known.new (xs ++ noted_inline k u row ls (id_of id.entry)) × (n ≡ stands_for (types_in (xs ++ noted_inline k u row ls (id_of id.entry))) row ls)) }
{
    if !is_shared(row) {
        return Ok(None);
    }
    let keyed = key.is_some();
    let taken = mem::replace(key, None);
    let number = known.note(taken, Some(id))?;
    Ok(if keyed { Some(number) } else { None })
}

/// Puts the definition for inline node `number` of a definition behind others, and answers its id, in the arena, and the number that stands
/// for the type.
fn push_own<'t, 'a>(
    bump: &'t Bump,
    inlined: &mut Vec<Def<'t, 'a>>,
    known: &mut Known<'a>,
    origin: Origin,
    node: Node<'t, 'a>,
    places: &Places,
    key: &mut Option<TypeKey<'a>>,
    gensym: &mut Gensym,
) -> Result<(&'t Id<'a>, Option<u32>), AllocError>
    ensures made { OnOk result (gensym.new.made ≡ gensym.old.made + 1) }
    ensures id { IfOk result (λ r. id_of r.0.now ≡ id_numbered (gensym.old.made + 1)) }
    ensures pushed { (cores : List CoreModule) → IfOk result (λ r. entries_of cores inlined.new.items ≡ entries_of cores inlined.old.items ++ record { origin = origin_of origin; places = places_of places.now.list.items (references (listed cores node.entry.leaves.now)); held = inside_listed cores node.entry.leaves.now; names = generated_names (Some (id_of r.0.now)); head = node.entry.row; leaves = listed cores node.entry.leaves.now } ∷ []) }
    ensures noted { (xs : List Noted) (ls : Leaves) (k u : ℕ) → Shows known.old xs → KeyShows key.old ((begun_parts true node.entry.row ++ leaves_parts (types_in xs) ls) ++ part_end ∷ []) → LeavesPassed (types_in xs) ls → stands_for (types_in xs) node.entry.row ls ≡ None → IfOk result (λ r. Shows known.new (xs ++ noted_inline k u node.entry.row ls (id_of r.0.now)) × (r.1 ≡ stands_for (types_in (xs ++ noted_inline k u node.entry.row ls (id_of r.0.now))) node.entry.row ls)) }
{
    let id = generate(gensym)?;
    let places = places.placed(bump)?;
    let name = push_generated(bump, inlined, origin, id, places, node)?;
    let number = note_own(known, node.row, key, id)?;
    Ok((name, number))
}

/// Names inline node `number` of a definition, whose leaves have become these, while what belongs to it is `inner`, and `parts` go on with
/// what belongs to the node around it. Answers the id of the first type that is equal, or that of a definition for the node, which stands
/// behind those for what is in it.
pub(crate) fn name_inline<'t, 'a>(
    bump: &'t Bump,
    definition: u32,
    number: u32,
    node: &Node<'t, 'a>,
    leaves: &'t [Leaf<'t, 'a>],
    inner: &mut Own<'t, 'a>,
    parts: &mut Parts<'t, 'a>,
    gensym: &mut Gensym,
) -> Result<&'t Id<'a>, AllocError>
    ensures reference { OnOk result (parts.new.reference ≡ parts.old.reference) }
    ensures bundles { OnOk result (parts.new.own.bundles ≡ parts.old.own.bundles) }
    ensures places { OnOk result (parts.new.own.places ≡ parts.old.own.places) }
    ensures named { (cores : List CoreModule) (xs : List Noted) → Shows parts.old.known xs → KeyShows inner.old.key (begun_parts true node.now.row ++ leaves_parts (types_in xs) (listed cores node.now.leaves.now)) → LeavesPassed (types_in xs) (listed cores node.now.leaves.now) → IfOk result (λ r. NamedBy xs definition number node.now.row (listed cores node.now.leaves.now) (λ x. record { origin = inline_type definition number; places = places_of inner.old.places.list.items (references (listed cores leaves.now)); held = inside_listed cores leaves.now; names = generated_names (Some x); head = node.now.row; leaves = listed cores leaves.now }) (entries_of cores parts.old.inlined.items ++ entries_of cores inner.old.bundles.items) parts.old.own.key gensym.old.made (stands_for (types_in xs) node.now.row (listed cores node.now.leaves.now)) (id_of r.now) (entries_of cores parts.new.inlined.items) parts.new.own.key parts.new.known gensym.new.made) }
{
    append(&mut parts.inlined, &inner.bundles)?;
    push_part(&mut inner.key, KeyPart::End)?;
    match find_equal(&parts.known, node.row, &inner.key) {
        Some(found) => {
            push_type(&mut parts.own.key, Some(found))?;
            place(bump, id_by_number(&parts.known.ids, found))
        }
        None => {
            let origin = Origin::InlineType {
                def: definition,
                place: number,
            };
            let row = node.row;
            let span = node.span;
            let (name, number) = push_own(
                bump,
                &mut parts.inlined,
                &mut parts.known,
                origin,
                Node { row, span, leaves },
                &inner.places,
                &mut inner.key,
                gensym,
            )?;
            push_type(&mut parts.own.key, number)?;
            Ok(name)
        }
    }
}

/// Names bundle `number` of a definition, whose leaves have become these, while what belongs to it is `inner`, and that to the node around
/// it is `own`. Answers the id of the definition for it.
pub(crate) fn name_bundle<'t, 'a>(
    bump: &'t Bump,
    definition: u32,
    number: u32,
    node: &Node<'t, 'a>,
    leaves: &'t [Leaf<'t, 'a>],
    inner: &Own<'t, 'a>,
    bundles: &mut Vec<Def<'t, 'a>>,
    gensym: &mut Gensym,
) -> Result<&'t Id<'a>, AllocError>
    ensures made { OnOk result (gensym.new.made ≡ gensym.old.made + 1) }
    ensures id { IfOk result (λ r. id_of r.now ≡ id_numbered (gensym.old.made + 1)) }
    ensures pushed { (cores : List CoreModule) → IfOk result (λ r. entries_of cores bundles.new.items ≡ (entries_of cores bundles.old.items ++ entries_of cores inner.now.bundles.items) ++ record { origin = bundle_of definition number; places = places_of inner.now.places.list.items (references (listed cores leaves.now)); held = inside_listed cores leaves.now; names = generated_names (Some (id_of r.now)); head = node.now.row; leaves = listed cores leaves.now } ∷ []) }
{
    append(bundles, &inner.bundles)?;
    let id = generate(gensym)?;
    let places = inner.places.placed(bump)?;
    let origin = Origin::Bundle {
        def: definition,
        place: number,
    };
    let row = node.row;
    let span = node.span;
    push_generated(
        bump,
        bundles,
        origin,
        id,
        places,
        Node { row, span, leaves },
    )
}
