//! What the parts of a definition have become.

ghost use Rattle.std.specs.List.{range_with_len};
ghost use Rattle.std.specs.Prelude.{◌≡◌, ◌+◌, ◌++◌, ◌∷◌, [], ◌<◌, false, length, get_or, IfOk, OnOk, List, Some};
ghost use Rattle.comp_model.specs.CoreModules.{CoreModule};
ghost use Rattle.comp_model.specs.Model.{core_value};
ghost use Rattle.comp_model.specs.Origins.{written};
ghost use Rattle.comp_scopes.specs.References.{references, references_leaf};
ghost use Rattle.comp_wire.specs.Origins.{origin_of};
ghost use Rattle.comp_expanded.specs.Expansion.{generated_names};
ghost use Rattle.comp_tree.specs.Model.{id_of, core_value_of, names_at};
ghost use Rattle.comp_tree.specs.Lists.{listed};
ghost use Rattle.comp_tree.specs.Marks.{places_of, inside_listed};
ghost use Rattle.comp_tree.specs.Entries.{entries_of};
ghost use Rattle.tree_expand.specs.Placed.{places_now};
ghost use Rattle.tree_expand.specs.Walked.{chosen, so_far};

use crate::known::Known;
use crate::places::Places;
use bumpalo::Bump;
use comp_model::Row;
use comp_tree::{CoreValue, Def, Leaf, Names, Node, no_exports, no_labels, place, place_all};
use comp_wire::Origin;
use std::alloc::{AllocError, Global};
use std::mem;
use type_keys::TypeKey;
use wast_parser::{Id, Index, Span};

/// What belongs to a definition, an inline node or a bundle itself, so far.
#[derive(Drop)]
pub(crate) struct Own<'t, 'a> {
    /// The definitions for its bundles.
    pub(crate) bundles: Vec<Def<'t, 'a>>,
    /// The numbers in the text of the references that are left in it.
    pub(crate) places: Places,
    /// Its key, if it is a type that may be shared; `None` too where no type is equal to it.
    pub(crate) key: Option<TypeKey<'a>>,
}

/// What stands for the parts of a definition so far.
#[derive(Drop)]
pub(crate) struct Parts<'t, 'a> {
    /// The definitions for inline nodes, each behind those inside it.
    pub(crate) inlined: Vec<Def<'t, 'a>>,
    /// What belongs to the definition, or to the node in it at which the walk is.
    pub(crate) own: Own<'t, 'a>,
    /// The number of the next reference.
    pub(crate) reference: u32,
    /// The types of the scope that were passed.
    pub(crate) known: Known<'a>,
}

/// What the definitions of a scope have become so far.
#[derive(Drop)]
pub(crate) struct Built<'t, 'a> {
    /// Each behind those for its parts.
    pub(crate) defs: Vec<Def<'t, 'a>>,
    /// The exports for their inline exports, which stand behind all of them.
    pub(crate) exports: Vec<Def<'t, 'a>>,
    /// The types of the scope that were passed.
    pub(crate) known: Known<'a>,
}

/// Begins a node of its own, with this key, and answers what belonged to the one around it.
pub(crate) fn enter<'t, 'a>(
    alloc: Global,
    own: &mut Own<'t, 'a>,
    key: Option<TypeKey<'a>>,
) -> Own<'t, 'a>
    ensures outer { result ≡ own.old }
    ensures bundles { own.new.bundles.items ≡ [] }
    ensures places { places_now own.new.places ≡ [] }
    ensures key { own.new.key ≡ key.entry }
{
    mem::replace(
        own,
        Own {
            bundles: Vec::new(alloc),
            places: Places::new(alloc),
            key,
        },
    )
}

/// Passes a reference, and answers its number. It is refused where the next one would have number 2^32.
pub(crate) fn pass_reference(reference: &mut u32) -> Result<u32, AllocError>
    ensures number { IfOk result (λ n. n ≡ reference.old) }
    ensures past { OnOk result (reference.new ≡ reference.old + 1) }
{
    let number = *reference;
    match number.checked_add(1) {
        Some(next) => {
            *reference = next;
            Ok(number)
        }
        None => Err(AllocError),
    }
}

/// Passes a reference.
pub(crate) fn pass(reference: &mut u32) -> Result<(), AllocError>
    ensures { OnOk result (reference.new ≡ reference.old + 1) }
{
    pass_reference(reference)?;
    Ok(())
}

/// Passes a reference that is left in the node at hand, and answers its number.
pub(crate) fn pass_place(
    alloc: Global,
    reference: &mut u32,
    places: &mut Places,
) -> Result<u32, AllocError>
    ensures number { IfOk result (λ n. n ≡ reference.old) }
    ensures past { OnOk result (reference.new ≡ reference.old + 1) }
    ensures placed { OnOk result (places_now places.new ≡ places_now places.old ++ range_with_len reference.old 1) }
{
    let number = pass_reference(reference)?;
    places.push(alloc, number, *reference)?;
    Ok(number)
}

/// Passes a reference that is left in the node at hand.
pub(crate) fn pass_left(
    alloc: Global,
    reference: &mut u32,
    places: &mut Places,
) -> Result<(), AllocError>
    ensures past { OnOk result (reference.new ≡ reference.old + 1) }
    ensures placed { OnOk result (places_now places.new ≡ places_now places.old ++ range_with_len reference.old 1) }
{
    pass_place(alloc, reference, places)?;
    Ok(())
}

/// Passes the reference in a core value type, if there is one.
pub(crate) fn pass_core_value<'t, 'a>(
    alloc: Global,
    value: CoreValue<'t, 'a>,
    reference: &mut u32,
    places: &mut Places,
) -> Result<(), AllocError>
    ensures past { OnOk result (reference.new ≡ reference.old + references_leaf (core_value (core_value_of value.entry))) }
    ensures placed { OnOk result (places_now places.new ≡ places_now places.old ++ range_with_len reference.old (references_leaf (core_value (core_value_of value.entry)))) }
{
    match value {
        CoreValue::RefConcrete(_, concrete) => match concrete.index {
            Index::Num(_, _) => pass_left(alloc, reference, places),
            Index::Id(_) => pass_left(alloc, reference, places),
        },
        CoreValue::I32 => Ok(()),
        CoreValue::I64 => Ok(()),
        CoreValue::F32 => Ok(()),
        CoreValue::F64 => Ok(()),
        CoreValue::V128 => Ok(()),
        CoreValue::RefFunc(_) => Ok(()),
        CoreValue::RefExtern(_) => Ok(()),
        CoreValue::Other => Ok(()),
    }
}

/// Puts a generated definition behind others, whose node stands there in the text, and answers its id, in the arena.
pub(crate) fn push_generated<'t, 'a>(
    bump: &'t Bump,
    list: &mut Vec<Def<'t, 'a>>,
    origin: Origin,
    id: Id<'a>,
    places: &'t [u32],
    node: Node<'t, 'a>,
) -> Result<&'t Id<'a>, AllocError>
    ensures id { IfOk result (λ r. id_of r.now ≡ id_of id.entry) }
    ensures pushed { (cores : List CoreModule) → IfOk result (λ r. entries_of cores list.new.items ≡ entries_of cores list.old.items ++ record { origin = origin_of origin; places = places_of places.now (references (listed cores node.entry.leaves.now)); held = inside_listed cores node.entry.leaves.now; names = generated_names (Some (id_of r.now)); head = node.entry.row; leaves = listed cores node.entry.leaves.now } ∷ []) }
{
    let ids = place_all(bump, &[Some(id)])?;
    let names = place(
        bump,
        Names {
            ids,
            labels: no_labels(),
            exports: no_exports(),
        },
    )?;
    list.push(Def {
        origin,
        places,
        span: Span::from_offset(0),
        names,
        node,
    })?;
    match &ids[0] {
        Some(id) => Ok(id),
        None => unreachable!(),
    }
}

/// Puts definitions behind others.
pub(crate) fn append<'t, 'a>(
    list: &mut Vec<Def<'t, 'a>>,
    more: &[Def<'t, 'a>],
) -> Result<(), AllocError>
    ensures { OnOk result (list.new.items ≡ list.old.items ++ more.now) }
{
    for def in more {
        list.push(*def)?;
    }
    Ok(())
}

/// Puts what a definition of the text has become behind others: those for its inline nodes, those for its bundles, itself with these names
/// and leaves.
pub(crate) fn push_written<'t, 'a>(
    list: &mut Vec<Def<'t, 'a>>,
    parts: &Parts<'t, 'a>,
    definition: u32,
    def: &Def<'t, 'a>,
    names: &'t Names<'t, 'a>,
    places: &'t [u32],
    leaves: &'t [Leaf<'t, 'a>],
) -> Result<(), AllocError>
    ensures { (cores : List CoreModule) → OnOk result (entries_of cores list.new.items ≡ entries_of cores list.old.items ++ (entries_of cores parts.now.inlined.items ++ (entries_of cores parts.now.own.bundles.items ++ record { origin = written definition; places = places_of places.now (references (listed cores leaves.now)); held = inside_listed cores leaves.now; names = names_at def.now.span.offset names.now; head = def.now.node.row; leaves = listed cores leaves.now } ∷ []))) }
{
    let row = def.node.row;
    let written = Def {
        origin: Origin::Written(definition),
        places,
        span: def.span,
        names,
        node: Node {
            row,
            span: def.node.span,
            leaves,
        },
    };
    append(list, &parts.inlined)?;
    append(list, &parts.own.bundles)?;
    list.push(written)?;
    Ok(())
}

/// All definitions of a scope, in the arena.
pub(crate) fn finish<'t, 'a>(
    bump: &'t Bump,
    built: Built<'t, 'a>,
) -> Result<&'t [Def<'t, 'a>], AllocError>
    ensures { IfOk result (λ r. r.now ≡ built.entry.defs.items ++ built.entry.exports.items) }
{
    let Built {
        mut defs,
        exports,
        ..
    } = built;
    append(&mut defs, &exports)?;
    place_all(bump, &defs)
}

/// Puts what item `i` of a list has become behind those before it, and answers whether any has changed: the new item if it has changed,
/// or else the old one. While none has changed, nothing is put down, and what stands for the items are those of the list.
pub(crate) fn push_walked<T: Copy>(
    walked: &mut Vec<T>,
    changed: bool,
    old: &[T],
    i: usize,
    now: bool,
    item: T,
) -> Result<bool, AllocError>
    requires index { i < length old.now }
    ensures { IfOk result (λ r. so_far r walked.new.items (i + 1) old.now ≡ so_far changed walked.old.items i old.now ++ chosen now item (get_or old.now i item) ∷ []) }
{
    if changed {
        walked.push(if now { item } else { old[i] })?;
        return Ok(true);
    }
    if !now {
        return Ok(false);
    }
    walked.clear();
    for x in &old[..i] {
        walked.push(*x)?;
    }
    walked.push(item)?;
    Ok(true)
}

/// What all items of a list have become, in the arena, and whether any has changed; the list itself if none has.
pub(crate) fn all_walked<'t, T: Copy>(
    bump: &'t Bump,
    changed: bool,
    walked: &[T],
    old: &'t [T],
) -> Result<(bool, &'t [T]), AllocError>
    ensures all { IfOk result (λ r. r.1.now ≡ so_far changed walked.now (length old.now) old.now) }
    ensures same { IfOk result (λ r. r.0 ≡ false → r.1.now ≡ old.now) }
{
    if changed {
        let placed = place_all(bump, walked)?;
        Ok((true, placed))
    } else {
        Ok((false, old))
    }
}
