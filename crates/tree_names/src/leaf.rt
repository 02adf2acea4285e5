//! Leaves, with an index in the place of each name.

ghost use Rattle.std.specs.Prelude.{◌≡◌, ℕ, Bool, ◌<◌, ◌^◌, List, length, map, MatchResult, IfOk, IfErr, OnOk, option_map};
ghost use Rattle.comp_model.specs.Core.{outward};
ghost use Rattle.comp_scopes.specs.Encoding.{Encoding};
ghost use Rattle.comp_model.specs.Model as m;
ghost use Rattle.comp_scopes.specs.Unmet.{unmet_core};
ghost use Rattle.comp_tables.specs.Built.{missing, missing_leaf, missing_nodes, missing_place, missing_roots_leaf};
ghost use Rattle.comp_tree.specs.Lists.{listed, nodes_listed};
ghost use Rattle.comp_tree.specs.Model.{leaf_of, id_of, reach_of, index_of, path_of, core_value_of, core_reference, place_of, place_at, core_at};
ghost use Rattle.comp_model.specs.declared.Space.{Space as ModelSpace};
ghost use Rattle.open_scopes.specs.declared.scopes.Open.{Open as OpenScope};
ghost use Rattle.open_scopes.specs.Indexed.{OpenIndexed};
ghost use Rattle.open_scopes.specs.Refusals.{refusal_of, no_memory};
ghost use Rattle.tree_names.specs.AllFound.{leaf_found, FoundFirst};
ghost use Rattle.tree_names.specs.Counted.{Refused, RefusedBy};
ghost use Rattle.tree_names.specs.Read.{LeafRead, LeavesRead, NodesRead, PlaceRead};
ghost use Rattle.tree_names.specs.Rooted.{Rooted};
ghost use Rattle.tree_names.specs.Room.{HasRoom, RoomForLeaf};

use crate::name::{resolve_name, resolve_steps};
use crate::reading::{Reading, refer};
use crate::refusals::no_memory;
use bumpalo::Bump;
use comp_model::Space;
use comp_tree::{Concrete, CoreValue, Reach, place};
use open_scopes::{Open, depth_of, missing_place};
use tree_walks::lend_reach;
use wast_parser::{Error, Id, Index, Span};

/// Passes a reference by a number, which stays as it is.
pub(crate) fn pass_numeral(reading: &mut Reading<'_, '_>)
    requires sized { length reading.old.counters ≡ 13 }
    requires room { HasRoom reading.old 0 1 }
    ensures { (e : Encoding) (os : List OpenScope) (s : ModelSpace) (o n : ℕ) → LeafRead e os reading.old reading.new (m.ref s (m.numeral o n)) (m.ref s (m.numeral o n)) }
{
    refer(&mut reading.place);
}

/// The index of a reference by a name.
pub(crate) fn resolve_named<'a>(
    scopes: &[Open<'a>],
    space: Space,
    reach: Reach<'_, 'a>,
    id: Id<'a>,
    reading: &mut Reading<'a, '_>,
) -> Result<u32, Error>
    requires indexed { OpenIndexed scopes.now }
    requires sized { length reading.old.counters ≡ 13 }
    requires kept { FoundFirst scopes.now (λ ms. leaf_found ms (m.ref space (m.name (reach_of reach) (id_of id)))) reading.old.denotations.left.now }
    requires room { HasRoom reading.old 1 1 }
    ensures { (e : Encoding) (o : ℕ) → MatchResult result (λ i. LeafRead e scopes.now reading.old reading.new (m.ref space (m.name (reach_of reach.entry) (id_of id.entry))) (m.ref space (m.numeral o i))) (Refused scopes.now (λ ms. missing_leaf e ms (m.ref space (m.name (reach_of reach.entry) (id_of id.entry))))) }
{
    match resolve_name(scopes, space, lend_reach(reach), id, reading) {
        Ok(number) => Ok(number),
        Err(refused) => Err(refused),
    }
}

/// The index of a reference by an index.
fn resolve_index<'a>(
    scopes: &[Open<'a>],
    space: Space,
    reach: Reach<'_, 'a>,
    index: Index<'a>,
    reading: &mut Reading<'a, '_>,
) -> Result<u32, Error>
    requires indexed { OpenIndexed scopes.now }
    requires sized { length reading.old.counters ≡ 13 }
    requires kept { FoundFirst scopes.now (λ ms. leaf_found ms (m.ref space (index_of (reach_of reach) index))) reading.old.denotations.left.now }
    requires room { RoomForLeaf reading.old (m.ref space (index_of (reach_of reach) index)) }
    ensures { (e : Encoding) (o : ℕ) → MatchResult result (λ i. LeafRead e scopes.now reading.old reading.new (m.ref space (index_of (reach_of reach.entry) index.entry)) (m.ref space (m.numeral o i))) (Refused scopes.now (λ ms. missing_leaf e ms (m.ref space (index_of (reach_of reach.entry) index.entry)))) }
{
    match index {
        Index::Num(number, _) => {
            refer(&mut reading.place);
            Ok(number)
        }
        Index::Id(id) => resolve_named(scopes, space, reach, id, reading),
    }
}

/// The index of a reference by a path whose root is there, or by an index where no export name is behind it.
pub(crate) fn resolve_path<'a>(
    scopes: &[Open<'a>],
    space: Space,
    root: Index<'a>,
    exports: &[&'a str],
    reading: &mut Reading<'a, '_>,
) -> Result<u32, Error>
    requires indexed { OpenIndexed scopes.now }
    requires sized { length reading.old.counters ≡ 13 }
    requires kept { FoundFirst scopes.now (λ ms. leaf_found ms (m.ref space (path_of root exports.now))) reading.old.denotations.left.now }
    requires room { RoomForLeaf reading.old (m.ref space (path_of root exports.now)) }
    requires rooted { Rooted scopes.now (λ ms. missing_roots_leaf ms (m.ref space (path_of root exports.now))) }
    ensures { (e : Encoding) (o : ℕ) → MatchResult result (λ i. LeafRead e scopes.now reading.old reading.new (m.ref space (path_of root.entry exports.now)) (m.ref space (m.numeral o i))) (Refused scopes.now (λ ms. missing_leaf e ms (m.ref space (path_of root.entry exports.now)))) }
{
    if exports.len() < 1 {
        return resolve_index(scopes, space, Reach::Outward, root, reading);
    }
    match resolve_steps(scopes, space, root, exports, reading) {
        Ok(number) => {
            refer(&mut reading.place);
            Ok(number)
        }
        Err(refused) => Err(refused),
    }
}

/// The core type of a reference type.
fn resolve_core_index<'a>(
    scopes: &[Open<'a>],
    reach: Reach<'_, 'a>,
    index: Index<'a>,
    reading: &mut Reading<'a, '_>,
) -> Result<Index<'a>, Error>
    requires indexed { OpenIndexed scopes.now }
    requires sized { length reading.old.counters ≡ 13 }
    requires kept { (b : Bool) → FoundFirst scopes.now (λ ms. leaf_found ms (m.core_value (core_reference b (reach_of reach) index))) reading.old.denotations.left.now }
    requires room { (b : Bool) → RoomForLeaf reading.old (m.core_value (core_reference b (reach_of reach) index)) }
    ensures { (e : Encoding) (b : Bool) → MatchResult result (λ i. LeafRead e scopes.now reading.old reading.new (m.core_value (core_reference b (reach_of reach.entry) index.entry)) (m.core_value (core_reference b outward i))) (Refused scopes.now (λ ms. missing_leaf e ms (m.core_value (core_reference b (reach_of reach.entry) index.entry)))) }
{
    match index {
        Index::Num(_, _) => {
            refer(&mut reading.place);
            Ok(index)
        }
        Index::Id(id) => {
            match resolve_name(scopes, Space::CoreType, lend_reach(reach), id, reading) {
                Ok(number) => Ok(Index::Num(number, id.span())),
                Err(refused) => Err(refused),
            }
        }
    }
}

/// A core value type.
pub(crate) fn resolve_core_value<'t, 'a>(
    bump: &'t Bump,
    scopes: &[Open<'a>],
    value: CoreValue<'t, 'a>,
    reading: &mut Reading<'a, '_>,
) -> Result<CoreValue<'t, 'a>, Error>
    requires indexed { OpenIndexed scopes.now }
    requires sized { length reading.old.counters ≡ 13 }
    requires kept { FoundFirst scopes.now (λ ms. leaf_found ms (m.core_value (core_value_of value))) reading.old.denotations.left.now }
    requires room { RoomForLeaf reading.old (m.core_value (core_value_of value)) }
    ensures { (e : Encoding) → MatchResult result (λ v. LeafRead e scopes.now reading.old reading.new (m.core_value (core_value_of value.entry)) (m.core_value (core_value_of v))) (Refused scopes.now (λ ms. missing_leaf e ms (m.core_value (core_value_of value.entry)))) }
{
    match value {
        CoreValue::RefConcrete(nullable, concrete) => {
            match resolve_core_index(scopes, concrete.reach, concrete.index, reading) {
                Ok(index) => {
                    let new = Concrete {
                        reach: Reach::Outward,
                        index,
                    };
                    match place(bump, new) {
                        Ok(placed) => Ok(CoreValue::RefConcrete(nullable, placed)),
                        Err(_) => Err(no_memory()),
                    }
                }
                Err(refused) => Err(refused),
            }
        }
        _ => Ok(value),
    }
}

/// The first part of an outer alias, by a count.
pub(crate) fn resolve_place(
    scopes: &[Open<'_>],
    alias: Span,
    place: Index<'_>,
) -> Result<u32, Error>
    requires few { length scopes.now < 2 ^ 32 }
    ensures { MatchResult result (λ d. PlaceRead scopes.now (place_at alias.offset place.entry) d) (RefusedBy scopes.now (λ ms. missing_place ms (place_at alias.offset place.entry))) }
{
    match place {
        Index::Num(count, _) => Ok(count),
        Index::Id(_) => match depth_of(scopes, place) {
            Some(depth) => Ok(depth),
            None => match missing_place(scopes, alias, place) {
                Some(refused) => Err(refused),
                None => unreachable!(),
            },
        },
    }
}
