//! What a definition of the text has become, behind the walk over its leaves.

ghost use Rattle.std.specs.Prelude.{◌≡◌, ℕ, ◌++◌, ◌∷◌, [], List, OnOk, None, option_map};
ghost use Rattle.comp_model.specs.CoreModules.{CoreModule};
ghost use Rattle.comp_model.specs.Model.{Leaves};
ghost use Rattle.comp_model.specs.Origins.{written};
ghost use Rattle.comp_scopes.specs.References.{references};
ghost use Rattle.comp_expanded.specs.Expansion.{first_id};
ghost use Rattle.comp_tree.specs.Entries.{entries_of};
ghost use Rattle.comp_tree.specs.Lists.{listed};
ghost use Rattle.comp_tree.specs.Marks.{places_of, inside_listed};
ghost use Rattle.comp_tree.specs.Model.{id_of, names_at};
ghost use Rattle.type_keys.specs.Keys.{LeavesPassed};
ghost use Rattle.tree_expand.specs.KeyParts.{begun_parts, leaves_parts, KeyShows};
ghost use Rattle.tree_expand.specs.Known.{Shows};
ghost use Rattle.tree_expand.specs.Numbering.{noted_written};
ghost use Rattle.tree_expand.specs.Passed.{Noted, types_in};
ghost use Rattle.tree_expand.specs.Standing.{ids_of};

use crate::key::is_shared;
use crate::known::{Known, push_part};
use crate::names::first_id_of;
use crate::parts::{Parts, push_written};
use bumpalo::Bump;
use comp_model::Row;
use comp_tree::{Def, Leaf, Names};
use std::alloc::AllocError;
use std::mem;
use type_keys::{KeyPart, TypeKey};
use wast_parser::Id;

/// Notes a written type, where types stand inline in its scope.
fn note_written<'a>(
    known: &mut Known<'a>,
    wanted: bool,
    row: Row,
    key: &mut Option<TypeKey<'a>>,
    id: Option<Id<'a>>,
) -> Result<(), AllocError>
    ensures { (xs : List Noted) (ls : Leaves) (k : ℕ) → Shows known.old xs → KeyShows key.old (begun_parts wanted row ++ leaves_parts (types_in xs) ls) → LeavesPassed (types_in xs) ls → OnOk result (Shows known.new (xs ++ noted_written wanted k row ls (option_map id_of id.entry))) }
{
    if !wanted {
        return Ok(());
    }
    if !is_shared(row) {
        return Ok(());
    }
    push_part(key, KeyPart::End)?;
    let taken = mem::replace(key, None);
    known.add(taken, id)
}

/// Puts what a definition has become behind those of its scope: those for its inline nodes, those for its bundles, itself with these names
/// and leaves. Where types stand inline in the scope, a type is noted, and its key is taken.
pub(crate) fn finish_def<'t, 'a>(
    bump: &'t Bump,
    list: &mut Vec<Def<'t, 'a>>,
    parts: &mut Parts<'t, 'a>,
    definition: u32,
    inlines: bool,
    def: &Def<'t, 'a>,
    names: &'t Names<'t, 'a>,
    leaves: &'t [Leaf<'t, 'a>],
) -> Result<(), AllocError>
    ensures list { (cores : List CoreModule) → OnOk result (entries_of cores list.new.items ≡ entries_of cores list.old.items ++ (entries_of cores parts.old.inlined.items ++ (entries_of cores parts.old.own.bundles.items ++ record { origin = written definition; places = places_of parts.old.own.places.list.items (references (listed cores leaves.now)); held = inside_listed cores leaves.now; names = names_at def.now.span.offset names.now; head = def.now.node.row; leaves = listed cores leaves.now } ∷ []))) }
    ensures known { (cores : List CoreModule) (xs : List Noted) → Shows parts.old.known xs → KeyShows parts.old.own.key (begun_parts inlines def.now.node.row ++ leaves_parts (types_in xs) (listed cores def.now.node.leaves.now)) → LeavesPassed (types_in xs) (listed cores def.now.node.leaves.now) → OnOk result (Shows parts.new.known (xs ++ noted_written inlines definition def.now.node.row (listed cores def.now.node.leaves.now) (first_id (ids_of names.now.ids.now) None))) }
{
    let places = parts.own.places.placed(bump)?;
    push_written(list, parts, definition, def, names, places, leaves)?;
    let id = first_id_of(names.ids);
    note_written(
        &mut parts.known,
        inlines,
        def.node.row,
        &mut parts.own.key,
        id,
    )
}
