//! The first pass over a list: the ids of its items are registered.

ghost use Rattle.std.specs.Prelude.{◌≡◌, ◌<◌, ◌^◌, ◌++◌, ◌∷◌, [], List, length, map, drop, None, option_map, MatchResult};
ghost use Rattle.comp_model.specs.CoreModules.{CoreModule};
ghost use Rattle.comp_model.specs.ItemNames.{first_or_none};
ghost use Rattle.comp_model.specs.Spaces.{Declaration, parts, declarations_from, declares_row};
ghost use Rattle.comp_tables.specs.Bounds.{most_declared};
ghost use Rattle.comp_tables.specs.Tables.{nothing_registered, all_registered, first_taken};
ghost use Rattle.comp_tree.specs.Lists.{listed, defs_listed};
ghost use Rattle.comp_tree.specs.Model.{id_of};
ghost use Rattle.open_scopes.specs.Registered.{Registers, item_of};
ghost use Rattle.tree_resolve.specs.Registering.{RegisteredUpTo, TakenFirst};

use crate::sole::sole_space;
use comp_model::Space;
use comp_tree::{Def, declared_spaces};
use open_scopes::{Item, Registry};
use std::alloc::Global;
use tree_names::no_memory;
use wast_parser::{Error, Id};

/// The id of a part of a definition; parts behind the last id have none.
pub(crate) fn id_at<'a>(ids: &[Option<Id<'a>>], part: usize) -> Option<Id<'a>>
    ensures { option_map id_of result ≡ first_or_none (drop part (map (option_map id_of) ids.now)) }
{
    if part < ids.len() {
        return ids[part];
    }
    None
}

/// Registers an item, if it has an id. One that an earlier item of the space bears is `Duplicate`, at the id; otherwise want of memory is
/// `NoMemory` at 0.
fn register_item<'a>(
    registry: &mut Registry<'a>,
    space: Space,
    id: Option<Id<'a>>,
    item: Item,
) -> Result<(), Error>
    ensures { (all more : List Declaration) (d : Declaration) → d.space ≡ space → d.id ≡ option_map id_of id.entry → item_of d ≡ item → RegisteredUpTo registry.old all (d ∷ more) → MatchResult result (λ done. RegisteredUpTo registry.new all more) (TakenFirst all) }
{
    match id {
        Some(id) => match registry.register(space, id, item) {
            Ok(()) => Ok(()),
            Err(refused) => Err(refused),
        },
        None => Ok(()),
    }
}

/// Registers the items of a definition, one for each of its spaces, of which there are fewer than 2^32.
fn register_parts<'a>(
    registry: &mut Registry<'a>,
    definition: u32,
    ids: &[Option<Id<'a>>],
    spaces: &[Space],
) -> Result<(), Error>
    requires few { length spaces.now < 2 ^ 32 }
    ensures { (all more : List Declaration) → RegisteredUpTo registry.old all (parts definition 0 (map (option_map id_of) ids.now) spaces.now ++ more) → MatchResult result (λ done. RegisteredUpTo registry.new all more) (TakenFirst all) }
{
    for part in 0..spaces.len() {
        let item = Item {
            definition,
            part: part as u32,
        };
        match register_item(registry, spaces[part], id_at(ids, part), item) {
            Ok(()) => {}
            Err(refused) => return Err(refused),
        }
    }
    Ok(())
}

/// Registers the items of a definition, where they stand in a list.
fn register_listed<'a>(
    alloc: Global,
    registry: &mut Registry<'a>,
    definition: u32,
    def: &Def<'_, 'a>,
) -> Result<(), Error>
    requires few { (C : List CoreModule) × (length (declares_row def.now.node.row (listed C def.now.node.leaves.now)) < 2 ^ 32) }
    ensures { (C : List CoreModule) (all more : List Declaration) → RegisteredUpTo registry.old all (parts definition 0 (map (option_map id_of) def.now.names.now.ids.now) (declares_row def.now.node.row (listed C def.now.node.leaves.now)) ++ more) → MatchResult result (λ done. RegisteredUpTo registry.new all more) (TakenFirst all) }
{
    let spaces = match declared_spaces(alloc, def.node.row, def.node.leaves) {
        Ok(spaces) => spaces,
        Err(_) => return Err(no_memory()),
    };
    register_parts(registry, definition, def.names.ids, &spaces)
}

/// Registers the items of a definition. Most declare one item, whose space takes no list.
fn register_def<'a>(
    alloc: Global,
    registry: &mut Registry<'a>,
    definition: u32,
    def: &Def<'_, 'a>,
) -> Result<(), Error>
    requires few { (C : List CoreModule) × (length (declares_row def.now.node.row (listed C def.now.node.leaves.now)) < 2 ^ 32) }
    ensures { (C : List CoreModule) (all more : List Declaration) → RegisteredUpTo registry.old all (parts definition 0 (map (option_map id_of) def.now.names.now.ids.now) (declares_row def.now.node.row (listed C def.now.node.leaves.now)) ++ more) → MatchResult result (λ done. RegisteredUpTo registry.new all more) (TakenFirst all) }
{
    match sole_space(def.node.row, def.node.leaves) {
        Some(space) => register_parts(registry, definition, def.names.ids, &[space]),
        None => register_listed(alloc, registry, definition, def),
    }
}

/// First pass: registers the ids of the items of a list.
///
/// The first id that an earlier item of its space bears is `Duplicate`, at the id; otherwise want of memory is `NoMemory` at 0. Definitions
/// and items are fewer than 2^32.
pub(crate) fn register_defs<'a>(alloc: Global, defs: &[Def<'_, 'a>]) -> Result<Registry<'a>, Error>
    requires few { length defs.now < 2 ^ 32 }
    requires small { (C : List CoreModule) × (most_declared (defs_listed C defs.now) < 2 ^ 32) }
    ensures { (C : List CoreModule) → MatchResult result (λ r. Registers r (all_registered nothing_registered (declarations_from 0 (defs_listed C defs.now))) × (first_taken nothing_registered (declarations_from 0 (defs_listed C defs.now)) ≡ None)) (TakenFirst (declarations_from 0 (defs_listed C defs.now))) }
{
    let mut registry = Registry::new(alloc);
    for definition in 0..defs.len() {
        let def = &defs[definition];
        match register_def(alloc, &mut registry, definition as u32, def) {
            Ok(()) => {}
            Err(refused) => return Err(refused),
        }
    }
    Ok(registry)
}
