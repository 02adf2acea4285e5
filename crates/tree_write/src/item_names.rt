//! The items that have a name, and what the name section of a component holds (Component Model binary format, "Name Section").

ghost use Rattle.std.specs.Prelude.{◌≡◌, ◌<◌, ℕ, ◌+◌, ◌^◌, List, [], ◌++◌, IfOk, OnOk, map, drop, true, option_map, length};
ghost use Rattle.comp_model.specs.Core.{label_or_id};
ghost use Rattle.comp_model.specs.CoreModules.{CoreModule};
ghost use Rattle.comp_model.specs.ItemNames.{first_or_none, name_in_front};
ghost use Rattle.comp_model.specs.Spaces.{leaves_spaces, same_space};
ghost use Rattle.comp_tree.specs.Model.{id_of, lent_text, scope_of};
ghost use Rattle.comp_tree.specs.Lists.{listed, defs_listed};
ghost use Rattle.comp_tree.specs.Spaces.{run_of};
ghost use Rattle.tree_write.specs.Along.{along, ids_in, labels_in, names_of_def, names_in, of_space, payload_by, spaces_of};
ghost use Rattle.tree_write.specs.CountedItems.{count_of};
ghost use Rattle.tree_write.specs.FewItems.{count_declared, FewItems};
ghost use Rattle.tree_write.specs.Wire.{payload_of};

use crate::space_counts::{Items, count_items, entries, small};
use comp_model::{Declares, ScopeKind, Space, declares_by};
use comp_tree::{Def, Leaf, Names, Run, Scope, leaf_run};
use comp_wire::{NoMemory, space_number};
use std::alloc::Global;
use wast_parser::Id;

/// An item that has a name.
#[derive(Clone, Copy)]
pub struct NamedItem<'a> {
    /// Its space.
    pub space: Space,
    /// Its index there.
    pub index: u64,
    /// Its name.
    pub name: &'a str,
}

/// The names of a component.
#[derive(Drop)]
pub struct ComponentNames<'a> {
    /// Its own.
    pub own: Option<&'a str>,
    /// Those of its items, by definition.
    pub items: Vec<NamedItem<'a>>,
}

/// The name of an item: its label, or else its id, where that isn't generated.
pub fn item_name<'a>(id: &Option<Id<'a>>, label: &Option<&'a str>) -> Option<&'a str>
    ensures { option_map lent_text result ≡ label_or_id (option_map lent_text label.now) (option_map id_of id.now) }
{
    match label {
        Some(label) => Some(*label),
        None => match id {
            Some(id) => {
                if id.is_gensym() {
                    None
                } else {
                    Some(id.name())
                }
            }
            None => None,
        },
    }
}

/// The id at a place.
fn id_at<'a>(ids: &[Option<Id<'a>>], at: usize) -> Option<Id<'a>>
    ensures { option_map id_of result ≡ first_or_none (drop at (map (option_map id_of) ids.now)) }
{
    if at < ids.len() { ids[at] } else { None }
}

/// The label at a place.
fn label_at<'a>(labels: &[Option<&'a str>], at: usize) -> Option<&'a str>
    ensures { option_map lent_text result ≡ first_or_none (drop at (map (option_map lent_text) labels.now)) }
{
    if at < labels.len() { labels[at] } else { None }
}

/// The name of a part.
pub fn part_name<'a>(names: &Names<'_, 'a>, at: usize) -> Option<&'a str>
    ensures { option_map lent_text result ≡ label_or_id (first_or_none (drop at (labels_in names.now))) (first_or_none (drop at (ids_in names.now))) }
{
    let label = label_at(names.labels, at);
    let id = id_at(names.ids, at);
    item_name(&id, &label)
}

/// Adds an item, if it has a name.
fn push_name<'a>(
    items: &mut Vec<NamedItem<'a>>,
    space: Space,
    index: u64,
    name: Option<&'a str>,
) -> Result<(), NoMemory>
    ensures { OnOk result ((s : Space) → of_space s items.new.items ≡ of_space s items.old.items ++ name_in_front (same_space s space) (option_map lent_text name.entry) index []) }
{
    match name {
        Some(name) => match items.push(NamedItem { space, index, name }) {
            Ok(()) => Ok(()),
            Err(_) => Err(NoMemory),
        },
        None => Ok(()),
    }
}

/// Adds the parts of one space, of which so many stand before the definition.
fn push_parts<'a>(
    items: &mut Vec<NamedItem<'a>>,
    of: &Names<'_, 'a>,
    before: u64,
    from: u64,
    run: Run,
) -> Result<(), NoMemory>
    ensures { OnOk result ((s : Space) → (b : ℕ) → (same_space s run.space ≡ true → b ≡ before) → b + (from + run.count) < 2 ^ 64 → of_space s items.new.items ≡ of_space s items.old.items ++ along s b from (drop from (ids_in of.now)) (drop from (labels_in of.now)) (run_of run)) }
{
    let mut at = from;
    let mut rest = run.count;
    while rest > 0 {
        let index = before.saturating_add(at);
        push_name(items, run.space, index, part_name(of, at as usize))?;
        at = at.saturating_add(1);
        rest -= 1;
    }
    Ok(())
}

/// Adds the parts that leaves give.
fn push_leaf_names<'a>(
    items: &mut Vec<NamedItem<'a>>,
    counts: &[Items],
    of: &Names<'_, 'a>,
    by: Declares,
    leaves: &[Leaf<'_, '_>],
) -> Result<(), NoMemory>
    requires spaces { length counts.now ≡ 13 }
    ensures { OnOk result ((cores : List CoreModule) (s : Space) → count_of s counts.now + length (leaves_spaces (listed cores leaves.now) by) < 2 ^ 64 → of_space s items.new.items ≡ of_space s items.old.items ++ along s (count_of s counts.now) 0 (ids_in of.now) (labels_in of.now) (leaves_spaces (listed cores leaves.now) by)) }
{
    let mut part: u64 = 0;
    for leaf in leaves {
        let run = leaf_run(leaf, by);
        let before = small(counts[space_number(run.space) as usize]);
        push_parts(items, of, before, part, run)?;
        part = part.saturating_add(run.count as u64);
    }
    Ok(())
}

/// Adds what a definition declares, if it has a name.
fn push_def_names<'a>(
    items: &mut Vec<NamedItem<'a>>,
    counts: &[Items],
    def: &Def<'_, 'a>,
) -> Result<(), NoMemory>
    requires spaces { length counts.now ≡ 13 }
    ensures { OnOk result ((cores : List CoreModule) (s : Space) → count_of s counts.now + length (spaces_of cores def.now) < 2 ^ 64 → of_space s items.new.items ≡ of_space s items.old.items ++ names_of_def cores s (count_of s counts.now) def.now) }
{
    match declares_by(def.node.row) {
        Declares::Always(space) => {
            let before = small(counts[space_number(space) as usize]);
            push_parts(items, def.names, before, 0, Run { space, count: 1 })
        }
        Declares::Nothing => Ok(()),
        Declares::ByKind => {
            push_leaf_names(items, counts, def.names, Declares::ByKind, def.node.leaves)
        }
        Declares::ByDescription => {
            push_leaf_names(
                items,
                counts,
                def.names,
                Declares::ByDescription,
                def.node.leaves,
            )
        }
        Declares::ByReference => {
            push_leaf_names(
                items,
                counts,
                def.names,
                Declares::ByReference,
                def.node.leaves,
            )
        }
        Declares::ByList => {
            push_leaf_names(items, counts, def.names, Declares::ByList, def.node.leaves)
        }
        Declares::ByResults => {
            push_leaf_names(
                items,
                counts,
                def.names,
                Declares::ByResults,
                def.node.leaves,
            )
        }
    }
}

/// The items of definitions that have a name, with their indices: each definition is looked at once.
fn items_of<'a>(alloc: Global, defs: &[Def<'_, 'a>]) -> Result<Vec<NamedItem<'a>>, NoMemory>
    ensures { IfOk result (λ v. (cores : List CoreModule) (s : Space) → count_declared (defs_listed cores defs.now) < 2 ^ 64 → of_space s v.items ≡ names_in cores s 0 defs.now) }
{
    let mut items = Vec::new(alloc);
    let mut counts = [Items { high: 0, low: 0 }; 13];
    let _most = entries(defs);
    for def in defs {
        push_def_names(&mut items, &counts, def)?;
        count_items(&mut counts, def);
    }
    Ok(items)
}

/// The names of a scope: none where it is a type.
pub fn scope_names<'a>(alloc: Global, scope: &Scope<'_, 'a>) -> Result<ComponentNames<'a>, NoMemory>
    ensures { IfOk result (λ n. (cores : List CoreModule) → FewItems (scope_of cores scope.now) → payload_by n ≡ payload_of (scope_of cores scope.now)) }
{
    match scope.kind {
        ScopeKind::Component => Ok(ComponentNames {
            own: item_name(&scope.id, &scope.label),
            items: items_of(alloc, scope.defs)?,
        }),
        ScopeKind::ComponentType => Ok(no_names(alloc)),
        ScopeKind::InstanceType => Ok(no_names(alloc)),
        ScopeKind::ModuleType => Ok(no_names(alloc)),
    }
}

/// No names.
fn no_names<'a>(alloc: Global) -> ComponentNames<'a>
    ensures { payload_by result ≡ [] }
{
    ComponentNames {
        own: None,
        items: Vec::new(alloc),
    }
}
