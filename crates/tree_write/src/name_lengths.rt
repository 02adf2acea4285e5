//! How long the name section of a component is, without memory for its names (Component Model binary format, "Name Section"): each
//! definition is looked at once, and what its names come to is summed up by space.

ghost use Rattle.std.specs.Prelude.{◌≡◌, ◌≤◌, ◌<◌, ◌+◌, ◌-◌, ◌^◌, List, [], ◌∷◌, ◌++◌, length, min, true, drop, replicate, option_map};
ghost use Rattle.comp_model.specs.Core.{label_or_id};
ghost use Rattle.comp_model.specs.CoreModules.{CoreModule};
ghost use Rattle.comp_model.specs.ItemNames.{first_or_none, name_in_front};
ghost use Rattle.comp_model.specs.Leb.{uleb};
ghost use Rattle.comp_model.specs.NameMaps.{ItemName};
ghost use Rattle.comp_model.specs.Payloads.{component_name_bytes, map_bytes, sort_bytes};
ghost use Rattle.comp_model.specs.Spaces.{all_spaces, leaves_spaces, same_space};
ghost use Rattle.comp_tree.specs.Lists.{listed};
ghost use Rattle.comp_tree.specs.Model.{lent_text, scope_of};
ghost use Rattle.comp_tree.specs.Spaces.{run_of};
ghost use Rattle.tree_write.specs.Along.{along, ids_in, labels_in, names_in, names_of_def};
ghost use Rattle.tree_write.specs.Measured.{Counts};
ghost use Rattle.tree_write.specs.CountedItems.{count_of, items_in, most_items};
ghost use Rattle.tree_write.specs.SpaceSums.{maps_for, sum_at, Tells};
ghost use Rattle.tree_write.specs.Wire.{payload_of};

use crate::item_names::{item_name, part_name};
use crate::name_section::SPACES;
use crate::space_counts::{Items, count_items, entries, more};
use comp_model::{Declares, ScopeKind, Space, declares_by};
use comp_tree::{Def, Leaf, Names, Run, Scope, leaf_run};
use comp_wire::space_number;
use leb_lengths::{framed_length, uleb_length};

/// What the names of the items of a space come to.
#[derive(Clone, Copy)]
pub struct SpaceSum {
    /// How many of them have a name; `u64::MAX` stands for every greater number.
    pub named: u64,
    /// How many bytes their indices and names have; `u64::MAX` stands for every greater number.
    pub bytes: u64,
}

/// How many bytes a count has in unsigned LEB128.
fn items_length(items: Items) -> u64
    ensures { result ≡ min (length (uleb (items_in items))) (2 ^ 64 - 1) }
{
    let mut high = items.high;
    let mut low = items.low;
    let mut bytes: u64 = 0;
    while high > 0 {
        low = (high % 128) as u64 * 0x0200_0000_0000_0000 + low / 128;
        high /= 128;
        bytes = bytes.saturating_add(1);
    }
    bytes.saturating_add(uleb_length(low))
}

/// The sum with one name more, of the item that is so many behind those before the definition.
fn with_name(sum: SpaceSum, before: Items, part: u64, name: &str) -> SpaceSum
    ensures { (ns : List ItemName) → items_in before + part < 2 ^ 192 → Tells sum ns → Tells result (ns ++ record { index = items_in before + part; name = name.now } ∷ []) }
{
    let index = items_length(more(before, part));
    let text = framed_length(name.len() as u64);
    let entry = index.saturating_add(text);
    let named = sum.named.saturating_add(1);
    let bytes = sum.bytes.saturating_add(entry);
    SpaceSum { named, bytes }
}

/// The sum with the name of a part, if it has one.
fn with_part(sum: SpaceSum, before: Items, of: &Names<'_, '_>, at: u64) -> SpaceSum
    ensures { (ns : List ItemName) → items_in before + at < 2 ^ 192 → Tells sum ns → Tells result (ns ++ name_in_front true (label_or_id (first_or_none (drop at (labels_in of.now))) (first_or_none (drop at (ids_in of.now)))) (items_in before + at) []) }
{
    match part_name(of, at as usize) {
        Some(name) => with_name(sum, before, at, name),
        None => sum,
    }
}

/// How many parts may have a name: those behind have neither an id nor a label.
fn named_parts(of: &Names<'_, '_>) -> u64
    ensures ids { length of.now.ids.now ≤ result }
    ensures labels { length of.now.labels.now ≤ result }
{
    let ids = of.ids.len() as u64;
    let labels = of.labels.len() as u64;
    if ids < labels { labels } else { ids }
}

/// The sum with the names of so many parts of its space.
fn with_parts(sum: SpaceSum, before: Items, of: &Names<'_, '_>, from: u64, count: usize) -> SpaceSum
    ensures { (s u : Space) (ns : List ItemName) → same_space s u ≡ true → items_in before ≤ most_items → Tells sum ns → Tells result (ns ++ along s (items_in before) from (drop from (ids_in of.now)) (drop from (labels_in of.now)) (replicate count u)) }
{
    let parts = named_parts(of);
    let mut now = sum;
    let mut at = from;
    let mut rest = count;
    while rest > 0 {
        if at >= parts {
            return now;
        }
        now = with_part(now, before, of, at);
        at += 1;
        rest -= 1;
    }
    now
}

/// Adds the names of the parts of one space.
fn add_parts(sums: &mut [SpaceSum], counts: &[Items], of: &Names<'_, '_>, from: u64, run: Run)
    requires spaces { length sums.old ≡ 13 }
    requires counts { length counts.now ≡ 13 }
    ensures { (s : Space) (ns : List ItemName) → count_of s counts.now ≤ most_items → Tells (sum_at s sums.old) ns → Tells (sum_at s sums.new) (ns ++ along s (count_of s counts.now) from (drop from (ids_in of.now)) (drop from (labels_in of.now)) (run_of run)) }
{
    let number = space_number(run.space) as usize;
    sums[number] = with_parts(sums[number], counts[number], of, from, run.count);
}

/// Adds the names of the parts that leaves give.
fn add_leaves(
    sums: &mut [SpaceSum],
    counts: &[Items],
    of: &Names<'_, '_>,
    by: Declares,
    leaves: &[Leaf<'_, '_>],
)
    requires spaces { length sums.old ≡ 13 }
    requires counts { length counts.now ≡ 13 }
    ensures { (cores : List CoreModule) (s : Space) (ns : List ItemName) → count_of s counts.now ≤ most_items → Tells (sum_at s sums.old) ns → Tells (sum_at s sums.new) (ns ++ along s (count_of s counts.now) 0 (ids_in of.now) (labels_in of.now) (leaves_spaces (listed cores leaves.now) by)) }
{
    let parts = named_parts(of);
    let mut part: u64 = 0;
    for leaf in leaves {
        if part >= parts {
            return;
        }
        let run = leaf_run(leaf, by);
        add_parts(sums, counts, of, part, run);
        part = part.saturating_add(run.count as u64);
    }
}

/// Adds the names of what a definition declares.
fn add_names(sums: &mut [SpaceSum], counts: &[Items], def: &Def<'_, '_>)
    requires spaces { length sums.old ≡ 13 }
    requires counts { length counts.now ≡ 13 }
    ensures { (cores : List CoreModule) (s : Space) (ns : List ItemName) → count_of s counts.now ≤ most_items → Tells (sum_at s sums.old) ns → Tells (sum_at s sums.new) (ns ++ names_of_def cores s (count_of s counts.now) def.now) }
{
    let of = def.names;
    let leaves = def.node.leaves;
    match declares_by(def.node.row) {
        Declares::Always(space) => add_parts(sums, counts, of, 0, Run { space, count: 1 }),
        Declares::Nothing => {}
        Declares::ByKind => add_leaves(sums, counts, of, Declares::ByKind, leaves),
        Declares::ByDescription => add_leaves(sums, counts, of, Declares::ByDescription, leaves),
        Declares::ByReference => add_leaves(sums, counts, of, Declares::ByReference, leaves),
        Declares::ByList => add_leaves(sums, counts, of, Declares::ByList, leaves),
        Declares::ByResults => add_leaves(sums, counts, of, Declares::ByResults, leaves),
    }
}

/// How many bytes a sort has.
fn sort_length(space: Space) -> u64
    ensures { result ≡ length (sort_bytes space) }
{
    match space {
        Space::Func => 1,
        Space::Value => 1,
        Space::Ty => 1,
        Space::Component => 1,
        Space::Instance => 1,
        _ => 2,
    }
}

/// How many bytes the map of a space has, where one of its items has a name; `u64::MAX` stands for every greater number.
fn map_length(space: Space, sum: SpaceSum) -> u64
    ensures { (ns : List ItemName) → Tells sum ns → Counts result (map_bytes space ns) }
{
    if sum.named == 0 {
        return 0;
    }
    let count = uleb_length(sum.named).saturating_add(sum.bytes);
    let body = count.saturating_add(sort_length(space));
    framed_length(body).saturating_add(1)
}

/// How many bytes the map of a space has, by the sums of all; `u64::MAX` stands for every greater number.
fn map_length_at(sums: &[SpaceSum], space: Space) -> u64
    requires spaces { length sums.now ≡ 13 }
    ensures { (ns : List ItemName) → Tells (sum_at space sums.now) ns → Counts result (map_bytes space ns) }
{
    let number = space_number(space) as usize;
    map_length(space, sums[number])
}

/// How many bytes the maps of spaces have; `u64::MAX` stands for every greater number.
fn maps_length(sums: &[SpaceSum], spaces: &[Space]) -> u64
    requires spaces { length sums.now ≡ 13 }
    ensures { (f : Space → List ItemName) → ((s : Space) → Tells (sum_at s sums.now) (f s)) → Counts result (maps_for f spaces.now) }
{
    let mut bytes: u64 = 0;
    for space in spaces {
        let map = map_length_at(sums, *space);
        bytes = bytes.saturating_add(map);
    }
    bytes
}

/// How many bytes the maps of definitions have; `u64::MAX` stands for every greater number.
fn definitions_length(defs: &[Def<'_, '_>]) -> u64
    ensures { (cores : List CoreModule) → Counts result (maps_for (λ s. names_in cores s 0 defs.now) all_spaces) }
{
    let mut sums = [SpaceSum { named: 0, bytes: 0 }; 13];
    let mut counts = [Items { high: 0, low: 0 }; 13];
    let _most = entries(defs);
    for def in defs {
        add_names(&mut sums, &counts, def);
        count_items(&mut counts, def);
    }
    maps_length(&sums, &SPACES)
}

/// How many bytes the component's own name has, if it has one; `u64::MAX` stands for every greater number.
fn own_length(name: Option<&str>) -> u64
    ensures { Counts result (component_name_bytes (option_map lent_text name.entry)) }
{
    match name {
        Some(text) => framed_length(framed_length(text.len() as u64)).saturating_add(1),
        None => 0,
    }
}

/// How many bytes the name section of a scope holds: none where it is a type; `u64::MAX` stands for every greater number.
pub fn names_length(scope: &Scope<'_, '_>) -> u64
    ensures { (cores : List CoreModule) → Counts result (payload_of (scope_of cores scope.now)) }
{
    match scope.kind {
        ScopeKind::Component => {
            let own = own_length(item_name(&scope.id, &scope.label));
            own.saturating_add(definitions_length(scope.defs))
        }
        ScopeKind::ComponentType => 0,
        ScopeKind::InstanceType => 0,
        ScopeKind::ModuleType => 0,
    }
}
