//! How many items of each space definitions declare (Component Model, "Index Spaces").

ghost use Rattle.std.specs.Prelude.{◌≡◌, ◌≤◌, ◌<◌, ◌+◌, ◌-◌, ◌^◌, List, length, min};
ghost use Rattle.comp_model.specs.CoreModules.{CoreModule};
ghost use Rattle.comp_model.specs.Spaces.{count_in, leaves_spaces};
ghost use Rattle.comp_tree.specs.Lists.{listed};
ghost use Rattle.comp_tree.specs.Spaces.{run_of};
ghost use Rattle.tree_write.specs.Along.{spaces_of};
ghost use Rattle.tree_write.specs.CountedItems.{count_of, items_in, most_items, most_of_def};

use comp_model::{Declares, Space, declares_by};
use comp_tree::{Def, Leaf, Run, leaf_run};
use comp_wire::space_number;

/// A count of items in 192 bits: no list of definitions has more.
#[derive(Clone, Copy)]
pub struct Items {
    /// The bits above the lowest 64.
    pub high: u128,
    /// The lowest 64 bits.
    pub low: u64,
}

/// So many items more.
pub fn more(items: Items, count: u64) -> Items
    ensures { items_in items + count < 2 ^ 192 → items_in result ≡ items_in items + count }
{
    let low = items.low as u128 + count as u128;
    Items {
        high: items.high.saturating_add(low / 0x1_0000_0000_0000_0000),
        low: (low % 0x1_0000_0000_0000_0000) as u64,
    }
}

/// A count in 64 bits; `u64::MAX` stands for every greater number.
pub fn small(items: Items) -> u64
    ensures { result ≡ min (items_in items) (2 ^ 64 - 1) }
{
    if items.high > 0 { u64::MAX } else { items.low }
}

/// How many items a run has.
fn run_length(run: Run) -> u64
    ensures { result ≡ run.count }
{
    run.count as u64
}

/// How many entries a list has: less than 2^64, by the type of the answer.
pub fn entries<T>(list: &[T]) -> usize
    ensures { result ≡ length list.now }
{
    list.len()
}

/// Counts so many items more of a space.
fn count_run(counts: &mut [Items], run: Run)
    requires spaces { length counts.old ≡ 13 }
    ensures items { (s : Space) → count_of s counts.old ≤ most_items → count_of s counts.new ≡ count_of s counts.old + count_in s (run_of run) }
    ensures few { (s : Space) → count_in s (run_of run) ≤ 2 ^ 64 - 1 }
{
    let number = space_number(run.space) as usize;
    counts[number] = more(counts[number], run_length(run));
}

/// Counts the items that leaves give.
fn count_leaves(counts: &mut [Items], by: Declares, leaves: &[Leaf<'_, '_>])
    requires spaces { length counts.old ≡ 13 }
    ensures items { (cores : List CoreModule) (s : Space) → count_of s counts.old + most_of_def ≤ most_items → count_of s counts.new ≡ count_of s counts.old + count_in s (leaves_spaces (listed cores leaves.now) by) }
    ensures few { (cores : List CoreModule) (s : Space) → count_in s (leaves_spaces (listed cores leaves.now) by) ≤ most_of_def }
{
    let _most = entries(leaves);
    for leaf in leaves {
        count_run(counts, leaf_run(leaf, by));
    }
}

/// Counts the items that a definition declares.
pub fn count_items(counts: &mut [Items], def: &Def<'_, '_>)
    requires spaces { length counts.old ≡ 13 }
    ensures items { (cores : List CoreModule) (s : Space) → count_of s counts.old + most_of_def ≤ most_items → count_of s counts.new ≡ count_of s counts.old + count_in s (spaces_of cores def.now) }
    ensures few { (cores : List CoreModule) (s : Space) → count_in s (spaces_of cores def.now) ≤ most_of_def }
{
    let leaves = def.node.leaves;
    match declares_by(def.node.row) {
        Declares::Always(space) => count_run(counts, Run { space, count: 1 }),
        Declares::Nothing => {}
        Declares::ByKind => count_leaves(counts, Declares::ByKind, leaves),
        Declares::ByDescription => count_leaves(counts, Declares::ByDescription, leaves),
        Declares::ByReference => count_leaves(counts, Declares::ByReference, leaves),
        Declares::ByList => count_leaves(counts, Declares::ByList, leaves),
        Declares::ByResults => count_leaves(counts, Declares::ByResults, leaves),
    }
}
