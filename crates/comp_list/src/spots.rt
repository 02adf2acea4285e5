//! The items of a scope, by space and index.
//!
//! Of each space there is a list of parts of definitions, in the order of their items: those that one definition declares in a row stand
//! together, since a start function may declare 4,294,967,295 values in five bytes.

ghost use Rattle.std.specs.Prelude.{◌≡◌, ◌<◌, ◌≤◌, ◌+◌, ◌-◌, ◌*◌, ◌^◌, ◌++◌, [], ℕ, true, false, List, length, slice_get, OnOk, IfOk, get_or, map, option_map};
ghost use Rattle.comp_model.specs.declared.Space.{Space as ModelSpace};
ghost use Rattle.comp_model.specs.Spaces.{leaves_spaces, declares_row, items_from};
ghost use Rattle.wire_tree.specs.Lists.{listed, defs_listed};
ghost use Rattle.item_tree.specs.Model.{defs_listed as items_listed};
ghost use Rattle.comp_list.specs.Listing.{spot_of};
ghost use Rattle.comp_list.specs.Runs.{run_of};
ghost use Rattle.comp_list.specs.Spots.{IsChain, spots_in, ends_before, spots_of, def_spots, HasSpots, AreWithin, part_spots, add_spots, end_of};
ghost use Rattle.comp_list.specs.Room.{DefsFit};

use crate::item_runs::item_run;
use crate::line::Spot;
use crate::runs::{Run, leaf_run};
use comp_model::{Declares, Space, declares_by};
use comp_wire::space_number;
use item_tree::Item;
use std::alloc::{AllocError, Global};
use std::marker::Model;
use wire_tree::{Leaf, Node};

/// Parts of a definition in a row, each of which declares an item of one space.
#[derive(Clone, Copy)]
struct Parts {
    /// The index of the first item.
    first: u64,
    /// The index behind that of the last item.
    end: u64,
    /// The number of the definition.
    def: u32,
    /// The number of the first part.
    part: u32,
}

/// Whether the items of the parts at a place, and so all in front of it, stand in front of an index.
#[tactic(auto, using(crate::proofs::Chains::before_all, crate::proofs::Chains::behind_all))]
fn ends_before(chain: &[Parts], at: usize, index: u64) -> bool
    requires chain { IsChain 0 chain.now }
    requires there { at < length chain.now }
    ensures before { result ≡ true → (k : ℕ) → k ≤ at → ends_before chain.now index k }
    ensures behind { result ≡ false → (k : ℕ) → at ≤ k → k < length chain.now → index < end_of chain.now k }
{
    if chain[at].end <= index {
        return true;
    }
    false
}

/// How many of the parts in a chain have items in front of an index alone.
fn count_before(chain: &[Parts], index: u64) -> usize
    requires chain { IsChain 0 chain.now }
    ensures bound { result ≤ length chain.now }
    ensures before { (k : ℕ) → k < result → ends_before chain.now index k }
    ensures behind { (k : ℕ) → result ≤ k → k < length chain.now → index < end_of chain.now k }
{
    let mut low = 0;
    let mut high = chain.len();
    while low < high {
        let middle = low + (high - low) / 2;
        if ends_before(chain, middle, index) {
            low = middle + 1;
        } else {
            high = middle;
        }
    }
    low
}

/// The part of these that declares the item of an index.
fn spot_in(parts: Parts, index: u64) -> Spot
    requires behind { parts.first ≤ index }
    requires few { parts.part + (index - parts.first) < 2 ^ 32 }
    ensures { result ≡ record { def = parts.def; part = parts.part + (index - parts.first) } }
{
    Spot {
        def: parts.def,
        part: parts.part + (index - parts.first) as u32,
    }
}

/// The part that declares the item of an index.
#[tactic(auto, using(crate::proofs::Chains::found_behind, crate::proofs::Chains::found_small, crate::proofs::Chains::found_is, crate::proofs::Chains::missing_is))]
fn find_in(chain: &[Parts], index: u32) -> Option<Spot>
    requires chain { IsChain 0 chain.now }
    ensures { result ≡ slice_get (spots_in chain.now) index }
{
    let at = count_before(chain, index as u64);
    if at < chain.len() {
        return Some(spot_in(chain[at], index as u64));
    }
    None
}

/// The index behind that of the last item of a chain.
#[tactic(auto, using(crate::proofs::Chains::last_end))]
fn items_in(chain: &[Parts]) -> u64
    requires chain { IsChain 0 chain.now }
    ensures { result ≡ length (spots_in chain.now) }
{
    if chain.is_empty() {
        return 0;
    }
    chain[chain.len() - 1].end
}

/// Puts so many parts of a definition behind a chain. It is refused where memory ran out.
#[tactic(auto, using(crate::proofs::Chains::chain_pushed, crate::proofs::Chains::spots_pushed, crate::proofs::Chains::nothing_added))]
fn push_parts(chain: &mut Vec<Parts>, def: u32, part: u32, count: u32) -> Result<(), AllocError>
    requires chain { IsChain 0 chain.old.items }
    requires few { part + count < 2 ^ 32 }
    requires room { length (spots_in chain.old.items) + count < 2 ^ 64 }
    ensures chain { IsChain 0 chain.new.items }
    ensures items { OnOk result (spots_in chain.new.items ≡ spots_in chain.old.items ++ part_spots def part count) }
{
    if count == 0 {
        return Ok(());
    }
    let first = items_in(chain);
    let end = first + count as u64;
    chain.push(Parts {
        first,
        end,
        def,
        part,
    })?;
    Ok(())
}

/// The items of a scope.
#[derive(Drop)]
pub struct Spots {
    chains: Vec<Vec<Parts>>,
}

impl Model for Spots {
    ghost use Rattle.std.specs.Prelude.{List, map};
    ghost use Rattle.comp_list.specs.declared.line.Spot.{Spot as OneSpot};
    ghost use Rattle.comp_list.specs.Spots.{AreChains, chain_spots};

    ghost Value = { List (List OneSpot) };

    ghost view = { λ s. chain_spots (map (λ c. c.items) s.chains.items) };

    ghost invariant = { λ s. AreChains (map (λ c. c.items) s.chains.items) };
}

impl Spots {
    /// No item of any space.
    fn new(alloc: Global) -> Result<Spots, AllocError>
        ensures { IfOk result (λ v. (s : ModelSpace) → spots_of v s ≡ []) }
    {
        let mut chains = Vec::new(alloc);
        for _ in 0..13u32 {
            chains.push(Vec::new(alloc))?;
        }
        Ok(Spots { chains })
    }

    /// The part that declares item `index` of a space.
    pub fn find(&self, space: Space, index: u32) -> Option<Spot>
        ensures { result ≡ slice_get (spots_of self.now space) index }
    {
        find_in(&self.chains[space_number(space) as usize], index)
    }

    /// Puts so many parts of a definition behind the items of a space.
    fn push(&mut self, space: Space, def: u32, part: u32, count: u32) -> Result<(), AllocError>
        requires few { part + count < 2 ^ 32 }
        requires room { length (spots_of self.old space) + count < 2 ^ 64 }
        ensures { OnOk result ((s : ModelSpace) → spots_of self.new s ≡ spots_of self.old s ++ add_spots s space def part count) }
    {
        push_parts(
            &mut self.chains[space_number(space) as usize],
            def,
            part,
            count,
        )
    }
}

/// Puts a run of items behind others, whose first part has this number; answers the number of the next part. It is refused where memory
/// ran out.
fn push_run(spots: &mut Spots, def: u32, part: u32, run: Run) -> Result<u32, AllocError>
    requires few { part + run.count < 2 ^ 32 }
    requires room { AreWithin spots.old (def * 2 ^ 32 + part) }
    ensures { IfOk result (λ next. (next ≡ part + length (run_of run)) × ((s : ModelSpace) → spots_of spots.new s ≡ spots_of spots.old s ++ def_spots s def part (run_of run))) }
{
    let count = run.count as u32;
    spots.push(run.space, def, part, count)?;
    Ok(part + count)
}

/// Puts the items that leaves give behind others.
fn push_leaves(
    spots: &mut Spots,
    def: u32,
    leaves: &[Leaf<'_, '_>],
    by: Declares,
) -> Result<(), AllocError>
    requires few { length (leaves_spaces (listed leaves.now) by) < 2 ^ 32 }
    requires room { AreWithin spots.old (def * 2 ^ 32) }
    ensures { OnOk result ((s : ModelSpace) → spots_of spots.new s ≡ spots_of spots.old s ++ def_spots s def 0 (leaves_spaces (listed leaves.now) by)) }
{
    let mut part = 0;
    for leaf in leaves {
        part = push_run(spots, def, part, leaf_run(leaf, by))?;
    }
    Ok(())
}

/// Puts the items that a definition declares behind others.
fn push_def(spots: &mut Spots, def: u32, node: &Node<'_, '_>) -> Result<(), AllocError>
    requires few { length (declares_row node.now.row (listed node.now.leaves.now)) < 2 ^ 32 }
    requires room { AreWithin spots.old (def * 2 ^ 32) }
    ensures { OnOk result ((s : ModelSpace) → spots_of spots.new s ≡ spots_of spots.old s ++ def_spots s def 0 (declares_row node.now.row (listed node.now.leaves.now))) }
{
    match declares_by(node.row) {
        Declares::Always(space) => spots.push(space, def, 0, 1),
        Declares::ByKind => push_leaves(spots, def, node.leaves, Declares::ByKind),
        Declares::ByDescription => push_leaves(spots, def, node.leaves, Declares::ByDescription),
        Declares::ByReference => push_leaves(spots, def, node.leaves, Declares::ByReference),
        Declares::ByList => push_leaves(spots, def, node.leaves, Declares::ByList),
        Declares::ByResults => push_leaves(spots, def, node.leaves, Declares::ByResults),
        Declares::Nothing => Ok(()),
    }
}

/// Puts the items that definitions declare, the first of which has number 0, into a table.
fn push_defs(spots: &mut Spots, defs: &[Node<'_, '_>]) -> Result<(), AllocError>
    requires few { (level : ℕ) × DefsFit (defs_listed defs.now) level 0 }
    requires room { AreWithin spots.old 0 }
    ensures { OnOk result ((s : ModelSpace) → spots_of spots.new s ≡ spots_of spots.old s ++ map spot_of (items_from s 0 (defs_listed defs.now))) }
{
    let mut def = 0;
    for node in defs {
        push_def(spots, def, node)?;
        def += 1;
    }
    Ok(())
}

/// The items that the definitions of a scope declare. It is refused where memory ran out.
pub fn spots_of(alloc: Global, defs: &[Node<'_, '_>]) -> Result<Spots, AllocError>
    requires few { (level : ℕ) × DefsFit (defs_listed defs.now) level 0 }
    ensures { IfOk result (λ v. HasSpots v (defs_listed defs.now)) }
{
    let mut spots = Spots::new(alloc)?;
    push_defs(&mut spots, defs)?;
    Ok(spots)
}

/// Puts the items that the definitions of a tree declare, the first of which has number 0, into a table.
fn push_items(spots: &mut Spots, items: &[Item<'_>]) -> Result<(), AllocError>
    requires few { (level : ℕ) × DefsFit (items_listed items.now) level 0 }
    requires room { AreWithin spots.old 0 }
    ensures { OnOk result ((s : ModelSpace) → spots_of spots.new s ≡ spots_of spots.old s ++ map spot_of (items_from s 0 (items_listed items.now))) }
{
    let mut def = 0;
    for item in items {
        push_run(spots, def, 0, item_run(item))?;
        def += 1;
    }
    Ok(())
}

/// The items that the definitions of a tree declare. It is refused where memory ran out.
pub fn spots_of_items(alloc: Global, items: &[Item<'_>]) -> Result<Spots, AllocError>
    requires few { (level : ℕ) × DefsFit (items_listed items.now) level 0 }
    ensures { IfOk result (λ v. HasSpots v (items_listed items.now)) }
{
    let mut spots = Spots::new(alloc)?;
    push_items(&mut spots, items)?;
    Ok(spots)
}
