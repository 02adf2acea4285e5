//! The second pass over a list: the index of the first item of each definition, and what the names in them denote.

ghost use Rattle.std.specs.Prelude.{◌≡◌, ◌<◌, ◌^◌, ◌+◌, List, length, OnOk, IfErr, IfOk, MatchResult};
ghost use Rattle.comp_model.specs.CoreModules.{CoreModule};
ghost use Rattle.comp_model.specs.Spaces.{declares_row};
ghost use Rattle.comp_expanded.specs.IsExpanded.{LeavesExpanded, DefsExpanded};
ghost use Rattle.comp_tables.specs.Bounds.{most_needs, most_declared};
ghost use Rattle.comp_tables.specs.Tables.{first_index, unmet_kinds, unmet_kinds_defs};
ghost use Rattle.comp_tables.specs.Walks.{all_more};
ghost use Rattle.comp_tree.specs.Lists.{listed, defs_listed};
ghost use Rattle.open_scopes.specs.Refusals.{no_memory};
ghost use Rattle.tree_names.specs.AllFound.{all_found, defs_found, FoundAll, FoundBehind};
ghost use Rattle.tree_names.specs.Counted.{Refused};
ghost use Rattle.tree_names.specs.Room.{CountersHaveRoom, SumsHaveRoom};
ghost use Rattle.tree_resolve.specs.Tabled.{bare, Tabled, DefCounted, ItemsEntered};

use crate::sole::sole_space;
use comp_model::{Row, Space};
use comp_tree::{Def, Leaf, declared_spaces};
use open_scopes::{Counters, Found, Open};
use std::alloc::Global;
use tree_names::{Sums, count_leaves, no_memory};
use wast_parser::Error;

/// The counters behind items in these spaces, for which there are indices below 2^32 - 1.
pub(crate) fn advance_all(counters: &mut Counters, spaces: &[Space])
    requires room { CountersHaveRoom counters.old (length spaces.now) }
    ensures advanced { counters.new ≡ all_more counters.old spaces.now }
{
    for space in spaces {
        counters.advance(*space);
    }
}

/// The counters behind the items of a definition, by its row and its leaves, where they stand in a list. There are indices below 2^32 - 1
/// for them. Want of memory is `NoMemory` at 0.
fn advance_listed(
    alloc: Global,
    counters: &mut Counters,
    row: Row,
    leaves: &[Leaf<'_, '_>],
) -> Result<(), Error>
    requires room { (C : List CoreModule) × CountersHaveRoom counters.old (length (declares_row row (listed C leaves.now))) }
    ensures advanced { OnOk result ((C : List CoreModule) → counters.new ≡ all_more counters.old (declares_row row (listed C leaves.now))) }
    ensures refused { IfErr result (λ e. e ≡ no_memory) }
{
    let spaces = match declared_spaces(alloc, row, leaves) {
        Ok(spaces) => spaces,
        Err(_) => return Err(no_memory()),
    };
    advance_all(counters, &spaces);
    Ok(())
}

/// The counters behind the items of a definition, by its row and its leaves. There are indices below 2^32 - 1 for them. Most declare one
/// item, whose space takes no list. Want of memory is `NoMemory` at 0.
pub(crate) fn advance_declared(
    alloc: Global,
    counters: &mut Counters,
    row: Row,
    leaves: &[Leaf<'_, '_>],
) -> Result<(), Error>
    requires room { (C : List CoreModule) × CountersHaveRoom counters.old (length (declares_row row (listed C leaves.now))) }
    ensures advanced { OnOk result ((C : List CoreModule) → counters.new ≡ all_more counters.old (declares_row row (listed C leaves.now))) }
    ensures refused { IfErr result (λ e. e ≡ no_memory) }
{
    match sole_space(row, leaves) {
        Some(space) => {
            advance_all(counters, &[space]);
            Ok(())
        }
        None => advance_listed(alloc, counters, row, leaves),
    }
}

/// The counters behind a definition that needs nothing, for whose items there are indices below 2^32 - 1. Want of memory is `NoMemory` at 0.
pub(crate) fn counters_behind(
    alloc: Global,
    def: &Def<'_, '_>,
    counters: &Counters,
) -> Result<Counters, Error>
    requires room { (C : List CoreModule) × CountersHaveRoom counters.now (length (declares_row def.now.node.row (listed C def.now.node.leaves.now))) }
    ensures behind { IfOk result (λ behind. (C : List CoreModule) → behind ≡ all_more counters.now (declares_row def.now.node.row (listed C def.now.node.leaves.now))) }
    ensures refused { IfErr result (λ e. e ≡ no_memory) }
{
    let mut behind = counters.copy();
    match advance_declared(alloc, &mut behind, def.node.row, def.node.leaves) {
        Ok(()) => {}
        Err(refused) => return Err(refused),
    }
    Ok(behind)
}

/// The index of the first of items in these spaces.
fn first_of(counters: &Counters, spaces: &[Space]) -> u32
    ensures { result ≡ first_index spaces.now (bare counters.now) }
{
    if spaces.len() > 0 {
        return counters.of(spaces[0]);
    }
    0
}

/// Passes items in these spaces, for which there are indices below 2^32 - 1: the index of the first goes behind the table. Want of memory
/// is `NoMemory` at 0.
fn enter_items(counters: &mut Counters, spaces: &[Space], table: &mut Vec<u32>) -> Result<(), Error>
    requires room { CountersHaveRoom counters.old (length spaces.now) }
    ensures entered { OnOk result (ItemsEntered counters.old spaces.now table.old.items table.new.items counters.new) }
    ensures refused { IfErr result (λ e. e ≡ no_memory) }
{
    let first = first_of(counters, spaces);
    match table.push(first) {
        Ok(()) => {}
        Err(_) => return Err(no_memory()),
    }
    advance_all(counters, spaces);
    Ok(())
}

/// Passes the items of a definition, by its row and its leaves, where they stand in a list.
fn enter_listed(
    alloc: Global,
    counters: &mut Counters,
    row: Row,
    leaves: &[Leaf<'_, '_>],
    table: &mut Vec<u32>,
) -> Result<(), Error>
    requires room { (C : List CoreModule) × CountersHaveRoom counters.old (length (declares_row row (listed C leaves.now))) }
    ensures entered { (C : List CoreModule) → OnOk result (ItemsEntered counters.old (declares_row row (listed C leaves.now)) table.old.items table.new.items counters.new) }
    ensures refused { IfErr result (λ e. e ≡ no_memory) }
{
    let spaces = match declared_spaces(alloc, row, leaves) {
        Ok(spaces) => spaces,
        Err(_) => return Err(no_memory()),
    };
    match enter_items(counters, &spaces, table) {
        Ok(()) => Ok(()),
        Err(refused) => Err(refused),
    }
}

/// Passes the items of a definition, by its row and its leaves, for which there are indices below 2^32 - 1. Most declare one item, whose
/// space takes no list. Want of memory is `NoMemory` at 0.
fn enter_declared(
    alloc: Global,
    counters: &mut Counters,
    row: Row,
    leaves: &[Leaf<'_, '_>],
    table: &mut Vec<u32>,
) -> Result<(), Error>
    requires room { (C : List CoreModule) × CountersHaveRoom counters.old (length (declares_row row (listed C leaves.now))) }
    ensures entered { (C : List CoreModule) → OnOk result (ItemsEntered counters.old (declares_row row (listed C leaves.now)) table.old.items table.new.items counters.new) }
    ensures refused { IfErr result (λ e. e ≡ no_memory) }
{
    match sole_space(row, leaves) {
        Some(space) => enter_items(counters, &[space], table),
        None => enter_listed(alloc, counters, row, leaves, table),
    }
}

/// Passes a definition, for all of whose aliases and items there are indices below 2^32 - 1: the index of its first item goes behind the
/// table, what its names denote behind what was found, and what serves its names that lead out behind what serves others.
fn count_def<'a>(
    alloc: Global,
    scopes: &[Open<'a>],
    def: &Def<'_, 'a>,
    sums: &mut Sums,
    table: &mut Vec<u32>,
    found: &mut Vec<Option<Found>>,
) -> Result<(), Error>
    requires few { length scopes.now < 2 ^ 32 }
    requires sized { length sums.old.counters ≡ 13 }
    requires expanded { (C : List CoreModule) × LeavesExpanded (listed C def.now.node.leaves.now) }
    requires room { (C : List CoreModule) × SumsHaveRoom sums.old (most_needs (listed C def.now.node.leaves.now) + length (declares_row def.now.node.row (listed C def.now.node.leaves.now))) }
    ensures counted { (C : List CoreModule) → MatchResult result (λ done. DefCounted C scopes.now sums.old sums.new table.old.items table.new.items def.now) (Refused scopes.now (λ ms. unmet_kinds ms (listed C def.now.node.leaves.now))) }
    ensures kept { (C : List CoreModule) → OnOk result (FoundBehind scopes.now (λ ms. all_found ms (listed C def.now.node.leaves.now)) found.old.items found.new.items) }
{
    match count_leaves(scopes, def.node.leaves, sums, found) {
        Ok(()) => {}
        Err(refused) => return Err(refused),
    }
    match enter_declared(
        alloc,
        &mut sums.counters,
        def.node.row,
        def.node.leaves,
        table,
    ) {
        Ok(()) => Ok(()),
        Err(refused) => Err(refused),
    }
}

/// What the names in the definitions of a list denote, in the order in which they stand.
#[derive(Drop)]
pub(crate) struct Kept {
    /// Of each name; `None` where it denotes nothing.
    pub(crate) found: Vec<Option<Found>>,
    /// Of each name that leads out the index of the outer alias that serves it; `None` where it has its own.
    pub(crate) served: Vec<Option<u32>>,
}

/// What the second pass over a list gives.
#[derive(Drop)]
pub(crate) struct Counted {
    /// For each definition the index of the first item that it declares.
    pub(crate) table: Vec<u32>,
    /// What its names denote.
    pub(crate) kept: Kept,
}

/// Second pass: the index of the first item that each definition of an expanded list declares, with the aliases that will stand before it counted,
/// in the innermost of open scopes, whose own table is empty so far; and what its names denote. No name is looked up in another pass. Items
/// and aliases are fewer than 2^32.
///
/// The first name that leads out to an item of which there is no outer alias is `OuterKind`, at the name, and a path to a core type or a
/// core instance `CoreExportKind`, at its root; otherwise want of memory is `NoMemory` at 0.
pub(crate) fn count_defs<'a>(
    alloc: Global,
    scopes: &[Open<'a>],
    defs: &[Def<'_, 'a>],
) -> Result<Counted, Error>
    requires few { length scopes.now < 2 ^ 32 }
    requires expanded { (C : List CoreModule) × DefsExpanded (defs_listed C defs.now) }
    requires small { (C : List CoreModule) × (most_declared (defs_listed C defs.now) < 2 ^ 32) }
    ensures counted { (C : List CoreModule) → MatchResult result (λ counted. Tabled C scopes.now counted.table.items counted.kept.served.items defs.now) (Refused scopes.now (λ ms. unmet_kinds_defs ms (defs_listed C defs.now))) }
    ensures kept { (C : List CoreModule) → IfOk result (λ counted. FoundAll scopes.now (λ ms. defs_found ms (defs_listed C defs.now)) counted.kept.found.items) }
{
    let mut table = Vec::new(alloc);
    let mut found = Vec::new(alloc);
    let mut sums = Sums::new(alloc);
    for def in defs {
        match count_def(alloc, scopes, def, &mut sums, &mut table, &mut found) {
            Ok(()) => {}
            Err(refused) => return Err(refused),
        }
    }
    let served = sums.served;
    let kept = Kept { found, served };
    Ok(Counted { table, kept })
}
