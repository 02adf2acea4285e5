//! The third pass, for one definition: it stands in the new list behind the definitions that it needs.

ghost use Rattle.std.specs.Prelude.{◌≡◌, ◌<◌, ◌^◌, ◌+◌, ℕ, [], false, List, length, map, Option, MatchResult, OnOk, IfErr};
ghost use Rattle.comp_model.specs.CoreModules.{CoreModule};
ghost use Rattle.comp_scopes.specs.Encoding.{Encoding};
ghost use Rattle.comp_scopes.specs.Names.{first_of_two};
ghost use Rattle.comp_model.specs.Spaces.{declares_row};
ghost use Rattle.comp_scopes.specs.References.{references};
ghost use Rattle.comp_scopes.specs.Rowed.{holds_scope};
ghost use Rattle.comp_expanded.specs.IsExpanded.{LeavesExpanded};
ghost use Rattle.comp_tables.specs.Bounds.{most_needs};
ghost use Rattle.comp_tables.specs.Built.{missing, missing_roots};
ghost use Rattle.comp_tree.specs.Lists.{listed};
ghost use Rattle.open_scopes.specs.declared.scopes.Open.{Open as OpenScope};
ghost use Rattle.open_scopes.specs.Indexed.{OpenIndexed};
ghost use Rattle.open_scopes.specs.Refusals.{no_memory};
ghost use Rattle.tree_names.specs.AllFound.{all_found, FoundFirst, FoundTaken};
ghost use Rattle.tree_names.specs.Counted.{Refused};
ghost use Rattle.tree_names.specs.Room.{CountersHaveRoom};
ghost use Rattle.tree_names.specs.Served.{all_served, ServedFirst};
ghost use Rattle.tree_resolve.specs.Made.{own_names, number_in, AliasesBehind, DefBuilt};
ghost use Rattle.tree_resolve.specs.Plain.{Plain};

use crate::alias::alias_def;
use crate::marks::definition_of;
use crate::plain::is_plain;
use crate::table::{advance_declared, counters_behind};
use bumpalo::Bump;
use comp_tree::{Def, Leaf, Node};
use open_scopes::{Counters, Open};
use std::alloc::Global;
use tree_names::{CoreRule, Denotations, Generated, no_memory, resolve_definition};
use wast_parser::Error;

/// Generated aliases before a definition of the text, whose references have these numbers there, behind a list, in order. Want of memory is
/// `NoMemory` at 0.
fn push_aliases<'t, 'a>(
    bump: &'t Bump,
    definition: u32,
    places: &[u32],
    generated: &[Generated<'a>],
    list: &mut Vec<Def<'t, 'a>>,
) -> Result<(), Error>
    ensures pushed { OnOk result ((C : List CoreModule) → AliasesBehind C (number_in places.now) definition generated.now [] list.old.items list.new.items) }
    ensures refused { IfErr result (λ x. x ≡ no_memory) }
{
    for alias in generated {
        let def = match alias_def(bump, list, definition, places, *alias) {
            Ok(def) => def,
            Err(_) => return Err(no_memory()),
        };
        match list.push(def) {
            Ok(()) => {}
            Err(_) => return Err(no_memory()),
        }
    }
    Ok(())
}

/// A definition that stays as it is, behind a list; the counters behind it are the answer. There are indices below 2^32 - 1 for its items.
/// Want of memory is `NoMemory` at 0.
fn push_plain<'t, 'a>(
    alloc: Global,
    def: &Def<'t, 'a>,
    counters: &Counters,
    list: &mut Vec<Def<'t, 'a>>,
) -> Result<Counters, Error>
    requires sized { length counters.now ≡ 13 }
    requires plain { (C : List CoreModule) → Plain (listed C def.now.node.leaves.now) }
    requires written_out { (own_names def.now).exports ≡ [] }
    requires room { (C : List CoreModule) × CountersHaveRoom counters.now (length (declares_row def.now.node.row (listed C def.now.node.leaves.now))) }
    ensures { (e : Encoding) (C : List CoreModule) (os : List OpenScope) (served : List (Option ℕ)) → MatchResult result (λ behind. DefBuilt e C os counters.now served def.now list.old.items list.new.items behind served) (λ x. x ≡ no_memory) }
{
    match list.push(*def) {
        Ok(()) => counters_behind(alloc, def, counters),
        Err(_) => Err(no_memory()),
    }
}

/// A definition with other leaves.
fn with_leaves<'t, 'a>(def: &Def<'t, 'a>, leaves: &'t [Leaf<'t, 'a>]) -> Def<'t, 'a>
    ensures origin { result.origin ≡ def.now.origin }
    ensures names { own_names result ≡ own_names def.now }
    ensures row { result.node.row ≡ def.now.node.row }
    ensures leaves { result.node.leaves.now ≡ leaves.now }
{
    Def {
        origin: def.origin,
        places: def.places,
        span: def.span,
        names: def.names,
        node: Node {
            row: def.node.row,
            span: def.node.span,
            leaves,
        },
    }
}

/// A definition without a scope in it that has references, as `build_definition` has it.
fn build_resolved<'t, 'a, M: CoreRule>(
    alloc: Global,
    bump: &'t Bump,
    cores: &[M],
    scopes: &[Open<'a>],
    def: &Def<'t, 'a>,
    counters: &Counters,
    denoted: &mut Denotations<'_>,
    list: &mut Vec<Def<'t, 'a>>,
) -> Result<Counters, Error>
    requires few { length scopes.now < 2 ^ 32 }
    requires indexed { OpenIndexed scopes.now }
    requires sized { length counters.now ≡ 13 }
    requires expanded { LeavesExpanded (listed (map M.core_module cores.now) def.now.node.leaves.now) }
    requires whole { holds_scope (listed (map M.core_module cores.now) def.now.node.leaves.now) ≡ false }
    requires written_out { (own_names def.now).exports ≡ [] }
    requires kept { FoundFirst scopes.now (λ ms. all_found ms (listed (map M.core_module cores.now) def.now.node.leaves.now)) denoted.old.left.now }
    requires served { ServedFirst scopes.now counters.now (λ ms. all_served ms (listed (map M.core_module cores.now) def.now.node.leaves.now)) denoted.old.served.now }
    requires room { CountersHaveRoom counters.now (most_needs (listed (map M.core_module cores.now) def.now.node.leaves.now) + length (declares_row def.now.node.row (listed (map M.core_module cores.now) def.now.node.leaves.now))) }
    requires numbered { references (listed (map M.core_module cores.now) def.now.node.leaves.now) < 2 ^ 32 }
    ensures built { MatchResult result (λ behind. DefBuilt M.encoding (map M.core_module cores.now) scopes.now counters.now denoted.old.served.now def.now list.old.items list.new.items behind denoted.new.served.now) (Refused scopes.now (λ ms. first_of_two (missing_roots ms (listed (map M.core_module cores.now) def.now.node.leaves.now)) (missing M.encoding ms (listed (map M.core_module cores.now) def.now.node.leaves.now)))) }
    ensures taken { OnOk result (FoundTaken scopes.now (λ ms. all_found ms (listed (map M.core_module cores.now) def.now.node.leaves.now)) denoted.old.left.now denoted.new.left.now) }
{
    let (leaves, reading) = match resolve_definition(
        alloc,
        bump,
        cores,
        scopes,
        def.node.leaves,
        counters,
        *denoted,
    ) {
        Ok(resolved) => resolved,
        Err(refused) => return Err(refused),
    };
    *denoted = reading.denotations;
    match push_aliases(
        bump,
        definition_of(def.origin),
        def.places,
        &reading.generated,
        list,
    ) {
        Ok(()) => {}
        Err(refused) => return Err(refused),
    }
    match list.push(with_leaves(def, leaves)) {
        Ok(()) => {}
        Err(_) => return Err(no_memory()),
    }
    let mut behind = reading.counters;
    match advance_declared(alloc, &mut behind, def.node.row, def.node.leaves) {
        Ok(()) => {}
        Err(refused) => return Err(refused),
    }
    Ok(behind)
}

/// A definition without a scope in it, behind a list, with what it needs before it; the counters behind it are the answer.
///
/// `counters` number the items in front of it, and what its names denote is taken. The first root of a path that the innermost scope doesn't
/// have is `Unknown`, at the name; else it is refused by the first of its references that can't be resolved, as
/// `tree_names::resolve_definition` says. Otherwise want of memory is `NoMemory` at 0. It has fewer than 2^32 references, and there are
/// indices below 2^32 - 1 for all of its aliases and items.
pub(crate) fn build_definition<'t, 'a, M: CoreRule>(
    alloc: Global,
    bump: &'t Bump,
    cores: &[M],
    scopes: &[Open<'a>],
    def: &Def<'t, 'a>,
    counters: &Counters,
    denoted: &mut Denotations<'_>,
    list: &mut Vec<Def<'t, 'a>>,
) -> Result<Counters, Error>
    requires few { length scopes.now < 2 ^ 32 }
    requires indexed { OpenIndexed scopes.now }
    requires sized { length counters.now ≡ 13 }
    requires expanded { LeavesExpanded (listed (map M.core_module cores.now) def.now.node.leaves.now) }
    requires whole { holds_scope (listed (map M.core_module cores.now) def.now.node.leaves.now) ≡ false }
    requires written_out { (own_names def.now).exports ≡ [] }
    requires kept { FoundFirst scopes.now (λ ms. all_found ms (listed (map M.core_module cores.now) def.now.node.leaves.now)) denoted.old.left.now }
    requires served { ServedFirst scopes.now counters.now (λ ms. all_served ms (listed (map M.core_module cores.now) def.now.node.leaves.now)) denoted.old.served.now }
    requires room { CountersHaveRoom counters.now (most_needs (listed (map M.core_module cores.now) def.now.node.leaves.now) + length (declares_row def.now.node.row (listed (map M.core_module cores.now) def.now.node.leaves.now))) }
    requires numbered { references (listed (map M.core_module cores.now) def.now.node.leaves.now) < 2 ^ 32 }
    ensures built { MatchResult result (λ behind. DefBuilt M.encoding (map M.core_module cores.now) scopes.now counters.now denoted.old.served.now def.now list.old.items list.new.items behind denoted.new.served.now) (Refused scopes.now (λ ms. first_of_two (missing_roots ms (listed (map M.core_module cores.now) def.now.node.leaves.now)) (missing M.encoding ms (listed (map M.core_module cores.now) def.now.node.leaves.now)))) }
    ensures taken { OnOk result (FoundTaken scopes.now (λ ms. all_found ms (listed (map M.core_module cores.now) def.now.node.leaves.now)) denoted.old.left.now denoted.new.left.now) }
{
    if is_plain(def.node.leaves) {
        return push_plain(alloc, def, counters, list);
    }
    build_resolved(alloc, bump, cores, scopes, def, counters, denoted, list)
}
