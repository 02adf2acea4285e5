//! A scope among open ones, resolved with the scopes in it.

ghost use Rattle.std.specs.Prelude.{◌≡◌, ◌<◌, ◌^◌, ◌+◌, ◌-◌, ◌*◌, [], length, map, MatchResult, OnOk, IfErr};
ghost use Rattle.comp_scopes.specs.Names.{first_of_two};
ghost use Rattle.comp_model.specs.Spaces.{declares_row};
ghost use Rattle.comp_scopes.specs.Rowed.{Rowed, DefsRowed, LeavesRowed};
ghost use Rattle.comp_expanded.specs.IsExpanded.{IsExpanded, DefsExpanded, LeavesExpanded};
ghost use Rattle.comp_tables.specs.Bounds.{most_needs};
ghost use Rattle.comp_tables.specs.Built.{missing, missing_roots, missing_defs, missing_scope};
ghost use Rattle.comp_tables.specs.Tables.{no_counts};
ghost use Rattle.comp_tree.specs.Lists.{listed, defs_listed};
ghost use Rattle.comp_tree.specs.Model.{scope_of};
ghost use Rattle.open_scopes.specs.Indexed.{OpenIndexed};
ghost use Rattle.open_scopes.specs.Refusals.{no_memory};
ghost use Rattle.tree_names.specs.AllFound.{all_found, defs_found, FoundAll, FoundFirst, FoundTaken};
ghost use Rattle.tree_names.specs.Counted.{Refused};
ghost use Rattle.tree_names.specs.Room.{CountersHaveRoom};
ghost use Rattle.tree_names.specs.Size.{size_of_leaves, size_of_defs, size_of_scope};
ghost use Rattle.tree_resolve.specs.Alone.{Sole, ScopesAlone, DefsAlone, LeavesAlone};
ghost use Rattle.tree_names.specs.Served.{all_served, defs_served, ServedFirst};
ghost use Rattle.tree_resolve.specs.Made.{own_names, DefBuilt};
ghost use Rattle.tree_resolve.specs.Tabled.{ServedAll};
ghost use Rattle.tree_resolve.specs.HoldsScope.{IsPushed};
ghost use Rattle.tree_resolve.specs.ScopeResolved.{ScopeResolved, DefsResolvedTo};

use crate::build::build_definition;
use crate::opening::open;
use crate::plain::all_plain;
use crate::table::{Kept, counters_behind};
use bumpalo::Bump;
use comp_tree::{Def, Leaf, Node, Scope, place, place_all};
use open_scopes::{Counters, Open};
use std::alloc::Global;
use tree_names::{CoreRule, Denotations, no_memory};
use wast_parser::Error;

/// A definition that holds a resolved scope in place of its own, behind a list. Want of memory is `NoMemory` at 0.
fn push_holding<'t, 'a>(
    bump: &'t Bump,
    def: &Def<'t, 'a>,
    scope: Scope<'t, 'a>,
    list: &mut Vec<Def<'t, 'a>>,
) -> Result<(), Error>
    ensures pushed { OnOk result (IsPushed def.now scope.entry list.old.items list.new.items) }
    ensures refused { IfErr result (λ e. e ≡ no_memory) }
{
    let scope = match place(bump, scope) {
        Ok(placed) => placed,
        Err(_) => return Err(no_memory()),
    };
    let leaves = match place_all(bump, &[Leaf::Scope(scope)]) {
        Ok(placed) => placed,
        Err(_) => return Err(no_memory()),
    };
    let new = Def {
        origin: def.origin,
        places: def.places,
        span: def.span,
        names: def.names,
        node: Node {
            row: def.node.row,
            span: def.node.span,
            leaves,
        },
    };
    match list.push(new) {
        Ok(()) => Ok(()),
        Err(_) => Err(no_memory()),
    }
}

/// Third pass, for one definition: it stands behind the list, with what it needs before it, and the counters behind it are the answer. One
/// that holds a scope needs nothing, and its scope is resolved in its place.
#[cycle(nesting)]
fn resolve_def<'t, 'a, M: CoreRule>(
    alloc: Global,
    bump: &'t Bump,
    cores: &[M],
    scopes: &mut Vec<Open<'a>>,
    def: &Def<'t, 'a>,
    counters: &Counters,
    denoted: &mut Denotations<'_>,
    list: &mut Vec<Def<'t, 'a>>,
) -> Result<Counters, Error>
    requires few { length scopes.old.items < 2 ^ 32 }
    requires indexed { OpenIndexed scopes.old.items }
    requires sized { length counters.now ≡ 13 }
    requires expanded { LeavesExpanded (listed (map M.core_module cores.now) def.now.node.leaves.now) }
    requires alone { Sole (listed (map M.core_module cores.now) def.now.node.leaves.now) × LeavesAlone (listed (map M.core_module cores.now) def.now.node.leaves.now) }
    requires rowed { LeavesRowed (listed (map M.core_module cores.now) def.now.node.leaves.now) }
    requires written_out { (own_names def.now).exports ≡ [] }
    requires kept { FoundFirst scopes.old.items (λ ms. all_found ms (listed (map M.core_module cores.now) def.now.node.leaves.now)) denoted.old.left.now }
    requires served { ServedFirst scopes.old.items counters.now (λ ms. all_served ms (listed (map M.core_module cores.now) def.now.node.leaves.now)) denoted.old.served.now }
    requires small { length scopes.old.items + 2 * size_of_leaves (listed (map M.core_module cores.now) def.now.node.leaves.now) < 2 ^ 32 - 2 }
    requires room { CountersHaveRoom counters.now (most_needs (listed (map M.core_module cores.now) def.now.node.leaves.now) + length (declares_row def.now.node.row (listed (map M.core_module cores.now) def.now.node.leaves.now))) }
    ensures resolves { MatchResult result (λ behind. DefBuilt M.encoding (map M.core_module cores.now) scopes.old.items counters.now denoted.old.served.now def.now list.old.items list.new.items behind denoted.new.served.now) (Refused scopes.old.items (λ ms. first_of_two (missing_roots ms (listed (map M.core_module cores.now) def.now.node.leaves.now)) (missing M.encoding ms (listed (map M.core_module cores.now) def.now.node.leaves.now)))) }
    ensures taken { OnOk result (FoundTaken scopes.old.items (λ ms. all_found ms (listed (map M.core_module cores.now) def.now.node.leaves.now)) denoted.old.left.now denoted.new.left.now) }
    ensures scopes { OnOk result (scopes.new.items ≡ scopes.old.items) }
{
    if def.node.leaves.len() != 1 {
        return build_definition(alloc, bump, cores, scopes, def, counters, denoted, list);
    }
    match &def.node.leaves[0] {
        Leaf::Scope(inner) => match resolve_scope(alloc, bump, cores, scopes, inner) {
            Ok(new) => match push_holding(bump, def, new, list) {
                Ok(()) => counters_behind(alloc, def, counters),
                Err(refused) => Err(refused),
            },
            Err(refused) => Err(refused),
        },
        _ => build_definition(alloc, bump, cores, scopes, def, counters, denoted, list),
    }
}

/// Third pass: the definitions of a scope, whose own is the innermost of the open ones, one after the other, each behind what it needs, by
/// what was found for the names in them. Definitions that all stay as they are are passed on.
///
/// The first demand that isn't met is the refusal; otherwise want of memory is `NoMemory` at 0. After a refusal the open scopes can only be
/// dropped.
#[cycle(nesting)]
fn resolve_defs<'t, 'a, M: CoreRule>(
    alloc: Global,
    bump: &'t Bump,
    cores: &[M],
    scopes: &mut Vec<Open<'a>>,
    kept: &Kept,
    defs: &'t [Def<'t, 'a>],
) -> Result<&'t [Def<'t, 'a>], Error>
    requires few { length scopes.old.items < 2 ^ 32 }
    requires indexed { OpenIndexed scopes.old.items }
    requires expanded { DefsExpanded (defs_listed (map M.core_module cores.now) defs.now) }
    requires alone { DefsAlone (defs_listed (map M.core_module cores.now) defs.now) }
    requires rowed { DefsRowed (defs_listed (map M.core_module cores.now) defs.now) }
    requires kept { FoundAll scopes.old.items (λ ms. defs_found ms (defs_listed (map M.core_module cores.now) defs.now)) kept.now.found.items }
    requires served { ServedAll scopes.old.items (λ ms. defs_served ms (defs_listed (map M.core_module cores.now) defs.now) no_counts) kept.now.served.items }
    requires small { length scopes.old.items + 2 * size_of_defs (defs_listed (map M.core_module cores.now) defs.now) < 2 ^ 32 - 2 }
    ensures resolves { MatchResult result (λ new. DefsResolvedTo M.encoding (map M.core_module cores.now) scopes.old.items defs.now new.now) (Refused scopes.old.items (λ ms. missing_defs M.encoding ms (defs_listed (map M.core_module cores.now) defs.now))) }
    ensures scopes { OnOk result (scopes.new.items ≡ scopes.old.items) }
{
    if all_plain(defs) {
        return Ok(defs);
    }
    let mut list = Vec::new(alloc);
    let mut counters = Counters::new();
    let mut denoted = Denotations {
        left: &kept.found,
        served: &kept.served,
    };
    for def in defs {
        match resolve_def(
            alloc,
            bump,
            cores,
            scopes,
            def,
            &counters,
            &mut denoted,
            &mut list,
        ) {
            Ok(behind) => counters = behind,
            Err(refused) => return Err(refused),
        }
    }
    match place_all(bump, &list) {
        Ok(placed) => Ok(placed),
        Err(_) => Err(no_memory()),
    }
}

/// Resolves a scope that stands among open ones, with the scopes in it: each reference becomes the index of what it names, and before a
/// definition stand an outer alias of each item of an enclosing scope that it is the first to name, and the alias of an export for each
/// export name of its paths.
///
/// The open scopes are those around it, the innermost last; behind an answer they are as they were.
///
/// It is refused by the first demand that it doesn't meet, at its offset: an id that is borne twice before all others (`Duplicate`, at the
/// second); then, in the order of the list, a name that leads out to an item of which there is no outer alias (`OuterKind`) or a path to a
/// core type or a core instance (`CoreExportKind`); then, definition by definition, the root of a path that the scope doesn't have, and
/// what `tree_names::resolve_definition` refuses, or what is asked of a scope in it. Otherwise want of memory is `NoMemory` at 0. After a
/// refusal the open scopes can only be dropped.
///
/// With those around it, the scope is not too large for indices of 32 bits.
#[cycle(nesting)]
pub(crate) fn resolve_scope<'t, 'a, M: CoreRule>(
    alloc: Global,
    bump: &'t Bump,
    cores: &[M],
    scopes: &mut Vec<Open<'a>>,
    scope: &Scope<'t, 'a>,
) -> Result<Scope<'t, 'a>, Error>
    requires indexed { OpenIndexed scopes.old.items }
    requires expanded { IsExpanded (scope_of (map M.core_module cores.now) scope.now) }
    requires alone { ScopesAlone (scope_of (map M.core_module cores.now) scope.now) }
    requires rowed { Rowed (scope_of (map M.core_module cores.now) scope.now) }
    requires small { length scopes.old.items + 2 * size_of_scope (scope_of (map M.core_module cores.now) scope.now) < 2 ^ 32 - 2 }
    ensures resolves { MatchResult result (λ new. ScopeResolved M.encoding (map M.core_module cores.now) scopes.old.items scope.now new) (Refused scopes.old.items (λ ms. missing_scope M.encoding ms (scope_of (map M.core_module cores.now) scope.now))) }
    ensures scopes { OnOk result (scopes.new.items ≡ scopes.old.items) }
{
    let kept = match open(alloc, scopes, scope) {
        Ok(kept) => kept,
        Err(refused) => return Err(refused),
    };
    let defs = match resolve_defs(alloc, bump, cores, scopes, &kept, scope.defs) {
        Ok(defs) => defs,
        Err(refused) => return Err(refused),
    };
    let _ = scopes.pop();
    Ok(Scope {
        kind: scope.kind,
        id: scope.id,
        label: scope.label,
        defs,
    })
}
