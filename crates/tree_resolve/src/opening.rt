//! A scope is opened: its ids registered, its indices counted.

ghost use Rattle.std.specs.Prelude.{◌≡◌, ◌<◌, ◌^◌, ◌-◌, ◌*◌, ◌++◌, ◌∷◌, [], List, length, OnOk, IfOk, IfErr, MatchResult};
ghost use Rattle.comp_model.specs.CoreModules.{CoreModule};
ghost use Rattle.comp_model.specs.Model.{defs_of};
ghost use Rattle.comp_expanded.specs.IsExpanded.{IsExpanded};
ghost use Rattle.comp_tree.specs.Model.{scope_of};
ghost use Rattle.open_scopes.specs.Refusals.{no_memory};
ghost use Rattle.tree_names.specs.AllFound.{defs_found, FoundAll};
ghost use Rattle.comp_tables.specs.Tables.{no_counts};
ghost use Rattle.tree_names.specs.Counted.{Refused};
ghost use Rattle.tree_names.specs.Served.{defs_served};
ghost use Rattle.tree_names.specs.Size.{size_of_scope};
ghost use Rattle.tree_resolve.specs.Tabled.{ServedAll};
ghost use Rattle.tree_resolve.specs.Entered.{Entered, unmet_opening};

use crate::register::register_defs;
use crate::table::{Counted, Kept, count_defs};
use comp_tree::Scope;
use open_scopes::Open;
use std::alloc::Global;
use tree_names::no_memory;
use wast_parser::Error;

/// Opens a scope whose table is counted: it becomes the innermost of the open ones. Want of memory is `NoMemory` at 0.
fn fill<'a>(scopes: &mut Vec<Open<'a>>, half: Open<'a>, table: Vec<u32>) -> Result<(), Error>
    ensures filled { OnOk result (scopes.new.items ≡ scopes.old.items ++ record { id = half.entry.id; names = half.entry.names; table = table } ∷ []) }
    ensures refused { IfErr result (λ e. e ≡ no_memory) }
{
    let Open {
        id,
        names,
        table: _,
    } = half;
    match scopes.push(Open { id, names, table }) {
        Ok(()) => Ok(()),
        Err(_) => Err(no_memory()),
    }
}

/// Opens an expanded scope, of whatever kind and label: it becomes the innermost of the open ones. It is not too large for indices of 32 bits. The first two passes go over its list,
/// and what is answered is what the names in its definitions denote, in the order in which they stand.
///
/// The first id that is borne twice is `Duplicate`, at the second; then the first name that leads out to an item of which there is no outer
/// alias is `OuterKind`, at the name, and a path to a core type or a core instance `CoreExportKind`, at its root; otherwise want of memory
/// is `NoMemory` at 0. After a refusal the open scopes can only be dropped.
pub(crate) fn open<'a>(
    alloc: Global,
    scopes: &mut Vec<Open<'a>>,
    scope: &Scope<'_, 'a>,
) -> Result<Kept, Error>
    requires few { length scopes.old.items < 2 ^ 32 - 1 }
    requires expanded { (C : List CoreModule) × IsExpanded (scope_of C scope.now) }
    requires small { (C : List CoreModule) × (2 * size_of_scope (scope_of C scope.now) < 2 ^ 32) }
    ensures entered { (C : List CoreModule) → MatchResult result (λ kept. Entered C scopes.old.items scopes.new.items scope.now) (Refused scopes.old.items (unmet_opening (scope_of C scope.now))) }
    ensures kept { (C : List CoreModule) → IfOk result (λ kept. FoundAll scopes.new.items (λ ms. defs_found ms (defs_of (scope_of C scope.now))) kept.found.items) }
    ensures served { (C : List CoreModule) → IfOk result (λ kept. ServedAll scopes.new.items (λ ms. defs_served ms (defs_of (scope_of C scope.now)) no_counts) kept.served.items) }
{
    let names = match register_defs(alloc, scope.defs) {
        Ok(names) => names,
        Err(refused) => return Err(refused),
    };
    let half = Open {
        id: scope.id,
        names,
        table: Vec::new(alloc),
    };
    match scopes.push(half) {
        Ok(()) => {}
        Err(_) => return Err(no_memory()),
    }
    let counted = match count_defs(alloc, scopes, scope.defs) {
        Ok(counted) => counted,
        Err(refused) => return Err(refused),
    };
    let Counted { table, kept } = counted;
    match scopes.pop() {
        Some(half) => match fill(scopes, half, table) {
            Ok(()) => Ok(kept),
            Err(refused) => Err(refused),
        },
        None => unreachable!(),
    }
}
