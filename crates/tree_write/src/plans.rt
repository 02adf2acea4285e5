//! The names of a component and of the components in it, found before anything is written.

ghost use Rattle.std.specs.Prelude.{◌≡◌, List, [], ◌∷◌, ◌++◌, OnOk, map};
ghost use Rattle.comp_model.specs.CoreModules.{CoreModule};
ghost use Rattle.comp_tree.specs.Model.{leaf_of, scope_of};
ghost use Rattle.comp_model.specs.declared.row.Row.TheVariants as rows;
ghost use Rattle.comp_model.specs.RowNumbers.{same_row};
ghost use Rattle.comp_tree.specs.Lists.{node_of, defs_listed};
ghost use Rattle.tree_write.specs.Along.{payload_by};
ghost use Rattle.tree_write.specs.FewItems.{FewItems, FewIn, FewInDefs};
ghost use Rattle.tree_write.specs.Plans.{payloads, payloads_in, payloads_of_defs, scope_leaf, component_in};

use crate::item_names::{ComponentNames, scope_names};
use comp_model::Row;
use comp_tree::{Def, Leaf, Scope};
use comp_wire::NoMemory;
use std::alloc::Global;

/// Adds the names of one component.
fn push_names<'a>(
    plans: &mut Vec<ComponentNames<'a>>,
    names: ComponentNames<'a>,
) -> Result<(), NoMemory>
    ensures { OnOk result (plans.new.items ≡ plans.old.items ++ names.entry ∷ []) }
{
    match plans.push(names) {
        Ok(()) => Ok(()),
        Err(_) => Err(NoMemory),
    }
}

/// Adds the names of a component, and behind them those of the components in it, from the last one to the first.
#[cycle(gathering)]
pub fn gather_names<'a>(
    alloc: Global,
    plans: &mut Vec<ComponentNames<'a>>,
    scope: &Scope<'_, 'a>,
) -> Result<(), NoMemory>
    ensures { OnOk result ((cores : List CoreModule) → FewItems (scope_of cores scope.now) → map payload_by plans.new.items ≡ map payload_by plans.old.items ++ payloads (scope_of cores scope.now)) }
{
    let names = scope_names(alloc, scope)?;
    push_names(plans, names)?;
    gather_defs(alloc, plans, scope.defs)
}

/// Adds the names of the component that a leaf holds.
#[cycle(gathering)]
fn gather_leaf<'a>(
    alloc: Global,
    plans: &mut Vec<ComponentNames<'a>>,
    leaf: &Leaf<'_, 'a>,
) -> Result<(), NoMemory>
    ensures { OnOk result ((cores : List CoreModule) → FewIn (scope_leaf (leaf_of cores leaf.now)) → map payload_by plans.new.items ≡ map payload_by plans.old.items ++ payloads_in (scope_leaf (leaf_of cores leaf.now))) }
{
    match leaf {
        Leaf::Scope(scope) => gather_names(alloc, plans, scope),
        _ => Ok(()),
    }
}

/// Adds the names of the component that a definition holds.
#[cycle(gathering)]
fn gather_def<'a>(
    alloc: Global,
    plans: &mut Vec<ComponentNames<'a>>,
    def: &Def<'_, 'a>,
) -> Result<(), NoMemory>
    ensures { OnOk result ((cores : List CoreModule) → FewIn (component_in (node_of cores def.now.node)) → map payload_by plans.new.items ≡ map payload_by plans.old.items ++ payloads_in (component_in (node_of cores def.now.node))) }
{
    if !is_component(def.node.row) {
        return Ok(());
    }
    if def.node.leaves.len() == 0 {
        return Ok(());
    }
    gather_leaf(alloc, plans, &def.node.leaves[0])
}

/// Adds the names of the components in definitions.
#[cycle(gathering)]
fn gather_defs<'a>(
    alloc: Global,
    plans: &mut Vec<ComponentNames<'a>>,
    defs: &[Def<'_, 'a>],
) -> Result<(), NoMemory>
    ensures { OnOk result ((cores : List CoreModule) → FewInDefs (defs_listed cores defs.now) → map payload_by plans.new.items ≡ map payload_by plans.old.items ++ payloads_of_defs (defs_listed cores defs.now)) }
{
    for i in (0..defs.len()).rev() {
        gather_def(alloc, plans, &defs[i])?;
    }
    Ok(())
}

/// Whether this is the row of a component.
fn is_component(row: Row) -> bool
    ensures { result ≡ same_row row rows.Component }
{
    match row {
        Row::Component => true,
        _ => false,
    }
}
