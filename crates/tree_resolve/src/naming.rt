//! Whether a component has a name section (Component Model binary format, "Name Section").

ghost use Rattle.std.specs.Prelude.{◌≡◌, List, drop, is_some, map, option_map, IfOk};
ghost use Rattle.comp_model.specs.Core.{label_or_id};
ghost use Rattle.comp_model.specs.CoreModules.{CoreModule};
ghost use Rattle.comp_model.specs.ItemNames.{first_or_none, has_names};
ghost use Rattle.comp_tree.specs.Lists.{def_of, defs_listed};
ghost use Rattle.comp_tree.specs.Model.{id_of, lent_text, scope_of};
ghost use Rattle.tree_resolve.specs.ListNames.{any_of, any_in};

use crate::register::id_at;
use comp_model::ScopeKind;
use comp_tree::{Def, Scope, declared_spaces};
use std::alloc::{AllocError, Global};
use wast_parser::Id;

/// Whether there is a name: a label, or else an id of the text.
fn has_name(id: Option<Id<'_>>, label: Option<&str>) -> bool
    ensures { result ≡ is_some (label_or_id (option_map lent_text label.entry) (option_map id_of id.entry)) }
{
    if label.is_some() {
        return true;
    }
    match id {
        Some(id) => !id.is_gensym(),
        None => false,
    }
}

/// The label of a part of a definition; parts behind the last label have none.
fn label_at<'a>(labels: &[Option<&'a str>], part: usize) -> Option<&'a str>
    ensures { option_map lent_text result ≡ first_or_none (drop part (map (option_map lent_text) labels.now)) }
{
    if part < labels.len() {
        return labels[part];
    }
    None
}

/// Whether an item that a definition declares has a name. An `Err` is want of memory.
fn names_item(alloc: Global, def: &Def<'_, '_>) -> Result<bool, AllocError>
    ensures { (C : List CoreModule) → IfOk result (λ named. named ≡ any_of (def_of C def.now)) }
{
    let spaces = declared_spaces(alloc, def.node.row, def.node.leaves)?;
    for part in 0..spaces.len() {
        if has_name(id_at(def.names.ids, part), label_at(def.names.labels, part)) {
            return Ok(true);
        }
    }
    Ok(false)
}

/// Whether an item that definitions declare has a name. An `Err` is want of memory.
fn name_items(alloc: Global, defs: &[Def<'_, '_>]) -> Result<bool, AllocError>
    ensures { (C : List CoreModule) → IfOk result (λ named. named ≡ any_in (defs_listed C defs.now)) }
{
    for def in defs {
        if names_item(alloc, def)? {
            return Ok(true);
        }
    }
    Ok(false)
}

/// Whether a name section is due behind the definitions of a scope: in a component that has a label or an id of the text, or an item with
/// one. An `Err` is want of memory.
pub(crate) fn needs_section(alloc: Global, scope: &Scope<'_, '_>) -> Result<bool, AllocError>
    ensures { (C : List CoreModule) → IfOk result (λ due. due ≡ has_names (scope_of C scope.now)) }
{
    match scope.kind {
        ScopeKind::Component => {
            if has_name(scope.id, scope.label) {
                return Ok(true);
            }
            name_items(alloc, scope.defs)
        }
        _ => Ok(false),
    }
}
