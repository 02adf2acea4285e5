//! The core modules that a component holds which isn't too heavy.

ghost use Rattle.std.specs.Prelude.{◌≡◌, nat_lt, map, option_map, IfOk};
ghost use Rattle.comp_model.specs.Weight.{weight_of_id, weight_of_label};
ghost use Rattle.comp_tree.specs.Model.{id_of, lent_text};
ghost use Rattle.core_model.specs.Weight.{weight_alone};
ghost use Rattle.tree_build.specs.Cores.{module_of};
ghost use Rattle.wast_component.specs.Entry.{entry_of};
ghost use Rattle.wast_component.specs.Modules.{all_fields, all_light, light_module, modules_of};

use crate::module::{Module, parsed_module};
use core_syntax::{ModuleField, core_weight};
use std::alloc::{AllocError, Global};
use tree_read::NamedModule;
use wast_parser::Id;

/// The most that a component weighs.
const WEIGHT_LIMIT: u64 = 67_108_864;

/// The weight of an id.
fn id_weight(id: Option<Id<'_>>) -> u64
    ensures { result ≡ weight_of_id (option_map id_of id.entry) }
{
    match id {
        Some(id) => id.name().len() as u64,
        None => 0,
    }
}

/// The weight of a label.
fn label_weight(label: Option<&str>) -> u64
    ensures { result ≡ weight_of_label (option_map lent_text label.entry) }
{
    match label {
        Some(label) => label.len() as u64,
        None => 0,
    }
}

/// Whether a module is heavier than a component may be, its id and its label among that.
fn is_heavy(module: &Module<'_, '_>) -> bool
    ensures { result ≡ nat_lt 67_108_864 (weight_alone (entry_of module.now)) }
{
    let named = id_weight(module.id).saturating_add(label_weight(module.label));
    core_weight(module.fields)
        .saturating_add(named)
        .saturating_add(32)
        > WEIGHT_LIMIT
}

/// A module, or one without names and fields in the place of one that is heavier than a component may be.
fn light_module<'a>(all: &[Vec<ModuleField<'a>>], named: &NamedModule<'a>) -> NamedModule<'a>
    ensures { module_of (all_light (all_fields all.now)) result ≡ light_module (module_of (all_fields all.now) named.now) }
{
    if is_heavy(&parsed_module(all, named)) {
        NamedModule {
            id: None,
            label: None,
            fields: all.len(),
        }
    } else {
        *named
    }
}

/// The modules of a text, each without names and fields where it is heavier than a component may be. No component that isn't too heavy
/// holds such a module.
pub(crate) fn light_modules<'a>(
    alloc: Global,
    all: &[Vec<ModuleField<'a>>],
    named: &[NamedModule<'a>],
) -> Result<Vec<NamedModule<'a>>, AllocError>
    ensures { IfOk result (λ v. modules_of (all_light (all_fields all.now)) v.items ≡ map light_module (modules_of (all_fields all.now) named.now)) }
{
    let mut modules = Vec::new(alloc);
    for one in named {
        modules.push(light_module(all, one))?;
    }
    Ok(modules)
}
