//! The core modules beside a tree, as they were read.

ghost use Rattle.std.specs.Prelude.{◌≡◌, [], map, option_map, IfOk};
ghost use Rattle.comp_tree.specs.Model.{id_of, lent_text};
ghost use Rattle.core_model.specs.Module.{module_with};
ghost use Rattle.core_syntax.specs.Fields.{fields_of};
ghost use Rattle.tree_build.specs.Cores.{module_of};
ghost use Rattle.wast_component.specs.Entry.{entry_of};
ghost use Rattle.wast_component.specs.Modules.{all_fields, modules_of};

use comp_walks::{CoreSource, Uncovered};
use core_syntax::{ModuleField, core_uncovered, core_weight};
use std::alloc::{AllocError, Global};
use tree_read::NamedModule;
use wast_parser::{ErrorKind, Id};

/// A core module, whose fields stand elsewhere.
#[derive(Clone, Copy)]
pub(crate) struct Module<'t, 'a> {
    pub(crate) id: Option<Id<'a>>,
    pub(crate) label: Option<&'a str>,
    pub(crate) fields: &'t [ModuleField<'a>],
}

impl CoreSource for Module<'_, '_> {
    ghost use Rattle.wast_component.specs.Entry.{entry_of};

    ghost core_module = { entry_of };

    fn weight(&self) -> u64 {
        core_weight(self.fields)
    }

    fn first_uncovered(&self) -> Option<Uncovered> {
        match core_uncovered(self.fields) {
            Some(refusal) => match refusal.kind {
                ErrorKind::Form(form) => Some(Uncovered {
                    form,
                    offset: refusal.offset,
                }),
                _ => None,
            },
            None => None,
        }
    }
}

/// A module of these names and fields.
pub(crate) fn module_by<'t, 'a>(
    named: &NamedModule<'a>,
    fields: &'t [ModuleField<'a>],
) -> Module<'t, 'a>
    ensures { entry_of result ≡ module_with (record { id = option_map id_of named.now.id; label = option_map lent_text named.now.label }) (fields_of fields.now) }
{
    Module {
        id: named.id,
        label: named.label,
        fields,
    }
}

/// A module of these names, and of the fields in a list.
fn parsed_by<'t, 'a>(named: &NamedModule<'a>, fields: &'t Vec<ModuleField<'a>>) -> Module<'t, 'a>
    ensures { entry_of result ≡ module_with (record { id = option_map id_of named.now.id; label = option_map lent_text named.now.label }) (fields_of fields.now.items) }
{
    module_by(named, fields.as_slice())
}

/// A module of these names without fields.
pub(crate) fn empty_module<'t, 'a>(named: &NamedModule<'a>) -> Module<'t, 'a>
    ensures { entry_of result ≡ module_with (record { id = option_map id_of named.now.id; label = option_map lent_text named.now.label }) [] }
{
    module_by(named, &[])
}

/// The module of an entry, by the fields that it names.
pub(crate) fn parsed_module<'t, 'a>(
    all: &'t [Vec<ModuleField<'a>>],
    named: &NamedModule<'a>,
) -> Module<'t, 'a>
    ensures { entry_of result ≡ module_of (all_fields all.now) named.now }
{
    if named.fields < all.len() {
        parsed_by(named, &all[named.fields])
    } else {
        empty_module(named)
    }
}

/// The core modules of a tree, as they were read.
pub(crate) fn parsed_modules<'t, 'a>(
    alloc: Global,
    all: &'t [Vec<ModuleField<'a>>],
    named: &[NamedModule<'a>],
) -> Result<Vec<Module<'t, 'a>>, AllocError>
    ensures { IfOk result (λ v. map entry_of v.items ≡ modules_of (all_fields all.now) named.now) }
{
    let mut modules = Vec::new(alloc);
    for one in named {
        modules.push(parsed_module(all, one))?;
    }
    Ok(modules)
}
