//! What the fields of a module refer to.

ghost use Rattle.std.specs.Prelude.{◌≡◌, map, flat_map, option_map, slice_get, Some, IfOk, IfErr, List};
ghost use Rattle.wast_tokens.specs.declared.error.ErrorKind.TheVariants.{NoMemory};
ghost use Rattle.comp_model.specs.declared.Space.TheVariants.{CoreFunc, CoreTable, CoreMemory, CoreGlobal, CoreType};
ghost use Rattle.core_model.specs.Items.{ids_in};
ghost use Rattle.core_syntax.specs.Fields.{def_of, fields_of};
ghost use Rattle.core_names.specs.Names.{refusal};
ghost use Rattle.core_names.specs.ModuleIds.{AreIdsOf, AreNamesOf, places_in};
ghost use Rattle.core_checks.specs.Parts.{type_defs};

use crate::refusals::no_memory;
use core_names::{ModuleNames, Namespace};
use core_syntax::{ModuleField, TypeDef};
use std::alloc::Global;
use std::marker::Model;
use wast_parser::Error;

/// The fields of a module with their ids and types.
#[derive(Drop)]
pub(crate) struct ModuleScope<'m, 'a> {
    fields: &'m [ModuleField<'a>],
    types: Vec<&'m TypeDef<'a>>,
    names: ModuleNames<'a>,
}

impl<'m, 'a> Model for ModuleScope<'m, 'a> {
    ghost use Rattle.std.specs.Prelude.{◌≡◌, List, map};
    ghost use Rattle.comp_model.specs.CoreModules.{Field};

    ghost Value = { List Field };

    ghost use Rattle.core_syntax.specs.Fields.{def_of, fields_of};
    ghost use Rattle.core_names.specs.ModuleIds.{AreIdsOf};
    ghost use Rattle.core_checks.specs.Parts.{type_defs};

    ghost view = { λ s. fields_of s.fields.now };

    ghost invariant = { λ s. AreIdsOf s.names (fields_of s.fields.now) × (map (λ d. def_of d.now) s.types.items ≡ type_defs (fields_of s.fields.now)) };
}

/// The type definitions, in order.
fn type_definitions<'m, 'a>(
    alloc: Global,
    fields: &'m [ModuleField<'a>],
) -> Result<Vec<&'m TypeDef<'a>>, Error>
    ensures types { IfOk result (λ v. map (λ d. def_of d.now) v.items ≡ type_defs (fields_of fields.now)) }
    ensures refused { IfErr result (λ e. e ≡ refusal NoMemory 0) }
{
    let mut types = Vec::new(alloc);
    for field in fields {
        match field {
            ModuleField::Ty(ty) => match types.push(&ty.def) {
                Ok(()) => {}
                Err(_) => return Err(no_memory()),
            },
            _ => {}
        }
    }
    Ok(types)
}

impl<'m, 'a> ModuleScope<'m, 'a> {
    /// The scope of fields with these names. Want of memory is `NoMemory` at 0.
    pub(crate) fn new(
        alloc: Global,
        fields: &'m [ModuleField<'a>],
        names: ModuleNames<'a>,
    ) -> Result<ModuleScope<'m, 'a>, Error>
        requires { AreIdsOf names (fields_of fields.now) }
        ensures fields { IfOk result (λ s. s ≡ fields_of fields.now) }
        ensures refused { IfErr result (λ e. e ≡ refusal NoMemory 0) }
    {
        match type_definitions(alloc, fields) {
            Ok(types) => Ok(ModuleScope {
                fields,
                types,
                names,
            }),
            Err(refusal) => Err(refusal),
        }
    }

    /// The fields.
    pub(crate) fn fields(&self) -> &'m [ModuleField<'a>]
        ensures { fields_of result.now ≡ self.now }
    {
        self.fields
    }

    /// The definition of a type.
    pub(crate) fn type_def(&self, index: u32) -> Option<&'m TypeDef<'a>>
        ensures { option_map (λ d. def_of d.now) result ≡ slice_get (type_defs self.now) index }
    {
        let place = index as usize;
        if place < self.types.len() {
            Some(self.types[place])
        } else {
            None
        }
    }

    /// The ids of the types.
    pub(crate) fn types(&self) -> &Namespace<'a>
        ensures { result.now ≡ ids_in CoreType self.now }
    {
        &self.names.types
    }

    /// The ids of the functions.
    pub(crate) fn funcs(&self) -> &Namespace<'a>
        ensures { result.now ≡ ids_in CoreFunc self.now }
    {
        &self.names.funcs
    }

    /// The ids of the tables.
    pub(crate) fn tables(&self) -> &Namespace<'a>
        ensures { result.now ≡ ids_in CoreTable self.now }
    {
        &self.names.tables
    }

    /// The ids of the memories.
    pub(crate) fn memories(&self) -> &Namespace<'a>
        ensures { result.now ≡ ids_in CoreMemory self.now }
    {
        &self.names.memories
    }

    /// The ids of the globals.
    pub(crate) fn globals(&self) -> &Namespace<'a>
        ensures { result.now ≡ ids_in CoreGlobal self.now }
    {
        &self.names.globals
    }

    /// The names of the fields, with what those in instructions mean.
    pub(crate) fn into_names(self, places: Vec<u32>) -> ModuleNames<'a>
        requires { map Some places.items ≡ flat_map (places_in self) self }
        ensures { AreNamesOf result self.entry }
    {
        let mut names = self.names;
        names.places = places;
        names
    }
}
