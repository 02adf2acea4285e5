//! No two items of a space have the same id.

ghost use Rattle.std.specs.Prelude.{◌≡◌, ◌<◌, ◌-◌, ◌^◌, ◌++◌, ◌∷◌, [], length, OnOk, IfOk};
ghost use Rattle.comp_model.specs.declared.Space.TheVariants.{CoreType};
ghost use Rattle.core_model.specs.Items.{declares, space_of_entity, naming_of, each_behind};
ghost use Rattle.core_model.specs.Rule.{first_broken, repeated, repeated_id};
ghost use Rattle.core_syntax.specs.Ids.{option_id};
ghost use Rattle.core_syntax.specs.Fields.{entity_of, field_of, fields_of};
ghost use Rattle.core_names.specs.ModuleIds.{AreIdsOf};
ghost use Rattle.core_checks.specs.Named.{with_item, repeated_at, HasRoom};
ghost use Rattle.core_checks.specs.Refusals.{TellsOrFails};

use crate::refusals::in_module;
use core_names::{ModuleNames, Namespace};
use core_syntax::{ItemKind, ItemSig, ModuleField};
use std::alloc::Global;
use wast_parser::{Error, Id};

/// Adds an item to a space. An id that an earlier item has is `Duplicate`, at the id.
pub(crate) fn register_id<'a>(names: &mut Namespace<'a>, id: Option<Id<'a>>) -> Result<(), Error>
    requires room { length names.old < 2 ^ 32 - 1 }
    ensures added { OnOk result (names.new ≡ names.old ++ option_id id.entry ∷ []) }
    ensures told { TellsOrFails (repeated names.old (option_id id.entry)) result }
{
    match names.register(id) {
        Ok(_) => Ok(()),
        Err(refusal) => Err(in_module(refusal)),
    }
}

/// Adds the item of an import to its space.
fn register_import<'a>(names: &mut ModuleNames<'a>, sig: &ItemSig<'a>) -> Result<(), Error>
    requires room { HasRoom names.old }
    ensures added { OnOk result (names.new ≡ with_item names.old (space_of_entity (entity_of sig.now.kind)) (option_id sig.now.id)) }
    ensures told { TellsOrFails (repeated_at names.old (space_of_entity (entity_of sig.now.kind)) (option_id sig.now.id)) result }
{
    match &sig.kind {
        ItemKind::Func(_) => register_id(&mut names.funcs, sig.id),
        ItemKind::Table(_, _) => register_id(&mut names.tables, sig.id),
        ItemKind::Memory(_) => register_id(&mut names.memories, sig.id),
        ItemKind::Global(_, _) => register_id(&mut names.globals, sig.id),
        ItemKind::Other(_) => Ok(()),
    }
}

/// Adds the item of a field, where it declares one, to its space.
fn register_item<'a>(names: &mut ModuleNames<'a>, field: &ModuleField<'a>) -> Result<(), Error>
    requires room { HasRoom names.old }
    ensures added { OnOk result (names.new ≡ with_item names.old (declares (field_of field.now)) (naming_of (field_of field.now)).id) }
    ensures told { TellsOrFails (repeated_at names.old (declares (field_of field.now)) (naming_of (field_of field.now)).id) result }
{
    match field {
        ModuleField::Ty(ty) => register_id(&mut names.types, ty.id),
        ModuleField::Import(import) => register_import(names, &import.sig),
        ModuleField::Func(func) => register_id(&mut names.funcs, func.id),
        ModuleField::Memory(memory) => register_id(&mut names.memories, memory.id),
        ModuleField::Table(table) => register_id(&mut names.tables, table.id),
        ModuleField::Global(global) => register_id(&mut names.globals, global.id),
        ModuleField::Export(_) => Ok(()),
        ModuleField::Other(_) => Ok(()),
    }
}

fn no_names<'a>(alloc: Global) -> ModuleNames<'a>
    ensures { AreIdsOf result [] }
{
    ModuleNames {
        types: Namespace::new(alloc),
        funcs: Namespace::new(alloc),
        tables: Namespace::new(alloc),
        memories: Namespace::new(alloc),
        globals: Namespace::new(alloc),
        places: Vec::new(alloc),
    }
}

/// The ids of the fields, space by space. The first id that an earlier item of its space has is `Duplicate`, at the id; want of memory is
/// `NoMemory` at 0.
pub(crate) fn names_of<'a>(
    alloc: Global,
    fields: &[ModuleField<'a>],
) -> Result<ModuleNames<'a>, Error>
    requires few { length fields.now < 2 ^ 32 - 1 }
    ensures names { IfOk result (λ n. AreIdsOf n (fields_of fields.now)) }
    ensures told { TellsOrFails (first_broken (each_behind repeated_id [] (fields_of fields.now))) result }
{
    let mut names = no_names(alloc);
    for field in fields {
        register_item(&mut names, field)?;
    }
    Ok(names)
}
