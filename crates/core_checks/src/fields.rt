//! The parts of each field, in order.

ghost use Rattle.std.specs.Prelude.{◌≡◌, ◌<◌, ◌^◌, ◌++◌, ℕ, List, Option, Some, map, flat_map, OnOk};
ghost use Rattle.core_model.specs.Items.{ids_in};
ghost use Rattle.core_model.specs.Rule.{first_broken, unknown, broken_parts};
ghost use Rattle.core_model.specs.Weight.{weight_of_field, core_weight};
ghost use Rattle.core_syntax.specs.Ids.{reference_of};
ghost use Rattle.core_syntax.specs.Fields.{func_of, global_of, space_of, field_of, fields_of};
ghost use Rattle.core_names.specs.ModuleIds.{places_in};
ghost use Rattle.core_checks.specs.Refusals.{Tells, TellsOrFails};

use crate::instructions::check_body;
use crate::locals::names_within;
use crate::scope::ModuleScope;
use crate::uses::{check_kind, check_use};
use crate::values::{check_def, check_name, check_reference, check_value};
use core_names::Namespace;
use core_syntax::{ExportKind, Func, GlobalField, ModuleField};
use std::alloc::Global;
use wast_parser::{Error, Index};

/// A function: its type use, its parameters and locals, then its instructions.
fn check_func<'a>(
    alloc: Global,
    scope: &ModuleScope<'_, 'a>,
    func: &Func<'a>,
    places: &mut Vec<u32>,
) -> Result<(), Error>
    requires weight { weight_of_field (func_of func.now) < 2 ^ 31 }
    ensures told { TellsOrFails (first_broken (broken_parts scope.now (func_of func.now))) result }
    ensures found { OnOk result ((behind : List (Option ℕ)) → map Some places.new.items ++ behind ≡ map Some places.old.items ++ (places_in scope.now (func_of func.now) ++ behind)) }
{
    check_use(scope, &func.ty)?;
    let locals = names_within(alloc, scope.types(), func)?;
    check_body(scope, &locals, &func.body, places)?;
    Ok(())
}

/// A global: its type, then its instructions, which have no locals.
fn check_global<'a>(
    alloc: Global,
    scope: &ModuleScope<'_, 'a>,
    global: &GlobalField<'a>,
    places: &mut Vec<u32>,
) -> Result<(), Error>
    ensures told { TellsOrFails (first_broken (broken_parts scope.now (global_of global.now))) result }
    ensures found { OnOk result ((behind : List (Option ℕ)) → map Some places.new.items ++ behind ≡ map Some places.old.items ++ (places_in scope.now (global_of global.now) ++ behind)) }
{
    let locals = Namespace::new(alloc);
    check_value(scope.types(), &global.ty)?;
    check_body(scope, &locals, &global.init, places)?;
    Ok(())
}

/// The item of an export, by its kind. No tag has a name.
fn check_item<'a>(
    alloc: Global,
    scope: &ModuleScope<'_, 'a>,
    kind: ExportKind,
    item: &Index<'a>,
) -> Result<(), Error>
    ensures { Tells (unknown (ids_in (space_of kind) scope.now) (reference_of item.now)) result }
{
    match kind {
        ExportKind::Func => check_name(scope.funcs(), item),
        ExportKind::Table => check_name(scope.tables(), item),
        ExportKind::Memory => check_name(scope.memories(), item),
        ExportKind::Global => check_name(scope.globals(), item),
        ExportKind::Tag => {
            let tags = Namespace::new(alloc);
            check_name(&tags, item)
        }
    }
}

/// The parts of a field, in order, and what the names in its instructions mean.
fn check_field<'a>(
    alloc: Global,
    scope: &ModuleScope<'_, 'a>,
    field: &ModuleField<'a>,
    places: &mut Vec<u32>,
) -> Result<(), Error>
    requires weight { weight_of_field (field_of field.now) < 2 ^ 31 }
    ensures told { TellsOrFails (first_broken (broken_parts scope.now (field_of field.now))) result }
    ensures found { OnOk result ((behind : List (Option ℕ)) → map Some places.new.items ++ behind ≡ map Some places.old.items ++ (places_in scope.now (field_of field.now) ++ behind)) }
{
    match field {
        ModuleField::Ty(ty) => {
            check_def(scope.types(), &ty.def)?;
            Ok(())
        }
        ModuleField::Import(import) => {
            check_kind(scope, &import.sig.kind)?;
            Ok(())
        }
        ModuleField::Func(func) => check_func(alloc, scope, func, places),
        ModuleField::Memory(_) => Ok(()),
        ModuleField::Table(table) => {
            check_reference(scope.types(), &table.ty)?;
            Ok(())
        }
        ModuleField::Global(global) => check_global(alloc, scope, global, places),
        ModuleField::Export(export) => {
            check_item(alloc, scope, export.kind, &export.item)?;
            Ok(())
        }
        ModuleField::Other(_) => Ok(()),
    }
}

/// The parts of all fields, field by field, and what the names in their instructions mean. Want of memory is `NoMemory` at 0.
pub(crate) fn check_fields<'a>(
    alloc: Global,
    scope: &ModuleScope<'_, 'a>,
    fields: &[ModuleField<'a>],
    places: &mut Vec<u32>,
) -> Result<(), Error>
    requires weight { core_weight (fields_of fields.now) < 2 ^ 31 }
    ensures told { TellsOrFails (first_broken (flat_map (broken_parts scope.now) (fields_of fields.now))) result }
    ensures found { OnOk result ((behind : List (Option ℕ)) → map Some places.new.items ++ behind ≡ map Some places.old.items ++ (flat_map (places_in scope.now) (fields_of fields.now) ++ behind)) }
{
    for field in fields {
        check_field(alloc, scope, field, places)?;
    }
    Ok(())
}
