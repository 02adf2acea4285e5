//! The size of what a field gives to each section.

ghost use Rattle.std.specs.Prelude.{◌≡◌, ◌+◌, ◌∷◌, [], ◌++◌, true, length, option_map, Some, ℕ, List};
ghost use Rattle.comp_model.specs.CoreModules.{Entity};
ghost use Rattle.comp_model.specs.Payloads.{framed};
ghost use Rattle.core_model.specs.Types.{defined};
ghost use Rattle.core_model.specs.Bytes.{type_item, limits_bytes, mutable_byte, value_bytes, entity_bytes, expression, import_by, import_item};
ghost use Rattle.core_syntax.specs.Fields.{def_of, use_of, limits_of, value_of, ref_value, entity_of, pair_of, body_of, field_of};
ghost use Rattle.comp_model.specs.CoreModules as c;
ghost use Rattle.core_syntax.specs.Measures.{capped};
ghost use Rattle.core_write.specs.Written.{unless_imported, type_items, function_items, table_items, memory_items, global_items, code_items, items_of};
ghost use Rattle.core_fits.specs.Sizes.{IsSize};
ghost use Rattle.core_fits.specs.Tests.{fits_code, fits_item};

use crate::code::code_size;
use crate::instructions::expression_length;
use crate::lengths::{add, text_length};
use crate::size::Size;
use crate::types::function_type_length;
use crate::values::{limits_length, reference_length, value_length};
use core_syntax::{GlobalField, ItemKind, Limits, ModuleField, RefType, TypeDef, TypeUse};
use core_write::{Part, type_index};
use leb_lengths::uleb_length;

/// The size of a type, where it has bytes.
#[tactic(auto, using(crate::proofs::Sizes::size_one))]
fn def_size(def: &TypeDef<'_>) -> Size
    ensures { IsSize result (type_item (defined [] (def_of def.now))) true }
{
    match def {
        TypeDef::Func(ty) => Size::one(function_type_length(ty), true),
        TypeDef::Other(_) => Size::none(),
    }
}

/// The size of what a field gives to the section of types.
#[tactic(auto, using(crate::proofs::Sizes::size_none))]
fn type_item_size(field: &ModuleField<'_>) -> Size
    ensures { IsSize result (type_items (field_of field.now)) true }
{
    match field {
        ModuleField::Ty(ty) => def_size(&ty.def),
        _ => Size::none(),
    }
}

/// The length of a function that is imported.
fn func_length(use_: &TypeUse<'_>) -> u64
    ensures { result ≡ capped (length (entity_bytes [] (c.func (use_of use_.now)))) }
{
    add(1, uleb_length(type_index(use_) as u64))
}

/// The length of a type and limits.
fn table_length(limits: &Limits, ty: &RefType<'_>) -> u64
    ensures { result ≡ capped (length (value_bytes [] (ref_value ty.now) ++ limits_bytes (limits_of limits.now))) }
{
    add(reference_length(ty), limits_length(limits))
}

/// The length of what an import asks for.
fn kind_length(kind: &ItemKind<'_>) -> u64
    ensures { result ≡ capped (length (entity_bytes [] (entity_of kind.now))) }
{
    match kind {
        ItemKind::Func(use_) => func_length(use_),
        ItemKind::Table(limits, ty) => add(1, table_length(limits, ty)),
        ItemKind::Memory(limits) => add(1, limits_length(limits)),
        ItemKind::Global(ty, _) => add(2, value_length(ty)),
        ItemKind::Other(_) => 0,
    }
}

/// The size of an import of so many bytes, where there is one.
fn import_size(import: Option<(&str, &str)>, entity: u64) -> Size
    ensures { (e : Entity) → entity ≡ capped (length (entity_bytes [] e)) → IsSize result (import_by [] (option_map pair_of import.entry) (Some e)) true }
{
    match import {
        None => Size::none(),
        Some((module, name)) => {
            let source = add(text_length(module), text_length(name));
            Size::one(add(source, entity), true)
        }
    }
}

/// The size of what a field gives to the section of imports.
fn import_item_size(field: &ModuleField<'_>) -> Size
    ensures { IsSize result (import_item [] (field_of field.now)) true }
{
    match field {
        ModuleField::Import(import) => import_size(
            Some((import.module, import.name)),
            kind_length(&import.sig.kind),
        ),
        ModuleField::Func(func) => import_size(func.import, func_length(&func.ty)),
        ModuleField::Table(table) => import_size(
            table.import,
            add(1, table_length(&table.limits, &table.ty)),
        ),
        ModuleField::Memory(memory) => {
            import_size(memory.import, add(1, limits_length(&memory.limits)))
        }
        ModuleField::Global(global) => {
            import_size(global.import, add(2, value_length(&global.ty)))
        }
        _ => Size::none(),
    }
}

/// The size of an item of so many bytes, unless it is imported.
fn defined_size(import: Option<(&str, &str)>, bytes: u64) -> Size
    ensures { (item : List ℕ) → bytes ≡ capped (length item) → IsSize result (unless_imported (option_map pair_of import.entry) item) true }
{
    match import {
        None => Size::one(bytes, true),
        Some(_) => Size::none(),
    }
}

/// The size of what a field gives to the section of functions.
fn function_item_size(field: &ModuleField<'_>) -> Size
    ensures { IsSize result (function_items (field_of field.now)) true }
{
    match field {
        ModuleField::Func(func) => {
            defined_size(func.import, uleb_length(type_index(&func.ty) as u64))
        }
        _ => Size::none(),
    }
}

/// The size of what a field gives to the section of tables.
fn table_item_size(field: &ModuleField<'_>) -> Size
    ensures { IsSize result (table_items (field_of field.now)) true }
{
    match field {
        ModuleField::Table(table) => {
            defined_size(table.import, table_length(&table.limits, &table.ty))
        }
        _ => Size::none(),
    }
}

/// The size of what a field gives to the section of memories.
fn memory_item_size(field: &ModuleField<'_>) -> Size
    ensures { IsSize result (memory_items (field_of field.now)) true }
{
    match field {
        ModuleField::Memory(memory) => defined_size(memory.import, limits_length(&memory.limits)),
        _ => Size::none(),
    }
}

/// The length of a global: its type, whether it is mutable, its first value.
fn global_length(global: &GlobalField<'_>) -> u64
    ensures { result ≡ capped (length (value_bytes [] (value_of global.now.ty) ++ (mutable_byte global.now.mutable ∷ expression [] [] (body_of global.now.init)))) }
{
    add(
        value_length(&global.ty),
        add(1, expression_length(&global.init)),
    )
}

/// The size of what a field gives to the section of globals.
fn global_item_size(field: &ModuleField<'_>) -> Size
    ensures { IsSize result (global_items (field_of field.now)) true }
{
    match field {
        ModuleField::Global(global) => defined_size(global.import, global_length(global)),
        _ => Size::none(),
    }
}

/// The size of what a field gives to the section of code.
fn code_item_size(field: &ModuleField<'_>) -> Size
    ensures { IsSize result (code_items (field_of field.now)) (fits_code (field_of field.now)) }
{
    match field {
        ModuleField::Func(func) => match func.import {
            None => code_size(func.locals.as_slice(), &func.body),
            Some(_) => Size::none(),
        },
        _ => Size::none(),
    }
}

/// The size of what a field gives to a section.
pub(crate) fn item_size(part: Part, field: &ModuleField<'_>) -> Size
    ensures { IsSize result (items_of part (field_of field.now)) (fits_item part (field_of field.now)) }
{
    match part {
        Part::Types => type_item_size(field),
        Part::Imports => import_item_size(field),
        Part::Functions => function_item_size(field),
        Part::Tables => table_item_size(field),
        Part::Memories => memory_item_size(field),
        Part::Globals => global_item_size(field),
        Part::Code => code_item_size(field),
    }
}
