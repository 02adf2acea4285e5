//! What a field gives to each section.

ghost use Rattle.std.specs.Prelude.{◌≡◌, ◌∷◌, [], ◌++◌, length, map, option_map, OnOk, IfOk};
ghost use Rattle.comp_model.specs.Leb.{uleb as unsigned_bytes};
ghost use Rattle.comp_model.specs.Payloads.{joined, framed};
ghost use Rattle.core_model.specs.Types.{defined, type_of_use};
ghost use Rattle.core_model.specs.Words.{Word};
ghost use Rattle.core_model.specs.Bytes.{type_item, limits_bytes, mutable_byte, value_bytes, entity_bytes, expression, import_by, import_item};
ghost use Rattle.core_model.specs.Items.{import_names};
ghost use Rattle.core_syntax.specs.Fields.{def_of, use_of, limits_of, value_of, ref_value, entity_of, pair_of, local_of, body_of, func_of, table_of, memory_of, global_of, field_of};
ghost use Rattle.core_write.specs.Written.{unless_imported, code_entry, type_items, function_items, table_items, memory_items, global_items, code_items, items_of};
ghost use Rattle.core_write.specs.Fits.{FitsDef, FitsTypeOf, FitsPair, FitsCode, FitsCodeOf, FitsItem};

use crate::bytes::{push_byte, push_text};
use crate::code::push_code;
use crate::instructions::{number_of, push_expression};
use crate::part::Part;
use crate::types::push_function_type;
use crate::values::{push_limits, push_mutable, push_reference, push_value};
use comp_wire::{NoMemory, uleb};
use core_syntax::{
    Func, GlobalField, Imports, ItemKind, Limits, Memory, ModuleField, RefType, Table, TypeDef,
    TypeUse, ValType,
};
use std::alloc::Global;

/// The index of the type of a use.
pub fn type_index(use_: &TypeUse<'_>) -> u32
    ensures { result ≡ type_of_use [] (use_of use_.now) }
{
    match &use_.index {
        None => 0,
        Some(index) => number_of(index),
    }
}

/// Appends a type, where it has bytes; answers how many that are.
fn push_def(alloc: Global, out: &mut Vec<u8>, def: &TypeDef<'_>) -> Result<u32, NoMemory>
    requires { FitsDef (def_of def.now) }
    ensures number { IfOk result (λ n. n ≡ length (type_item (defined [] (def_of def.now)))) }
    ensures appended { OnOk result (out.new.items ≡ out.old.items ++ joined (type_item (defined [] (def_of def.now)))) }
{
    match def {
        TypeDef::Func(ty) => {
            push_function_type(alloc, out, ty)?;
            Ok(1)
        }
        TypeDef::Other(_) => Ok(0),
    }
}

/// Appends what a field gives to the section of types.
fn push_type_item(
    alloc: Global,
    out: &mut Vec<u8>,
    field: &ModuleField<'_>,
) -> Result<u32, NoMemory>
    requires { FitsTypeOf (field_of field.now) }
    ensures number { IfOk result (λ n. n ≡ length (type_items (field_of field.now))) }
    ensures appended { OnOk result (out.new.items ≡ out.old.items ++ joined (type_items (field_of field.now))) }
{
    match field {
        ModuleField::Ty(ty) => push_def(alloc, out, &ty.def),
        _ => Ok(0),
    }
}

/// Appends the source of an import: its module, and its name there.
fn push_source(alloc: Global, out: &mut Vec<u8>, from: &str, name: &str) -> Result<(), NoMemory>
    requires from { Word (length from.now) }
    requires name { Word (length name.now) }
    ensures { OnOk result (out.new.items ≡ out.old.items ++ (framed from.now ++ framed name.now)) }
{
    push_text(alloc, out, from)?;
    push_text(alloc, out, name)
}

/// Appends a function that is imported.
fn push_func_entity(alloc: Global, out: &mut Vec<u8>, use_: &TypeUse<'_>) -> Result<(), NoMemory>
    ensures { OnOk result (out.new.items ≡ out.old.items ++ 0x00 ∷ unsigned_bytes (type_of_use [] (use_of use_.now))) }
{
    push_byte(out, 0x00)?;
    uleb(alloc, out, type_index(use_))
}

/// Appends a table that is imported.
fn push_table_entity(
    alloc: Global,
    out: &mut Vec<u8>,
    limits: &Limits,
    ty: &RefType<'_>,
) -> Result<(), NoMemory>
    ensures { OnOk result (out.new.items ≡ out.old.items ++ 0x01 ∷ (value_bytes [] (ref_value ty.now) ++ limits_bytes (limits_of limits.now))) }
{
    push_byte(out, 0x01)?;
    push_reference(alloc, out, ty)?;
    push_limits(alloc, out, limits)
}

/// Appends a memory that is imported.
fn push_memory_entity(alloc: Global, out: &mut Vec<u8>, limits: &Limits) -> Result<(), NoMemory>
    ensures { OnOk result (out.new.items ≡ out.old.items ++ 0x02 ∷ limits_bytes (limits_of limits.now)) }
{
    push_byte(out, 0x02)?;
    push_limits(alloc, out, limits)
}

/// Appends a global that is imported.
fn push_global_entity(
    alloc: Global,
    out: &mut Vec<u8>,
    ty: &ValType<'_>,
    mutable: bool,
) -> Result<(), NoMemory>
    ensures { OnOk result (out.new.items ≡ out.old.items ++ 0x03 ∷ (value_bytes [] (value_of ty.now) ++ mutable_byte mutable ∷ [])) }
{
    push_byte(out, 0x03)?;
    push_value(alloc, out, ty)?;
    push_mutable(out, mutable)
}

/// Appends what an import asks for.
fn push_entity(alloc: Global, out: &mut Vec<u8>, kind: &ItemKind<'_>) -> Result<(), NoMemory>
    ensures { OnOk result (out.new.items ≡ out.old.items ++ entity_bytes [] (entity_of kind.now)) }
{
    match kind {
        ItemKind::Func(use_) => push_func_entity(alloc, out, use_),
        ItemKind::Table(limits, ty) => push_table_entity(alloc, out, limits, ty),
        ItemKind::Memory(limits) => push_memory_entity(alloc, out, limits),
        ItemKind::Global(ty, mutable) => push_global_entity(alloc, out, ty, *mutable),
        ItemKind::Other(_) => Ok(()),
    }
}

/// Appends a written import.
fn push_import(alloc: Global, out: &mut Vec<u8>, import: &Imports<'_>) -> Result<(), NoMemory>
    requires module { Word (length import.now.module.now) }
    requires name { Word (length import.now.name.now) }
    ensures { OnOk result (out.new.items ≡ out.old.items ++ (framed import.now.module.now ++ (framed import.now.name.now ++ entity_bytes [] (entity_of import.now.sig.kind)))) }
{
    push_source(alloc, out, import.module, import.name)?;
    push_entity(alloc, out, &import.sig.kind)
}

/// Appends a function where it is imported; answers how many that are.
fn push_imported_func(alloc: Global, out: &mut Vec<u8>, func: &Func<'_>) -> Result<u32, NoMemory>
    requires { FitsPair (import_names (func_of func.now)) }
    ensures number { IfOk result (λ n. n ≡ length (import_item [] (func_of func.now))) }
    ensures appended { OnOk result (out.new.items ≡ out.old.items ++ joined (import_item [] (func_of func.now))) }
{
    match func.import {
        None => Ok(0),
        Some((from, name)) => {
            push_source(alloc, out, from, name)?;
            push_func_entity(alloc, out, &func.ty)?;
            Ok(1)
        }
    }
}

/// Appends a table where it is imported; answers how many that are.
fn push_imported_table(alloc: Global, out: &mut Vec<u8>, table: &Table<'_>) -> Result<u32, NoMemory>
    requires { FitsPair (import_names (table_of table.now)) }
    ensures number { IfOk result (λ n. n ≡ length (import_item [] (table_of table.now))) }
    ensures appended { OnOk result (out.new.items ≡ out.old.items ++ joined (import_item [] (table_of table.now))) }
{
    match table.import {
        None => Ok(0),
        Some((from, name)) => {
            push_source(alloc, out, from, name)?;
            push_table_entity(alloc, out, &table.limits, &table.ty)?;
            Ok(1)
        }
    }
}

/// Appends a memory where it is imported; answers how many that are.
fn push_imported_memory(
    alloc: Global,
    out: &mut Vec<u8>,
    memory: &Memory<'_>,
) -> Result<u32, NoMemory>
    requires { FitsPair (import_names (memory_of memory.now)) }
    ensures number { IfOk result (λ n. n ≡ length (import_item [] (memory_of memory.now))) }
    ensures appended { OnOk result (out.new.items ≡ out.old.items ++ joined (import_item [] (memory_of memory.now))) }
{
    match memory.import {
        None => Ok(0),
        Some((from, name)) => {
            push_source(alloc, out, from, name)?;
            push_memory_entity(alloc, out, &memory.limits)?;
            Ok(1)
        }
    }
}

/// Appends a global where it is imported; answers how many that are.
fn push_imported_global(
    alloc: Global,
    out: &mut Vec<u8>,
    global: &GlobalField<'_>,
) -> Result<u32, NoMemory>
    requires { FitsPair (import_names (global_of global.now)) }
    ensures number { IfOk result (λ n. n ≡ length (import_item [] (global_of global.now))) }
    ensures appended { OnOk result (out.new.items ≡ out.old.items ++ joined (import_item [] (global_of global.now))) }
{
    match global.import {
        None => Ok(0),
        Some((from, name)) => {
            push_source(alloc, out, from, name)?;
            push_global_entity(alloc, out, &global.ty, global.mutable)?;
            Ok(1)
        }
    }
}

/// Appends what a field gives to the section of imports.
fn push_import_item(
    alloc: Global,
    out: &mut Vec<u8>,
    field: &ModuleField<'_>,
) -> Result<u32, NoMemory>
    requires { FitsPair (import_names (field_of field.now)) }
    ensures number { IfOk result (λ n. n ≡ length (import_item [] (field_of field.now))) }
    ensures appended { OnOk result (out.new.items ≡ out.old.items ++ joined (import_item [] (field_of field.now))) }
{
    match field {
        ModuleField::Import(import) => {
            push_import(alloc, out, import)?;
            Ok(1)
        }
        ModuleField::Func(func) => push_imported_func(alloc, out, func),
        ModuleField::Table(table) => push_imported_table(alloc, out, table),
        ModuleField::Memory(memory) => push_imported_memory(alloc, out, memory),
        ModuleField::Global(global) => push_imported_global(alloc, out, global),
        _ => Ok(0),
    }
}

/// Appends what a field gives to the section of functions.
fn push_function_item(
    alloc: Global,
    out: &mut Vec<u8>,
    field: &ModuleField<'_>,
) -> Result<u32, NoMemory>
    ensures number { IfOk result (λ n. n ≡ length (function_items (field_of field.now))) }
    ensures appended { OnOk result (out.new.items ≡ out.old.items ++ joined (function_items (field_of field.now))) }
{
    match field {
        ModuleField::Func(func) => match func.import {
            None => {
                uleb(alloc, out, type_index(&func.ty))?;
                Ok(1)
            }
            Some(_) => Ok(0),
        },
        _ => Ok(0),
    }
}

/// Appends what a field gives to the section of tables.
fn push_table_item(
    alloc: Global,
    out: &mut Vec<u8>,
    field: &ModuleField<'_>,
) -> Result<u32, NoMemory>
    ensures number { IfOk result (λ n. n ≡ length (table_items (field_of field.now))) }
    ensures appended { OnOk result (out.new.items ≡ out.old.items ++ joined (table_items (field_of field.now))) }
{
    match field {
        ModuleField::Table(table) => match table.import {
            None => {
                push_reference(alloc, out, &table.ty)?;
                push_limits(alloc, out, &table.limits)?;
                Ok(1)
            }
            Some(_) => Ok(0),
        },
        _ => Ok(0),
    }
}

/// Appends what a field gives to the section of memories.
fn push_memory_item(
    alloc: Global,
    out: &mut Vec<u8>,
    field: &ModuleField<'_>,
) -> Result<u32, NoMemory>
    ensures number { IfOk result (λ n. n ≡ length (memory_items (field_of field.now))) }
    ensures appended { OnOk result (out.new.items ≡ out.old.items ++ joined (memory_items (field_of field.now))) }
{
    match field {
        ModuleField::Memory(memory) => match memory.import {
            None => {
                push_limits(alloc, out, &memory.limits)?;
                Ok(1)
            }
            Some(_) => Ok(0),
        },
        _ => Ok(0),
    }
}

/// Appends a global: its type, whether it is mutable, its first value.
fn push_global(alloc: Global, out: &mut Vec<u8>, global: &GlobalField<'_>) -> Result<(), NoMemory>
    ensures { OnOk result (out.new.items ≡ out.old.items ++ (value_bytes [] (value_of global.now.ty) ++ (mutable_byte global.now.mutable ∷ expression [] [] (body_of global.now.init)))) }
{
    push_value(alloc, out, &global.ty)?;
    push_mutable(out, global.mutable)?;
    push_expression(alloc, out, &global.init)
}

/// Appends what a field gives to the section of globals.
fn push_global_item(
    alloc: Global,
    out: &mut Vec<u8>,
    field: &ModuleField<'_>,
) -> Result<u32, NoMemory>
    ensures number { IfOk result (λ n. n ≡ length (global_items (field_of field.now))) }
    ensures appended { OnOk result (out.new.items ≡ out.old.items ++ joined (global_items (field_of field.now))) }
{
    match field {
        ModuleField::Global(global) => match global.import {
            None => {
                push_global(alloc, out, global)?;
                Ok(1)
            }
            Some(_) => Ok(0),
        },
        _ => Ok(0),
    }
}

/// Appends what a field gives to the section of code. `room` is for the bytes of an entry, whatever it holds.
fn push_code_item(
    alloc: Global,
    out: &mut Vec<u8>,
    room: &mut Vec<u8>,
    field: &ModuleField<'_>,
) -> Result<u32, NoMemory>
    requires { FitsCodeOf (field_of field.now) }
    ensures number { IfOk result (λ n. n ≡ length (code_items (field_of field.now))) }
    ensures appended { OnOk result (out.new.items ≡ out.old.items ++ joined (code_items (field_of field.now))) }
{
    match field {
        ModuleField::Func(func) => match func.import {
            None => {
                push_code(alloc, out, room, func.locals.as_slice(), &func.body)?;
                Ok(1)
            }
            Some(_) => Ok(0),
        },
        _ => Ok(0),
    }
}

/// Appends what a field gives to a section; answers how many items that are. `room` is for the bytes of one, whatever it holds.
pub(crate) fn push_item(
    alloc: Global,
    out: &mut Vec<u8>,
    room: &mut Vec<u8>,
    part: Part,
    field: &ModuleField<'_>,
) -> Result<u32, NoMemory>
    requires { FitsItem part (field_of field.now) }
    ensures number { IfOk result (λ n. n ≡ length (items_of part (field_of field.now))) }
    ensures appended { OnOk result (out.new.items ≡ out.old.items ++ joined (items_of part (field_of field.now))) }
{
    match part {
        Part::Types => push_type_item(alloc, out, field),
        Part::Imports => push_import_item(alloc, out, field),
        Part::Functions => push_function_item(alloc, out, field),
        Part::Tables => push_table_item(alloc, out, field),
        Part::Memories => push_memory_item(alloc, out, field),
        Part::Globals => push_global_item(alloc, out, field),
        Part::Code => push_code_item(alloc, out, room, field),
    }
}
