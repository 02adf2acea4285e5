//! The weight of fields, by which a module is limited. A sum that passes `u64::MAX` stays there.

ghost use Rattle.std.specs.Prelude.{◌≡◌, ◌+◌, ◌*◌, ◌≤◌, map, length, option_map};
ghost use Rattle.comp_model.specs.Weight.{weight_of_id, weight_of_label, weight_of_all};
ghost use Rattle.core_model.specs.Weight.{weight_of_naming, weight_of_local, weight_of_type, weight_of_def, weight_of_signature, weight_of_entity, weight_of_import, weight_of_inline, weight_of_field, core_weight as weight_of_fields};
ghost use Rattle.core_syntax.specs.Ids.{option_id};
ghost use Rattle.core_syntax.specs.Fields.{label_of, naming_of, param_of, type_of, def_of, use_of, entity_of, pair_of, inline_of, local_of, type_field_of, import_of, func_of, memory_of, table_of, global_of, field_of, fields_of};
ghost use Rattle.core_syntax.specs.Measures.{capped};

use crate::fields::{Func, GlobalField, Local, Memory, ModuleField, Table};
use crate::items::{Imports, ItemKind};
use crate::types::{FunctionType, Param, Type, TypeDef, TypeUse};
use wast_parser::{Id, NameAnnotation};

/// A sum and a length more.
fn add(total: u64, more: usize) -> u64
    ensures { result ≡ capped (total + more) }
{
    total.saturating_add(more as u64)
}

/// A sum and 32 for each of so many more.
fn add_each(total: u64, count: usize) -> u64
    ensures { result ≡ capped (total + 32 * count) }
{
    total.saturating_add((count as u64).saturating_mul(32))
}

fn add_id(total: u64, id: &Option<Id<'_>>) -> u64
    ensures { result ≡ capped (total + weight_of_id (option_id id.now)) }
{
    match id {
        None => total,
        Some(id) => add(total, id.name().len()),
    }
}

fn add_label(total: u64, name: &Option<NameAnnotation<'_>>) -> u64
    ensures { result ≡ capped (total + weight_of_label (label_of name.now)) }
{
    match name {
        None => total,
        Some(label) => add(total, label.name.len()),
    }
}

fn add_naming(total: u64, id: &Option<Id<'_>>, name: &Option<NameAnnotation<'_>>) -> u64
    ensures { result ≡ capped (total + weight_of_naming (naming_of id.now name.now)) }
{
    add_label(add_id(total, id), name)
}

fn add_params(start: u64, params: &[Param<'_>]) -> u64
    ensures { result ≡ capped (start + weight_of_all weight_of_local (map param_of params.now)) }
{
    let mut total = start;
    for param in params {
        total = add_naming(add(total, 32), &param.id, &param.name);
    }
    total
}

fn add_locals(start: u64, locals: &[Local<'_>]) -> u64
    ensures { result ≡ capped (start + weight_of_all weight_of_local (map local_of locals.now)) }
{
    let mut total = start;
    for local in locals {
        total = add_naming(add(total, 32), &local.id, &local.name);
    }
    total
}

fn add_texts(start: u64, texts: &[&str]) -> u64
    ensures { result ≡ capped (start + weight_of_all (λ x. 32 + length x) (map (λ x. x.now) texts.now)) }
{
    let mut total = start;
    for text in texts {
        total = add(add(total, 32), text.len());
    }
    total
}

fn add_type(total: u64, ty: &FunctionType<'_>) -> u64
    ensures { result ≡ capped (total + weight_of_type (type_of ty.now)) }
{
    add_each(add_params(total, ty.params.as_slice()), ty.results.len())
}

fn add_def(total: u64, def: &TypeDef<'_>) -> u64
    ensures { result ≡ capped (total + weight_of_def (def_of def.now)) }
{
    match def {
        TypeDef::Func(ty) => add_type(total, ty),
        TypeDef::Other(_) => total,
    }
}

fn add_signature(total: u64, use_: &TypeUse<'_>) -> u64
    ensures { result ≡ capped (total + weight_of_signature (use_of use_.now).signature) }
{
    match &use_.inline {
        None => total,
        Some(ty) => add_type(total, ty),
    }
}

fn add_kind(total: u64, kind: &ItemKind<'_>) -> u64
    ensures { result ≡ capped (total + weight_of_entity (entity_of kind.now)) }
{
    match kind {
        ItemKind::Func(use_) => add_signature(total, use_),
        ItemKind::Table(_, _) => total,
        ItemKind::Memory(_) => total,
        ItemKind::Global(_, _) => total,
        ItemKind::Other(_) => total,
    }
}

fn add_source(total: u64, import: &Option<(&str, &str)>) -> u64
    ensures { result ≡ capped (total + weight_of_import (option_map pair_of import.now)) }
{
    match import {
        None => total,
        Some((module, name)) => add(add(total, module.len()), name.len()),
    }
}

fn add_inline(total: u64, exports: &[&str], import: &Option<(&str, &str)>) -> u64
    ensures { result ≡ capped (total + weight_of_inline (inline_of exports.now import.now)) }
{
    add_source(add_texts(total, exports), import)
}

fn add_type_field(total: u64, ty: &Type<'_>) -> u64
    ensures { result ≡ capped (total + weight_of_field (type_field_of ty.now)) }
{
    add_def(add_naming(add(total, 32), &ty.id, &ty.name), &ty.def)
}

fn add_import(total: u64, import: &Imports<'_>) -> u64
    ensures { result ≡ capped (total + weight_of_field (import_of import.now)) }
{
    let texts = add(add(add(total, 32), import.module.len()), import.name.len());
    let named = add_naming(texts, &import.sig.id, &import.sig.name);
    add_kind(named, &import.sig.kind)
}

fn add_func(total: u64, func: &Func<'_>) -> u64
    ensures { result ≡ capped (total + weight_of_field (func_of func.now)) }
{
    let named = add_naming(add(total, 32), &func.id, &func.name);
    let inline = add_inline(named, func.exports.as_slice(), &func.import);
    let signed = add_signature(inline, &func.ty);
    add_each(
        add_locals(signed, func.locals.as_slice()),
        func.body.instrs.len(),
    )
}

fn add_memory(total: u64, memory: &Memory<'_>) -> u64
    ensures { result ≡ capped (total + weight_of_field (memory_of memory.now)) }
{
    let named = add_naming(add(total, 32), &memory.id, &memory.name);
    add_inline(named, memory.exports.as_slice(), &memory.import)
}

fn add_table(total: u64, table: &Table<'_>) -> u64
    ensures { result ≡ capped (total + weight_of_field (table_of table.now)) }
{
    let named = add_naming(add(total, 32), &table.id, &table.name);
    add_inline(named, table.exports.as_slice(), &table.import)
}

fn add_global(total: u64, global: &GlobalField<'_>) -> u64
    ensures { result ≡ capped (total + weight_of_field (global_of global.now)) }
{
    let named = add_naming(add(total, 32), &global.id, &global.name);
    let inline = add_inline(named, global.exports.as_slice(), &global.import);
    add_each(inline, global.init.instrs.len())
}

fn add_field(total: u64, field: &ModuleField<'_>) -> u64
    ensures { result ≡ capped (total + weight_of_field (field_of field.now)) }
{
    match field {
        ModuleField::Ty(ty) => add_type_field(total, ty),
        ModuleField::Import(import) => add_import(total, import),
        ModuleField::Func(func) => add_func(total, func),
        ModuleField::Memory(memory) => add_memory(total, memory),
        ModuleField::Table(table) => add_table(total, table),
        ModuleField::Global(global) => add_global(total, global),
        ModuleField::Export(export) => add(add(total, 32), export.name.len()),
        ModuleField::Other(_) => add(total, 32),
    }
}

/// The weight of the fields of a module, by which it is limited: 32 for each field, inline export, parameter, result, local and
/// instruction, and the lengths of its texts, ids and labels. A weight that passes `u64::MAX` is that number. It takes no memory.
pub fn core_weight(fields: &[ModuleField<'_>]) -> u64
    ensures { result ≡ capped (weight_of_fields (fields_of fields.now)) }
{
    let mut total = 0;
    for field in fields {
        total = add_field(total, field);
    }
    total
}
