//! Whether fields are resolved.

ghost use Rattle.std.specs.Prelude.{◌≡◌, ◌&&◌, map, option_map, Option, Some, None};
ghost use Rattle.std.specs.List.{list_all};
ghost use Rattle.core_model.specs.IsResolved.{is_number, value_resolved, type_resolved, index_resolved, signature_resolved, use_resolved, def_resolved, entity_resolved, instruction_resolved, field_resolved, are_resolved};
ghost use Rattle.core_syntax.specs.Ids.{reference_of};
ghost use Rattle.core_syntax.specs.Fields.{param_of, value_of, ref_value, type_of, def_of, use_of, entity_of, instruction_of, body_of, local_of, func_of, field_of, fields_of};

use crate::fields::{Func, Local, ModuleField};
use crate::instructions::{Expression, Instruction};
use crate::items::ItemKind;
use crate::types::{FunctionType, HeapType, Param, RefType, TypeDef, TypeUse, ValType};
use wast_parser::Index;

fn is_numeral(index: &Index<'_>) -> bool
    ensures { result ≡ is_number (reference_of index.now) }
{
    match index {
        Index::Num(_, _) => true,
        Index::Id(_) => false,
    }
}

fn is_resolved_reference(ty: &RefType<'_>) -> bool
    ensures { result ≡ value_resolved (ref_value ty.now) }
{
    match &ty.heap {
        HeapType::Func => true,
        HeapType::Extern => true,
        HeapType::Concrete(Index::Num(_, _)) => true,
        HeapType::Concrete(Index::Id(_)) => false,
    }
}

fn is_resolved_value(ty: &ValType<'_>) -> bool
    ensures { result ≡ value_resolved (value_of ty.now) }
{
    match ty {
        ValType::I32 => true,
        ValType::I64 => true,
        ValType::F32 => true,
        ValType::F64 => true,
        ValType::V128 => true,
        ValType::Ref(reference) => is_resolved_reference(reference),
        ValType::Other(_) => true,
    }
}

fn are_params_resolved(params: &[Param<'_>]) -> bool
    ensures { result ≡ list_all (λ p. value_resolved p.value) (map param_of params.now) }
{
    for param in params {
        if !is_resolved_value(&param.ty) {
            return false;
        }
    }
    true
}

fn are_results_resolved(results: &[ValType<'_>]) -> bool
    ensures { result ≡ list_all value_resolved (map value_of results.now) }
{
    for ty in results {
        if !is_resolved_value(ty) {
            return false;
        }
    }
    true
}

fn are_locals_resolved(locals: &[Local<'_>]) -> bool
    ensures { result ≡ list_all (λ l. value_resolved l.value) (map local_of locals.now) }
{
    for local in locals {
        if !is_resolved_value(&local.ty) {
            return false;
        }
    }
    true
}

fn is_type_resolved(ty: &FunctionType<'_>) -> bool
    ensures { result ≡ type_resolved (type_of ty.now) }
{
    are_params_resolved(ty.params.as_slice()) && are_results_resolved(ty.results.as_slice())
}

fn is_definition_resolved(def: &TypeDef<'_>) -> bool
    ensures { result ≡ def_resolved (def_of def.now) }
{
    match def {
        TypeDef::Func(ty) => is_type_resolved(ty),
        TypeDef::Other(_) => true,
    }
}

fn is_index_resolved(index: &Option<Index<'_>>) -> bool
    ensures { result ≡ index_resolved (option_map reference_of index.now) }
{
    match index {
        None => false,
        Some(index) => is_numeral(index),
    }
}

fn is_signature_resolved(signature: &Option<FunctionType<'_>>) -> bool
    ensures { result ≡ signature_resolved (option_map type_of signature.now) }
{
    match signature {
        None => true,
        Some(ty) => is_type_resolved(ty),
    }
}

fn is_use_resolved(use_: &TypeUse<'_>) -> bool
    ensures { result ≡ use_resolved (use_of use_.now) }
{
    is_index_resolved(&use_.index) && is_signature_resolved(&use_.inline)
}

fn is_kind_resolved(kind: &ItemKind<'_>) -> bool
    ensures { result ≡ entity_resolved (entity_of kind.now) }
{
    match kind {
        ItemKind::Func(use_) => is_use_resolved(use_),
        ItemKind::Table(_, ty) => is_resolved_reference(ty),
        ItemKind::Memory(_) => true,
        ItemKind::Global(ty, _) => is_resolved_value(ty),
        ItemKind::Other(_) => true,
    }
}

fn is_instruction_resolved(instruction: &Instruction<'_>) -> bool
    ensures { result ≡ instruction_resolved (instruction_of instruction.now) }
{
    match instruction {
        Instruction::Unreachable => true,
        Instruction::Nop => true,
        Instruction::Return => true,
        Instruction::Call(index) => is_numeral(index),
        Instruction::Drop => true,
        Instruction::LocalGet(index) => is_numeral(index),
        Instruction::LocalSet(index) => is_numeral(index),
        Instruction::LocalTee(index) => is_numeral(index),
        Instruction::GlobalGet(index) => is_numeral(index),
        Instruction::GlobalSet(index) => is_numeral(index),
        Instruction::I32Const(_) => true,
        Instruction::I64Const(_) => true,
        Instruction::I32Add => true,
        Instruction::I32Sub => true,
        Instruction::I32Mul => true,
        Instruction::Other(_) => true,
    }
}

fn is_body_resolved(body: &Expression<'_>) -> bool
    ensures { result ≡ list_all instruction_resolved (body_of body.now) }
{
    for instruction in &body.instrs {
        if !is_instruction_resolved(instruction) {
            return false;
        }
    }
    true
}

fn is_func_resolved(func: &Func<'_>) -> bool
    ensures { result ≡ field_resolved (func_of func.now) }
{
    is_use_resolved(&func.ty)
        && (are_locals_resolved(func.locals.as_slice()) && is_body_resolved(&func.body))
}

fn is_field_resolved(field: &ModuleField<'_>) -> bool
    ensures { result ≡ field_resolved (field_of field.now) }
{
    match field {
        ModuleField::Ty(ty) => is_definition_resolved(&ty.def),
        ModuleField::Import(import) => is_kind_resolved(&import.sig.kind),
        ModuleField::Func(func) => is_func_resolved(func),
        ModuleField::Memory(_) => true,
        ModuleField::Table(table) => is_resolved_reference(&table.ty),
        ModuleField::Global(global) => {
            is_resolved_value(&global.ty) && is_body_resolved(&global.init)
        }
        ModuleField::Export(export) => is_numeral(&export.item),
        ModuleField::Other(_) => true,
    }
}

/// Whether no reference in the fields is a name and each type use has an index: what is left of a module when its names are resolved.
/// It takes no memory.
pub fn is_resolved_core(fields: &[ModuleField<'_>]) -> bool
    ensures { result ≡ are_resolved (fields_of fields.now) }
{
    for field in fields {
        if !is_field_resolved(field) {
            return false;
        }
    }
    true
}
