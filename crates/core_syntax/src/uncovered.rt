//! Forms that are read and never written, since their bytes aren't settled.

ghost use Rattle.std.specs.Prelude.{◌≡◌, Bool, ◌||◌, cond, map, option_map, Option, Some, None};
ghost use Rattle.std.specs.List.{list_any};
ghost use Rattle.core_model.specs.Uncovered.{is_other_value, holds_other_value, other_in_def, other_in_signature, other_in_entity, is_other_instruction, uncovered_field, core_uncovered as first_uncovered};
ghost use Rattle.core_syntax.specs.Fields.{param_of, value_of, ref_value, type_of, def_of, use_of, entity_of, instruction_of, body_of, local_of, func_of, export_of, field_of, fields_of};
ghost use Rattle.core_syntax.specs.Measures.{form_refusal};

use crate::fields::{Export, Func, GlobalField, Local, ModuleField};
use crate::instructions::{Expression, Instruction};
use crate::items::{ExportKind, ItemKind};
use crate::types::{FunctionType, HeapType, Param, RefType, TypeDef, TypeUse, ValType};
use wast_parser::{Error, ErrorKind, FormKind, Index, Span};

/// Every reference type that a tree can hold has bytes.
fn is_other_reference(ty: &RefType<'_>) -> bool
    ensures { result ≡ is_other_value (ref_value ty.now) }
{
    match &ty.heap {
        HeapType::Func => false,
        HeapType::Extern => false,
        HeapType::Concrete(Index::Num(_, _)) => false,
        HeapType::Concrete(Index::Id(_)) => false,
    }
}

fn is_other(ty: &ValType<'_>) -> bool
    ensures { result ≡ is_other_value (value_of ty.now) }
{
    match ty {
        ValType::I32 => false,
        ValType::I64 => false,
        ValType::F32 => false,
        ValType::F64 => false,
        ValType::V128 => false,
        ValType::Ref(reference) => is_other_reference(reference),
        ValType::Other(_) => true,
    }
}

fn other_in_params(params: &[Param<'_>]) -> bool
    ensures { result ≡ list_any (λ p. is_other_value p.value) (map param_of params.now) }
{
    for param in params {
        if is_other(&param.ty) {
            return true;
        }
    }
    false
}

fn other_in_results(results: &[ValType<'_>]) -> bool
    ensures { result ≡ list_any is_other_value (map value_of results.now) }
{
    for ty in results {
        if is_other(ty) {
            return true;
        }
    }
    false
}

fn other_in_locals(locals: &[Local<'_>]) -> bool
    ensures { result ≡ list_any (λ l. is_other_value l.value) (map local_of locals.now) }
{
    for local in locals {
        if is_other(&local.ty) {
            return true;
        }
    }
    false
}

fn other_in_type(ty: &FunctionType<'_>) -> bool
    ensures { result ≡ holds_other_value (type_of ty.now) }
{
    other_in_params(ty.params.as_slice()) || other_in_results(ty.results.as_slice())
}

fn other_in_definition(def: &TypeDef<'_>) -> bool
    ensures { result ≡ other_in_def (def_of def.now) }
{
    match def {
        TypeDef::Func(ty) => other_in_type(ty),
        TypeDef::Other(_) => true,
    }
}

fn other_in_use(use_: &TypeUse<'_>) -> bool
    ensures { result ≡ other_in_signature (use_of use_.now).signature }
{
    match &use_.inline {
        None => false,
        Some(ty) => other_in_type(ty),
    }
}

fn other_in_kind(kind: &ItemKind<'_>) -> bool
    ensures { result ≡ other_in_entity (entity_of kind.now) }
{
    match kind {
        ItemKind::Func(use_) => other_in_use(use_),
        ItemKind::Table(_, ty) => is_other_reference(ty),
        ItemKind::Memory(_) => false,
        ItemKind::Global(ty, _) => is_other(ty),
        ItemKind::Other(_) => true,
    }
}

fn is_other_kind(instruction: &Instruction<'_>) -> bool
    ensures { result ≡ is_other_instruction (instruction_of instruction.now) }
{
    match instruction {
        Instruction::Unreachable => false,
        Instruction::Nop => false,
        Instruction::Return => false,
        Instruction::Call(_) => false,
        Instruction::Drop => false,
        Instruction::LocalGet(_) => false,
        Instruction::LocalSet(_) => false,
        Instruction::LocalTee(_) => false,
        Instruction::GlobalGet(_) => false,
        Instruction::GlobalSet(_) => false,
        Instruction::I32Const(_) => false,
        Instruction::I64Const(_) => false,
        Instruction::I32Add => false,
        Instruction::I32Sub => false,
        Instruction::I32Mul => false,
        Instruction::Other(_) => true,
    }
}

fn other_in_body(body: &Expression<'_>) -> bool
    ensures { result ≡ list_any is_other_instruction (body_of body.now) }
{
    for instruction in &body.instrs {
        if is_other_kind(instruction) {
            return true;
        }
    }
    false
}

/// The refusal of a field by what it holds: the lowest row, at the field.
fn held(span: Span, other_type: bool, other_field: bool) -> Option<Error>
    ensures { result ≡ option_map form_refusal (cond other_type (Some (record { row = 6; offset = span.offset })) (cond other_field (Some (record { row = 7; offset = span.offset })) None)) }
{
    if other_type {
        return Some(Error {
            kind: ErrorKind::Form(FormKind::U6),
            offset: span.offset,
        });
    }
    if other_field {
        return Some(Error {
            kind: ErrorKind::Form(FormKind::U7),
            offset: span.offset,
        });
    }
    None
}

fn held_by_func(func: &Func<'_>) -> Option<Error>
    ensures { result ≡ option_map form_refusal (uncovered_field (func_of func.now)) }
{
    let other_type = other_in_use(&func.ty) || other_in_locals(func.locals.as_slice());
    held(func.span, other_type, other_in_body(&func.body))
}

fn held_by_export(export: &Export<'_>) -> Option<Error>
    ensures { result ≡ option_map form_refusal (uncovered_field (export_of export.now)) }
{
    match export.kind {
        ExportKind::Func => None,
        ExportKind::Table => None,
        ExportKind::Memory => None,
        ExportKind::Global => None,
        ExportKind::Tag => held(export.span, false, true),
    }
}

fn held_by(field: &ModuleField<'_>) -> Option<Error>
    ensures { result ≡ option_map form_refusal (uncovered_field (field_of field.now)) }
{
    match field {
        ModuleField::Ty(ty) => held(ty.span, other_in_definition(&ty.def), false),
        ModuleField::Import(import) => held(import.span, other_in_kind(&import.sig.kind), false),
        ModuleField::Func(func) => held_by_func(func),
        ModuleField::Memory(_) => None,
        ModuleField::Table(table) => held(table.span, is_other_reference(&table.ty), false),
        ModuleField::Global(global) => held(
            global.span,
            is_other(&global.ty),
            other_in_body(&global.init),
        ),
        ModuleField::Export(export) => held_by_export(export),
        ModuleField::Other(span) => held(*span, false, true),
    }
}

/// The first field in the order of the text that holds a form which is read and never written, as the refusal by the lowest such
/// form in it, at the first word of the field. A field, an instruction and an export of a tag count as `U7`, every other form as
/// `U6`. None where every form has bytes. It takes no memory.
pub fn core_uncovered(fields: &[ModuleField<'_>]) -> Option<Error>
    ensures { result ≡ option_map form_refusal (first_uncovered (fields_of fields.now)) }
{
    for field in fields {
        match held_by(field) {
            Some(refusal) => return Some(refusal),
            None => {}
        }
    }
    None
}
