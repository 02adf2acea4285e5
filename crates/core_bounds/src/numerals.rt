//! The numerals of a tree: each is a machine integer, and so within its bits.

ghost use Rattle.std.specs.Prelude.{map, option_map};
ghost use Rattle.core_model.specs.Words.{IndexWord, ValueWord, ValuesWord, LocalsWord, TypeWord, DefWord, OptionWord, SignatureWord, UseWord, LimitsWord, EntityWord, InstructionWord, BodyWord, FieldWord, FieldsWord};
ghost use Rattle.core_syntax.specs.Ids.{reference_of};
ghost use Rattle.core_syntax.specs.Fields.{value_of, ref_value, heap_value, param_of, type_of, def_of, use_of, limits_of, entity_of, instruction_of, body_of, local_of, field_of, fields_of};

use core_syntax::{
    Expression, FunctionType, HeapType, Instruction, ItemKind, Limits, Local, ModuleField, Param,
    RefType, TypeDef, TypeUse, ValType,
};
use wast_parser::Index;

fn read_index(index: &Index<'_>)
    ensures { IndexWord (reference_of index.now) }
{
    match index {
        Index::Num(number, _) => {
            let _number = *number;
        }
        Index::Id(_) => {}
    }
}

fn read_reference(ty: &RefType<'_>)
    ensures { ValueWord (ref_value ty.now) }
{
    match &ty.heap {
        HeapType::Func => {}
        HeapType::Extern => {}
        HeapType::Concrete(Index::Num(number, _)) => {
            let _number = *number;
        }
        HeapType::Concrete(Index::Id(_)) => {}
    }
}

fn read_value(ty: &ValType<'_>)
    ensures { ValueWord (value_of ty.now) }
{
    match ty {
        ValType::I32 => {}
        ValType::I64 => {}
        ValType::F32 => {}
        ValType::F64 => {}
        ValType::V128 => {}
        ValType::Ref(reference) => read_reference(reference),
        ValType::Other(_) => {}
    }
}

fn read_params(params: &[Param<'_>])
    ensures { LocalsWord (map param_of params.now) }
{
    for param in params {
        read_value(&param.ty);
    }
}

fn read_results(results: &[ValType<'_>])
    ensures { ValuesWord (map value_of results.now) }
{
    for ty in results {
        read_value(ty);
    }
}

fn read_type(ty: &FunctionType<'_>)
    ensures { TypeWord (type_of ty.now) }
{
    read_params(ty.params.as_slice());
    read_results(ty.results.as_slice());
}

fn read_def(def: &TypeDef<'_>)
    ensures { DefWord (def_of def.now) }
{
    match def {
        TypeDef::Func(ty) => read_type(ty),
        TypeDef::Other(_) => {}
    }
}

fn read_type_index(index: &Option<Index<'_>>)
    ensures { OptionWord (option_map reference_of index.now) }
{
    match index {
        None => {}
        Some(index) => read_index(index),
    }
}

fn read_signature(signature: &Option<FunctionType<'_>>)
    ensures { SignatureWord (option_map type_of signature.now) }
{
    match signature {
        None => {}
        Some(ty) => read_type(ty),
    }
}

fn read_use(use_: &TypeUse<'_>)
    ensures { UseWord (use_of use_.now) }
{
    read_type_index(&use_.index);
    read_signature(&use_.inline);
}

fn read_limits(limits: &Limits)
    ensures { LimitsWord (limits_of limits.now) }
{
    let _least = limits.min;
    match &limits.max {
        None => {}
        Some(most) => {
            let _most = *most;
        }
    }
}

fn read_table(limits: &Limits, ty: &RefType<'_>)
    ensures limits { LimitsWord (limits_of limits.now) }
    ensures value { ValueWord (ref_value ty.now) }
{
    read_limits(limits);
    read_reference(ty);
}

fn read_kind(kind: &ItemKind<'_>)
    ensures { EntityWord (entity_of kind.now) }
{
    match kind {
        ItemKind::Func(use_) => read_use(use_),
        ItemKind::Table(limits, ty) => read_table(limits, ty),
        ItemKind::Memory(limits) => read_limits(limits),
        ItemKind::Global(ty, _) => read_value(ty),
        ItemKind::Other(_) => {}
    }
}

fn read_instruction(instruction: &Instruction<'_>)
    ensures { InstructionWord (instruction_of instruction.now) }
{
    match instruction {
        Instruction::Call(index) => read_index(index),
        Instruction::LocalGet(index) => read_index(index),
        Instruction::LocalSet(index) => read_index(index),
        Instruction::LocalTee(index) => read_index(index),
        Instruction::GlobalGet(index) => read_index(index),
        Instruction::GlobalSet(index) => read_index(index),
        Instruction::I32Const(number) => {
            let _number = *number;
        }
        Instruction::I64Const(number) => {
            let _number = *number;
        }
        Instruction::Unreachable => {}
        Instruction::Nop => {}
        Instruction::Return => {}
        Instruction::Drop => {}
        Instruction::I32Add => {}
        Instruction::I32Sub => {}
        Instruction::I32Mul => {}
        Instruction::Other(_) => {}
    }
}

fn read_instructions(instructions: &[Instruction<'_>])
    ensures { BodyWord (map instruction_of instructions.now) }
{
    for instruction in instructions {
        read_instruction(instruction);
    }
}

fn read_body(body: &Expression<'_>)
    ensures { BodyWord (body_of body.now) }
{
    read_instructions(body.instrs.as_slice());
}

fn read_locals(locals: &[Local<'_>])
    ensures { LocalsWord (map local_of locals.now) }
{
    for local in locals {
        read_value(&local.ty);
    }
}

fn read_field(field: &ModuleField<'_>)
    ensures { FieldWord (field_of field.now) }
{
    match field {
        ModuleField::Ty(ty) => read_def(&ty.def),
        ModuleField::Import(import) => read_kind(&import.sig.kind),
        ModuleField::Func(func) => {
            read_use(&func.ty);
            read_locals(func.locals.as_slice());
            read_body(&func.body);
        }
        ModuleField::Memory(memory) => read_limits(&memory.limits),
        ModuleField::Table(table) => read_table(&table.limits, &table.ty),
        ModuleField::Global(global) => {
            read_value(&global.ty);
            read_body(&global.init);
        }
        ModuleField::Export(export) => read_index(&export.item),
        ModuleField::Other(_) => {}
    }
}

/// Goes over the numerals of fields. What it gives is its contract: each is below `2 ^ 32`, and each constant within its 32 or 64 bits,
/// as the law `light_module_fits` asks. It takes no memory.
pub fn read_numerals(fields: &[ModuleField<'_>])
    ensures { FieldsWord (fields_of fields.now) }
{
    for field in fields {
        read_field(field);
    }
}
