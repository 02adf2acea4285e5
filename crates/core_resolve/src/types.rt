//! Numbers in value types and function types.

ghost use Rattle.std.specs.Prelude.{◌≡◌, map, None};
ghost use Rattle.core_model.specs.Rule.{unknown_in_value};
ghost use Rattle.core_model.specs.Resolved.{numbered_value as numbered_in, numbered_local, numbered_signature};
ghost use Rattle.core_syntax.specs.Fields.{value_of, ref_value, param_of, local_of, type_of};

use crate::index::numbered;
use core_names::Namespace;
use core_syntax::{FunctionType, HeapType, Local, Param, RefType, ValType};
use wast_parser::Index;

/// A reference type whose name, if it has one, a type bears, with its number.
pub(crate) fn numbered_reference<'a>(types: &Namespace<'a>, ty: &RefType<'a>) -> RefType<'a>
    requires { unknown_in_value types.now (ref_value ty.now) ≡ None }
    ensures { ref_value result ≡ numbered_in types.now (ref_value ty.now) }
{
    match &ty.heap {
        HeapType::Func => *ty,
        HeapType::Extern => *ty,
        HeapType::Concrete(index) => RefType {
            nullable: ty.nullable,
            heap: HeapType::Concrete(numbered(types, index)),
        },
    }
}

/// A reference type with a number in place of its name. One whose name no type bears is a type that is never written.
fn numbered_or_other<'a>(types: &Namespace<'a>, ty: &RefType<'a>) -> ValType<'a>
    ensures { value_of result ≡ numbered_in types.now (ref_value ty.now) }
{
    match &ty.heap {
        HeapType::Func => ValType::Ref(*ty),
        HeapType::Extern => ValType::Ref(*ty),
        HeapType::Concrete(index) => match types.try_resolve(index) {
            Some(number) => ValType::Ref(RefType {
                nullable: ty.nullable,
                heap: HeapType::Concrete(Index::Num(number, index.span())),
            }),
            None => ValType::Other(index.span()),
        },
    }
}

/// A value type with a number in place of its name.
pub(crate) fn numbered_value<'a>(types: &Namespace<'a>, ty: &ValType<'a>) -> ValType<'a>
    ensures { value_of result ≡ numbered_in types.now (value_of ty.now) }
{
    match ty {
        ValType::Ref(reference) => numbered_or_other(types, reference),
        ValType::I32 => *ty,
        ValType::I64 => *ty,
        ValType::F32 => *ty,
        ValType::F64 => *ty,
        ValType::V128 => *ty,
        ValType::Other(_) => *ty,
    }
}

/// Numbers the names in parameters.
fn number_params<'a>(types: &Namespace<'a>, params: &mut [Param<'a>])
    ensures { map param_of params.new ≡ map (numbered_local types.now) (map param_of params.old) }
{
    for param in params.iter_mut() {
        param.ty = numbered_value(types, &param.ty);
    }
}

/// Numbers the names in results.
fn number_results<'a>(types: &Namespace<'a>, results: &mut [ValType<'a>])
    ensures { map value_of results.new ≡ map (numbered_in types.now) (map value_of results.old) }
{
    for ty in results.iter_mut() {
        *ty = numbered_value(types, ty);
    }
}

/// Numbers the names in locals.
pub(crate) fn number_locals<'a>(types: &Namespace<'a>, locals: &mut [Local<'a>])
    ensures { map local_of locals.new ≡ map (numbered_local types.now) (map local_of locals.old) }
{
    for local in locals.iter_mut() {
        local.ty = numbered_value(types, &local.ty);
    }
}

/// Numbers the names in a function type.
pub(crate) fn number_signature<'a>(types: &Namespace<'a>, ty: &mut FunctionType<'a>)
    ensures { type_of ty.new ≡ numbered_signature types.now (type_of ty.old) }
{
    number_params(types, ty.params.as_mut_slice());
    number_results(types, ty.results.as_mut_slice());
}
