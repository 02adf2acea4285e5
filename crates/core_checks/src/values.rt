//! Names in value types and function types.

ghost use Rattle.std.specs.Prelude.{◌≡◌, map, option_map};
ghost use Rattle.core_model.specs.Rule.{first_broken, unknown, unknown_in_value, unknown_in_type, unknown_in_def};
ghost use Rattle.core_syntax.specs.Ids.{reference_of};
ghost use Rattle.core_syntax.specs.Fields.{ref_value, value_of, param_of, type_of, def_of};
ghost use Rattle.core_checks.specs.Refusals.{Tells};

use crate::refusals::broken;
use core_names::Namespace;
use core_syntax::{FunctionType, HeapType, Param, RefType, TypeDef, ValType};
use wast_parser::{CoreRule, Error, Index};

/// A name that no item of the space bears is `Unknown`, at the name.
pub(crate) fn check_name<'a>(ids: &Namespace<'a>, index: &Index<'a>) -> Result<(), Error>
    ensures { Tells (unknown ids.now (reference_of index.now)) result }
{
    match ids.try_resolve(index) {
        Some(_) => Ok(()),
        None => Err(broken(CoreRule::Unknown, index.span())),
    }
}

/// The name in a reference type.
pub(crate) fn check_reference<'a>(types: &Namespace<'a>, ty: &RefType<'a>) -> Result<(), Error>
    ensures { Tells (unknown_in_value types.now (ref_value ty.now)) result }
{
    match &ty.heap {
        HeapType::Func => Ok(()),
        HeapType::Extern => Ok(()),
        HeapType::Concrete(index) => check_name(types, index),
    }
}

/// The name in a value type.
pub(crate) fn check_value<'a>(types: &Namespace<'a>, ty: &ValType<'a>) -> Result<(), Error>
    ensures { Tells (unknown_in_value types.now (value_of ty.now)) result }
{
    match ty {
        ValType::I32 => Ok(()),
        ValType::I64 => Ok(()),
        ValType::F32 => Ok(()),
        ValType::F64 => Ok(()),
        ValType::V128 => Ok(()),
        ValType::Ref(reference) => check_reference(types, reference),
        ValType::Other(_) => Ok(()),
    }
}

/// The names in the types of parameters, in order.
fn check_params<'a>(types: &Namespace<'a>, params: &[Param<'a>]) -> Result<(), Error>
    ensures { Tells (first_broken (map (λ p. unknown_in_value types.now p.value) (map param_of params.now))) result }
{
    for param in params {
        check_value(types, &param.ty)?;
    }
    Ok(())
}

/// The names in results, in order.
fn check_results<'a>(types: &Namespace<'a>, results: &[ValType<'a>]) -> Result<(), Error>
    ensures { Tells (first_broken (map (unknown_in_value types.now) (map value_of results.now))) result }
{
    for ty in results {
        check_value(types, ty)?;
    }
    Ok(())
}

/// The names in a function type: those of the parameters, then those of the results.
pub(crate) fn check_type<'a>(types: &Namespace<'a>, ty: &FunctionType<'a>) -> Result<(), Error>
    ensures { Tells (first_broken (unknown_in_type types.now (type_of ty.now))) result }
{
    check_params(types, ty.params.as_slice())?;
    check_results(types, ty.results.as_slice())
}

/// The names in a type definition.
pub(crate) fn check_def<'a>(types: &Namespace<'a>, def: &TypeDef<'a>) -> Result<(), Error>
    ensures { Tells (first_broken (unknown_in_def types.now (def_of def.now))) result }
{
    match def {
        TypeDef::Func(ty) => check_type(types, ty),
        TypeDef::Other(_) => Ok(()),
    }
}
