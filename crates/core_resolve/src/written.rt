//! The types that definitions and uses write, with their names resolved.

ghost use Rattle.std.specs.Prelude.{◌≡◌, map, option_map, IfOk, OnOk};
ghost use Rattle.core_model.specs.Types.{resolved_value, signature_of as signature_in, written_signature as written_in, defined as defined_in};
ghost use Rattle.core_syntax.specs.Fields.{value_of, param_of, type_of, def_of};
ghost use Rattle.core_names.specs.ResolvedTypes.{value};
ghost use Rattle.core_resolve.specs.Signatures.{signature};

use crate::signature::Signature;
use core_names::{Namespace, ResolvedType, resolved_type};
use core_syntax::{FunctionType, Param, TypeDef, ValType};
use std::alloc::{AllocError, Global};

/// Puts the types of parameters in the place of what a list holds.
fn param_values<'a>(
    types: &Namespace<'a>,
    params: &[Param<'a>],
    values: &mut Vec<ResolvedType>,
) -> Result<(), AllocError>
    ensures { OnOk result (map value values.new.items ≡ map (λ p. resolved_value types.now p.value) (map param_of params.now)) }
{
    values.clear();
    for param in params {
        values.push(resolved_type(types, &param.ty))?;
    }
    Ok(())
}

/// Puts the types of results in the place of what a list holds.
fn result_values<'a>(
    types: &Namespace<'a>,
    results: &[ValType<'a>],
    values: &mut Vec<ResolvedType>,
) -> Result<(), AllocError>
    ensures { OnOk result (map value values.new.items ≡ map (resolved_value types.now) (map value_of results.now)) }
{
    values.clear();
    for ty in results {
        values.push(resolved_type(types, ty))?;
    }
    Ok(())
}

/// Makes a signature that of a function type, with its names resolved.
fn signature_of<'a>(
    types: &Namespace<'a>,
    ty: &FunctionType<'a>,
    room: &mut Signature,
) -> Result<(), AllocError>
    ensures { OnOk result (signature room.new ≡ signature_in types.now (type_of ty.now)) }
{
    param_values(types, ty.params.as_slice(), &mut room.params)?;
    result_values(types, ty.results.as_slice(), &mut room.results)?;
    Ok(())
}

/// Makes a signature the one that a type use writes; the empty one where it writes none.
pub(crate) fn written_signature<'a>(
    types: &Namespace<'a>,
    ty: &Option<FunctionType<'a>>,
    room: &mut Signature,
) -> Result<(), AllocError>
    ensures { OnOk result (signature room.new ≡ written_in types.now (option_map type_of ty.now)) }
{
    match ty {
        Some(ty) => signature_of(types, ty, room),
        None => {
            room.params.clear();
            room.results.clear();
            Ok(())
        }
    }
}

/// What a type is defined to be; none where it is no function type.
pub(crate) fn defined_type<'a>(
    alloc: Global,
    types: &Namespace<'a>,
    def: &TypeDef<'a>,
) -> Result<Option<Signature>, AllocError>
    ensures { IfOk result (λ t. option_map signature t ≡ defined_in types.now (def_of def.now)) }
{
    match def {
        TypeDef::Func(ty) => {
            let mut signature = Signature::empty(alloc);
            signature_of(types, ty, &mut signature)?;
            Ok(Some(signature))
        }
        TypeDef::Other(_) => Ok(None),
    }
}
