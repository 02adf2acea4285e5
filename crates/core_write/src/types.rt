//! Function types.

ghost use Rattle.std.specs.Prelude.{◌≡◌, ◌∷◌, [], ◌++◌, map, length, OnOk};
ghost use Rattle.comp_wire.specs.Spelled.{core_bytes};
ghost use Rattle.core_model.specs.Types.{signature_of};
ghost use Rattle.core_model.specs.Words.{Word};
ghost use Rattle.core_model.specs.Bytes.{value, values, counted, function_type_bytes};
ghost use Rattle.core_syntax.specs.Fields.{param_of, value_of, type_of};
ghost use Rattle.core_write.specs.Written.{values_of};
ghost use Rattle.core_write.specs.Fits.{FitsSignature};

use crate::bytes::push_byte;
use crate::values::{has_bytes, push_value};
use comp_wire::{NoMemory, uleb};
use core_syntax::{FunctionType, Param, ValType};
use std::alloc::Global;

/// How many parameters have bytes.
fn count_params(params: &[Param<'_>]) -> u32
    requires { Word (length (values_of (map param_of params.now))) }
    ensures { result ≡ length (values_of (map param_of params.now)) }
{
    let mut count = 0;
    for param in params {
        if has_bytes(&param.ty) {
            count += 1;
        }
    }
    count
}

/// How many results have bytes.
fn count_results(results: &[ValType<'_>]) -> u32
    requires { Word (length (values (map (value []) (map value_of results.now)))) }
    ensures { result ≡ length (values (map (value []) (map value_of results.now))) }
{
    let mut count = 0;
    for ty in results {
        if has_bytes(ty) {
            count += 1;
        }
    }
    count
}

/// Appends the count of parameters, and their types.
fn push_params(alloc: Global, out: &mut Vec<u8>, params: &[Param<'_>]) -> Result<(), NoMemory>
    requires { Word (length (values_of (map param_of params.now))) }
    ensures { OnOk result (out.new.items ≡ out.old.items ++ counted (map core_bytes (values_of (map param_of params.now)))) }
{
    uleb(alloc, out, count_params(params))?;
    for param in params {
        push_value(alloc, out, &param.ty)?;
    }
    Ok(())
}

/// Appends the count of results, and their types.
fn push_results(alloc: Global, out: &mut Vec<u8>, results: &[ValType<'_>]) -> Result<(), NoMemory>
    requires { Word (length (values (map (value []) (map value_of results.now)))) }
    ensures { OnOk result (out.new.items ≡ out.old.items ++ counted (map core_bytes (values (map (value []) (map value_of results.now))))) }
{
    uleb(alloc, out, count_results(results))?;
    for ty in results {
        push_value(alloc, out, ty)?;
    }
    Ok(())
}

/// Appends a function type: 60, the parameters, the results.
pub(crate) fn push_function_type(
    alloc: Global,
    out: &mut Vec<u8>,
    ty: &FunctionType<'_>,
) -> Result<(), NoMemory>
    requires { FitsSignature (signature_of [] (type_of ty.now)) }
    ensures { OnOk result (out.new.items ≡ out.old.items ++ function_type_bytes (signature_of [] (type_of ty.now))) }
{
    push_byte(out, 0x60)?;
    push_params(alloc, out, ty.params.as_slice())?;
    push_results(alloc, out, ty.results.as_slice())
}
