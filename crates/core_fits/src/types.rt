//! The sizes of function types.

ghost use Rattle.std.specs.Prelude.{◌≡◌, ◌∷◌, [], map, length, true};
ghost use Rattle.comp_wire.specs.Spelled.{core_bytes};
ghost use Rattle.core_model.specs.Types.{signature_of};
ghost use Rattle.core_model.specs.Bytes.{value, values, counted, function_type_bytes};
ghost use Rattle.core_syntax.specs.Fields.{param_of, value_of, type_of};
ghost use Rattle.core_syntax.specs.Measures.{capped};
ghost use Rattle.core_write.specs.Written.{values_of};
ghost use Rattle.core_fits.specs.Sizes.{IsSize};

use crate::lengths::add;
use crate::size::Size;
use crate::values::value_length;
use core_syntax::{FunctionType, Param, ValType};
use core_write::has_bytes;

/// The size of a value type, as far as it has bytes.
#[tactic(auto, using(crate::proofs::ValuesSized::value_with, crate::proofs::ValuesSized::value_without))]
fn value_size(ty: &ValType<'_>) -> Size
    ensures { IsSize result (map core_bytes (values (value [] (value_of ty.now) ∷ []))) true }
{
    if has_bytes(ty) {
        Size::one(value_length(ty), true)
    } else {
        Size::none()
    }
}

/// The size of the types of parameters.
fn params_size(params: &[Param<'_>]) -> Size
    ensures { IsSize result (map core_bytes (values_of (map param_of params.now))) true }
{
    let mut size = Size::none();
    for param in params {
        size = size.and(value_size(&param.ty));
    }
    size
}

/// The size of the types of results.
fn results_size(results: &[ValType<'_>]) -> Size
    ensures { IsSize result (map core_bytes (values (map (value []) (map value_of results.now)))) true }
{
    let mut size = Size::none();
    for ty in results {
        size = size.and(value_size(ty));
    }
    size
}

/// The length of the count of parameters and their types.
fn params_length(params: &[Param<'_>]) -> u64
    ensures { result ≡ capped (length (counted (map core_bytes (values_of (map param_of params.now))))) }
{
    params_size(params).counted_length()
}

/// The length of the count of results and their types.
fn results_length(results: &[ValType<'_>]) -> u64
    ensures { result ≡ capped (length (counted (map core_bytes (values (map (value []) (map value_of results.now)))))) }
{
    results_size(results).counted_length()
}

/// The length of a function type.
#[tactic(auto, using(crate::proofs::ValuesSized::type_long))]
pub(crate) fn function_type_length(ty: &FunctionType<'_>) -> u64
    ensures { result ≡ capped (length (function_type_bytes (signature_of [] (type_of ty.now)))) }
{
    let params = params_length(ty.params.as_slice());
    let results = results_length(ty.results.as_slice());
    add(1, add(params, results))
}
