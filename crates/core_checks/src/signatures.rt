//! Whether two function types are one.

ghost use Rattle.std.specs.Prelude.{◌≡◌, map};
ghost use Rattle.core_model.specs.Types.{resolved_value, signature_of, same_value, same_values, same_signature};
ghost use Rattle.core_syntax.specs.Fields.{value_of, param_of, type_of};

use core_names::{Namespace, resolved_type};
use core_syntax::{FunctionType, Param, ValType};

/// Whether two value types are one.
fn are_same<'a>(types: &Namespace<'a>, a: &ValType<'a>, b: &ValType<'a>) -> bool
    ensures { result ≡ same_value (resolved_value types.now (value_of a.now)) (resolved_value types.now (value_of b.now)) }
{
    resolved_type(types, a) == resolved_type(types, b)
}

/// Whether parameters have the same types.
fn are_same_params<'a>(types: &Namespace<'a>, a: &[Param<'a>], b: &[Param<'a>]) -> bool
    ensures { result ≡ same_values (map (λ p. resolved_value types.now p.value) (map param_of a.now)) (map (λ p. resolved_value types.now p.value) (map param_of b.now)) }
{
    if a.len() != b.len() {
        return false;
    }
    for place in 0..a.len() {
        if !are_same(types, &a[place].ty, &b[place].ty) {
            return false;
        }
    }
    true
}

/// Whether results are the same.
fn are_same_results<'a>(types: &Namespace<'a>, a: &[ValType<'a>], b: &[ValType<'a>]) -> bool
    ensures { result ≡ same_values (map (resolved_value types.now) (map value_of a.now)) (map (resolved_value types.now) (map value_of b.now)) }
{
    if a.len() != b.len() {
        return false;
    }
    for place in 0..a.len() {
        if !are_same(types, &a[place], &b[place]) {
            return false;
        }
    }
    true
}

/// Whether two function types have the same parameters and results, whatever the names of the parameters. Two names that are unknown
/// count as one type.
pub(crate) fn is_same_type<'a>(
    types: &Namespace<'a>,
    a: &FunctionType<'a>,
    b: &FunctionType<'a>,
) -> bool
    ensures { result ≡ same_signature (signature_of types.now (type_of a.now)) (signature_of types.now (type_of b.now)) }
{
    are_same_params(types, a.params.as_slice(), b.params.as_slice())
        && are_same_results(types, a.results.as_slice(), b.results.as_slice())
}
