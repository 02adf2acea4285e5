//! Uses of types.

ghost use Rattle.std.specs.Prelude.{◌≡◌, option_map};
ghost use Rattle.comp_model.specs.declared.Space.TheVariants.{CoreType};
ghost use Rattle.core_model.specs.Items.{ids_in, meant};
ghost use Rattle.core_model.specs.Types.{Signature, signature_of, defined, is_type, written_types};
ghost use Rattle.core_model.specs.Rule.{first_broken, is_written, mismatch, unknown_in_option, unknown_in_signature, broken_use, broken_entity};
ghost use Rattle.core_syntax.specs.Ids.{reference_of};
ghost use Rattle.core_syntax.specs.Fields.{type_of, def_of, use_of, entity_of};
ghost use Rattle.core_checks.specs.Refusals.{Tells};

use crate::refusals::broken;
use crate::scope::ModuleScope;
use crate::signatures::is_same_type;
use crate::values::{check_name, check_reference, check_type, check_value};
use core_names::Namespace;
use core_syntax::{FunctionType, ItemKind, TypeDef, TypeUse};
use wast_parser::{CoreRule, Error, Index};

/// The name in the index of a type use.
fn check_index<'a>(scope: &ModuleScope<'_, 'a>, index: &Option<Index<'a>>) -> Result<(), Error>
    ensures { Tells (unknown_in_option scope.now (option_map reference_of index.now)) result }
{
    match index {
        None => Ok(()),
        Some(index) => check_name(scope.types(), index),
    }
}

/// The names in the signature of a type use.
fn check_signature<'a>(
    scope: &ModuleScope<'_, 'a>,
    signature: &Option<FunctionType<'a>>,
) -> Result<(), Error>
    ensures { Tells (first_broken (unknown_in_signature scope.now (option_map type_of signature.now))) result }
{
    match signature {
        None => Ok(()),
        Some(ty) => check_type(scope.types(), ty),
    }
}

/// Whether a type definition is this function type.
fn defines<'a>(types: &Namespace<'a>, def: &TypeDef<'a>, ty: &FunctionType<'a>) -> bool
    ensures { result ≡ is_type (signature_of types.now (type_of ty.now)) (defined types.now (def_of def.now)) }
{
    match def {
        TypeDef::Func(written) => is_same_type(types, ty, written),
        TypeDef::Other(_) => false,
    }
}

/// Whether the written type at an index is this function type.
fn is_written_at<'a>(scope: &ModuleScope<'_, 'a>, index: &Index<'a>, ty: &FunctionType<'a>) -> bool
    ensures { result ≡ is_written (written_types scope.now) (meant (ids_in CoreType scope.now) (reference_of index.now)) (signature_of (ids_in CoreType scope.now) (type_of ty.now)) }
{
    match scope.types().try_resolve(index) {
        None => false,
        Some(number) => match scope.type_def(number) {
            None => false,
            Some(def) => defines(scope.types(), def, ty),
        },
    }
}

/// An index beside a signature that isn't that of the written type at the index is `TypeMismatch`, at the index.
fn check_match<'a>(scope: &ModuleScope<'_, 'a>, use_: &TypeUse<'a>) -> Result<(), Error>
    ensures { Tells (mismatch scope.now (option_map reference_of use_.now.index) (option_map type_of use_.now.inline)) result }
{
    match &use_.index {
        None => Ok(()),
        Some(index) => match &use_.inline {
            None => Ok(()),
            Some(ty) => {
                if is_written_at(scope, index, ty) {
                    Ok(())
                } else {
                    Err(broken(CoreRule::TypeMismatch, index.span()))
                }
            }
        },
    }
}

/// A type use: the name in its index, those in its signature, then whether the two agree (WebAssembly, text format, Type Uses).
pub(crate) fn check_use<'a>(scope: &ModuleScope<'_, 'a>, use_: &TypeUse<'a>) -> Result<(), Error>
    ensures { Tells (first_broken (broken_use scope.now (use_of use_.now))) result }
{
    check_index(scope, &use_.index)?;
    check_signature(scope, &use_.inline)?;
    check_match(scope, use_)
}

/// What an import asks for.
pub(crate) fn check_kind<'a>(scope: &ModuleScope<'_, 'a>, kind: &ItemKind<'a>) -> Result<(), Error>
    ensures { Tells (first_broken (broken_entity scope.now (entity_of kind.now))) result }
{
    match kind {
        ItemKind::Func(use_) => check_use(scope, use_),
        ItemKind::Table(_, ty) => check_reference(scope.types(), ty),
        ItemKind::Memory(_) => Ok(()),
        ItemKind::Global(ty, _) => check_value(scope.types(), ty),
        ItemKind::Other(_) => Ok(()),
    }
}
