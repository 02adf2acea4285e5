//! Added types as fields.

ghost use Rattle.std.specs.Prelude.{◌≡◌, ◌≤◌, ◌++◌, ◌∷◌, [], map, drop, length, OnOk, IfOk};
ghost use Rattle.core_model.specs.Types.{nameless};
ghost use Rattle.core_model.specs.Resolved.{written_value, type_added};
ghost use Rattle.core_syntax.specs.Fields.{value_of, param_of, field_of, fields_of};
ghost use Rattle.core_names.specs.ResolvedTypes.{value};
ghost use Rattle.core_resolve.specs.Signatures.{signature as shown_signature};
ghost use Rattle.core_resolve.specs.AddedFields.{type_fields};

use crate::signature::Signature;
use crate::type_table::TypeTable;
use core_names::ResolvedType;
use core_syntax::{FunctionType, HeapType, ModuleField, Param, RefType, Type, TypeDef, ValType};
use std::alloc::{AllocError, Global};
use wast_parser::{Index, Span};

fn reference<'a>(nullable: bool, heap: HeapType<'a>) -> ValType<'a>
    ensures { value_of result ≡ value_of (ValType.Ref (record { nullable = nullable; heap = heap.entry })) }
{
    ValType::Ref(RefType { nullable, heap })
}

/// A value type as the tree has it. It stands at offset 0, as no text has it.
fn value_type<'a>(ty: &ResolvedType) -> ValType<'a>
    ensures { value_of result ≡ written_value (value ty.now) }
{
    let nowhere = Span::from_offset(0);
    match ty {
        ResolvedType::I32 => ValType::I32,
        ResolvedType::I64 => ValType::I64,
        ResolvedType::F32 => ValType::F32,
        ResolvedType::F64 => ValType::F64,
        ResolvedType::V128 => ValType::V128,
        ResolvedType::Func(nullable) => reference(*nullable, HeapType::Func),
        ResolvedType::Extern(nullable) => reference(*nullable, HeapType::Extern),
        ResolvedType::Concrete(nullable, index) => {
            reference(*nullable, HeapType::Concrete(Index::Num(*index, nowhere)))
        }
        ResolvedType::Other => ValType::Other(nowhere),
    }
}

/// Parameters of these types, without ids.
fn params_of<'a>(alloc: Global, types: &[ResolvedType]) -> Result<Vec<Param<'a>>, AllocError>
    ensures { IfOk result (λ v. map param_of v.items ≡ map (λ x. nameless (written_value x)) (map value types.now)) }
{
    let mut params = Vec::with_capacity(alloc, types.len())?;
    for ty in types {
        params.push(Param {
            id: None,
            name: None,
            ty: value_type(ty),
        })?;
    }
    Ok(params)
}

/// Results of these types.
fn results_of<'a>(alloc: Global, types: &[ResolvedType]) -> Result<Vec<ValType<'a>>, AllocError>
    ensures { IfOk result (λ v. map value_of v.items ≡ map written_value (map value types.now)) }
{
    let mut results = Vec::with_capacity(alloc, types.len())?;
    for ty in types {
        results.push(value_type(ty))?;
    }
    Ok(results)
}

/// A type as a field of its own, at offset 0 and without an id.
fn type_field<'a>(alloc: Global, signature: &Signature) -> Result<ModuleField<'a>, AllocError>
    ensures { IfOk result (λ f. field_of f ≡ type_added (shown_signature signature.now)) }
{
    let params = params_of(alloc, signature.params.as_slice())?;
    let results = results_of(alloc, signature.results.as_slice())?;
    Ok(ModuleField::Ty(Type {
        span: Span::from_offset(0),
        id: None,
        name: None,
        def: TypeDef::Func(FunctionType { params, results }),
    }))
}

/// Appends one item.
fn append<T: Drop>(items: &mut Vec<T>, item: T) -> Result<(), AllocError>
    ensures { OnOk result (items.new.items ≡ items.old.items ++ item ∷ []) }
{
    match items.push(item) {
        Ok(()) => Ok(()),
        Err(_) => Err(AllocError),
    }
}

/// Appends the types from an index on as fields, in order.
pub(crate) fn push_types<'a>(
    alloc: Global,
    fields: &mut Vec<ModuleField<'a>>,
    types: &TypeTable,
    from: usize,
) -> Result<(), AllocError>
    requires within { from ≤ length types.now }
    ensures { OnOk result (fields_of fields.new.items ≡ fields_of fields.old.items ++ type_fields (drop from types.now)) }
{
    for ty in types.types_from(from) {
        match ty {
            Some(signature) => append(fields, type_field(alloc, signature)?)?,
            None => {}
        }
    }
    Ok(())
}
