//! Value types with their names resolved, by which types are told apart.

ghost use Rattle.std.specs.Prelude.{◌≡◌};
ghost use Rattle.core_model.specs.Types.{resolved_value};
ghost use Rattle.core_syntax.specs.Fields.{concrete, ref_value, value_of};
ghost use Rattle.core_names.specs.ResolvedTypes.{value};

use crate::namespace::Namespace;
use core_syntax::{HeapType, RefType, ValType};
use wast_parser::Index;

/// A value type with its name resolved (WebAssembly, text format, Value Types).
#[derive(Clone, Copy, PartialEq, Eq, PartialOrd, Ord)]
pub enum ResolvedType {
    /// A number of 32 bits.
    I32,
    /// A number of 64 bits.
    I64,
    /// A floating-point number of 32 bits.
    F32,
    /// A floating-point number of 64 bits.
    F64,
    /// A vector of 128 bits.
    V128,
    /// A reference to a function, and whether it may be null.
    Func(bool),
    /// A reference to a value of the embedder, and whether it may be null.
    Extern(bool),
    /// A reference to a value of the type of an index, and whether it may be null.
    Concrete(bool, u32),
    /// Another one, or a reference by a name that no type bears.
    Other,
}

/// A reference to a type, with its name resolved.
fn resolved_concrete<'a>(types: &Namespace<'a>, nullable: bool, index: &Index<'a>) -> ResolvedType
    ensures { value result ≡ resolved_value types.now (concrete nullable index.now) }
{
    match types.try_resolve(index) {
        Some(number) => ResolvedType::Concrete(nullable, number),
        None => ResolvedType::Other,
    }
}

/// A reference type with its name resolved.
fn resolved_reference<'a>(types: &Namespace<'a>, ty: &RefType<'a>) -> ResolvedType
    ensures { value result ≡ resolved_value types.now (ref_value ty.now) }
{
    match &ty.heap {
        HeapType::Func => ResolvedType::Func(ty.nullable),
        HeapType::Extern => ResolvedType::Extern(ty.nullable),
        HeapType::Concrete(index) => resolved_concrete(types, ty.nullable, index),
    }
}

/// A value type with its name resolved: a name becomes the index of the type that bears it. Types of one resolved type are the same.
pub fn resolved_type<'a>(types: &Namespace<'a>, ty: &ValType<'a>) -> ResolvedType
    ensures { value result ≡ resolved_value types.now (value_of ty.now) }
{
    match ty {
        ValType::I32 => ResolvedType::I32,
        ValType::I64 => ResolvedType::I64,
        ValType::F32 => ResolvedType::F32,
        ValType::F64 => ResolvedType::F64,
        ValType::V128 => ResolvedType::V128,
        ValType::Ref(reference) => resolved_reference(types, reference),
        ValType::Other(_) => ResolvedType::Other,
    }
}
