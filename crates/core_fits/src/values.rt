//! The lengths of value types and limits. A name counts as a type without bytes: it is no part of resolved fields.

ghost use Rattle.std.specs.Prelude.{◌≡◌, [], true, false, length};
ghost use Rattle.core_model.specs.Bytes.{value_bytes, limits_bytes};
ghost use Rattle.core_syntax.specs.Fields.{value_of, ref_value, heap_value, limits_of};

use core_syntax::{HeapType, Limits, RefType, ValType};
use leb_lengths::{sleb_length, uleb_length};
use wast_parser::Index;

/// The length of a reference type that may be null.
fn nullable_length(heap: &HeapType<'_>) -> u64
    ensures { result ≡ length (value_bytes [] (heap_value true heap.now)) }
{
    match heap {
        HeapType::Func => 1,
        HeapType::Extern => 1,
        HeapType::Concrete(Index::Num(number, _)) => 1 + sleb_length(*number as u64),
        HeapType::Concrete(Index::Id(_)) => 0,
    }
}

/// The length of a reference type that is never null.
fn non_null_length(heap: &HeapType<'_>) -> u64
    ensures { result ≡ length (value_bytes [] (heap_value false heap.now)) }
{
    match heap {
        HeapType::Func => 2,
        HeapType::Extern => 2,
        HeapType::Concrete(Index::Num(number, _)) => 1 + sleb_length(*number as u64),
        HeapType::Concrete(Index::Id(_)) => 0,
    }
}

/// The length of a reference type.
pub(crate) fn reference_length(ty: &RefType<'_>) -> u64
    ensures { result ≡ length (value_bytes [] (ref_value ty.now)) }
{
    if ty.nullable {
        nullable_length(&ty.heap)
    } else {
        non_null_length(&ty.heap)
    }
}

/// The length of a value type.
pub(crate) fn value_length(ty: &ValType<'_>) -> u64
    ensures { result ≡ length (value_bytes [] (value_of ty.now)) }
{
    match ty {
        ValType::I32 => 1,
        ValType::I64 => 1,
        ValType::F32 => 1,
        ValType::F64 => 1,
        ValType::V128 => 1,
        ValType::Ref(reference) => reference_length(reference),
        ValType::Other(_) => 0,
    }
}

/// The length of limits: a byte and the least, and the most where there is one.
pub(crate) fn limits_length(limits: &Limits) -> u64
    ensures { result ≡ length (limits_bytes (limits_of limits.now)) }
{
    let least = uleb_length(limits.min as u64);
    match &limits.max {
        None => 1 + least,
        Some(most) => 1 + least + uleb_length(*most as u64),
    }
}
