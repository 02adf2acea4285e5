//! Value types and limits. A name counts as a type without bytes: it is no part of resolved fields.

ghost use Rattle.std.specs.Prelude.{◌≡◌, ◌∷◌, [], ◌++◌, true, false, OnOk};
ghost use Rattle.comp_wire.specs.Spelled.{core_bytes};
ghost use Rattle.core_model.specs.Bytes.{has_bytes as is_written, value, value_bytes, limits_bytes, mutable_byte};
ghost use Rattle.core_model.specs.Types.{same_value as is_same};
ghost use Rattle.core_syntax.specs.Fields.{value_of, ref_value, heap_value, limits_of};

use crate::bytes::{push_byte, push_bytes};
use comp_wire::{NoMemory, sleb, uleb};
use core_syntax::{HeapType, Limits, RefType, ValType};
use std::alloc::Global;
use wast_parser::Index;

/// Whether a value type has bytes.
pub fn has_bytes(ty: &ValType<'_>) -> bool
    ensures { result ≡ is_written (value [] (value_of ty.now)) }
{
    match ty {
        ValType::I32 => true,
        ValType::I64 => true,
        ValType::F32 => true,
        ValType::F64 => true,
        ValType::V128 => true,
        ValType::Ref(reference) => is_numbered(reference),
        ValType::Other(_) => false,
    }
}

fn is_numbered(ty: &RefType<'_>) -> bool
    ensures { result ≡ is_written (value [] (ref_value ty.now)) }
{
    match &ty.heap {
        HeapType::Func => true,
        HeapType::Extern => true,
        HeapType::Concrete(Index::Num(_, _)) => true,
        HeapType::Concrete(Index::Id(_)) => false,
    }
}

/// Whether two value types that have bytes are one.
pub(crate) fn same_value(a: &ValType<'_>, b: &ValType<'_>) -> bool
    requires first { is_written (value [] (value_of a.now)) ≡ true }
    requires second { is_written (value [] (value_of b.now)) ≡ true }
    ensures { result ≡ is_same (value [] (value_of a.now)) (value [] (value_of b.now)) }
{
    a == b
}

/// Appends a reference type that may be null.
fn push_nullable(alloc: Global, out: &mut Vec<u8>, heap: &HeapType<'_>) -> Result<(), NoMemory>
    ensures { OnOk result (out.new.items ≡ out.old.items ++ value_bytes [] (heap_value true heap.now)) }
{
    match heap {
        HeapType::Func => push_byte(out, 0x70),
        HeapType::Extern => push_byte(out, 0x6f),
        HeapType::Concrete(Index::Num(number, _)) => {
            push_byte(out, 0x63)?;
            sleb(alloc, out, *number as i64)
        }
        HeapType::Concrete(Index::Id(_)) => Ok(()),
    }
}

/// Appends a reference type that is never null.
fn push_non_null(alloc: Global, out: &mut Vec<u8>, heap: &HeapType<'_>) -> Result<(), NoMemory>
    ensures { OnOk result (out.new.items ≡ out.old.items ++ value_bytes [] (heap_value false heap.now)) }
{
    match heap {
        HeapType::Func => push_bytes(out, &[0x64, 0x70]),
        HeapType::Extern => push_bytes(out, &[0x64, 0x6f]),
        HeapType::Concrete(Index::Num(number, _)) => {
            push_byte(out, 0x64)?;
            sleb(alloc, out, *number as i64)
        }
        HeapType::Concrete(Index::Id(_)) => Ok(()),
    }
}

/// Appends a reference type.
pub(crate) fn push_reference(
    alloc: Global,
    out: &mut Vec<u8>,
    ty: &RefType<'_>,
) -> Result<(), NoMemory>
    ensures { OnOk result (out.new.items ≡ out.old.items ++ value_bytes [] (ref_value ty.now)) }
{
    if ty.nullable {
        push_nullable(alloc, out, &ty.heap)
    } else {
        push_non_null(alloc, out, &ty.heap)
    }
}

/// Appends a value type.
pub(crate) fn push_value(alloc: Global, out: &mut Vec<u8>, ty: &ValType<'_>) -> Result<(), NoMemory>
    ensures { OnOk result (out.new.items ≡ out.old.items ++ value_bytes [] (value_of ty.now)) }
{
    match ty {
        ValType::I32 => push_byte(out, 0x7f),
        ValType::I64 => push_byte(out, 0x7e),
        ValType::F32 => push_byte(out, 0x7d),
        ValType::F64 => push_byte(out, 0x7c),
        ValType::V128 => push_byte(out, 0x7b),
        ValType::Ref(reference) => push_reference(alloc, out, reference),
        ValType::Other(_) => Ok(()),
    }
}

/// Appends limits: 00 and the least, or 01, the least and the most.
pub(crate) fn push_limits(alloc: Global, out: &mut Vec<u8>, limits: &Limits) -> Result<(), NoMemory>
    ensures { OnOk result (out.new.items ≡ out.old.items ++ limits_bytes (limits_of limits.now)) }
{
    match limits.max {
        None => {
            push_byte(out, 0x00)?;
            uleb(alloc, out, limits.min)
        }
        Some(most) => {
            push_byte(out, 0x01)?;
            uleb(alloc, out, limits.min)?;
            uleb(alloc, out, most)
        }
    }
}

/// Appends 01 where a global is mutable, else 00.
pub(crate) fn push_mutable(out: &mut Vec<u8>, mutable: bool) -> Result<(), NoMemory>
    ensures { OnOk result (out.new.items ≡ out.old.items ++ mutable_byte mutable ∷ []) }
{
    if mutable {
        push_byte(out, 0x01)
    } else {
        push_byte(out, 0x00)
    }
}
