//! The bytes of value types, kinds, and names.

ghost use Rattle.std.specs.Prelude.{◌≡◌, ◌∷◌, [], ◌++◌, length, OnOk, true, false};
ghost use Rattle.comp_model.specs.Leb.{sleb as signed_bytes, uleb as unsigned_bytes};
ghost use Rattle.comp_model.specs.Payloads.{framed, sort_bytes, core_sort_byte};
ghost use Rattle.comp_wire.specs.Sections.{Word};
ghost use Rattle.comp_wire.specs.Table.{value as value_field, optional, result as result_field};
ghost use Rattle.comp_wire.specs.Spelled.{spell_leaf, core_bytes};
ghost use Rattle.comp_wire.specs.Values.{value_of, optional_of, primitive_byte_of, core_value_of, heap_of, space_of, core_space_of, outer_space_of, bit};

use crate::append::{append, append_byte, append_framed};
use crate::kinds::{ComponentExportKind, ComponentOuterAliasKind, ExportKind};
use crate::leb::{sleb, uleb};
use crate::memory::NoMemory;
use crate::values::{ComponentValType, PrimitiveValType, WireHeap, WireVal};
use std::alloc::Global;

/// The byte of a primitive type.
pub fn primitive_byte(primitive: PrimitiveValType) -> u8
    ensures { result ≡ primitive_byte_of primitive }
{
    match primitive {
        PrimitiveValType::Bool => 0x7f,
        PrimitiveValType::S8 => 0x7e,
        PrimitiveValType::U8 => 0x7d,
        PrimitiveValType::S16 => 0x7c,
        PrimitiveValType::U16 => 0x7b,
        PrimitiveValType::S32 => 0x7a,
        PrimitiveValType::U32 => 0x79,
        PrimitiveValType::S64 => 0x78,
        PrimitiveValType::U64 => 0x77,
        PrimitiveValType::F32 => 0x76,
        PrimitiveValType::F64 => 0x75,
        PrimitiveValType::Char => 0x74,
        PrimitiveValType::String => 0x73,
        PrimitiveValType::ErrorContext => 0x64,
    }
}

/// Appends a value type.
pub fn append_value(
    alloc: Global,
    out: &mut Vec<u8>,
    value: ComponentValType,
) -> Result<(), NoMemory>
    ensures { OnOk result (out.new.items ≡ out.old.items ++ spell_leaf (value_of value) value_field) }
{
    match value {
        ComponentValType::Primitive(primitive) => append_byte(out, primitive_byte(primitive)),
        ComponentValType::Ty(index) => sleb(alloc, out, index as i64),
    }
}

/// Appends a byte and a value type.
pub fn append_value_behind(
    alloc: Global,
    out: &mut Vec<u8>,
    byte: u8,
    value: ComponentValType,
) -> Result<(), NoMemory>
    ensures { OnOk result (out.new.items ≡ out.old.items ++ byte ∷ spell_leaf (value_of value) value_field) }
{
    append_byte(out, byte)?;
    append_value(alloc, out, value)
}

/// Appends a value type behind 01, or 00 where there is none.
pub fn append_optional(
    alloc: Global,
    out: &mut Vec<u8>,
    value: Option<ComponentValType>,
) -> Result<(), NoMemory>
    ensures { OnOk result (out.new.items ≡ out.old.items ++ spell_leaf (optional_of value_of value) (optional value_field)) }
{
    match value {
        None => append_byte(out, 0x00),
        Some(value) => append_value_behind(alloc, out, 0x01, value),
    }
}

/// Appends the result of a function: 00 and its type, or 01 00 where there is none.
pub fn append_result(
    alloc: Global,
    out: &mut Vec<u8>,
    value: Option<ComponentValType>,
) -> Result<(), NoMemory>
    ensures { OnOk result (out.new.items ≡ out.old.items ++ spell_leaf (optional_of value_of value) (result_field value_field)) }
{
    match value {
        None => append(out, &[0x01, 0x00]),
        Some(value) => append_value_behind(alloc, out, 0x00, value),
    }
}

/// Appends 01 for true, 00 for false.
pub fn append_flag(out: &mut Vec<u8>, value: bool) -> Result<(), NoMemory>
    ensures { OnOk result (out.new.items ≡ out.old.items ++ bit value ∷ []) }
{
    if value {
        append_byte(out, 0x01)
    } else {
        append_byte(out, 0x00)
    }
}

/// Appends a byte and the index of a core type, as it stands in a reference.
fn append_heap_index(alloc: Global, out: &mut Vec<u8>, byte: u8, index: u32) -> Result<(), NoMemory>
    ensures { OnOk result (out.new.items ≡ out.old.items ++ byte ∷ signed_bytes index) }
{
    append_byte(out, byte)?;
    sleb(alloc, out, index as i64)
}

/// Appends a core reference that may be null.
fn append_nullable(alloc: Global, out: &mut Vec<u8>, heap: WireHeap) -> Result<(), NoMemory>
    ensures { OnOk result (out.new.items ≡ out.old.items ++ core_bytes (heap_of true heap)) }
{
    match heap {
        WireHeap::Func => append_byte(out, 0x70),
        WireHeap::Extern => append_byte(out, 0x6f),
        WireHeap::Concrete(index) => append_heap_index(alloc, out, 0x63, index),
    }
}

/// Appends a core reference that is never null.
fn append_non_null(alloc: Global, out: &mut Vec<u8>, heap: WireHeap) -> Result<(), NoMemory>
    ensures { OnOk result (out.new.items ≡ out.old.items ++ core_bytes (heap_of false heap)) }
{
    match heap {
        WireHeap::Func => append(out, &[0x64, 0x70]),
        WireHeap::Extern => append(out, &[0x64, 0x6f]),
        WireHeap::Concrete(index) => append_heap_index(alloc, out, 0x64, index),
    }
}

/// Appends a core reference.
fn append_reference(
    alloc: Global,
    out: &mut Vec<u8>,
    nullable: bool,
    heap: WireHeap,
) -> Result<(), NoMemory>
    ensures { OnOk result (out.new.items ≡ out.old.items ++ core_bytes (heap_of nullable heap)) }
{
    if nullable {
        append_nullable(alloc, out, heap)
    } else {
        append_non_null(alloc, out, heap)
    }
}

/// Appends a core value type.
pub fn append_core_value(alloc: Global, out: &mut Vec<u8>, value: WireVal) -> Result<(), NoMemory>
    ensures { OnOk result (out.new.items ≡ out.old.items ++ core_bytes (core_value_of value)) }
{
    match value {
        WireVal::I32 => append_byte(out, 0x7f),
        WireVal::I64 => append_byte(out, 0x7e),
        WireVal::F32 => append_byte(out, 0x7d),
        WireVal::F64 => append_byte(out, 0x7c),
        WireVal::V128 => append_byte(out, 0x7b),
        WireVal::Ref { nullable, heap } => append_reference(alloc, out, nullable, heap),
    }
}

/// Appends a byte and a core value type.
pub fn append_core_value_behind(
    alloc: Global,
    out: &mut Vec<u8>,
    byte: u8,
    value: WireVal,
) -> Result<(), NoMemory>
    ensures { OnOk result (out.new.items ≡ out.old.items ++ byte ∷ core_bytes (core_value_of value)) }
{
    append_byte(out, byte)?;
    append_core_value(alloc, out, value)
}

/// The byte of a core sort.
pub fn core_byte(kind: ExportKind) -> u8
    ensures { result ≡ core_sort_byte (core_space_of kind) }
{
    match kind {
        ExportKind::Func => 0x00,
        ExportKind::Table => 0x01,
        ExportKind::Memory => 0x02,
        ExportKind::Global => 0x03,
        ExportKind::Tag => 0x04,
    }
}

/// Appends the sort of a core item.
pub fn append_core_sort(out: &mut Vec<u8>, kind: ExportKind) -> Result<(), NoMemory>
    ensures { OnOk result (out.new.items ≡ out.old.items ++ sort_bytes (core_space_of kind)) }
{
    append(out, &[0x00, core_byte(kind)])
}

/// Appends the sort of an item.
pub fn append_sort(out: &mut Vec<u8>, kind: ComponentExportKind) -> Result<(), NoMemory>
    ensures { OnOk result (out.new.items ≡ out.old.items ++ sort_bytes (space_of kind)) }
{
    match kind {
        ComponentExportKind::Module => append(out, &[0x00, 0x11]),
        ComponentExportKind::Func => append_byte(out, 0x01),
        ComponentExportKind::Value => append_byte(out, 0x02),
        ComponentExportKind::Ty => append_byte(out, 0x03),
        ComponentExportKind::Component => append_byte(out, 0x04),
        ComponentExportKind::Instance => append_byte(out, 0x05),
    }
}

/// Appends the sort of an item of an outer scope.
pub fn append_outer_sort(out: &mut Vec<u8>, kind: ComponentOuterAliasKind) -> Result<(), NoMemory>
    ensures { OnOk result (out.new.items ≡ out.old.items ++ sort_bytes (outer_space_of kind)) }
{
    match kind {
        ComponentOuterAliasKind::CoreModule => append(out, &[0x00, 0x11]),
        ComponentOuterAliasKind::CoreType => append(out, &[0x00, 0x10]),
        ComponentOuterAliasKind::Ty => append_byte(out, 0x03),
        ComponentOuterAliasKind::Component => append_byte(out, 0x04),
    }
}

/// Appends a sort and an index.
pub fn append_sorted_index(
    alloc: Global,
    out: &mut Vec<u8>,
    kind: ComponentExportKind,
    index: u32,
) -> Result<(), NoMemory>
    ensures { OnOk result (out.new.items ≡ out.old.items ++ (sort_bytes (space_of kind) ++ unsigned_bytes index)) }
{
    append_sort(out, kind)?;
    uleb(alloc, out, index)
}

/// Appends a length and a text.
pub fn append_text(alloc: Global, out: &mut Vec<u8>, text: &str) -> Result<(), NoMemory>
    requires { Word (length text.now) }
    ensures { OnOk result (out.new.items ≡ out.old.items ++ framed text.now) }
{
    append_framed(alloc, out, text.as_bytes())
}

/// Appends a byte, a length and a text.
pub fn append_text_behind(
    alloc: Global,
    out: &mut Vec<u8>,
    byte: u8,
    text: &str,
) -> Result<(), NoMemory>
    requires { Word (length text.now) }
    ensures { OnOk result (out.new.items ≡ out.old.items ++ byte ∷ framed text.now) }
{
    append_byte(out, byte)?;
    append_text(alloc, out, text)
}

/// Appends the name of an import or export.
pub fn append_extern_text(alloc: Global, out: &mut Vec<u8>, text: &str) -> Result<(), NoMemory>
    requires { Word (length text.now) }
    ensures { OnOk result (out.new.items ≡ out.old.items ++ 0x00 ∷ framed text.now) }
{
    append_text_behind(alloc, out, 0x00, text)
}
