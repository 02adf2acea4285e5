//! The bytes of single leaves, by their fields. A leaf that a field doesn't spell has none.

ghost use Rattle.std.specs.Prelude.{◌≡◌, ◌<◌, ◌∷◌, [], length, map};
ghost use Rattle.comp_model.specs.Core.{Reach, counted};
ghost use Rattle.comp_model.specs.Model.{text, number, kind, core_value, ref, index, place, absent, result_count};
ghost use Rattle.comp_model.specs.Payloads.{framed, sort_bytes, core_sort_byte};
ghost use Rattle.comp_scopes.specs.Resolved.{binary_of_leaf};
ghost use Rattle.comp_tree.specs.Model.{joined, core_at};
ghost use Rattle.comp_wire.specs.Spelled.{spell_leaf, core_bytes, FitsLeaf};
ghost use Rattle.byte_table.specs.Lines.{field_of};
ghost use Rattle.tree_write.specs.Kept.{put};
ghost use Rattle.tree_write.specs.Wire.{wire_value, wire_reference, the_encoding, Asked};

use crate::core_bytes::CoreBytes;
use crate::numbers::{close, write_signed, write_text, write_unsigned};
use crate::sink::Sink;
use byte_table::Field;
use comp_model::Space;
use comp_tree::CoreValue;
use wast_parser::Index;

/// The byte of a core sort.
fn core_sort(space: Space) -> u8
    ensures { result ≡ core_sort_byte space }
{
    match space {
        Space::CoreFunc => 0x00,
        Space::CoreTable => 0x01,
        Space::CoreMemory => 0x02,
        Space::CoreGlobal => 0x03,
        Space::CoreTag => 0x04,
        Space::CoreType => 0x10,
        Space::CoreModule => 0x11,
        Space::CoreInstance => 0x12,
        _ => 0x00,
    }
}

/// Writes a sort.
pub fn write_sort<S: Sink>(sink: &mut S, space: Space)
    ensures { S.kept sink.new ≡ put (sort_bytes space) (S.kept sink.old) }
{
    match space {
        Space::Func => sink.byte(0x01),
        Space::Value => sink.byte(0x02),
        Space::Ty => sink.byte(0x03),
        Space::Component => sink.byte(0x04),
        Space::Instance => sink.byte(0x05),
        _ => sink.bytes(&[0x00, core_sort(space)]),
    }
}

/// Writes a text.
#[inline(always)]
#[tactic(auto, using(crate::proofs::Puts::put_put, crate::proofs::Puts::put_none))]
pub fn write_text_leaf<S: Sink>(sink: &mut S, value: &str, field: &Field)
    ensures { S.kept sink.new ≡ put (spell_leaf (text value.now) (field_of field.now)) (S.kept sink.old) }
{
    match field {
        Field::Str => write_text(sink, value),
        Field::ExternName => {
            write_text(sink, value);
            sink.byte(0x00);
        }
        Field::Rest => sink.bytes(value.as_bytes()),
        _ => {}
    }
}

/// Writes pieces of a text, one behind the other.
#[tactic(auto, using(crate::proofs::Puts::put_put, crate::proofs::Puts::put_none))]
fn write_joined<S: Sink>(sink: &mut S, pieces: &[&[u8]])
    ensures { S.kept sink.new ≡ put (joined pieces.now) (S.kept sink.old) }
{
    for i in (0..pieces.len()).rev() {
        sink.bytes(pieces[i]);
    }
}

/// Writes a text in pieces, behind its length.
pub fn write_framed_pieces<S: Sink>(sink: &mut S, pieces: &[&[u8]])
    ensures { S.kept sink.new ≡ put (framed (joined pieces.now)) (S.kept sink.old) }
{
    let end = sink.length();
    write_joined(sink, pieces);
    close(sink, end);
}

/// Writes a text in pieces.
#[inline(never)]
#[tactic(auto, using(crate::proofs::Puts::put_put, crate::proofs::Puts::put_none))]
pub fn write_pieces_leaf<S: Sink>(sink: &mut S, pieces: &[&[u8]], field: &Field)
    ensures { S.kept sink.new ≡ put (spell_leaf (text (joined pieces.now)) (field_of field.now)) (S.kept sink.old) }
{
    match field {
        Field::Str => write_framed_pieces(sink, pieces),
        Field::ExternName => {
            write_framed_pieces(sink, pieces);
            sink.byte(0x00);
        }
        Field::Rest => write_joined(sink, pieces),
        _ => {}
    }
}

/// Writes a number below 256 in one byte.
#[inline(always)]
fn write_small<S: Sink>(sink: &mut S, value: u32)
    ensures { value < 256 → S.kept sink.new ≡ put (value ∷ []) (S.kept sink.old) }
{
    if value < 256 {
        sink.byte(value as u8);
    }
}

/// Writes a number.
#[inline(always)]
#[tactic(auto, using(crate::proofs::Puts::put_none))]
pub fn write_number<S: Sink>(sink: &mut S, value: u32, field: &Field)
    ensures { Asked (field_of field.now) (FitsLeaf (number value) (field_of field.now)) → S.kept sink.new ≡ put (spell_leaf (number value) (field_of field.now)) (S.kept sink.old) }
{
    match field {
        Field::Unsigned => write_unsigned(sink, value as u64),
        Field::PrimitiveByte => write_small(sink, value),
        Field::Value => write_small(sink, value),
        Field::Flag => write_small(sink, value),
        Field::AsyncByte => sink.byte(if value == 0 { 0x40 } else { 0x43 }),
        _ => {}
    }
}

/// Writes a kind.
#[inline(never)]
#[tactic(auto, using(crate::proofs::Puts::put_none))]
pub fn write_kind<S: Sink>(sink: &mut S, space: Space, field: &Field)
    ensures { S.kept sink.new ≡ put (spell_leaf (kind space) (field_of field.now)) (S.kept sink.old) }
{
    match field {
        Field::Sort => write_sort(sink, space),
        Field::CoreSort => write_sort(sink, space),
        _ => {}
    }
}

/// Writes a reference to a value of the core type of an index.
#[tactic(auto, using(crate::proofs::Puts::put_put, crate::proofs::Puts::put_none))]
fn write_core_reference<S: Sink>(sink: &mut S, nullable: bool, index: &Index<'_>)
    ensures { (reach : Reach) → S.kept sink.new ≡ put (core_bytes (wire_reference nullable reach index.now)) (S.kept sink.old) }
{
    match index {
        Index::Num(number, _) => {
            write_signed(sink, *number);
            sink.byte(if nullable { 0x63 } else { 0x64 });
        }
        Index::Id(_) => {}
    }
}

/// Writes a core value type.
#[tactic(auto, using(crate::proofs::Puts::put_put, crate::proofs::Puts::put_none))]
fn write_core_value<S: Sink>(sink: &mut S, value: &CoreValue<'_, '_>)
    ensures { S.kept sink.new ≡ put (core_bytes (wire_value value.now)) (S.kept sink.old) }
{
    match value {
        CoreValue::I32 => sink.byte(0x7f),
        CoreValue::I64 => sink.byte(0x7e),
        CoreValue::F32 => sink.byte(0x7d),
        CoreValue::F64 => sink.byte(0x7c),
        CoreValue::V128 => sink.byte(0x7b),
        CoreValue::RefFunc(true) => sink.byte(0x70),
        CoreValue::RefFunc(false) => sink.bytes(&[0x64, 0x70]),
        CoreValue::RefExtern(true) => sink.byte(0x6f),
        CoreValue::RefExtern(false) => sink.bytes(&[0x64, 0x6f]),
        CoreValue::RefConcrete(nullable, concrete) => {
            write_core_reference(sink, *nullable, &concrete.index)
        }
        CoreValue::Other => {}
    }
}

/// Writes a core value type.
#[inline(never)]
#[tactic(auto, using(crate::proofs::Puts::put_none))]
pub fn write_core_value_leaf<S: Sink>(sink: &mut S, value: &CoreValue<'_, '_>, field: &Field)
    ensures { S.kept sink.new ≡ put (spell_leaf (core_value (wire_value value.now)) (field_of field.now)) (S.kept sink.old) }
{
    match field {
        Field::CoreType => write_core_value(sink, value),
        _ => {}
    }
}

/// Writes an index.
#[inline(always)]
#[tactic(auto, using(crate::proofs::Puts::put_put, crate::proofs::Puts::put_none))]
pub fn write_index<S: Sink>(sink: &mut S, space: Space, value: u32, field: &Field)
    ensures { S.kept sink.new ≡ put (spell_leaf (ref space (index value)) (field_of field.now)) (S.kept sink.old) }
{
    match field {
        Field::IndexIn(_) => write_unsigned(sink, value as u64),
        Field::AnyIndex => write_unsigned(sink, value as u64),
        Field::SortedIndex => {
            write_unsigned(sink, value as u64);
            write_sort(sink, space);
        }
        Field::CoreSortedIndex => {
            write_unsigned(sink, value as u64);
            sink.byte(core_sort(space));
        }
        Field::Value => write_signed(sink, value),
        _ => {}
    }
}

/// Writes how many scopes outward.
#[inline(never)]
#[tactic(auto, using(crate::proofs::Puts::put_none))]
pub fn write_outward<S: Sink>(sink: &mut S, value: u32, field: &Field)
    ensures { S.kept sink.new ≡ put (spell_leaf (place (counted 0 value)) (field_of field.now)) (S.kept sink.old) }
{
    match field {
        Field::Outward => write_unsigned(sink, value as u64),
        _ => {}
    }
}

/// Writes a part that is missing.
#[inline(never)]
#[tactic(auto, using(crate::proofs::Puts::put_none))]
pub fn write_absent<S: Sink>(sink: &mut S, field: &Field)
    ensures { S.kept sink.new ≡ put (spell_leaf absent (field_of field.now)) (S.kept sink.old) }
{
    match field {
        Field::Optional(_) => sink.byte(0x00),
        Field::Result(_) => sink.bytes(&[0x01, 0x00]),
        Field::Presence => sink.byte(0x00),
        _ => {}
    }
}

/// Writes how many results there are.
#[inline(never)]
#[tactic(auto, using(crate::proofs::Puts::put_none))]
pub fn write_results<S: Sink>(sink: &mut S, count: usize, field: &Field)
    ensures { S.kept sink.new ≡ put (spell_leaf (result_count count) (field_of field.now)) (S.kept sink.old) }
{
    match field {
        Field::Results => write_unsigned(sink, count as u64),
        _ => {}
    }
}

/// Writes the core module of a number; where there is none, a part that is missing.
#[inline(never)]
pub fn write_module<S: Sink, M: CoreBytes>(
    sink: &mut S,
    modules: &[M],
    number: usize,
    field: &Field,
)
    ensures { S.kept sink.new ≡ put (spell_leaf (binary_of_leaf the_encoding (core_at (map M.core_module modules.now) number)) (field_of field.now)) (S.kept sink.old) }
{
    if number >= modules.len() {
        return write_absent(sink, field);
    }
    match field {
        Field::WholeModule => sink.bytes(modules[number].bytes()),
        _ => {}
    }
}
