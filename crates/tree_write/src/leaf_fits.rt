//! Whether single leaves can be written, by their fields. A leaf that a field doesn't spell can't.

ghost use Rattle.std.specs.Prelude.{◌≡◌, ℕ, List, None, map};
ghost use Rattle.comp_model.specs.Core.{counted};
ghost use Rattle.comp_model.specs.Model.{text, number, kind, core_value, ref, index, place, absent, result_count, case_id, module_bytes};
ghost use Rattle.comp_model.specs.Rows.{is_primitive_code};
ghost use Rattle.comp_scopes.specs.Resolved.{binary_of_leaf};
ghost use Rattle.comp_tree.specs.Model.{joined, core_at, path_of};
ghost use Rattle.comp_wire.specs.Fits.{core_fits, leaf_fits, is_core_space};
ghost use Rattle.comp_model.specs.Spaces.{same_space};
ghost use Rattle.byte_table.specs.Lines.{field_of};
ghost use Rattle.tree_write.specs.Measured.{Counts};
ghost use Rattle.tree_write.specs.Wire.{wire_value, the_encoding};

use crate::core_bytes::CoreBytes;
use byte_table::Field;
use comp_model::Space;
use comp_tree::CoreValue;
use leb_lengths::is_word;
use wast_parser::Index;

/// Whether this is a space of core items.
fn is_core_space(space: Space) -> bool
    ensures { result ≡ is_core_space space }
{
    match space {
        Space::Func => false,
        Space::Value => false,
        Space::Ty => false,
        Space::Component => false,
        Space::Instance => false,
        _ => true,
    }
}

/// Whether two spaces are one.
fn is_same(space: Space, other: Space) -> bool
    ensures { result ≡ same_space space other }
{
    other == space
}

/// Whether a text can be written.
pub fn text_fits(value: &str, field: &Field) -> bool
    ensures { result ≡ leaf_fits (text value.now) (field_of field.now) }
{
    match field {
        Field::Str => is_word(value.len() as u64),
        Field::ExternName => is_word(value.len() as u64),
        Field::Rest => true,
        _ => false,
    }
}

/// How many bytes pieces of a text have; `u64::MAX` stands for every greater number.
fn joined_length(pieces: &[&[u8]]) -> u64
    ensures { Counts result (joined pieces.now) }
{
    let mut size: u64 = 0;
    for piece in pieces {
        size = size.saturating_add(piece.len() as u64);
    }
    size
}

/// Whether a text in pieces can be written.
pub fn pieces_fit(pieces: &[&[u8]], field: &Field) -> bool
    ensures { result ≡ leaf_fits (text (joined pieces.now)) (field_of field.now) }
{
    match field {
        Field::Str => is_word(joined_length(pieces)),
        Field::ExternName => is_word(joined_length(pieces)),
        Field::Rest => true,
        _ => false,
    }
}

/// Whether this is the byte of a primitive type.
fn is_primitive(value: u32) -> bool
    ensures { result ≡ is_primitive_code value }
{
    value == 0x64 || (0x73 <= value && value <= 0x7f)
}

/// Whether a number can be written.
pub fn number_fits(value: u32, field: &Field) -> bool
    ensures { result ≡ leaf_fits (number value) (field_of field.now) }
{
    match field {
        Field::Unsigned => is_word(value as u64),
        Field::PrimitiveByte => is_primitive(value),
        Field::Value => is_primitive(value),
        Field::AsyncByte => value < 2,
        Field::Flag => value < 2,
        _ => false,
    }
}

/// Whether a kind can be written.
pub fn kind_fits(space: Space, field: &Field) -> bool
    ensures { result ≡ leaf_fits (kind space) (field_of field.now) }
{
    match field {
        Field::Sort => true,
        Field::CoreSort => is_core_space(space),
        Field::KindIs(of) => is_same(space, *of),
        _ => false,
    }
}

/// Whether a core value type can be written.
fn core_type_fits(value: &CoreValue<'_, '_>) -> bool
    ensures { result ≡ core_fits (wire_value value.now) }
{
    match value {
        CoreValue::RefConcrete(_, concrete) => match concrete.index {
            Index::Num(number, _) => is_word(number as u64),
            Index::Id(_) => false,
        },
        CoreValue::Other => false,
        CoreValue::I32 => true,
        CoreValue::I64 => true,
        CoreValue::F32 => true,
        CoreValue::F64 => true,
        CoreValue::V128 => true,
        CoreValue::RefFunc(_) => true,
        CoreValue::RefExtern(_) => true,
    }
}

/// Whether a core value type can be written.
pub fn core_value_fits(value: &CoreValue<'_, '_>, field: &Field) -> bool
    ensures { result ≡ leaf_fits (core_value (wire_value value.now)) (field_of field.now) }
{
    match field {
        Field::CoreType => core_type_fits(value),
        _ => false,
    }
}

/// Whether an index can be written.
pub fn index_fits(space: Space, value: u32, field: &Field) -> bool
    ensures { result ≡ leaf_fits (ref space (index value)) (field_of field.now) }
{
    let short = is_word(value as u64);
    match field {
        Field::IndexIn(of) => is_same(space, *of) & short,
        Field::SortedIndex => short,
        Field::CoreSortedIndex => is_core_space(space) & short,
        Field::Value => is_same(space, Space::Ty) & short,
        _ => false,
    }
}

/// Whether a reference by a path can be written: it is an index where no export name stands behind its root.
pub fn path_fits(space: Space, root: &Index<'_>, exports: &[&str], field: &Field) -> bool
    ensures { result ≡ leaf_fits (binary_of_leaf the_encoding (ref space (path_of root.now exports.now))) (field_of field.now) }
{
    if exports.len() != 0 {
        return false;
    }
    match root {
        Index::Num(index, _) => index_fits(space, *index, field),
        Index::Id(_) => false,
    }
}

/// Whether a count of scopes outward can be written.
pub fn outward_fits(value: u32, field: &Field) -> bool
    ensures { result ≡ leaf_fits (place (counted 0 value)) (field_of field.now) }
{
    match field {
        Field::Outward => is_word(value as u64),
        _ => false,
    }
}

/// Whether a part may be missing.
pub fn absent_fits(field: &Field) -> bool
    ensures { result ≡ leaf_fits absent (field_of field.now) }
{
    match field {
        Field::Optional(_) => true,
        Field::Result(_) => true,
        Field::Maximum => true,
        _ => false,
    }
}

/// Whether a count of results can be written.
pub fn results_fit(count: usize, field: &Field) -> bool
    ensures { result ≡ leaf_fits (result_count count) (field_of field.now) }
{
    match field {
        Field::Results => is_word(count as u64),
        _ => false,
    }
}

/// Whether the id of a case can be left out.
pub fn case_fits(field: &Field) -> bool
    ensures { result ≡ leaf_fits (case_id None) (field_of field.now) }
{
    match field {
        Field::Unspelled => true,
        _ => false,
    }
}

/// Whether a core module can stand here.
fn whole_module_fits(field: &Field) -> bool
    ensures { (bytes : List ℕ) → result ≡ leaf_fits (module_bytes bytes) (field_of field.now) }
{
    match field {
        Field::WholeModule => true,
        _ => false,
    }
}

/// Whether the core module of a number can be written; where there is none, whether it may be missing.
pub fn module_fits<M: CoreBytes>(modules: &[M], number: usize, field: &Field) -> bool
    ensures { result ≡ leaf_fits (binary_of_leaf the_encoding (core_at (map M.core_module modules.now) number)) (field_of field.now) }
{
    if number >= modules.len() {
        return absent_fits(field);
    }
    whole_module_fits(field)
}
