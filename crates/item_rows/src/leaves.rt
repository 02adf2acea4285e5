//! The leaf that a field is.

ghost use Rattle.std.specs.Prelude.{◌≡◌, IfOk};
ghost use Rattle.comp_model.specs.Model as m;
ghost use Rattle.comp_wire.specs.Values.{bit, value_of, optional_of, number_leaf, index_of, primitive_byte_of};
ghost use Rattle.wire_tree.specs.Model.{leaf_of};

use crate::arena::place;
use bumpalo::Bump;
use comp_model::Space;
use comp_wire::{ComponentValType, PrimitiveValType};
use std::alloc::AllocError;
use wire_tree::Leaf;

/// A flag: 1 where it is set.
pub fn flag<'t>(flag: bool) -> Leaf<'t, 't>
    ensures { leaf_of result ≡ m.number (bit flag) }
{
    if flag {
        return Leaf::Number(1);
    }
    Leaf::Number(0)
}

/// The byte of a primitive type (Component Model, binary format, Type Definitions).
fn primitive_byte(primitive: PrimitiveValType) -> u32
    ensures { result ≡ primitive_byte_of primitive }
{
    match primitive {
        PrimitiveValType::Bool => 0x7f,
        PrimitiveValType::S8 => 0x7e,
        PrimitiveValType::U8 => 0x7d,
        PrimitiveValType::S16 => 0x7c,
        PrimitiveValType::U16 => 0x7b,
        PrimitiveValType::S32 => 0x7a,
        PrimitiveValType::U32 => 0x79,
        PrimitiveValType::S64 => 0x78,
        PrimitiveValType::U64 => 0x77,
        PrimitiveValType::F32 => 0x76,
        PrimitiveValType::F64 => 0x75,
        PrimitiveValType::Char => 0x74,
        PrimitiveValType::String => 0x73,
        PrimitiveValType::ErrorContext => 0x64,
    }
}

/// A primitive type.
pub fn primitive<'t>(primitive: PrimitiveValType) -> Leaf<'t, 't>
    ensures { leaf_of result ≡ m.number (primitive_byte_of primitive) }
{
    Leaf::Number(primitive_byte(primitive))
}

/// A value type.
pub fn value<'t>(value: ComponentValType) -> Leaf<'t, 't>
    ensures { leaf_of result ≡ value_of value }
{
    match value {
        ComponentValType::Primitive(found) => primitive(found),
        ComponentValType::Ty(index) => Leaf::Index(Space::Ty, index),
    }
}

/// A part that is there.
pub fn present<'t>(bump: &'t Bump, part: Leaf<'t, 't>) -> Result<Leaf<'t, 't>, AllocError>
    ensures { IfOk result (λ l. leaf_of l ≡ m.present (leaf_of part.entry)) }
{
    let placed = place(bump, part)?;
    Ok(Leaf::Present(placed))
}

/// A value type that may be missing.
pub fn optional_value<'t>(
    bump: &'t Bump,
    found: Option<ComponentValType>,
) -> Result<Leaf<'t, 't>, AllocError>
    ensures { IfOk result (λ l. leaf_of l ≡ optional_of value_of found) }
{
    match found {
        None => Ok(Leaf::Absent),
        Some(found) => present(bump, value(found)),
    }
}

/// A number that may be missing.
pub fn optional_number<'t>(bump: &'t Bump, found: Option<u32>) -> Result<Leaf<'t, 't>, AllocError>
    ensures { IfOk result (λ l. leaf_of l ≡ optional_of number_leaf found) }
{
    match found {
        None => Ok(Leaf::Absent),
        Some(number) => present(bump, Leaf::Number(number)),
    }
}

/// An index of a space that may be missing.
pub fn optional_index<'t>(
    bump: &'t Bump,
    space: Space,
    found: Option<u32>,
) -> Result<Leaf<'t, 't>, AllocError>
    ensures { IfOk result (λ l. leaf_of l ≡ optional_of (index_of space) found) }
{
    match found {
        None => Ok(Leaf::Absent),
        Some(index) => present(bump, Leaf::Index(space, index)),
    }
}
