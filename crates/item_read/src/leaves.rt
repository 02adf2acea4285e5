//! The value that a leaf holds, by its sort.

ghost use Rattle.std.specs.Prelude.{◌≡◌};
ghost use Rattle.comp_model.specs.declared.Space.TheVariants.{CoreFunc};
ghost use Rattle.comp_model.specs.Core.{counted};
ghost use Rattle.comp_model.specs.Model as m;
ghost use Rattle.comp_wire.specs.Spelled.{IsPrimitive};
ghost use Rattle.comp_wire.specs.Values.{bit, value_of, optional_of, number_leaf, index_of, core_value_of, primitive_byte_of};
ghost use Rattle.wire_tree.specs.Model.{leaf_of};
ghost use Rattle.item_read.specs.Leaves.{IsText, IsModule, IsNumber, IsFlag, IsPrimitiveByte, IsValue, IsCoreValue, IsIndex, IsItem, IsKind, IsOutward, IsResults, IsOptional, space_at};

use comp_model::Space;
use comp_wire::{ComponentValType, PrimitiveValType, WireVal};
use wire_tree::Leaf;

/// A text, or the payload of a custom section.
pub fn text<'a>(leaf: &Leaf<'_, 'a>) -> &'a [u8]
    requires { IsText (leaf_of leaf.now) }
    ensures { m.text result.now ≡ leaf_of leaf.now }
{
    match leaf {
        Leaf::Text(bytes) => bytes,
        _ => unreachable!(),
    }
}

/// The bytes of a core module.
pub fn module<'a>(leaf: &Leaf<'_, 'a>) -> &'a [u8]
    requires { IsModule (leaf_of leaf.now) }
    ensures { m.module_bytes result.now ≡ leaf_of leaf.now }
{
    match leaf {
        Leaf::Module(bytes) => bytes,
        _ => unreachable!(),
    }
}

/// A number.
pub fn number(leaf: &Leaf<'_, '_>) -> u32
    requires { IsNumber (leaf_of leaf.now) }
    ensures { m.number result ≡ leaf_of leaf.now }
{
    match leaf {
        Leaf::Number(number) => *number,
        _ => unreachable!(),
    }
}

/// A flag.
pub fn flag(leaf: &Leaf<'_, '_>) -> bool
    requires { IsFlag (leaf_of leaf.now) }
    ensures { m.number (bit result) ≡ leaf_of leaf.now }
{
    match leaf {
        Leaf::Number(number) => *number != 0,
        _ => unreachable!(),
    }
}

/// A kind.
pub fn kind(leaf: &Leaf<'_, '_>) -> Space
    requires { IsKind (leaf_of leaf.now) }
    ensures { m.kind result ≡ leaf_of leaf.now }
{
    match leaf {
        Leaf::Kind(space) => *space,
        _ => unreachable!(),
    }
}

/// How many scopes outward.
pub fn outward(leaf: &Leaf<'_, '_>) -> u32
    requires { IsOutward (leaf_of leaf.now) }
    ensures { m.place (counted 0 result) ≡ leaf_of leaf.now }
{
    match leaf {
        Leaf::Outward(count) => *count,
        _ => unreachable!(),
    }
}

/// How many results a start function has.
pub fn results(leaf: &Leaf<'_, '_>) -> u32
    requires { IsResults (leaf_of leaf.now) }
    ensures { m.result_count result ≡ leaf_of leaf.now }
{
    match leaf {
        Leaf::Results(count) => *count,
        _ => unreachable!(),
    }
}

/// A core value type.
pub fn core_value(leaf: &Leaf<'_, '_>) -> WireVal
    requires { IsCoreValue (leaf_of leaf.now) }
    ensures { m.core_value (core_value_of result) ≡ leaf_of leaf.now }
{
    match leaf {
        Leaf::CoreValue(value) => *value,
        _ => unreachable!(),
    }
}

/// An index and its space.
pub fn item(leaf: &Leaf<'_, '_>) -> (Space, u32)
    requires { IsItem (leaf_of leaf.now) }
    ensures { m.ref result.0 (m.index result.1) ≡ leaf_of leaf.now }
{
    match leaf {
        Leaf::Index(space, index) => (*space, *index),
        _ => unreachable!(),
    }
}

/// An index of a space.
pub fn index(leaf: &Leaf<'_, '_>) -> u32
    requires { IsItem (leaf_of leaf.now) }
    ensures { m.ref (space_at (leaf_of leaf.now)) (m.index result) ≡ leaf_of leaf.now }
{
    match leaf {
        Leaf::Index(_, index) => *index,
        _ => unreachable!(),
    }
}

/// The primitive type of a byte (Component Model, binary format, Type Definitions).
fn primitive_of(code: u32) -> PrimitiveValType
    requires { IsPrimitive code }
    ensures { primitive_byte_of result ≡ code }
{
    match code {
        0x7f => PrimitiveValType::Bool,
        0x7e => PrimitiveValType::S8,
        0x7d => PrimitiveValType::U8,
        0x7c => PrimitiveValType::S16,
        0x7b => PrimitiveValType::U16,
        0x7a => PrimitiveValType::S32,
        0x79 => PrimitiveValType::U32,
        0x78 => PrimitiveValType::S64,
        0x77 => PrimitiveValType::U64,
        0x76 => PrimitiveValType::F32,
        0x75 => PrimitiveValType::F64,
        0x74 => PrimitiveValType::Char,
        0x73 => PrimitiveValType::String,
        0x64 => PrimitiveValType::ErrorContext,
        _ => unreachable!(),
    }
}

/// A primitive type.
pub fn primitive(leaf: &Leaf<'_, '_>) -> PrimitiveValType
    requires { IsPrimitiveByte (leaf_of leaf.now) }
    ensures { m.number (primitive_byte_of result) ≡ leaf_of leaf.now }
{
    match leaf {
        Leaf::Number(code) => primitive_of(*code),
        _ => unreachable!(),
    }
}

/// A value type.
pub fn value(leaf: &Leaf<'_, '_>) -> ComponentValType
    requires { IsValue (leaf_of leaf.now) }
    ensures { value_of result ≡ leaf_of leaf.now }
{
    match leaf {
        Leaf::Index(_, index) => ComponentValType::Ty(*index),
        Leaf::Number(code) => ComponentValType::Primitive(primitive_of(*code)),
        _ => unreachable!(),
    }
}

/// A value type, if there is one.
pub fn optional_value(leaf: &Leaf<'_, '_>) -> Option<ComponentValType>
    requires { IsOptional IsValue (leaf_of leaf.now) }
    ensures { optional_of value_of result ≡ leaf_of leaf.now }
{
    match leaf {
        Leaf::Absent => None,
        Leaf::Present(part) => Some(value(part)),
        _ => unreachable!(),
    }
}

/// A number, if there is one.
pub fn optional_number(leaf: &Leaf<'_, '_>) -> Option<u32>
    requires { IsOptional IsNumber (leaf_of leaf.now) }
    ensures { optional_of number_leaf result ≡ leaf_of leaf.now }
{
    match leaf {
        Leaf::Absent => None,
        Leaf::Present(part) => Some(number(part)),
        _ => unreachable!(),
    }
}

/// An index of a core function, if there is one.
pub fn optional_function(leaf: &Leaf<'_, '_>) -> Option<u32>
    requires { IsOptional (IsIndex CoreFunc) (leaf_of leaf.now) }
    ensures { optional_of (index_of CoreFunc) result ≡ leaf_of leaf.now }
{
    match leaf {
        Leaf::Absent => None,
        Leaf::Present(part) => Some(index(part)),
        _ => unreachable!(),
    }
}
