//! The bytes of descriptions, aliases and entities.

ghost use Rattle.std.specs.Prelude.{◌≡◌, ◌∷◌, ◌++◌, length, OnOk};
ghost use Rattle.comp_model.specs.Leb.{uleb as unsigned_bytes};
ghost use Rattle.comp_model.specs.Payloads.{framed};
ghost use Rattle.comp_wire.specs.Sections.{Word};
ghost use Rattle.comp_wire.specs.Table as table;
ghost use Rattle.comp_wire.specs.Spelled.{spell_leaf, spell_node, FitsNode};
ghost use Rattle.comp_wire.specs.Values.{description_row, bounds_row, alias_row, entity_row, optional_of, number_leaf};

use crate::append::{append, append_byte, append_indexed, append_two_indices};
use crate::append_values::{
    append_core_sort, append_core_value_behind, append_flag, append_outer_sort, append_sort,
    append_text,
};
use crate::externs::{Alias, ComponentTypeRef, TypeBounds, WireEntity};
use crate::leb::uleb;
use crate::memory::NoMemory;
use std::alloc::Global;

/// Appends what is known of a type.
fn append_bounds(alloc: Global, out: &mut Vec<u8>, bounds: TypeBounds) -> Result<(), NoMemory>
    ensures { OnOk result (out.new.items ≡ out.old.items ++ spell_node (bounds_row bounds) table.descriptions) }
{
    match bounds {
        TypeBounds::Eq(index) => {
            append(out, &[0x03, 0x00])?;
            uleb(alloc, out, index)
        }
        TypeBounds::SubResource => append(out, &[0x03, 0x01]),
    }
}

/// Appends a description: its kind, and the index of its type.
pub fn append_description(
    alloc: Global,
    out: &mut Vec<u8>,
    description: ComponentTypeRef,
) -> Result<(), NoMemory>
    ensures { OnOk result (out.new.items ≡ out.old.items ++ spell_node (description_row description) table.descriptions) }
{
    match description {
        ComponentTypeRef::Module(index) => {
            append(out, &[0x00, 0x11])?;
            uleb(alloc, out, index)
        }
        ComponentTypeRef::Func(index) => append_indexed(alloc, out, 0x01, index),
        ComponentTypeRef::Ty(bounds) => append_bounds(alloc, out, bounds),
        ComponentTypeRef::Component(index) => append_indexed(alloc, out, 0x04, index),
        ComponentTypeRef::Instance(index) => append_indexed(alloc, out, 0x05, index),
    }
}

/// Appends the outer alias of a core type, as it stands in the type of a core module.
pub fn append_outer_core_type(
    alloc: Global,
    out: &mut Vec<u8>,
    count: u32,
    index: u32,
) -> Result<(), NoMemory>
    ensures { OnOk result (out.new.items ≡ out.old.items ++ 0x02 ∷ 0x10 ∷ 0x01 ∷ (unsigned_bytes count ++ unsigned_bytes index)) }
{
    append(out, &[0x02, 0x10])?;
    append_two_indices(alloc, out, 0x01, count, index)
}

/// Appends a byte, the index of an instance, and the name of what it exports.
fn append_exported(
    alloc: Global,
    out: &mut Vec<u8>,
    byte: u8,
    instance: u32,
    name: &str,
) -> Result<(), NoMemory>
    requires { Word (length name.now) }
    ensures { OnOk result (out.new.items ≡ out.old.items ++ byte ∷ (unsigned_bytes instance ++ framed name.now)) }
{
    append_indexed(alloc, out, byte, instance)?;
    append_text(alloc, out, name)
}

/// Appends an alias: the sort of what is aliased, and where it is.
pub fn append_alias(alloc: Global, out: &mut Vec<u8>, alias: &Alias) -> Result<(), NoMemory>
    requires { FitsNode (alias_row alias.now) table.aliases }
    ensures { OnOk result (out.new.items ≡ out.old.items ++ spell_node (alias_row alias.now) table.aliases) }
{
    match alias {
        Alias::InstanceExport {
            instance,
            kind,
            name,
        } => {
            append_sort(out, *kind)?;
            append_exported(alloc, out, 0x00, *instance, name)
        }
        Alias::CoreInstanceExport {
            instance,
            kind,
            name,
        } => {
            append_core_sort(out, *kind)?;
            append_exported(alloc, out, 0x01, *instance, name)
        }
        Alias::Outer { count, kind, index } => {
            append_outer_sort(out, *kind)?;
            append_two_indices(alloc, out, 0x02, *count, *index)
        }
    }
}

/// Appends a byte and an alias.
pub fn append_alias_behind(
    alloc: Global,
    out: &mut Vec<u8>,
    byte: u8,
    alias: &Alias,
) -> Result<(), NoMemory>
    requires { FitsNode (alias_row alias.now) table.aliases }
    ensures { OnOk result (out.new.items ≡ out.old.items ++ byte ∷ spell_node (alias_row alias.now) table.aliases) }
{
    append_byte(out, byte)?;
    append_alias(alloc, out, alias)
}

/// Appends limits: 00 and the least, or 01, the least and the most.
fn append_limits(
    alloc: Global,
    out: &mut Vec<u8>,
    least: u32,
    most: Option<u32>,
) -> Result<(), NoMemory>
    ensures { OnOk result (out.new.items ≡ out.old.items ++ (spell_leaf (optional_of number_leaf most) table.presence ++ (unsigned_bytes least ++ spell_leaf (optional_of number_leaf most) table.maximum))) }
{
    match most {
        None => append_indexed(alloc, out, 0x00, least),
        Some(most) => append_two_indices(alloc, out, 0x01, least, most),
    }
}

/// Appends what a core module imports or exports.
pub fn append_entity(alloc: Global, out: &mut Vec<u8>, entity: WireEntity) -> Result<(), NoMemory>
    ensures { OnOk result (out.new.items ≡ out.old.items ++ spell_node (entity_row entity) table.entities) }
{
    match entity {
        WireEntity::Func(index) => append_indexed(alloc, out, 0x00, index),
        WireEntity::Table(value, least, most) => {
            append_core_value_behind(alloc, out, 0x01, value)?;
            append_limits(alloc, out, least, most)
        }
        WireEntity::Memory(least, most) => {
            append_byte(out, 0x02)?;
            append_limits(alloc, out, least, most)
        }
        WireEntity::Global(value, mutable) => {
            append_core_value_behind(alloc, out, 0x03, value)?;
            append_flag(out, mutable)
        }
    }
}
