//! The places of a definition at which references stand, in the order of its leaves.

ghost use Rattle.std.specs.Prelude.{◌≡◌, [], length, get_or};
ghost use Rattle.comp_model.specs.Model.{node};
ghost use Rattle.comp_model.specs.declared.Space.TheVariants as spaces;
ghost use Rattle.comp_wire.specs.Values.{value_of, optional_of, index_of, description_row, entity_row, option_row, passed_instance};
ghost use Rattle.comp_list.specs.References.{maybe_reference, leaf_references};
ghost use Rattle.comp_list.specs.Places.{each_place, row_references};

use crate::reference::{Reference, value_reference};
use comp_model::Space;
use comp_wire::{
    CanonicalOption, ComponentTypeRef, ComponentValType, ModuleArg, TypeBounds, WireEntity, WireVal,
};

/// Places in a row, at each of which at most one reference stands.
#[derive(Clone, Copy)]
pub enum Places<'t> {
    /// One place.
    One(Option<Reference>),
    /// Names, each with a space and an index.
    Named(&'t [(&'t [u8], Space, u32)]),
    /// Names, each with a core instance.
    Instances(&'t [(&'t [u8], ModuleArg)]),
    /// Values.
    Passed(&'t [u32]),
    /// Options of a canonical function.
    Options(&'t [CanonicalOption]),
    /// Core value types.
    CoreValues(&'t [WireVal]),
    /// Names, each with a type.
    Fields(&'t [(&'t [u8], ComponentValType)]),
    /// Names, some with a type.
    Cases(&'t [(&'t [u8], Option<ComponentValType>)]),
    /// Types.
    Values(&'t [ComponentValType]),
}

/// A reference.
pub fn reference(space: Space, index: u32) -> Option<Reference>
    ensures { maybe_reference result ≡ leaf_references (index_of space index) }
{
    Some(Reference { space, index })
}

/// The reference in a value type.
pub fn type_reference(value: ComponentValType) -> Option<Reference>
    ensures { maybe_reference result ≡ leaf_references (value_of value) }
{
    match value {
        ComponentValType::Primitive(_) => None,
        ComponentValType::Ty(index) => reference(Space::Ty, index),
    }
}

/// The reference in a value type that may be missing.
pub fn optional_reference(value: Option<ComponentValType>) -> Option<Reference>
    ensures { maybe_reference result ≡ leaf_references (optional_of value_of value) }
{
    match value {
        None => None,
        Some(value) => type_reference(value),
    }
}

/// The reference in a description.
pub fn description_reference(description: ComponentTypeRef) -> Option<Reference>
    ensures { maybe_reference result ≡ leaf_references (node (description_row description)) }
{
    match description {
        ComponentTypeRef::Module(index) => reference(Space::CoreType, index),
        ComponentTypeRef::Func(index) => reference(Space::Ty, index),
        ComponentTypeRef::Ty(TypeBounds::Eq(index)) => reference(Space::Ty, index),
        ComponentTypeRef::Ty(TypeBounds::SubResource) => None,
        ComponentTypeRef::Component(index) => reference(Space::Ty, index),
        ComponentTypeRef::Instance(index) => reference(Space::Ty, index),
    }
}

/// The reference in an entity.
pub fn entity_reference(entity: WireEntity) -> Option<Reference>
    ensures { maybe_reference result ≡ leaf_references (node (entity_row entity)) }
{
    match entity {
        WireEntity::Func(index) => reference(Space::CoreType, index),
        WireEntity::Table(value, _, _) => value_reference(value),
        WireEntity::Memory(_, _) => None,
        WireEntity::Global(value, _) => value_reference(value),
    }
}

/// The reference in an option.
fn option_reference(option: CanonicalOption) -> Option<Reference>
    ensures { maybe_reference result ≡ row_references (option_row option) }
{
    match option {
        CanonicalOption::UTF8 => None,
        CanonicalOption::UTF16 => None,
        CanonicalOption::CompactUTF16 => None,
        CanonicalOption::Memory(index) => reference(Space::CoreMemory, index),
        CanonicalOption::Realloc(index) => reference(Space::CoreFunc, index),
        CanonicalOption::PostReturn(index) => reference(Space::CoreFunc, index),
        CanonicalOption::Async => None,
        CanonicalOption::Callback(index) => reference(Space::CoreFunc, index),
    }
}

/// The instance that an argument is.
fn instance_reference(argument: ModuleArg) -> Option<Reference>
    ensures { maybe_reference result ≡ leaf_references (index_of spaces.CoreInstance (passed_instance argument)) }
{
    match argument {
        ModuleArg::Instance(index) => reference(Space::CoreInstance, index),
    }
}

impl<'t> Places<'t> {
    /// How many places there are.
    pub fn count(&self) -> usize
        ensures { result ≡ length (each_place self.now) }
    {
        match self {
            Places::One(_) => 1,
            Places::Named(entries) => entries.len(),
            Places::Instances(entries) => entries.len(),
            Places::Passed(entries) => entries.len(),
            Places::Options(entries) => entries.len(),
            Places::CoreValues(entries) => entries.len(),
            Places::Fields(entries) => entries.len(),
            Places::Cases(entries) => entries.len(),
            Places::Values(entries) => entries.len(),
        }
    }

    /// The reference at a place, if there is one.
    pub fn at(&self, place: usize) -> Option<Reference>
        ensures { maybe_reference result ≡ get_or (each_place self.now) place [] }
    {
        match self {
            Places::One(found) => {
                if place == 0 {
                    return *found;
                }
                None
            }
            Places::Named(entries) => {
                let entry = entries.get(place)?;
                reference(entry.1, entry.2)
            }
            Places::Instances(entries) => instance_reference(entries.get(place)?.1),
            Places::Passed(entries) => reference(Space::Value, *entries.get(place)?),
            Places::Options(entries) => option_reference(*entries.get(place)?),
            Places::CoreValues(entries) => value_reference(*entries.get(place)?),
            Places::Fields(entries) => type_reference(entries.get(place)?.1),
            Places::Cases(entries) => optional_reference(entries.get(place)?.1),
            Places::Values(entries) => type_reference(*entries.get(place)?),
        }
    }
}
