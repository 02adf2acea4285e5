//! What a field declares, and how it is named.

ghost use Rattle.std.specs.Prelude.{◌≡◌, option_map, Some, None};
ghost use Rattle.comp_model.specs.Core.{label_or_id};
ghost use Rattle.core_model.specs.Items.{space_of_entity, declares, naming_of as naming_of_field};
ghost use Rattle.core_model.specs.NameSection.{name_of as name_of_item};
ghost use Rattle.core_syntax.specs.Ids.{id_of};
ghost use Rattle.core_syntax.specs.Fields.{entity_of, naming_of, field_of};

use comp_wire::Space;
use core_syntax::{ItemKind, ModuleField};
use wast_parser::{Id, NameAnnotation};

/// The space of what an import asks for.
fn space_of_kind(kind: &ItemKind<'_>) -> Option<Space>
    ensures { result ≡ space_of_entity (entity_of kind.now) }
{
    match kind {
        ItemKind::Func(_) => Some(Space::CoreFunc),
        ItemKind::Table(_, _) => Some(Space::CoreTable),
        ItemKind::Memory(_) => Some(Space::CoreMemory),
        ItemKind::Global(_, _) => Some(Space::CoreGlobal),
        ItemKind::Other(_) => None,
    }
}

/// The space in which a field declares its item.
pub fn space_of(field: &ModuleField<'_>) -> Option<Space>
    ensures { result ≡ declares (field_of field.now) }
{
    match field {
        ModuleField::Ty(_) => Some(Space::CoreType),
        ModuleField::Import(import) => space_of_kind(&import.sig.kind),
        ModuleField::Func(_) => Some(Space::CoreFunc),
        ModuleField::Memory(_) => Some(Space::CoreMemory),
        ModuleField::Table(_) => Some(Space::CoreTable),
        ModuleField::Global(_) => Some(Space::CoreGlobal),
        ModuleField::Export(_) => None,
        ModuleField::Other(_) => None,
    }
}

/// The name of an item: its label, or else its id, unless that is generated.
pub fn name_of<'a>(id: &Option<Id<'a>>, label: &Option<NameAnnotation<'a>>) -> Option<&'a str>
    ensures { option_map (λ x. x.now) result ≡ name_of_item (naming_of id.now label.now) }
{
    match label {
        Some(label) => Some(label.name),
        None => match id {
            None => None,
            Some(id) => name_of_id(*id),
        },
    }
}

/// The name of an id, unless it is generated.
fn name_of_id<'a>(id: Id<'a>) -> Option<&'a str>
    ensures { option_map (λ x. x.now) result ≡ label_or_id None (Some (id_of id.entry)) }
{
    if id.is_gensym() {
        None
    } else {
        Some(id.name())
    }
}

/// The name of the item of a field.
pub fn name_of_field<'a>(field: &ModuleField<'a>) -> Option<&'a str>
    ensures { option_map (λ x. x.now) result ≡ name_of_item (naming_of_field (field_of field.now)) }
{
    match field {
        ModuleField::Ty(ty) => name_of(&ty.id, &ty.name),
        ModuleField::Import(import) => name_of(&import.sig.id, &import.sig.name),
        ModuleField::Func(func) => name_of(&func.id, &func.name),
        ModuleField::Memory(memory) => name_of(&memory.id, &memory.name),
        ModuleField::Table(table) => name_of(&table.id, &table.name),
        ModuleField::Global(global) => name_of(&global.id, &global.name),
        ModuleField::Export(_) => None,
        ModuleField::Other(_) => None,
    }
}
