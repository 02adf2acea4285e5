//! Imports stand before definitions.

ghost use Rattle.std.specs.Prelude.{◌≡◌, [], Bool, ◌||◌};
ghost use Rattle.core_model.specs.Items.{offset_of, is_import as is_import_field, is_definition as is_definition_field, each_behind};
ghost use Rattle.core_model.specs.Rule.{first_broken, late_import};
ghost use Rattle.core_syntax.specs.Fields.{field_of, fields_of};
ghost use Rattle.core_checks.specs.Refusals.{Tells};

use crate::refusals::broken;
use core_syntax::ModuleField;
use wast_parser::{CoreRule, Error, Span};

/// Where the first word of a field stands.
fn span_of(field: &ModuleField<'_>) -> Span
    ensures { result.offset ≡ offset_of (field_of field.now) }
{
    match field {
        ModuleField::Ty(ty) => ty.span,
        ModuleField::Import(import) => import.span,
        ModuleField::Func(func) => func.span,
        ModuleField::Memory(memory) => memory.span,
        ModuleField::Table(table) => table.span,
        ModuleField::Global(global) => global.span,
        ModuleField::Export(export) => export.span,
        ModuleField::Other(span) => *span,
    }
}

/// Whether a field imports its item.
fn is_import(field: &ModuleField<'_>) -> bool
    ensures { result ≡ is_import_field (field_of field.now) }
{
    match field {
        ModuleField::Ty(_) => false,
        ModuleField::Import(_) => true,
        ModuleField::Func(func) => func.import.is_some(),
        ModuleField::Memory(memory) => memory.import.is_some(),
        ModuleField::Table(table) => table.import.is_some(),
        ModuleField::Global(global) => global.import.is_some(),
        ModuleField::Export(_) => false,
        ModuleField::Other(_) => false,
    }
}

/// Whether a field defines an item that is no import.
fn is_definition(field: &ModuleField<'_>) -> bool
    ensures { result ≡ is_definition_field (field_of field.now) }
{
    match field {
        ModuleField::Ty(_) => false,
        ModuleField::Import(_) => false,
        ModuleField::Func(func) => func.import.is_none(),
        ModuleField::Memory(memory) => memory.import.is_none(),
        ModuleField::Table(table) => table.import.is_none(),
        ModuleField::Global(global) => global.import.is_none(),
        ModuleField::Export(_) => false,
        ModuleField::Other(_) => false,
    }
}

/// The first import behind a definition is `ImportOrder`, at its field.
pub(crate) fn check_order(fields: &[ModuleField<'_>]) -> Result<(), Error>
    ensures { Tells (first_broken (each_behind late_import [] (fields_of fields.now))) result }
{
    let mut defined = false;
    for field in fields {
        if defined && is_import(field) {
            return Err(broken(CoreRule::ImportOrder, span_of(field)));
        }
        defined = defined || is_definition(field);
    }
    Ok(())
}
