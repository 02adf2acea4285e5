//! The types of a module: those that its fields define, and those that their type uses need beyond them.

ghost use Rattle.std.specs.Prelude.{◌≡◌, ◌<◌, ◌^◌, ◌++◌, ◌∷◌, [], length, OnOk, IfOk};
ghost use Rattle.core_model.specs.Types.{needed as needed_by_use};
ghost use Rattle.core_syntax.specs.Fields.{use_of, field_of, fields_of};
ghost use Rattle.core_resolve.specs.Tables.{written_in, needed_in, with_needed};

use crate::signature::Signature;
use crate::type_table::TypeTable;
use crate::written::{defined_type, written_signature};
use core_names::Namespace;
use core_syntax::{ItemKind, ModuleField, TypeUse};
use std::alloc::{AllocError, Global};

/// Adds the type that a field defines, if it defines one.
fn push_defined<'a>(
    alloc: Global,
    types: &Namespace<'a>,
    table: &mut TypeTable,
    field: &ModuleField<'a>,
) -> Result<(), AllocError>
    requires room { length table.old < 2 ^ 32 }
    ensures { OnOk result (table.new ≡ table.old ++ written_in types.now (field_of field.now ∷ [])) }
{
    match field {
        ModuleField::Ty(ty) => table.push(alloc, defined_type(alloc, types, &ty.def)?),
        _ => Ok(()),
    }
}

/// The types that fields define, in order.
pub(crate) fn defined_types<'a>(
    alloc: Global,
    types: &Namespace<'a>,
    fields: &[ModuleField<'a>],
) -> Result<TypeTable, AllocError>
    requires room { length (written_in types.now (fields_of fields.now)) < 2 ^ 32 }
    ensures { IfOk result (λ t. t ≡ written_in types.now (fields_of fields.now)) }
{
    let mut table = TypeTable::new(alloc);
    for field in fields {
        push_defined(alloc, types, &mut table, field)?;
    }
    Ok(table)
}

/// Adds the type that a type use needs, where it gives no index and the type isn't there. `room` is for its signature, whatever it is.
fn add_needed<'a>(
    alloc: Global,
    types: &Namespace<'a>,
    table: &mut TypeTable,
    room: &mut Signature,
    use_: &TypeUse<'a>,
) -> Result<(), AllocError>
    requires room { length table.old < 2 ^ 32 }
    ensures { OnOk result (table.new ≡ with_needed table.old (needed_by_use types.now (use_of use_.now))) }
{
    match &use_.index {
        Some(_) => Ok(()),
        None => {
            written_signature(types, &use_.inline, room)?;
            table.need(alloc, room)
        }
    }
}

/// Adds the type that the type use of a field needs. `room` is for its signature, whatever it is.
fn add_needed_in<'a>(
    alloc: Global,
    types: &Namespace<'a>,
    table: &mut TypeTable,
    room: &mut Signature,
    field: &ModuleField<'a>,
) -> Result<(), AllocError>
    requires room { length table.old < 2 ^ 32 }
    ensures { OnOk result (table.new ≡ with_needed table.old (needed_in types.now (field_of field.now ∷ []))) }
{
    match field {
        ModuleField::Func(func) => add_needed(alloc, types, table, room, &func.ty),
        ModuleField::Import(import) => match &import.sig.kind {
            ItemKind::Func(use_) => add_needed(alloc, types, table, room, use_),
            _ => Ok(()),
        },
        _ => Ok(()),
    }
}

/// Adds the types that the type uses of fields need, in the order of first need.
pub(crate) fn add_all_needed<'a>(
    alloc: Global,
    types: &Namespace<'a>,
    table: &mut TypeTable,
    fields: &[ModuleField<'a>],
) -> Result<(), AllocError>
    requires room { length (with_needed table.old (needed_in types.now (fields_of fields.now))) < 2 ^ 32 }
    ensures { OnOk result (table.new ≡ with_needed table.old (needed_in types.now (fields_of fields.now))) }
{
    let mut room = Signature::empty(alloc);
    for field in fields {
        add_needed_in(alloc, types, table, &mut room, field)?;
    }
    Ok(())
}
