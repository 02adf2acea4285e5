//! Numbers in fields.
//!
//! Where a type use is numbered, `room` is for its signature, whatever it is: so all of them take memory once.

ghost use Rattle.std.specs.Prelude.{◌≡◌, ◌<◌, ◌^◌, ◌++◌, ℕ, List, Option, Some, None, map, flat_map, IfOk, OnOk};
ghost use Rattle.comp_model.specs.CoreModules.{Field};
ghost use Rattle.comp_model.specs.Weight.{weight_of_all};
ghost use Rattle.comp_model.specs.declared.Space.TheVariants.{CoreType};
ghost use Rattle.core_model.specs.Items.{ids_in};
ghost use Rattle.core_model.specs.Types.{all_types};
ghost use Rattle.core_model.specs.Rule.{first_broken, broken_entity, broken_parts, core_rule};
ghost use Rattle.core_model.specs.Weight.{weight_of_field, core_weight};
ghost use Rattle.core_model.specs.Resolved.{numbered_entity, numbered_field};
ghost use Rattle.core_syntax.specs.Fields.{entity_of, type_field_of, import_of, func_of, table_of, global_of, export_of, field_of, fields_of};
ghost use Rattle.core_names.specs.ModuleIds.{AreNamesOf, places_in};
ghost use Rattle.core_resolve.specs.LocalIds.{FewParams};

use crate::body::number_body;
use crate::index::{numbered, numbered_alone};
use crate::nameless::count_nameless;
use crate::signature::Signature;
use crate::type_table::TypeTable;
use crate::type_use::number_use;
use crate::types::{number_locals, number_signature, numbered_reference, numbered_value};
use core_names::{ModuleNames, Namespace};
use core_syntax::{
    Export, ExportKind, Func, GlobalField, Imports, ItemKind, ModuleField, Table, Type, TypeDef,
};
use std::alloc::{AllocError, Global};

fn number_type<'a>(types: &Namespace<'a>, ty: &mut Type<'a>)
    ghost source: { List Field }
    requires named { types.now ≡ ids_in CoreType source }
    ensures { type_field_of ty.new ≡ numbered_field source (type_field_of ty.old) }
{
    match &mut ty.def {
        TypeDef::Func(ty) => number_signature(types, ty),
        TypeDef::Other(_) => {}
    }
}

fn number_kind<'a>(
    room: &mut Signature,
    names: &ModuleNames<'a>,
    types: &TypeTable,
    kind: &mut ItemKind<'a>,
) -> Result<(), AllocError>
    ghost source: { List Field }
    requires named { AreNamesOf names.now source }
    requires typed { types.now ≡ all_types source }
    requires kept { first_broken (broken_entity source (entity_of kind.old)) ≡ None }
    ensures { OnOk result (entity_of kind.new ≡ numbered_entity source (entity_of kind.old)) }
{
    match kind {
        ItemKind::Func(use_) => number_use(room, names, types, use_),
        ItemKind::Table(_, ty) => {
            *ty = numbered_reference(&names.types, ty);
            Ok(())
        }
        ItemKind::Memory(_) => Ok(()),
        ItemKind::Global(ty, _) => {
            *ty = numbered_value(&names.types, ty);
            Ok(())
        }
        ItemKind::Other(_) => Ok(()),
    }
}

fn number_import<'a>(
    room: &mut Signature,
    names: &ModuleNames<'a>,
    types: &TypeTable,
    import: &mut Imports<'a>,
) -> Result<(), AllocError>
    ghost source: { List Field }
    requires named { AreNamesOf names.now source }
    requires typed { types.now ≡ all_types source }
    requires kept { first_broken (broken_parts source (import_of import.old)) ≡ None }
    ensures { OnOk result (import_of import.new ≡ numbered_field source (import_of import.old)) }
{
    number_kind(room, names, types, &mut import.sig.kind)
}

/// Numbers the names in a function; what is left of the places behind it.
fn number_func<'n, 'a>(
    room: &mut Signature,
    names: &ModuleNames<'a>,
    types: &TypeTable,
    places: &'n [u32],
    func: &mut Func<'a>,
) -> Result<&'n [u32], AllocError>
    ghost source: { List Field }
    requires named { AreNamesOf names.now source }
    requires typed { types.now ≡ all_types source }
    requires few { FewParams types.now }
    requires light { weight_of_field (func_of func.old) < 2 ^ 31 }
    ensures numbered { (rest : List (Option ℕ)) → map Some places.now ≡ places_in source (func_of func.old) ++ rest → OnOk result (func_of func.new ≡ numbered_field source (func_of func.old)) }
    ensures left { (rest : List (Option ℕ)) → map Some places.now ≡ places_in source (func_of func.old) ++ rest → IfOk result (λ l. map Some l.now ≡ rest) }
{
    let nameless = count_nameless(room, names, types, &func.ty)?;
    number_use(room, names, types, &mut func.ty)?;
    number_locals(&names.types, func.locals.as_mut_slice());
    Ok(number_body(nameless as u32, places, &mut func.body))
}

fn number_table<'a>(names: &ModuleNames<'a>, table: &mut Table<'a>)
    ghost source: { List Field }
    requires named { AreNamesOf names.now source }
    requires kept { first_broken (broken_parts source (table_of table.old)) ≡ None }
    ensures { table_of table.new ≡ numbered_field source (table_of table.old) }
{
    table.ty = numbered_reference(&names.types, &table.ty);
}

/// Numbers the names in a global; what is left of the places behind it.
fn number_global<'n, 'a>(
    names: &ModuleNames<'a>,
    places: &'n [u32],
    global: &mut GlobalField<'a>,
) -> &'n [u32]
    ghost source: { List Field }
    requires named { AreNamesOf names.now source }
    ensures numbered { (rest : List (Option ℕ)) → map Some places.now ≡ places_in source (global_of global.old) ++ rest → global_of global.new ≡ numbered_field source (global_of global.old) }
    ensures left { (rest : List (Option ℕ)) → map Some places.now ≡ places_in source (global_of global.old) ++ rest → map Some result.now ≡ rest }
{
    global.ty = numbered_value(&names.types, &global.ty);
    number_body(0, places, &mut global.init)
}

fn number_export<'a>(names: &ModuleNames<'a>, export: &mut Export<'a>)
    ghost source: { List Field }
    requires named { AreNamesOf names.now source }
    ensures { export_of export.new ≡ numbered_field source (export_of export.old) }
{
    export.item = match export.kind {
        ExportKind::Func => numbered(&names.funcs, &export.item),
        ExportKind::Table => numbered(&names.tables, &export.item),
        ExportKind::Memory => numbered(&names.memories, &export.item),
        ExportKind::Global => numbered(&names.globals, &export.item),
        ExportKind::Tag => numbered_alone(&export.item),
    };
}

/// Numbers the names in a field, and gives its type use an index; what is left of the places behind it.
fn number_field<'n, 'a>(
    room: &mut Signature,
    names: &ModuleNames<'a>,
    types: &TypeTable,
    places: &'n [u32],
    field: &mut ModuleField<'a>,
) -> Result<&'n [u32], AllocError>
    ghost source: { List Field }
    requires named { AreNamesOf names.now source }
    requires typed { types.now ≡ all_types source }
    requires few { FewParams types.now }
    requires kept { first_broken (broken_parts source (field_of field.old)) ≡ None }
    requires light { weight_of_field (field_of field.old) < 2 ^ 31 }
    ensures numbered { (rest : List (Option ℕ)) → map Some places.now ≡ places_in source (field_of field.old) ++ rest → OnOk result (field_of field.new ≡ numbered_field source (field_of field.old)) }
    ensures left { (rest : List (Option ℕ)) → map Some places.now ≡ places_in source (field_of field.old) ++ rest → IfOk result (λ l. map Some l.now ≡ rest) }
{
    match field {
        ModuleField::Ty(ty) => number_type(&names.types, ty),
        ModuleField::Import(import) => number_import(room, names, types, import)?,
        ModuleField::Func(func) => return number_func(room, names, types, places, func),
        ModuleField::Memory(_) => {}
        ModuleField::Table(table) => number_table(names, table),
        ModuleField::Global(global) => return Ok(number_global(names, places, global)),
        ModuleField::Export(export) => number_export(names, export),
        ModuleField::Other(_) => {}
    }
    Ok(places)
}

/// Numbers the names in fields of a module, those in instructions by these places, and gives each type use an index.
fn number_each<'a>(
    alloc: Global,
    names: &ModuleNames<'a>,
    types: &TypeTable,
    places: &[u32],
    fields: &mut [ModuleField<'a>],
) -> Result<(), AllocError>
    ghost source: { List Field }
    requires named { AreNamesOf names.now source }
    requires typed { types.now ≡ all_types source }
    requires few { FewParams types.now }
    requires kept { first_broken (flat_map (broken_parts source) (fields_of fields.old)) ≡ None }
    requires light { weight_of_all weight_of_field (fields_of fields.old) < 2 ^ 31 }
    requires places { map Some places.now ≡ flat_map (places_in source) (fields_of fields.old) }
    ensures { OnOk result (fields_of fields.new ≡ map (numbered_field source) (fields_of fields.old)) }
{
    let mut room = Signature::empty(alloc);
    let mut left = places;
    for field in fields.iter_mut() {
        left = number_field(&mut room, names, types, left, field)?;
    }
    Ok(())
}

/// Numbers the names in the fields of a module, all of them, and gives each type use an index. They break no rule.
pub(crate) fn number_all<'a>(
    alloc: Global,
    names: &ModuleNames<'a>,
    types: &TypeTable,
    fields: &mut Vec<ModuleField<'a>>,
) -> Result<(), AllocError>
    requires named { AreNamesOf names.now (fields_of fields.old.items) }
    requires typed { types.now ≡ all_types (fields_of fields.old.items) }
    requires kept { core_rule (fields_of fields.old.items) ≡ None }
    requires light { core_weight (fields_of fields.old.items) < 2 ^ 31 }
    ensures { OnOk result (fields_of fields.new.items ≡ map (numbered_field (fields_of fields.old.items)) (fields_of fields.old.items)) }
{
    number_each(
        alloc,
        names,
        types,
        names.places.as_slice(),
        fields.as_mut_slice(),
    )
}
