//! The bytes of types, and of the declarations in them.

ghost use Rattle.std.specs.Prelude.{◌≡◌, ◌≢◌, ◌∷◌, [], ◌++◌, length, OnOk};
ghost use Rattle.comp_model.specs.Model.{nodes};
ghost use Rattle.comp_model.specs.declared.row.ScopeKind.TheVariants as kinds;
ghost use Rattle.comp_model.specs.declared.Space.TheVariants.{CoreFunc};
ghost use Rattle.comp_model.specs.Payloads.{framed};
ghost use Rattle.comp_wire.specs.Sections.{Word};
ghost use Rattle.comp_wire.specs.Table as table;
ghost use Rattle.comp_wire.specs.Table.{each, index_in, optional, result as result_field, value as value_field};
ghost use Rattle.comp_wire.specs.Spelled.{spell_leaf, spell_node, spell_type_scope, declarations_of, async_byte_of, core_bytes, FitsLeaf, FitsNode, FitsTypeScope};
ghost use Rattle.comp_wire.specs.Values.{rows_of_list, named_type_row, bit, value_of, optional_of, index_of, core_value_of, description_row, entity_row, alias_row};
ghost use Rattle.comp_wire.specs.Definitions.{type_row, core_type_row, declaration_row};
ghost use Rattle.comp_wire.specs.Declarations.{kind_of_type, scope_of_list};

use crate::append::{append_byte, append_indexed};
use crate::append_externs::{
    append_alias_behind, append_description, append_entity, append_outer_core_type,
};
use crate::append_lists::{Entry, append_list, append_list_behind};
use crate::append_values::{
    append_core_value_behind, append_extern_text, append_optional, append_result, append_text,
    append_text_behind, append_value_behind, primitive_byte,
};
use crate::externs::{Alias, ComponentTypeRef, WireEntity};
use crate::leb::uleb;
use crate::memory::NoMemory;
use crate::seq::Seq;
use crate::types::{WireCoreType, WireDecl, WireType};
use crate::values::{ComponentValType, WireVal};
use std::alloc::Global;

/// The types that hold declarations.
#[derive(Clone, Copy)]
pub enum Declared {
    Component,
    Instance,
    Module,
}

/// Appends a function type.
fn append_function_type(
    alloc: Global,
    out: &mut Vec<u8>,
    async_: bool,
    params: &Seq<(&str, ComponentValType)>,
    result_type: Option<ComponentValType>,
) -> Result<(), NoMemory>
    requires { FitsLeaf (nodes (rows_of_list named_type_row params.now)) (each table.named_types) }
    ensures { OnOk result (out.new.items ≡ out.old.items ++ async_byte_of (bit async_) ∷ (spell_leaf (nodes (rows_of_list named_type_row params.now)) (each table.named_types) ++ spell_leaf (optional_of value_of result_type) (result_field value_field))) }
{
    append_async_byte(out, async_)?;
    append_list(alloc, out, params)?;
    append_result(alloc, out, result_type)
}

/// Appends the byte of a function type.
fn append_async_byte(out: &mut Vec<u8>, async_: bool) -> Result<(), NoMemory>
    ensures { OnOk result (out.new.items ≡ out.old.items ++ async_byte_of (bit async_) ∷ []) }
{
    if async_ {
        append_byte(out, 0x43)
    } else {
        append_byte(out, 0x40)
    }
}

/// Appends a resource type: how it is represented, and the function that destroys it.
fn append_resource(
    alloc: Global,
    out: &mut Vec<u8>,
    rep: WireVal,
    dtor: Option<u32>,
) -> Result<(), NoMemory>
    ensures { OnOk result (out.new.items ≡ out.old.items ++ 0x3f ∷ (core_bytes (core_value_of rep) ++ spell_leaf (optional_of (index_of CoreFunc) dtor) (optional (index_in CoreFunc)))) }
{
    append_core_value_behind(alloc, out, 0x3f, rep)?;
    match dtor {
        None => append_byte(out, 0x00),
        Some(index) => append_indexed(alloc, out, 0x01, index),
    }
}

/// Appends what comes of a success and of a failure.
fn append_result_type(
    alloc: Global,
    out: &mut Vec<u8>,
    ok: Option<ComponentValType>,
    err: Option<ComponentValType>,
) -> Result<(), NoMemory>
    ensures { OnOk result (out.new.items ≡ out.old.items ++ 0x6a ∷ (spell_leaf (optional_of value_of ok) (optional value_field) ++ spell_leaf (optional_of value_of err) (optional value_field))) }
{
    append_byte(out, 0x6a)?;
    append_optional(alloc, out, ok)?;
    append_optional(alloc, out, err)
}

/// Appends a byte, and a value type where there is one.
fn append_optional_behind(
    alloc: Global,
    out: &mut Vec<u8>,
    byte: u8,
    value: Option<ComponentValType>,
) -> Result<(), NoMemory>
    ensures { OnOk result (out.new.items ≡ out.old.items ++ byte ∷ spell_leaf (optional_of value_of value) (optional value_field)) }
{
    append_byte(out, byte)?;
    append_optional(alloc, out, value)
}

/// Appends a type.
#[cycle(types)]
pub fn append_type(alloc: Global, out: &mut Vec<u8>, ty: &WireType) -> Result<(), NoMemory>
    requires { FitsNode (type_row ty.now) table.types }
    ensures { OnOk result (out.new.items ≡ out.old.items ++ spell_node (type_row ty.now) table.types) }
{
    match ty {
        WireType::Primitive(primitive) => append_byte(out, primitive_byte(*primitive)),
        WireType::Record(fields) => append_list_behind(alloc, out, 0x72, fields),
        WireType::Variant(cases) => append_list_behind(alloc, out, 0x71, cases),
        WireType::List(element) => append_value_behind(alloc, out, 0x70, *element),
        WireType::FixedLengthList(element, length) => {
            append_value_behind(alloc, out, 0x67, *element)?;
            uleb(alloc, out, *length)
        }
        WireType::Tuple(fields) => append_list_behind(alloc, out, 0x6f, fields),
        WireType::Flags(names) => append_list_behind(alloc, out, 0x6e, names),
        WireType::Enum(names) => append_list_behind(alloc, out, 0x6d, names),
        WireType::Option(element) => append_value_behind(alloc, out, 0x6b, *element),
        WireType::Result(ok, err) => append_result_type(alloc, out, *ok, *err),
        WireType::Own(resource) => append_indexed(alloc, out, 0x69, *resource),
        WireType::Borrow(resource) => append_indexed(alloc, out, 0x68, *resource),
        WireType::Stream(element) => append_optional_behind(alloc, out, 0x66, *element),
        WireType::Future(element) => append_optional_behind(alloc, out, 0x65, *element),
        WireType::Func {
            async_,
            params,
            result,
        } => append_function_type(alloc, out, *async_, params, *result),
        WireType::Component(decls) => append_declarations(
            alloc,
            out,
            0x41,
            Declared::Component,
            decls,
        ),
        WireType::Instance(decls) => append_declarations(
            alloc,
            out,
            0x42,
            Declared::Instance,
            decls,
        ),
        WireType::Resource { rep, dtor } => append_resource(alloc, out, *rep, *dtor),
    }
}

/// Appends a core type.
#[cycle(types)]
pub fn append_core_type(alloc: Global, out: &mut Vec<u8>, ty: &WireCoreType) -> Result<(), NoMemory>
    requires { FitsNode (core_type_row ty.now) table.core_types }
    ensures { OnOk result (out.new.items ≡ out.old.items ++ spell_node (core_type_row ty.now) table.core_types) }
{
    match ty {
        WireCoreType::Func(function) => function.append_entry(alloc, out),
        WireCoreType::Rec(functions) => append_list_behind(alloc, out, 0x4e, functions),
        WireCoreType::Module(decls) => append_declarations(
            alloc,
            out,
            0x50,
            Declared::Module,
            decls,
        ),
    }
}

/// Appends a byte and a core type.
#[cycle(types)]
fn append_core_type_behind(
    alloc: Global,
    out: &mut Vec<u8>,
    byte: u8,
    ty: &WireCoreType,
) -> Result<(), NoMemory>
    requires { FitsNode (core_type_row ty.now) table.core_types }
    ensures { OnOk result (out.new.items ≡ out.old.items ++ byte ∷ spell_node (core_type_row ty.now) table.core_types) }
{
    append_byte(out, byte)?;
    append_core_type(alloc, out, ty)
}

/// Appends a byte, a count and so many declarations.
#[cycle(types)]
fn append_declarations(
    alloc: Global,
    out: &mut Vec<u8>,
    byte: u8,
    kind: Declared,
    decls: &Seq<WireDecl>,
) -> Result<(), NoMemory>
    requires { FitsTypeScope (scope_of_list kind decls.now) (kind_of_type kind) }
    ensures { OnOk result (out.new.items ≡ out.old.items ++ byte ∷ spell_type_scope (scope_of_list kind decls.now) (kind_of_type kind)) }
{
    append_byte(out, byte)?;
    append_counted_declarations(alloc, out, kind, decls.as_slice())
}

/// Appends a count and so many declarations.
#[cycle(types)]
fn append_counted_declarations(
    alloc: Global,
    out: &mut Vec<u8>,
    kind: Declared,
    decls: &[WireDecl],
) -> Result<(), NoMemory>
    requires { FitsTypeScope (scope_of_list kind decls.now) (kind_of_type kind) }
    ensures { OnOk result (out.new.items ≡ out.old.items ++ spell_type_scope (scope_of_list kind decls.now) (kind_of_type kind)) }
{
    uleb(alloc, out, decls.len() as u32)?;
    for decl in decls {
        append_declaration(alloc, out, kind, decl)?;
    }
    Ok(())
}

/// Appends a declaration.
#[cycle(types)]
fn append_declaration(
    alloc: Global,
    out: &mut Vec<u8>,
    kind: Declared,
    decl: &WireDecl,
) -> Result<(), NoMemory>
    requires { FitsNode (declaration_row decl.now) (declarations_of (kind_of_type kind)) }
    ensures { OnOk result (out.new.items ≡ out.old.items ++ spell_node (declaration_row decl.now) (declarations_of (kind_of_type kind))) }
{
    match kind {
        Declared::Module => append_module_declaration(alloc, out, decl),
        _ => append_component_declaration(alloc, out, kind, decl),
    }
}

/// Appends a declaration of the type of a component or of an instance.
#[cycle(types)]
fn append_component_declaration(
    alloc: Global,
    out: &mut Vec<u8>,
    kind: Declared,
    decl: &WireDecl,
) -> Result<(), NoMemory>
    requires component { kind_of_type kind ≢ kinds.ModuleType }
    requires fits { FitsNode (declaration_row decl.now) (declarations_of (kind_of_type kind)) }
    ensures { OnOk result (out.new.items ≡ out.old.items ++ spell_node (declaration_row decl.now) (declarations_of (kind_of_type kind))) }
{
    match decl {
        WireDecl::CoreType(ty) => append_core_type_behind(alloc, out, 0x00, ty),
        WireDecl::Ty(ty) => {
            append_byte(out, 0x01)?;
            append_type(alloc, out, ty)
        }
        WireDecl::Alias(alias) => append_alias_behind(alloc, out, 0x02, alias),
        WireDecl::Import { name, ty } => append_described(alloc, out, 0x03, name.name, *ty),
        WireDecl::Export { name, ty } => append_described(alloc, out, 0x04, name.name, *ty),
        WireDecl::ModuleImport { .. } => unreachable!(),
        WireDecl::ModuleExport { .. } => unreachable!(),
    }
}

/// Appends a byte, the name of an import or export, and its description.
pub fn append_described(
    alloc: Global,
    out: &mut Vec<u8>,
    byte: u8,
    name: &str,
    description: ComponentTypeRef,
) -> Result<(), NoMemory>
    requires { Word (length name.now) }
    ensures { OnOk result (out.new.items ≡ out.old.items ++ byte ∷ 0x00 ∷ (framed name.now ++ spell_node (description_row description) table.descriptions)) }
{
    append_byte(out, byte)?;
    append_extern_text(alloc, out, name)?;
    append_description(alloc, out, description)
}

/// Appends a declaration of the type of a core module.
#[cycle(types)]
fn append_module_declaration(
    alloc: Global,
    out: &mut Vec<u8>,
    decl: &WireDecl,
) -> Result<(), NoMemory>
    requires { FitsNode (declaration_row decl.now) table.module_declarations }
    ensures { OnOk result (out.new.items ≡ out.old.items ++ spell_node (declaration_row decl.now) table.module_declarations) }
{
    match decl {
        WireDecl::CoreType(ty) => append_core_type_behind(alloc, out, 0x01, ty),
        WireDecl::Alias(alias) => append_module_alias(alloc, out, alias),
        WireDecl::ModuleImport {
            module,
            name,
            entity,
        } => append_module_import(alloc, out, module, name, *entity),
        WireDecl::ModuleExport { name, entity } => append_module_export(alloc, out, name, *entity),
        WireDecl::Ty(_) => unreachable!(),
        WireDecl::Import { .. } => unreachable!(),
        WireDecl::Export { .. } => unreachable!(),
    }
}

/// Appends the alias of an outer core type.
fn append_module_alias(alloc: Global, out: &mut Vec<u8>, alias: &Alias) -> Result<(), NoMemory>
    requires { FitsNode (alias_row alias.now) table.module_declarations }
    ensures { OnOk result (out.new.items ≡ out.old.items ++ spell_node (alias_row alias.now) table.module_declarations) }
{
    match alias {
        Alias::Outer { count, index, .. } => append_outer_core_type(alloc, out, *count, *index),
        Alias::InstanceExport { .. } => unreachable!(),
        Alias::CoreInstanceExport { .. } => unreachable!(),
    }
}

/// Appends the name of what a core module imports or exports, and what it is.
fn append_named_entity(
    alloc: Global,
    out: &mut Vec<u8>,
    name: &str,
    entity: WireEntity,
) -> Result<(), NoMemory>
    requires { Word (length name.now) }
    ensures { OnOk result (out.new.items ≡ out.old.items ++ (framed name.now ++ spell_node (entity_row entity) table.entities)) }
{
    append_text(alloc, out, name)?;
    append_entity(alloc, out, entity)
}

/// Appends an import of a core module.
fn append_module_import(
    alloc: Global,
    out: &mut Vec<u8>,
    from: &str,
    name: &str,
    entity: WireEntity,
) -> Result<(), NoMemory>
    requires from { Word (length from.now) }
    requires name { Word (length name.now) }
    ensures { OnOk result (out.new.items ≡ out.old.items ++ 0x00 ∷ (framed from.now ++ (framed name.now ++ spell_node (entity_row entity) table.entities))) }
{
    append_text_behind(alloc, out, 0x00, from)?;
    append_named_entity(alloc, out, name, entity)
}

/// Appends an export of a core module.
fn append_module_export(
    alloc: Global,
    out: &mut Vec<u8>,
    name: &str,
    entity: WireEntity,
) -> Result<(), NoMemory>
    requires { Word (length name.now) }
    ensures { OnOk result (out.new.items ≡ out.old.items ++ 0x03 ∷ (framed name.now ++ spell_node (entity_row entity) table.entities)) }
{
    append_byte(out, 0x03)?;
    append_named_entity(alloc, out, name, entity)
}
