//! The bytes of definitions.

ghost use Rattle.std.specs.Prelude.{◌≡◌, ◌∷◌, ◌++◌, length, OnOk};
ghost use Rattle.comp_model.specs.Model.{nodes};
ghost use Rattle.comp_model.specs.Leb.{uleb as unsigned_bytes};
ghost use Rattle.comp_model.specs.Payloads.{framed, sort_bytes};
ghost use Rattle.comp_wire.specs.Sections.{Word};
ghost use Rattle.comp_wire.specs.Table as table;
ghost use Rattle.comp_wire.specs.Table.{each, one, optional};
ghost use Rattle.comp_wire.specs.Spelled.{spell_leaf, FitsLeaf, item_of_def};
ghost use Rattle.comp_wire.specs.Values.{rows_of_list, start_argument_row, optional_of, description_leaf, space_of};
ghost use Rattle.comp_wire.specs.Definitions.{def_of};

use crate::append::{append, append_byte};
use crate::append_externs::append_description;
use crate::append_lists::append_list;
use crate::append_values::{append_extern_text, append_sorted_index, append_text};
use crate::defs::WireDef;
use crate::externs::ComponentTypeRef;
use crate::kinds::ComponentExportKind;
use crate::leb::uleb;
use crate::memory::NoMemory;
use crate::sections::SectionKind;
use crate::seq::Seq;
use std::alloc::Global;

/// The section of a definition.
pub fn section_of(def: &WireDef) -> SectionKind
    ensures { result ≡ (item_of_def (def_of def.now)).section }
{
    match def {
        WireDef::CoreModule(_) => SectionKind::CoreModule,
        WireDef::CoreInstantiate { .. } => SectionKind::CoreInstance,
        WireDef::CoreBundle { .. } => SectionKind::CoreInstance,
        WireDef::CoreType(_) => SectionKind::CoreType,
        WireDef::Component { .. } => SectionKind::Component,
        WireDef::Instantiate { .. } => SectionKind::Instance,
        WireDef::Bundle { .. } => SectionKind::Instance,
        WireDef::Alias(_) => SectionKind::Alias,
        WireDef::Ty(_) => SectionKind::Type,
        WireDef::Canon(_) => SectionKind::Canon,
        WireDef::Start { .. } => SectionKind::Start,
        WireDef::Import { .. } => SectionKind::Import,
        WireDef::Export { .. } => SectionKind::Export,
        WireDef::Custom { .. } => SectionKind::Custom,
    }
}

/// Appends the call of a function when the component starts.
pub fn append_start(
    alloc: Global,
    out: &mut Vec<u8>,
    func: u32,
    args: &Seq<u32>,
    results: u32,
) -> Result<(), NoMemory>
    requires { FitsLeaf (nodes (rows_of_list start_argument_row args.now)) (each table.start_arguments) }
    ensures { OnOk result (out.new.items ≡ out.old.items ++ (unsigned_bytes func ++ (spell_leaf (nodes (rows_of_list start_argument_row args.now)) (each table.start_arguments) ++ unsigned_bytes results))) }
{
    uleb(alloc, out, func)?;
    append_list(alloc, out, args)?;
    uleb(alloc, out, results)
}

/// Appends an import.
pub fn append_import(
    alloc: Global,
    out: &mut Vec<u8>,
    name: &str,
    description: ComponentTypeRef,
) -> Result<(), NoMemory>
    requires { Word (length name.now) }
    ensures { OnOk result (out.new.items ≡ out.old.items ++ 0x00 ∷ (framed name.now ++ spell_leaf (description_leaf description) (one table.descriptions))) }
{
    append_extern_text(alloc, out, name)?;
    append_description(alloc, out, description)
}

/// Appends a description behind 01, or 00 where there is none.
fn append_optional_description(
    alloc: Global,
    out: &mut Vec<u8>,
    description: Option<ComponentTypeRef>,
) -> Result<(), NoMemory>
    ensures { OnOk result (out.new.items ≡ out.old.items ++ spell_leaf (optional_of description_leaf description) (optional (one table.descriptions))) }
{
    match description {
        None => append_byte(out, 0x00),
        Some(description) => {
            append_byte(out, 0x01)?;
            append_description(alloc, out, description)
        }
    }
}

/// Appends an export.
pub fn append_export(
    alloc: Global,
    out: &mut Vec<u8>,
    name: &str,
    description: Option<ComponentTypeRef>,
    kind: ComponentExportKind,
    index: u32,
) -> Result<(), NoMemory>
    requires { Word (length name.now) }
    ensures { OnOk result (out.new.items ≡ out.old.items ++ 0x00 ∷ (framed name.now ++ (sort_bytes (space_of kind) ++ (unsigned_bytes index ++ spell_leaf (optional_of description_leaf description) (optional (one table.descriptions)))))) }
{
    append_extern_text(alloc, out, name)?;
    append_sorted_index(alloc, out, kind, index)?;
    append_optional_description(alloc, out, description)
}

/// Appends the name and the payload of a custom section.
pub fn append_custom(
    alloc: Global,
    out: &mut Vec<u8>,
    name: &str,
    payload: &[u8],
) -> Result<(), NoMemory>
    requires { Word (length name.now) }
    ensures { OnOk result (out.new.items ≡ out.old.items ++ (framed name.now ++ payload.now)) }
{
    append_text(alloc, out, name)?;
    append(out, payload)
}
