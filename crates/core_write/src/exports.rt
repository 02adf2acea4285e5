//! What fields export.

ghost use Rattle.std.specs.Prelude.{◌≡◌, ◌+◌, ◌-◌, ◌<◌, ◌^◌, ◌∷◌, [], ◌++◌, map, length, OnOk, IfOk, Option};
ghost use Rattle.comp_model.specs.declared.Space.{Space as ModelSpace};
ghost use Rattle.comp_model.specs.Leb.{uleb as unsigned_bytes};
ghost use Rattle.comp_model.specs.Payloads.{joined, framed};
ghost use Rattle.core_model.specs.Items.{declares};
ghost use Rattle.core_model.specs.Words.{Word};
ghost use Rattle.core_model.specs.Bytes.{section};
ghost use Rattle.core_syntax.specs.Fields.{export_of, field_of, fields_of};
ghost use Rattle.core_write.specs.Exports.{counted_in, exports_at, exports_from, FitsInline, FitsExportsAt, FitsExports, no_counts};
ghost use Rattle.core_write.specs.Fits.{FitsSection};

use crate::bytes::{push_byte, push_text};
use crate::counts::Counts;
use crate::fields::space_of;
use crate::instructions::number_of;
use crate::sections::push_section;
use comp_wire::{NoMemory, Space, uleb};
use core_syntax::{Export, ExportKind, ModuleField};
use std::alloc::Global;

/// One more item of a space.
pub fn count_in(space: Option<Space>, counts: Counts) -> Counts
    requires funcs { counts.funcs < 2 ^ 64 - 1 }
    requires tables { counts.tables < 2 ^ 64 - 1 }
    requires memories { counts.memories < 2 ^ 64 - 1 }
    requires globals { counts.globals < 2 ^ 64 - 1 }
    ensures { result ≡ counted_in space counts }
{
    let mut more = counts;
    match space {
        Some(Space::CoreFunc) => more.funcs += 1,
        Some(Space::CoreTable) => more.tables += 1,
        Some(Space::CoreMemory) => more.memories += 1,
        Some(Space::CoreGlobal) => more.globals += 1,
        _ => {}
    }
    more
}

/// Appends an export: its name, the byte of its kind, its index.
fn push_export(
    alloc: Global,
    out: &mut Vec<u8>,
    name: &str,
    byte: u8,
    index: u32,
) -> Result<(), NoMemory>
    requires { Word (length name.now) }
    ensures { OnOk result (out.new.items ≡ out.old.items ++ (framed name.now ++ (byte ∷ unsigned_bytes index))) }
{
    push_text(alloc, out, name)?;
    push_byte(out, byte)?;
    uleb(alloc, out, index)
}

/// Appends the inline exports of a field; answers how many there are.
fn push_inline(
    alloc: Global,
    out: &mut Vec<u8>,
    byte: u8,
    index: usize,
    names: &[&str],
) -> Result<usize, NoMemory>
    requires { FitsInline index (map (λ x. x.now) names.now) }
    ensures number { IfOk result (λ n. n ≡ length (map (λ x. framed x ++ (byte ∷ unsigned_bytes index)) (map (λ x. x.now) names.now))) }
    ensures appended { OnOk result (out.new.items ≡ out.old.items ++ joined (map (λ x. framed x ++ (byte ∷ unsigned_bytes index)) (map (λ x. x.now) names.now))) }
{
    for name in names {
        push_export(alloc, out, name, byte, index as u32)?;
    }
    Ok(names.len())
}

/// Appends a written export, but for one of a tag; answers how many that are.
fn push_written(alloc: Global, out: &mut Vec<u8>, export: &Export<'_>) -> Result<usize, NoMemory>
    requires { FitsExportsAt no_counts (export_of export.now) }
    ensures number { IfOk result (λ n. n ≡ length (exports_at no_counts (export_of export.now))) }
    ensures appended { OnOk result (out.new.items ≡ out.old.items ++ joined (exports_at no_counts (export_of export.now))) }
{
    let byte = match export.kind {
        ExportKind::Func => 0x00,
        ExportKind::Table => 0x01,
        ExportKind::Memory => 0x02,
        ExportKind::Global => 0x03,
        ExportKind::Tag => return Ok(0),
    };
    push_export(alloc, out, export.name, byte, number_of(&export.item))?;
    Ok(1)
}

/// Appends what a field exports, where so many items stand before it; answers how many exports that are.
fn push_exports_at(
    alloc: Global,
    out: &mut Vec<u8>,
    counts: Counts,
    field: &ModuleField<'_>,
) -> Result<usize, NoMemory>
    requires { FitsExportsAt counts (field_of field.now) }
    ensures number { IfOk result (λ n. n ≡ length (exports_at counts (field_of field.now))) }
    ensures appended { OnOk result (out.new.items ≡ out.old.items ++ joined (exports_at counts (field_of field.now))) }
{
    match field {
        ModuleField::Export(export) => push_written(alloc, out, export),
        ModuleField::Func(func) => {
            push_inline(alloc, out, 0x00, counts.funcs, func.exports.as_slice())
        }
        ModuleField::Table(table) => {
            push_inline(alloc, out, 0x01, counts.tables, table.exports.as_slice())
        }
        ModuleField::Memory(memory) => {
            push_inline(alloc, out, 0x02, counts.memories, memory.exports.as_slice())
        }
        ModuleField::Global(global) => {
            push_inline(alloc, out, 0x03, counts.globals, global.exports.as_slice())
        }
        ModuleField::Ty(_) => Ok(0),
        ModuleField::Import(_) => Ok(0),
        ModuleField::Other(_) => Ok(0),
    }
}

/// Appends what fields export; answers how many exports that are.
#[tactic(auto, using(crate::proofs::Steps::joined_append))]
fn push_exports(
    alloc: Global,
    out: &mut Vec<u8>,
    fields: &[ModuleField<'_>],
) -> Result<usize, NoMemory>
    requires fits { FitsExports no_counts (fields_of fields.now) }
    requires number { Word (length (exports_from no_counts (fields_of fields.now))) }
    ensures number { IfOk result (λ n. n ≡ length (exports_from no_counts (fields_of fields.now))) }
    ensures appended { OnOk result (out.new.items ≡ out.old.items ++ joined (exports_from no_counts (fields_of fields.now))) }
{
    let mut count = 0;
    let mut counts = Counts {
        funcs: 0,
        tables: 0,
        memories: 0,
        globals: 0,
    };
    for field in fields {
        count += push_exports_at(alloc, out, counts, field)?;
        counts = count_in(space_of(field), counts);
    }
    Ok(count)
}

/// Appends the section of exports.
pub(crate) fn push_export_section(
    alloc: Global,
    out: &mut Vec<u8>,
    fields: &[ModuleField<'_>],
) -> Result<(), NoMemory>
    requires fits { FitsExports no_counts (fields_of fields.now) }
    requires whole { FitsSection (exports_from no_counts (fields_of fields.now)) }
    ensures { OnOk result (out.new.items ≡ out.old.items ++ section 0x07 (exports_from no_counts (fields_of fields.now))) }
{
    let mut items = Vec::new(alloc);
    let count = push_exports(alloc, &mut items, fields)?;
    push_section(alloc, out, 0x07, count as u32, items.as_slice())
}
