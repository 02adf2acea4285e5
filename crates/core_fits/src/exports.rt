//! Whether the section of exports fits.

ghost use Rattle.std.specs.Prelude.{◌≡◌, [], map, true, length};
ghost use Rattle.comp_model.specs.declared.Space.{Space};
ghost use Rattle.core_model.specs.Bytes.{export_item};
ghost use Rattle.core_syntax.specs.Fields.{export_of, field_of, fields_of};
ghost use Rattle.core_syntax.specs.Measures.{capped};
ghost use Rattle.core_write.specs.Exports.{exports_at, exports_from, no_counts};
ghost use Rattle.core_fits.specs.Sizes.{IsSize};
ghost use Rattle.core_fits.specs.Tests.{fits_inline, fits_exports_at, fits_exports, fits_export_section};

use crate::lengths::{add, text_length};
use crate::size::Size;
use core_syntax::{Export, ExportKind, ModuleField};
use core_write::{Counts, count_in, number_of, space_of};
use leb_lengths::{is_word, uleb_length};

/// The length of an export: its name, the byte of its kind, its index.
fn export_length(name: &str, index: u64) -> u64
    ensures { (s : Space) → result ≡ capped (length (export_item [] s index name.now)) }
{
    add(text_length(name), add(1, uleb_length(index)))
}

/// The size of the inline exports of a field, and whether their index fits.
fn inline_size(index: u64, names: &[&str]) -> Size
    ensures { (s : Space) → IsSize result (map (export_item [] s index) (map (λ x. x.now) names.now)) (fits_inline index (map (λ x. x.now) names.now)) }
{
    let mut size = Size::none();
    for name in names {
        size = size.and(Size::one(export_length(name, index), is_word(index)));
    }
    size
}

/// The size of a written export, but for one of a tag.
fn written_size(export: &Export<'_>) -> Size
    ensures { IsSize result (exports_at no_counts (export_of export.now)) true }
{
    match export.kind {
        ExportKind::Tag => Size::none(),
        _ => Size::one(
            export_length(export.name, number_of(&export.item) as u64),
            true,
        ),
    }
}

/// The size of what a field exports, where so many items stand before it.
fn exports_at_size(counts: Counts, field: &ModuleField<'_>) -> Size
    ensures { IsSize result (exports_at counts (field_of field.now)) (fits_exports_at counts (field_of field.now)) }
{
    match field {
        ModuleField::Export(export) => written_size(export),
        ModuleField::Func(func) => inline_size(counts.funcs as u64, func.exports.as_slice()),
        ModuleField::Table(table) => inline_size(counts.tables as u64, table.exports.as_slice()),
        ModuleField::Memory(memory) => {
            inline_size(counts.memories as u64, memory.exports.as_slice())
        }
        ModuleField::Global(global) => {
            inline_size(counts.globals as u64, global.exports.as_slice())
        }
        ModuleField::Ty(_) => Size::none(),
        ModuleField::Import(_) => Size::none(),
        ModuleField::Other(_) => Size::none(),
    }
}

/// The size of what fields export.
fn exports_size(fields: &[ModuleField<'_>]) -> Size
    ensures { IsSize result (exports_from no_counts (fields_of fields.now)) (fits_exports no_counts (fields_of fields.now)) }
{
    let mut size = Size::none();
    let mut counts = Counts {
        funcs: 0,
        tables: 0,
        memories: 0,
        globals: 0,
    };
    for field in fields {
        size = size.and(exports_at_size(counts, field));
        counts = count_in(space_of(field), counts);
    }
    size
}

/// Whether the section of exports fits.
pub(crate) fn fits_export_part(fields: &[ModuleField<'_>]) -> bool
    ensures { result ≡ fits_export_section (fields_of fields.now) }
{
    exports_size(fields).fits_section()
}
