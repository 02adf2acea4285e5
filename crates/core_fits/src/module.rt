//! Whether a whole module fits.

ghost use Rattle.std.specs.Prelude.{◌≡◌, ◌≤◌, ◌↔◌, ◌+◌, true};
ghost use Rattle.comp_model.specs.Weight.{weight_of_id, weight_of_label};
ghost use Rattle.core_model.specs.IsResolved.{are_resolved};
ghost use Rattle.core_model.specs.Module.{module_with};
ghost use Rattle.core_model.specs.Weight.{weight_alone};
ghost use Rattle.core_syntax.specs.Ids.{option_id};
ghost use Rattle.core_syntax.specs.Fields.{label_of, naming_of, fields_of};
ghost use Rattle.core_write.specs.Module.{FitsModule};
ghost use Rattle.core_fits.specs.Tests.{fits_module};

use crate::exports::fits_export_part;
use crate::lengths::add;
use crate::name_section::fits_names_part;
use crate::sections::fits_part;
use core_bounds::read_numerals;
use core_syntax::{ModuleField, core_weight};
use core_write::Part;
use wast_parser::{Id, NameAnnotation};

/// Whether each section fits, and the name section.
pub(crate) fn fits_sections(
    id: &Option<Id<'_>>,
    label: &Option<NameAnnotation<'_>>,
    fields: &[ModuleField<'_>],
) -> bool
    ensures { result ≡ fits_module (naming_of id.now label.now) (fields_of fields.now) }
{
    fits_part(Part::Types, fields)
        && fits_part(Part::Imports, fields)
        && fits_part(Part::Functions, fields)
        && fits_part(Part::Tables, fields)
        && fits_part(Part::Memories, fields)
        && fits_part(Part::Globals, fields)
        && fits_export_part(fields)
        && fits_part(Part::Code, fields)
        && fits_names_part(id, label, fields)
}

fn id_weight(id: &Option<Id<'_>>) -> u64
    ensures { result ≡ weight_of_id (option_id id.now) }
{
    match id {
        None => 0,
        Some(id) => id.name().len() as u64,
    }
}

fn label_weight(label: &Option<NameAnnotation<'_>>) -> u64
    ensures { result ≡ weight_of_label (label_of label.now) }
{
    match label {
        None => 0,
        Some(label) => label.name.len() as u64,
    }
}

/// Whether a module weighs so little that it fits, its own id and label among that.
fn is_light(
    id: &Option<Id<'_>>,
    label: &Option<NameAnnotation<'_>>,
    fields: &[ModuleField<'_>],
) -> bool
    ensures { result ≡ true → weight_alone (module_with (naming_of id.now label.now) (fields_of fields.now)) ≤ 67108864 }
{
    let named = add(id_weight(id), label_weight(label));
    add(add(32, core_weight(fields)), named) <= 67_108_864
}

/// Whether a module of this id, this label and these fields can be written, whose names are resolved: whether each count, index and
/// length in its bytes is below `2 ^ 32` (WebAssembly, binary format, Modules), as `encode_module` asks. It takes no memory.
///
/// A module that weighs at most 67,108,864 fits, by the law `light_module_fits`. Of a heavier one the sections are measured; a function
/// whose type use writes no signature then looks its type up among the fields.
pub fn fits_core(
    id: &Option<Id<'_>>,
    name: &Option<NameAnnotation<'_>>,
    fields: &[ModuleField<'_>],
) -> bool
    requires resolved { are_resolved (fields_of fields.now) ≡ true }
    ensures fits { (result ≡ true) ↔ FitsModule (naming_of id.now name.now) (fields_of fields.now) }
{
    if is_light(id, name, fields) {
        read_numerals(fields);
        return true;
    }
    fits_sections(id, name, fields)
}
