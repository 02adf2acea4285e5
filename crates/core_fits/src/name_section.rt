//! Whether the name section fits (WebAssembly, binary format, Name Section).

ghost use Rattle.std.specs.Prelude.{◌≡◌, ◌≤◌, true, ℕ, Bool, List, length, option_map};
ghost use Rattle.comp_model.specs.declared.Space.{Space as ModelSpace};
ghost use Rattle.comp_model.specs.Payloads.{joined};
ghost use Rattle.core_model.specs.Bytes.{section};
ghost use Rattle.core_model.specs.NameSection.{names_in, module_name};
ghost use Rattle.core_syntax.specs.Fields.{naming_of, fields_of};
ghost use Rattle.comp_model.specs.declared.Space.TheVariants.{CoreFunc};
ghost use Rattle.core_model.specs.Items.{items_in};
ghost use Rattle.core_write.specs.NamesWritten.{param_counts, local_items_from, subsections_of};
ghost use Rattle.core_fits.specs.Sizes.{IsSize, IsLong};
ghost use Rattle.core_fits.specs.Tests.{fits_places_in, fits_local_places, fits_places, fits_name_section};

use crate::lengths::{add, text_length};
use crate::names::{all_locals_size, item_names_size};
use crate::size::Size;
use comp_wire::Space;
use core_syntax::ModuleField;
use core_write::name_of;
use leb_lengths::{framed_length, is_word};
use wast_parser::{Id, NameAnnotation};

/// The size of a subsection of these items; without an item it is left out.
#[tactic(auto, using(crate::proofs::SectionsSized::subsection_none, crate::proofs::SectionsSized::subsection_some))]
fn subsection_size(items: Size) -> Size
    ensures { (n : ℕ) (all : List (List ℕ)) (holds : Bool) → IsSize items all holds → length all ≤ length (joined all) → IsLong result (section n all) holds }
{
    if items.count == 0 {
        return items;
    }
    Size::one(add(1, framed_length(items.counted_length())), items.fits)
}

/// The size of the subsection of the names of the items of a space.
fn map_size(space: Space, fields: &[ModuleField<'_>]) -> Size
    ensures { (n : ℕ) → IsLong result (section n (names_in space (fields_of fields.now))) (fits_places_in space (fields_of fields.now)) }
{
    subsection_size(item_names_size(space, fields))
}

/// The size of the subsection of the names of parameters and locals.
fn local_map_size(fields: &[ModuleField<'_>]) -> Size
    ensures { (n : ℕ) → IsLong result (section n (local_items_from (param_counts (fields_of fields.now)) 0 (items_in CoreFunc (fields_of fields.now)))) (fits_local_places (fields_of fields.now)) }
{
    subsection_size(all_locals_size(fields))
}

/// The size of the subsection of the name of the module, where it has one.
#[tactic(auto, using(crate::proofs::SectionsSized::module_name_sized))]
fn module_name_size(name: Option<&str>) -> Size
    ensures { IsLong result (module_name (option_map (λ x. x.now) name.entry)) true }
{
    match name {
        None => Size::none(),
        Some(name) => Size::one(add(1, framed_length(text_length(name))), true),
    }
}

/// The size of the subsections.
pub(crate) fn names_size(
    id: &Option<Id<'_>>,
    label: &Option<NameAnnotation<'_>>,
    fields: &[ModuleField<'_>],
) -> Size
    ensures { IsLong result (subsections_of (naming_of id.now label.now) (fields_of fields.now)) (fits_places (fields_of fields.now)) }
{
    let name = module_name_size(name_of(id, label));
    let funcs = name.and(map_size(Space::CoreFunc, fields));
    let locals = funcs.and(local_map_size(fields));
    let types = locals.and(map_size(Space::CoreType, fields));
    let tables = types.and(map_size(Space::CoreTable, fields));
    let memories = tables.and(map_size(Space::CoreMemory, fields));
    memories.and(map_size(Space::CoreGlobal, fields))
}

/// Whether the name section fits: the place of each name, and its length.
#[tactic(auto, using(crate::proofs::SectionsSized::names_sized))]
pub(crate) fn fits_names_part(
    id: &Option<Id<'_>>,
    label: &Option<NameAnnotation<'_>>,
    fields: &[ModuleField<'_>],
) -> bool
    ensures { result ≡ fits_name_section (naming_of id.now label.now) (fields_of fields.now) }
{
    let names = names_size(id, label, fields);
    names.fits && is_word(add(5, names.bytes))
}
