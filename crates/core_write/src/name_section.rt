//! The name section (WebAssembly, binary format, Name Section).

ghost use Rattle.std.specs.Prelude.{◌≡◌, ◌∷◌, [], ◌++◌, map, length, option_map, OnOk};
ghost use Rattle.comp_model.specs.declared.Space.{Space as ModelSpace};
ghost use Rattle.comp_model.specs.declared.Space.TheVariants.{CoreFunc};
ghost use Rattle.core_model.specs.Items.{items_in};
ghost use Rattle.comp_model.specs.Payloads.{framed};
ghost use Rattle.core_model.specs.Words.{Word};
ghost use Rattle.core_model.specs.Bytes.{section};
ghost use Rattle.core_model.specs.NameSection.{names_in, module_name, custom, section_name};
ghost use Rattle.core_syntax.specs.Fields.{naming_of, fields_of};
ghost use Rattle.core_write.specs.NamesWritten.{param_counts as counts_of_params, local_items_from, subsections_of, FitsModuleName, FitsNamesIn, FitsLocalNames, FitsNameSection};

use crate::bytes::{push_byte, push_bytes, push_framed, push_text};
use crate::fields::name_of;
use crate::names::{param_counts, push_all_locals, push_item_names};
use crate::sections::push_section;
use comp_wire::{NoMemory, Space};
use core_syntax::ModuleField;
use std::alloc::Global;
use wast_parser::{Id, NameAnnotation};

/// Appends the subsection of the names of the items of a space.
fn push_name_map(
    alloc: Global,
    out: &mut Vec<u8>,
    number: u8,
    space: Space,
    fields: &[ModuleField<'_>],
) -> Result<(), NoMemory>
    requires { FitsNamesIn space (fields_of fields.now) }
    ensures { OnOk result (out.new.items ≡ out.old.items ++ section number (names_in space (fields_of fields.now))) }
{
    let mut items = Vec::new(alloc);
    let count = push_item_names(alloc, &mut items, space, fields)?;
    push_section(alloc, out, number, count, items.as_slice())
}

/// Appends the subsection of the names of parameters and locals.
fn push_local_map(
    alloc: Global,
    out: &mut Vec<u8>,
    fields: &[ModuleField<'_>],
) -> Result<(), NoMemory>
    requires { FitsLocalNames (fields_of fields.now) }
    ensures { OnOk result (out.new.items ≡ out.old.items ++ section 0x02 (local_items_from (counts_of_params (fields_of fields.now)) 0 (items_in CoreFunc (fields_of fields.now)))) }
{
    let counts = param_counts(alloc, fields)?;
    let mut items = Vec::new(alloc);
    let count = push_all_locals(alloc, &mut items, counts.as_slice(), fields)?;
    push_section(alloc, out, 0x02, count, items.as_slice())
}

/// Appends the subsection of the name of the module, where it has one.
fn push_module_name(alloc: Global, out: &mut Vec<u8>, name: Option<&str>) -> Result<(), NoMemory>
    requires { FitsModuleName (option_map (λ x. x.now) name) }
    ensures { OnOk result (out.new.items ≡ out.old.items ++ module_name (option_map (λ x. x.now) name.entry)) }
{
    match name {
        None => Ok(()),
        Some(name) => {
            let mut body = Vec::new(alloc);
            push_text(alloc, &mut body, name)?;
            push_byte(out, 0x00)?;
            push_framed(alloc, out, body.as_slice())
        }
    }
}

/// Appends the subsections.
fn push_subsections(
    alloc: Global,
    out: &mut Vec<u8>,
    id: &Option<Id<'_>>,
    label: &Option<NameAnnotation<'_>>,
    fields: &[ModuleField<'_>],
) -> Result<(), NoMemory>
    requires { FitsNameSection (naming_of id.now label.now) (fields_of fields.now) }
    ensures { OnOk result (out.new.items ≡ out.old.items ++ subsections_of (naming_of id.now label.now) (fields_of fields.now)) }
{
    push_module_name(alloc, out, name_of(id, label))?;
    push_name_map(alloc, out, 0x01, Space::CoreFunc, fields)?;
    push_local_map(alloc, out, fields)?;
    push_name_map(alloc, out, 0x04, Space::CoreType, fields)?;
    push_name_map(alloc, out, 0x05, Space::CoreTable, fields)?;
    push_name_map(alloc, out, 0x06, Space::CoreMemory, fields)?;
    push_name_map(alloc, out, 0x07, Space::CoreGlobal, fields)
}

/// Appends the custom section that holds these subsections; without any it is left out.
fn push_custom(alloc: Global, out: &mut Vec<u8>, names: &[u8]) -> Result<(), NoMemory>
    requires { Word (length (framed section_name ++ names.now)) }
    ensures { OnOk result (out.new.items ≡ out.old.items ++ custom names.now) }
{
    match names {
        [] => Ok(()),
        _ => {
            let mut body = Vec::new(alloc);
            push_framed(alloc, &mut body, &[0x6e, 0x61, 0x6d, 0x65])?;
            push_bytes(&mut body, names)?;
            push_byte(out, 0x00)?;
            push_framed(alloc, out, body.as_slice())
        }
    }
}

/// Appends the name section; where nothing has a name it is left out.
pub(crate) fn push_name_section(
    alloc: Global,
    out: &mut Vec<u8>,
    id: &Option<Id<'_>>,
    label: &Option<NameAnnotation<'_>>,
    fields: &[ModuleField<'_>],
) -> Result<(), NoMemory>
    requires { FitsNameSection (naming_of id.now label.now) (fields_of fields.now) }
    ensures { OnOk result (out.new.items ≡ out.old.items ++ custom (subsections_of (naming_of id.now label.now) (fields_of fields.now))) }
{
    let mut names = Vec::new(alloc);
    push_subsections(alloc, &mut names, id, label, fields)?;
    push_custom(alloc, out, names.as_slice())
}
