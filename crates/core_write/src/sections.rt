//! Sections: a number, a length, a count and so many items.

ghost use Rattle.std.specs.Prelude.{◌≡◌, ◌+◌, ◌∷◌, [], ◌++◌, flat_map, length, map, OnOk, IfOk};
ghost use Rattle.comp_model.specs.Leb.{uleb as unsigned_bytes};
ghost use Rattle.comp_model.specs.Payloads.{joined};
ghost use Rattle.core_model.specs.Words.{Word};
ghost use Rattle.core_model.specs.Bytes.{section};
ghost use Rattle.core_syntax.specs.Fields.{field_of, fields_of};
ghost use Rattle.core_write.specs.Written.{items_of, section_number as number_of_section, section_of};
ghost use Rattle.core_write.specs.Fits.{FitsItems, FitsSection};

use crate::bytes::{push_byte, push_counted};
use crate::items::push_item;
use crate::part::Part;
use comp_wire::NoMemory;
use core_syntax::ModuleField;
use std::alloc::Global;

/// The number of a section.
fn section_number(part: Part) -> u8
    ensures { result ≡ number_of_section part }
{
    match part {
        Part::Types => 0x01,
        Part::Imports => 0x02,
        Part::Functions => 0x03,
        Part::Tables => 0x04,
        Part::Memories => 0x05,
        Part::Globals => 0x06,
        Part::Code => 0x0a,
    }
}

/// Appends a section of so many items, whose bytes these are; without an item it is left out.
pub(crate) fn push_section(
    alloc: Global,
    out: &mut Vec<u8>,
    number: u8,
    count: u32,
    items: &[u8],
) -> Result<(), NoMemory>
    requires { Word (length (unsigned_bytes count ++ items.now)) }
    ensures { OnOk result (out.new.items ≡ out.old.items ++ section_of number count items.now) }
{
    if count == 0 {
        return Ok(());
    }
    push_byte(out, number)?;
    push_counted(alloc, out, count, items)
}

/// Appends what fields give to a section; answers how many items that are.
#[tactic(auto, using(crate::proofs::Steps::joined_append))]
fn push_items(
    alloc: Global,
    out: &mut Vec<u8>,
    part: Part,
    fields: &[ModuleField<'_>],
) -> Result<u32, NoMemory>
    requires fits { FitsItems part (fields_of fields.now) }
    requires number { Word (length (flat_map (items_of part) (fields_of fields.now))) }
    ensures number { IfOk result (λ n. n ≡ length (flat_map (items_of part) (fields_of fields.now))) }
    ensures appended { OnOk result (out.new.items ≡ out.old.items ++ joined (flat_map (items_of part) (fields_of fields.now))) }
{
    let mut room = Vec::new(alloc);
    let mut count = 0;
    for field in fields {
        count += push_item(alloc, out, &mut room, part, field)?;
    }
    Ok(count)
}

/// Appends a section whose items each field gives by itself.
pub(crate) fn push_part(
    alloc: Global,
    out: &mut Vec<u8>,
    part: Part,
    fields: &[ModuleField<'_>],
) -> Result<(), NoMemory>
    requires fits { FitsItems part (fields_of fields.now) }
    requires whole { FitsSection (flat_map (items_of part) (fields_of fields.now)) }
    ensures { OnOk result (out.new.items ≡ out.old.items ++ section (number_of_section part) (flat_map (items_of part) (fields_of fields.now))) }
{
    let mut items = Vec::new(alloc);
    let count = push_items(alloc, &mut items, part, fields)?;
    push_section(alloc, out, section_number(part), count, items.as_slice())
}
