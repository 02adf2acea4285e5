//! The bytes of the name section.

ghost use Rattle.std.specs.Prelude.{◌≡◌, ◌∷◌, [], ◌++◌, length, OnOk, IfOk};
ghost use Rattle.comp_model.specs.Leb.{uleb as unsigned_bytes};
ghost use Rattle.comp_model.specs.Payloads.{framed, sort_bytes, name_payload, component_name_bytes, map_bytes, maps_bytes, item_name_bytes};
ghost use Rattle.comp_wire.specs.Sections.{Word};
ghost use Rattle.comp_wire.specs.NameSection.{maps_of, maps_of_list, item_names_of, own_name_of};

use crate::append::{append, append_byte, append_framed};
use crate::append_values::append_text;
use crate::leb::uleb;
use crate::memory::NoMemory;
use crate::names::{NameMap, NameMaps};
use comp_model::Space;
use std::alloc::Global;

/// Appends the sort of a space.
fn append_space(out: &mut Vec<u8>, space: Space) -> Result<(), NoMemory>
    ensures { OnOk result (out.new.items ≡ out.old.items ++ sort_bytes space) }
{
    match space {
        Space::CoreFunc => append(out, &[0x00, 0x00]),
        Space::CoreTable => append(out, &[0x00, 0x01]),
        Space::CoreMemory => append(out, &[0x00, 0x02]),
        Space::CoreGlobal => append(out, &[0x00, 0x03]),
        Space::CoreTag => append(out, &[0x00, 0x04]),
        Space::CoreType => append(out, &[0x00, 0x10]),
        Space::CoreModule => append(out, &[0x00, 0x11]),
        Space::CoreInstance => append(out, &[0x00, 0x12]),
        Space::Func => append_byte(out, 0x01),
        Space::Value => append_byte(out, 0x02),
        Space::Ty => append_byte(out, 0x03),
        Space::Component => append_byte(out, 0x04),
        Space::Instance => append_byte(out, 0x05),
    }
}

/// Appends an index and a name for each item.
fn append_item_names(
    alloc: Global,
    out: &mut Vec<u8>,
    items: &[(u32, &str)],
) -> Result<(), NoMemory>
    requires { Word (length (item_name_bytes (item_names_of items.now))) }
    ensures { OnOk result (out.new.items ≡ out.old.items ++ item_name_bytes (item_names_of items.now)) }
{
    for (index, name) in items {
        uleb(alloc, out, *index)?;
        append_text(alloc, out, name)?;
    }
    Ok(())
}

/// The sort of a space, and the names of its items.
fn map_body(alloc: Global, space: Space, items: &[(u32, &str)]) -> Result<Vec<u8>, NoMemory>
    requires { Word (length (item_name_bytes (item_names_of items.now))) }
    ensures { IfOk result (λ v. v.items ≡ sort_bytes space ++ (unsigned_bytes (length items.now) ++ item_name_bytes (item_names_of items.now))) }
{
    let mut body = Vec::new(alloc);
    append_space(&mut body, space)?;
    uleb(alloc, &mut body, items.len() as u32)?;
    append_item_names(alloc, &mut body, items)?;
    Ok(body)
}

/// Appends the names of the items of one space; nothing where it has none.
fn append_map(
    alloc: Global,
    out: &mut Vec<u8>,
    space: Space,
    items: &[(u32, &str)],
) -> Result<(), NoMemory>
    requires { Word (length (map_bytes space (item_names_of items.now))) }
    ensures { OnOk result (out.new.items ≡ out.old.items ++ map_bytes space (item_names_of items.now)) }
{
    if items.len() == 0 {
        return Ok(());
    }
    let body = map_body(alloc, space, items)?;
    append_byte(out, 0x01)?;
    append_framed(alloc, out, body.as_slice())
}

/// Appends the names of the items, space by space.
fn append_maps(alloc: Global, out: &mut Vec<u8>, maps: &[NameMap]) -> Result<(), NoMemory>
    requires { Word (length (maps_bytes (maps_of_list maps.now))) }
    ensures { OnOk result (out.new.items ≡ out.old.items ++ maps_bytes (maps_of_list maps.now)) }
{
    for map in maps {
        append_map(alloc, out, map.space, map.names.as_slice())?;
    }
    Ok(())
}

/// Appends the name of the component.
fn append_component_name(alloc: Global, out: &mut Vec<u8>, name: &str) -> Result<(), NoMemory>
    requires { Word (length (framed (framed name.now))) }
    ensures { OnOk result (out.new.items ≡ out.old.items ++ 0x00 ∷ framed (framed name.now)) }
{
    let mut body = Vec::new(alloc);
    append_text(alloc, &mut body, name)?;
    append_byte(out, 0x00)?;
    append_framed(alloc, out, body.as_slice())
}

/// Appends the name of the component, where it has one.
fn append_own_name(alloc: Global, out: &mut Vec<u8>, name: Option<&str>) -> Result<(), NoMemory>
    requires { Word (length (component_name_bytes (own_name_of name))) }
    ensures { OnOk result (out.new.items ≡ out.old.items ++ component_name_bytes (own_name_of name.entry)) }
{
    match name {
        None => Ok(()),
        Some(name) => append_component_name(alloc, out, name),
    }
}

/// What the name section holds.
pub fn name_bytes(alloc: Global, names: &NameMaps) -> Result<Vec<u8>, NoMemory>
    requires { Word (length (name_payload (maps_of names.now))) }
    ensures { IfOk result (λ v. v.items ≡ name_payload (maps_of names.now)) }
{
    let mut payload = Vec::new(alloc);
    append_own_name(alloc, &mut payload, names.component)?;
    append_maps(alloc, &mut payload, names.maps.as_slice())?;
    Ok(payload)
}
