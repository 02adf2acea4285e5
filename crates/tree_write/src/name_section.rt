//! The name section of a component, from its last map to its first (Component Model binary format, "Name Section").

ghost use Rattle.std.specs.Prelude.{◌≡◌, length, map, option_map};
ghost use Rattle.comp_model.specs.Spaces.{same_space};
ghost use Rattle.comp_model.specs.Payloads.{item_name_bytes, map_bytes, component_name_bytes};
ghost use Rattle.comp_tree.specs.Model.{lent_text};
ghost use Rattle.comp_wire.specs.NameSection.{section_of_payload};
ghost use Rattle.comp_wire.specs.Sections.{groups, sections};
ghost use Rattle.comp_wire.specs.Spelled.{items_of};
ghost use Rattle.tree_write.specs.Along.{of_space, maps_by, payload_by, is_filled};
ghost use Rattle.tree_write.specs.Kept.{put};

use crate::item_names::{ComponentNames, NamedItem};
use crate::leaf::write_sort;
use crate::numbers::{close, write_text, write_unsigned};
use crate::sink::Sink;
use comp_model::Space;

/// The spaces in the order of a name section.
pub const SPACES: [Space; 13] = [
    Space::CoreFunc,
    Space::CoreTable,
    Space::CoreMemory,
    Space::CoreGlobal,
    Space::CoreTag,
    Space::CoreType,
    Space::CoreModule,
    Space::CoreInstance,
    Space::Func,
    Space::Value,
    Space::Ty,
    Space::Component,
    Space::Instance,
];

/// Whether two spaces are one.
fn is_same(space: Space, other: Space) -> bool
    ensures { result ≡ same_space space other }
{
    other == space
}

/// Writes the names of the items of a space, and answers how many they are.
fn write_items<S: Sink>(sink: &mut S, items: &[NamedItem<'_>], space: Space) -> u64
    ensures bytes { S.kept sink.new ≡ put (item_name_bytes (of_space space items.now)) (S.kept sink.old) }
    ensures count { result ≡ length (of_space space items.now) }
{
    let mut count = 0;
    for i in (0..items.len()).rev() {
        if is_same(space, items[i].space) {
            write_text(sink, items[i].name);
            write_unsigned(sink, items[i].index);
            count += 1;
        }
    }
    count
}

/// Writes the map of a space, where one of its items has a name.
fn write_map<S: Sink>(sink: &mut S, items: &[NamedItem<'_>], space: Space)
    ensures { S.kept sink.new ≡ put (map_bytes space (of_space space items.now)) (S.kept sink.old) }
{
    let end = sink.length();
    let count = write_items(sink, items, space);
    if count == 0 {
        return;
    }
    write_unsigned(sink, count);
    write_sort(sink, space);
    close(sink, end);
    sink.byte(0x01);
}

/// Writes the maps of spaces.
fn write_maps<S: Sink>(sink: &mut S, items: &[NamedItem<'_>], spaces: &[Space])
    ensures { S.kept sink.new ≡ put (maps_by items.now spaces.now) (S.kept sink.old) }
{
    for i in (0..spaces.len()).rev() {
        write_map(sink, items, spaces[i]);
    }
}

/// Writes the component's own name, if it has one.
fn write_own<S: Sink>(sink: &mut S, name: Option<&str>)
    ensures { S.kept sink.new ≡ put (component_name_bytes (option_map lent_text name.entry)) (S.kept sink.old) }
{
    match name {
        Some(text) => {
            let end = sink.length();
            write_text(sink, text);
            close(sink, end);
            sink.byte(0x00);
        }
        None => {}
    }
}

/// Writes what the name section of a component holds.
fn write_payload<S: Sink>(sink: &mut S, names: &ComponentNames<'_>)
    ensures { S.kept sink.new ≡ put (payload_by names.now) (S.kept sink.old) }
{
    write_maps(sink, names.items.as_slice(), &SPACES);
    write_own(sink, names.own);
}

/// Whether a component or an item of it has a name.
fn is_named(names: &ComponentNames<'_>) -> bool
    ensures { result ≡ is_filled (payload_by names.now) }
{
    if names.items.len() != 0 {
        return true;
    }
    match names.own {
        Some(_) => true,
        None => false,
    }
}

/// Writes the name section of a component, where there is a name.
pub fn write_name_section<S: Sink>(sink: &mut S, names: &ComponentNames<'_>)
    ensures { S.kept sink.new ≡ put (sections (groups (items_of (section_of_payload (payload_by names.now))))) (S.kept sink.old) }
{
    if !is_named(names) {
        return;
    }
    let end = sink.length();
    write_payload(sink, names);
    write_text(sink, "component-name");
    close(sink, end);
    sink.byte(0x00);
}
