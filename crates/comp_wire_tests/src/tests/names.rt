//! The name section, of a component and of one in it (Component Model, binary format, Name Section).

ghost use Rattle.std.specs.Prelude.{◌≡◌};
ghost use Rattle.comp_wire.specs.Definitions.{definition_row, component_row, named_defs};

use super::{is_named, list};
use comp_wire::{NameMap, NameMaps, PrimitiveValType, Seq, Space, WireDef, WireType};
use std::test::Fail;

/// The names of the items of a space.
fn named<'a>(space: Space, names: Seq<(u32, &'a str)>) -> NameMap<'a>
    ensures { result ≡ record { space = space; names = names.entry } }
{
    NameMap { space, names }
}

#[test]
#[tactic(auto, unfolding(comp_model::specs::Leb::leb))]
fn names_of_items(rt: HostRuntime) -> Result<(), Fail> {
    let alloc = rt.alloc();
    let names = NameMaps {
        component: Some("top"),
        maps: list(
            &rt,
            alloc,
            [
                named(Space::CoreMemory, list(&rt, alloc, [(0, "m")])),
                named(Space::Func, list(&rt, alloc, [])),
                named(Space::Ty, list(&rt, alloc, [(0, "t"), (300, "uv")])),
            ],
        ),
    };
    let defs = list(
        &rt,
        rt.alloc(),
        [WireDef::Ty(WireType::Primitive(PrimitiveValType::U8))],
    );
    let sections = [
        0x07, 0x02, 0x01, 0x7d, // a type
        0x00, 0x29, 0x0e, // a custom section with the name "component-name"
        0x63, 0x6f, 0x6d, 0x70, 0x6f, 0x6e, 0x65, 0x6e, 0x74, 0x2d, 0x6e, 0x61, 0x6d, 0x65, //
        0x00, 0x04, 0x03, 0x74, 0x6f, 0x70, // the component's name
        0x01, 0x06, 0x00, 0x02, 0x01, 0x00, 0x01, 0x6d, // a core memory
        0x01, 0x0a, 0x03, 0x02, 0x00, 0x01, 0x74, 0xac, 0x02, 0x02, 0x75, 0x76, // types
    ];
    assert!(rt; is_named(alloc, defs, names, &sections)?);
    Ok(())
}

#[test]
#[tactic(auto, unfolding(comp_model::specs::Leb::leb))]
fn names_of_each_space(rt: HostRuntime) -> Result<(), Fail> {
    let alloc = rt.alloc();
    let names = NameMaps {
        component: None,
        maps: list(
            &rt,
            alloc,
            [
                named(Space::CoreFunc, list(&rt, alloc, [(1, "")])),
                named(Space::CoreTable, list(&rt, alloc, [(2, "")])),
                named(Space::CoreMemory, list(&rt, alloc, [(3, "")])),
                named(Space::CoreGlobal, list(&rt, alloc, [(4, "")])),
                named(Space::CoreTag, list(&rt, alloc, [(5, "")])),
                named(Space::CoreType, list(&rt, alloc, [(6, "")])),
                named(Space::CoreModule, list(&rt, alloc, [(7, "")])),
                named(Space::CoreInstance, list(&rt, alloc, [(8, "")])),
                named(Space::Func, list(&rt, alloc, [(9, "")])),
                named(Space::Value, list(&rt, alloc, [(10, "")])),
                named(Space::Ty, list(&rt, alloc, [(11, "")])),
                named(Space::Component, list(&rt, alloc, [(12, "")])),
                named(Space::Instance, list(&rt, alloc, [(13, "")])),
            ],
        ),
    };
    let sections = [
        0x00, 0x65, 0x0e, // a custom section with the name "component-name"
        0x63, 0x6f, 0x6d, 0x70, 0x6f, 0x6e, 0x65, 0x6e, 0x74, 0x2d, 0x6e, 0x61, 0x6d, 0x65, //
        0x01, 0x05, 0x00, 0x00, 0x01, 0x01, 0x00, // core spaces, by two bytes
        0x01, 0x05, 0x00, 0x01, 0x01, 0x02, 0x00, //
        0x01, 0x05, 0x00, 0x02, 0x01, 0x03, 0x00, //
        0x01, 0x05, 0x00, 0x03, 0x01, 0x04, 0x00, //
        0x01, 0x05, 0x00, 0x04, 0x01, 0x05, 0x00, //
        0x01, 0x05, 0x00, 0x10, 0x01, 0x06, 0x00, //
        0x01, 0x05, 0x00, 0x11, 0x01, 0x07, 0x00, //
        0x01, 0x05, 0x00, 0x12, 0x01, 0x08, 0x00, //
        0x01, 0x04, 0x01, 0x01, 0x09, 0x00, // the others, by one
        0x01, 0x04, 0x02, 0x01, 0x0a, 0x00, //
        0x01, 0x04, 0x03, 0x01, 0x0b, 0x00, //
        0x01, 0x04, 0x04, 0x01, 0x0c, 0x00, //
        0x01, 0x04, 0x05, 0x01, 0x0d, 0x00,
    ];
    assert!(rt; is_named(alloc, list(&rt, alloc, []), names, &sections)?);
    Ok(())
}

/// A component in a component.
fn inner_component<'a>(defs: Seq<WireDef<'a>>, names: NameMaps<'a>) -> WireDef<'a>
    ensures { definition_row result ≡ component_row (named_defs defs.entry names.entry) }
{
    WireDef::Component { defs, names }
}

#[test]
#[tactic(auto, unfolding(comp_model::specs::Leb::leb))]
fn a_component_in_a_component(rt: HostRuntime) -> Result<(), Fail> {
    let alloc = rt.alloc();
    let inner = NameMaps {
        component: Some("a"),
        maps: list(
            &rt,
            alloc,
            [NameMap {
                space: Space::Ty,
                names: list(&rt, alloc, [(0, "t")]),
            }],
        ),
    };
    let outer = NameMaps {
        component: None,
        maps: list(&rt, alloc, []),
    };
    let defs = list(
        &rt,
        rt.alloc(),
        [
            inner_component(
                list(
                    &rt,
                    alloc,
                    [WireDef::Ty(WireType::Primitive(PrimitiveValType::U8))],
                ),
                inner,
            ),
            WireDef::Ty(WireType::Primitive(PrimitiveValType::U8)),
        ],
    );
    let sections = [
        0x04, 0x28, // a component
        0x00, 0x61, 0x73, 0x6d, 0x0d, 0x00, 0x01, 0x00, //
        0x07, 0x02, 0x01, 0x7d, //
        0x00, 0x1a, 0x0e, //
        0x63, 0x6f, 0x6d, 0x70, 0x6f, 0x6e, 0x65, 0x6e, 0x74, 0x2d, 0x6e, 0x61, 0x6d, 0x65, //
        0x00, 0x02, 0x01, 0x61, //
        0x01, 0x05, 0x03, 0x01, 0x00, 0x01, 0x74, //
        0x07, 0x02, 0x01, 0x7d, // a type behind it
    ];
    assert!(rt; is_named(alloc, defs, outer, &sections)?);
    Ok(())
}
