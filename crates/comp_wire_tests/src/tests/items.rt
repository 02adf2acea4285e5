//! Aliases, imports, exports, start and custom sections (Component Model, binary format, Alias Definitions, Import and Export
//! Definitions, Start Definitions, Component Definitions).

ghost use Rattle.std.specs.Prelude.{◌≡◌};

use super::{is_written, list};
use comp_wire::{
    Alias, ComponentExportKind, ComponentExternName, ComponentOuterAliasKind, ComponentTypeRef,
    ExportKind, PrimitiveValType, TypeBounds, WireDef, WireType,
};
use std::test::Fail;

#[test]
#[tactic(auto, unfolding(comp_model::specs::Leb::leb))]
fn aliases(rt: HostRuntime) -> Result<(), Fail> {
    let defs = list(
        &rt,
        rt.alloc(),
        [
            WireDef::Alias(Alias::InstanceExport {
                instance: 3,
                kind: ComponentExportKind::Module,
                name: "m",
            }),
            WireDef::Alias(Alias::InstanceExport {
                instance: 3,
                kind: ComponentExportKind::Func,
                name: "f",
            }),
            WireDef::Alias(Alias::CoreInstanceExport {
                instance: 4,
                kind: ExportKind::Memory,
                name: "m",
            }),
            WireDef::Alias(Alias::Outer {
                count: 1,
                kind: ComponentOuterAliasKind::Ty,
                index: 300,
            }),
            WireDef::Alias(Alias::Outer {
                count: 2,
                kind: ComponentOuterAliasKind::CoreModule,
                index: 5,
            }),
            WireDef::Alias(Alias::Outer {
                count: 0,
                kind: ComponentOuterAliasKind::CoreType,
                index: 6,
            }),
            WireDef::Alias(Alias::Outer {
                count: 1,
                kind: ComponentOuterAliasKind::Component,
                index: 7,
            }),
        ],
    );
    let sections = [
        0x06, 0x25, 0x07, // 7 aliases
        0x00, 0x11, 0x00, 0x03, 0x01, 0x6d, // of exports
        0x01, 0x00, 0x03, 0x01, 0x66, //
        0x00, 0x02, 0x01, 0x04, 0x01, 0x6d, // of a core export
        0x03, 0x02, 0x01, 0xac, 0x02, // of what stands further out
        0x00, 0x11, 0x02, 0x02, 0x05, //
        0x00, 0x10, 0x02, 0x00, 0x06, //
        0x04, 0x02, 0x01, 0x07,
    ];
    assert!(rt; is_written(rt.alloc(), defs, &sections)?);
    Ok(())
}

/// An import.
fn import<'a>(name: &'a str, ty: ComponentTypeRef) -> WireDef<'a>
    ensures { result ≡ WireDef.Import (record { name = name.entry }) ty }
{
    WireDef::Import {
        name: ComponentExternName { name },
        ty,
    }
}

#[test]
#[tactic(auto, unfolding(comp_model::specs::Leb::leb))]
fn imports(rt: HostRuntime) -> Result<(), Fail> {
    let defs = list(
        &rt,
        rt.alloc(),
        [
            import("m", ComponentTypeRef::Module(0)),
            import("f", ComponentTypeRef::Func(1)),
            import("t", ComponentTypeRef::Ty(TypeBounds::Eq(2))),
            import("r", ComponentTypeRef::Ty(TypeBounds::SubResource)),
            import("c", ComponentTypeRef::Component(3)),
            import("i", ComponentTypeRef::Instance(4)),
        ],
    );
    let sections = [
        0x0a, 0x21, 0x06, // 6 imports
        0x00, 0x01, 0x6d, 0x00, 0x11, 0x00, //
        0x00, 0x01, 0x66, 0x01, 0x01, //
        0x00, 0x01, 0x74, 0x03, 0x00, 0x02, //
        0x00, 0x01, 0x72, 0x03, 0x01, //
        0x00, 0x01, 0x63, 0x04, 0x03, //
        0x00, 0x01, 0x69, 0x05, 0x04,
    ];
    assert!(rt; is_written(rt.alloc(), defs, &sections)?);
    Ok(())
}

#[test]
#[tactic(auto, unfolding(comp_model::specs::Leb::leb))]
fn exports_and_start(rt: HostRuntime) -> Result<(), Fail> {
    let alloc = rt.alloc();
    let defs = list(
        &rt,
        rt.alloc(),
        [
            WireDef::Start {
                func: 0,
                args: list(&rt, alloc, [1, 2]),
                results: 1,
            },
            WireDef::Start {
                func: 300,
                args: list(&rt, alloc, []),
                results: 0,
            },
            WireDef::Export {
                name: ComponentExternName { name: "a" },
                ty: None,
                kind: ComponentExportKind::Value,
                index: 0,
            },
            WireDef::Export {
                name: ComponentExternName { name: "run" },
                ty: Some(ComponentTypeRef::Func(0)),
                kind: ComponentExportKind::Func,
                index: 1,
            },
        ],
    );
    let sections = [
        0x09, 0x05, 0x00, 0x02, 0x01, 0x02, 0x01, // a section for each start
        0x09, 0x04, 0xac, 0x02, 0x00, 0x00, //
        0x0b, 0x11, 0x02, // both exports in one
        0x00, 0x01, 0x61, 0x02, 0x00, 0x00, //
        0x00, 0x03, 0x72, 0x75, 0x6e, 0x01, 0x01, 0x01, 0x01, 0x00,
    ];
    assert!(rt; is_written(alloc, defs, &sections)?);
    Ok(())
}

#[test]
#[tactic(auto, unfolding(comp_model::specs::Leb::leb))]
fn customs_and_neighbours(rt: HostRuntime) -> Result<(), Fail> {
    let alloc = rt.alloc();
    let defs = list(
        &rt,
        rt.alloc(),
        [
            WireDef::Ty(WireType::Primitive(PrimitiveValType::U8)),
            WireDef::Ty(WireType::Primitive(PrimitiveValType::Bool)),
            WireDef::Custom {
                name: "x",
                payload: list(&rt, alloc, [0x2a, 0x00]),
            },
            WireDef::Custom {
                name: "",
                payload: list(&rt, alloc, []),
            },
            WireDef::Ty(WireType::Primitive(PrimitiveValType::U8)),
        ],
    );
    let sections = [
        0x07, 0x03, 0x02, 0x7d, 0x7f, // two types in one section
        0x00, 0x04, 0x01, 0x78, 0x2a, 0x00, // a section for each custom one
        0x00, 0x01, 0x00, //
        0x07, 0x02, 0x01, 0x7d, // the types go on in another
    ];
    assert!(rt; is_written(alloc, defs, &sections)?);
    Ok(())
}
