//! Core modules, instances and components (Component Model, binary format, Component Definitions and Instance Definitions).

use super::{is_written, list};
use comp_wire::{ComponentExportKind, ComponentExternName, ExportKind, ModuleArg, WireDef};
use std::test::Fail;

#[test]
#[tactic(auto, unfolding(comp_model::specs::Leb::leb))]
fn core_modules_and_instances(rt: HostRuntime) -> Result<(), Fail> {
    let alloc = rt.alloc();
    let defs = list(
        &rt,
        rt.alloc(),
        [
            WireDef::CoreModule(list(&rt, alloc, [0x00, 0x61, 0x73, 0x6d, 0x01, 0x00, 0x00, 0x00])),
            WireDef::CoreModule(list(&rt, alloc, [0x2a])),
            WireDef::CoreInstantiate {
                module: 0,
                args: list(&rt, alloc, [("a", ModuleArg::Instance(300))]),
            },
            WireDef::CoreBundle {
                exports: list(
                    &rt,
                    alloc,
                    [
                        ("f", ExportKind::Func, 0),
                        ("t", ExportKind::Table, 1),
                        ("m", ExportKind::Memory, 2),
                        ("g", ExportKind::Global, 3),
                        ("e", ExportKind::Tag, 4),
                    ],
                ),
            },
        ],
    );
    let sections = [
        0x01, 0x08, 0x00, 0x61, 0x73, 0x6d, 0x01, 0x00, 0x00, 0x00, // a section for each module
        0x01, 0x01, 0x2a, //
        0x02, 0x1f, 0x02, // both instances in one
        0x00, 0x00, 0x01, 0x01, 0x61, 0x12, 0xac, 0x02, //
        0x01, 0x05, 0x01, 0x66, 0x00, 0x00, 0x01, 0x74, 0x01, 0x01, 0x01, 0x6d, 0x02, 0x02, 0x01,
        0x67, 0x03, 0x03, 0x01, 0x65, 0x04, 0x04,
    ];
    assert!(rt; is_written(alloc, defs, &sections)?);
    Ok(())
}

#[test]
#[tactic(auto, unfolding(comp_model::specs::Leb::leb))]
fn instances(rt: HostRuntime) -> Result<(), Fail> {
    let alloc = rt.alloc();
    let defs = list(
        &rt,
        rt.alloc(),
        [
            WireDef::Instantiate {
                component: 7,
                args: list(
                    &rt,
                    alloc,
                    [
                        ("m", ComponentExportKind::Module, 0),
                        ("f", ComponentExportKind::Func, 1),
                        ("v", ComponentExportKind::Value, 2),
                        ("t", ComponentExportKind::Ty, 3),
                        ("c", ComponentExportKind::Component, 4),
                        ("i", ComponentExportKind::Instance, 5),
                    ],
                ),
            },
            WireDef::Bundle {
                exports: list(
                    &rt,
                    alloc,
                    [(
                        ComponentExternName { name: "f" },
                        ComponentExportKind::Func,
                        9,
                    )],
                ),
            },
            WireDef::Bundle {
                exports: list(&rt, alloc, []),
            },
        ],
    );
    let sections = [
        0x05, 0x26, 0x03, // three instances
        0x00, 0x07, 0x06, //
        0x01, 0x6d, 0x00, 0x11, 0x00, 0x01, 0x66, 0x01, 0x01, 0x01, 0x76, 0x02, 0x02, 0x01, 0x74,
        0x03, 0x03, 0x01, 0x63, 0x04, 0x04, 0x01, 0x69, 0x05, 0x05, //
        0x01, 0x01, 0x00, 0x01, 0x66, 0x01, 0x09, //
        0x01, 0x00,
    ];
    assert!(rt; is_written(alloc, defs, &sections)?);
    Ok(())
}
