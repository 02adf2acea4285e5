//! Canonical functions (Component Model, binary format, Canonical Definitions).

use super::{is_written, list};
use comp_wire::{CanonicalOption, ComponentValType, PrimitiveValType, WireCanon, WireDef, WireVal};
use std::test::Fail;

#[test]
#[tactic(auto, unfolding(comp_model::specs::Leb::leb))]
fn lifted_and_lowered(rt: HostRuntime) -> Result<(), Fail> {
    let alloc = rt.alloc();
    let defs = list(
        &rt,
        rt.alloc(),
        [
            WireDef::Canon(WireCanon::Lift {
                ty: 3,
                core_func: 1,
                opts: list(
                    &rt,
                    alloc,
                    [CanonicalOption::UTF8, CanonicalOption::PostReturn(2)],
                ),
            }),
            WireDef::Canon(WireCanon::Lower {
                func: 300,
                opts: list(
                    &rt,
                    alloc,
                    [
                        CanonicalOption::UTF16,
                        CanonicalOption::Memory(0),
                        CanonicalOption::Realloc(1),
                        CanonicalOption::Async,
                        CanonicalOption::Callback(5),
                    ],
                ),
            }),
        ],
    );
    let sections = [
        0x08, 0x16, 0x02, // two functions
        0x00, 0x00, 0x01, 0x02, 0x00, 0x05, 0x02, 0x03, // lift: its type behind its options
        0x01, 0x00, 0xac, 0x02, // lower
        0x05, 0x01, 0x03, 0x00, 0x04, 0x01, 0x06, 0x07, 0x05,
    ];
    assert!(rt; is_written(alloc, defs, &sections)?);
    Ok(())
}

#[test]
#[tactic(auto, unfolding(comp_model::specs::Leb::leb))]
fn resources_and_tasks(rt: HostRuntime) -> Result<(), Fail> {
    let alloc = rt.alloc();
    let defs = list(
        &rt,
        rt.alloc(),
        [
            WireDef::Canon(WireCanon::ResourceNew(5)),
            WireDef::Canon(WireCanon::ResourceDrop(5)),
            WireDef::Canon(WireCanon::ResourceRep(200)),
            WireDef::Canon(WireCanon::TaskCancel),
            WireDef::Canon(WireCanon::SubtaskCancel(false)),
            WireDef::Canon(WireCanon::SubtaskCancel(true)),
            WireDef::Canon(WireCanon::SubtaskDrop),
            WireDef::Canon(WireCanon::TaskReturn {
                result: Some(ComponentValType::Primitive(PrimitiveValType::U8)),
                opts: list(&rt, alloc, [CanonicalOption::Async]),
            }),
            WireDef::Canon(WireCanon::TaskReturn {
                result: None,
                opts: list(&rt, alloc, []),
            }),
            WireDef::Canon(WireCanon::ContextGet(WireVal::I32, 0)),
            WireDef::Canon(WireCanon::ContextSet(WireVal::I64, 1)),
            WireDef::Canon(WireCanon::BackpressureInc),
            WireDef::Canon(WireCanon::BackpressureDec),
        ],
    );
    let sections = [
        0x08, 0x1f, 0x0d, // 13 functions
        0x02, 0x05, 0x03, 0x05, 0x04, 0xc8, 0x01, // resources
        0x05, 0x06, 0x00, 0x06, 0x01, 0x0d, // tasks
        0x09, 0x00, 0x7d, 0x01, 0x06, // results
        0x09, 0x01, 0x00, 0x00, //
        0x0a, 0x7f, 0x00, 0x0b, 0x7e, 0x01, // slots
        0x24, 0x25, // backpressure
    ];
    assert!(rt; is_written(alloc, defs, &sections)?);
    Ok(())
}

#[test]
#[tactic(auto, unfolding(comp_model::specs::Leb::leb))]
fn streams_and_futures(rt: HostRuntime) -> Result<(), Fail> {
    let alloc = rt.alloc();
    let defs = list(
        &rt,
        rt.alloc(),
        [
            WireDef::Canon(WireCanon::StreamNew(1)),
            WireDef::Canon(WireCanon::StreamRead(
                2,
                list(&rt, alloc, [CanonicalOption::Memory(3)]),
            )),
            WireDef::Canon(WireCanon::StreamWrite(4, list(&rt, alloc, [CanonicalOption::Async]))),
            WireDef::Canon(WireCanon::StreamCancelRead(5, false)),
            WireDef::Canon(WireCanon::StreamCancelWrite(6, true)),
            WireDef::Canon(WireCanon::StreamDropReadable(7)),
            WireDef::Canon(WireCanon::StreamDropWritable(8)),
            WireDef::Canon(WireCanon::FutureNew(1)),
            WireDef::Canon(WireCanon::FutureRead(2, list(&rt, alloc, []))),
            WireDef::Canon(WireCanon::FutureWrite(4, list(&rt, alloc, []))),
            WireDef::Canon(WireCanon::FutureCancelRead(5, true)),
            WireDef::Canon(WireCanon::FutureCancelWrite(6, false)),
            WireDef::Canon(WireCanon::FutureDropReadable(7)),
            WireDef::Canon(WireCanon::FutureDropWritable(8)),
        ],
    );
    let sections = [
        0x08, 0x28, 0x0e, // 14 functions
        0x0e, 0x01, 0x0f, 0x02, 0x01, 0x03, 0x03, 0x10, 0x04, 0x01, 0x06, // streams
        0x11, 0x05, 0x00, 0x12, 0x06, 0x01, 0x13, 0x07, 0x14, 0x08, //
        0x15, 0x01, 0x16, 0x02, 0x00, 0x17, 0x04, 0x00, // futures
        0x18, 0x05, 0x01, 0x19, 0x06, 0x00, 0x1a, 0x07, 0x1b, 0x08,
    ];
    assert!(rt; is_written(alloc, defs, &sections)?);
    Ok(())
}

#[test]
#[tactic(auto, unfolding(comp_model::specs::Leb::leb))]
fn errors_sets_and_threads(rt: HostRuntime) -> Result<(), Fail> {
    let alloc = rt.alloc();
    let defs = list(
        &rt,
        rt.alloc(),
        [
            WireDef::Canon(WireCanon::ErrorContextNew(list(&rt, alloc, [CanonicalOption::UTF8]))),
            WireDef::Canon(WireCanon::ErrorContextDebugMessage(list(
                &rt,
                alloc,
                [CanonicalOption::CompactUTF16],
            ))),
            WireDef::Canon(WireCanon::ErrorContextDrop),
            WireDef::Canon(WireCanon::WaitableSetNew),
            WireDef::Canon(WireCanon::WaitableSetDrop),
            WireDef::Canon(WireCanon::WaitableJoin),
            WireDef::Canon(WireCanon::ThreadSpawnRef(2)),
            WireDef::Canon(WireCanon::ThreadSpawnIndirect { ty: 2, table: 1 }),
            WireDef::Canon(WireCanon::ThreadAvailableParallelism),
        ],
    );
    let sections = [
        0x08, 0x11, 0x09, // 9 functions
        0x1c, 0x01, 0x00, 0x1d, 0x01, 0x02, 0x1e, // error contexts
        0x1f, 0x22, 0x23, // sets of waitables
        0x40, 0x02, 0x41, 0x02, 0x01, 0x42, // threads
    ];
    assert!(rt; is_written(alloc, defs, &sections)?);
    Ok(())
}
