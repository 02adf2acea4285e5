//! Types of components and of core modules (Component Model, binary format, Type Definitions).

ghost use Rattle.std.specs.Prelude.{◌≡◌};
ghost use Rattle.comp_model.specs.Makers as make;
ghost use Rattle.comp_model.specs.declared.row.ScopeKind.TheVariants as kinds;
ghost use Rattle.comp_wire.specs.Definitions.{type_row, core_type_row, type_scope, declarations_of_list};

use super::{is_written, list};
use comp_wire::{
    Alias, ComponentExternName, ComponentOuterAliasKind, ComponentTypeRef, ComponentValType,
    PrimitiveValType, Seq, TypeBounds, WireCoreType, WireDecl, WireDef, WireEntity, WireFunc,
    WireHeap, WireType, WireVal,
};
use std::test::Fail;

const U8: ComponentValType = ComponentValType::Primitive(PrimitiveValType::U8);

const STRING: ComponentValType = ComponentValType::Primitive(PrimitiveValType::String);

#[test]
#[tactic(auto, unfolding(comp_model::specs::Leb::leb))]
fn primitives(rt: HostRuntime) -> Result<(), Fail> {
    let defs = list(
        &rt,
        rt.alloc(),
        [
            WireDef::Ty(WireType::Primitive(PrimitiveValType::Bool)),
            WireDef::Ty(WireType::Primitive(PrimitiveValType::S8)),
            WireDef::Ty(WireType::Primitive(PrimitiveValType::U8)),
            WireDef::Ty(WireType::Primitive(PrimitiveValType::S16)),
            WireDef::Ty(WireType::Primitive(PrimitiveValType::U16)),
            WireDef::Ty(WireType::Primitive(PrimitiveValType::S32)),
            WireDef::Ty(WireType::Primitive(PrimitiveValType::U32)),
            WireDef::Ty(WireType::Primitive(PrimitiveValType::S64)),
            WireDef::Ty(WireType::Primitive(PrimitiveValType::U64)),
            WireDef::Ty(WireType::Primitive(PrimitiveValType::F32)),
            WireDef::Ty(WireType::Primitive(PrimitiveValType::F64)),
            WireDef::Ty(WireType::Primitive(PrimitiveValType::Char)),
            WireDef::Ty(WireType::Primitive(PrimitiveValType::String)),
            WireDef::Ty(WireType::Primitive(PrimitiveValType::ErrorContext)),
        ],
    );
    let sections = [
        0x07, 0x0f, 0x0e, 0x7f, 0x7e, 0x7d, 0x7c, 0x7b, 0x7a, 0x79, 0x78, 0x77, 0x76, 0x75, 0x74,
        0x73, 0x64,
    ];
    assert!(rt; is_written(rt.alloc(), defs, &sections)?);
    Ok(())
}

#[test]
#[tactic(auto, unfolding(comp_model::specs::Leb::leb))]
fn types_of_values(rt: HostRuntime) -> Result<(), Fail> {
    let defs = list(
        &rt,
        rt.alloc(),
        [
            WireDef::Ty(WireType::List(STRING)),
            WireDef::Ty(WireType::List(ComponentValType::Ty(64))),
            WireDef::Ty(WireType::FixedLengthList(U8, 200)),
            WireDef::Ty(WireType::Option(U8)),
            WireDef::Ty(WireType::Result(None, None)),
            WireDef::Ty(WireType::Result(Some(U8), None)),
            WireDef::Ty(WireType::Result(None, Some(U8))),
            WireDef::Ty(WireType::Result(Some(U8), Some(STRING))),
            WireDef::Ty(WireType::Own(0)),
            WireDef::Ty(WireType::Borrow(300)),
            WireDef::Ty(WireType::Stream(Some(U8))),
            WireDef::Ty(WireType::Stream(None)),
            WireDef::Ty(WireType::Future(Some(ComponentValType::Ty(5)))),
            WireDef::Ty(WireType::Future(None)),
            WireDef::Ty(WireType::Resource {
                rep: WireVal::I32,
                dtor: None,
            }),
            WireDef::Ty(WireType::Resource {
                rep: WireVal::I64,
                dtor: Some(2),
            }),
        ],
    );
    let sections = [
        0x07, 0x32, 0x10, // a section of 16
        0x70, 0x73, // lists
        0x70, 0xc0, 0x00, //
        0x67, 0x7d, 0xc8, 0x01, //
        0x6b, 0x7d, // an option
        0x6a, 0x00, 0x00, // results
        0x6a, 0x01, 0x7d, 0x00, //
        0x6a, 0x00, 0x01, 0x7d, //
        0x6a, 0x01, 0x7d, 0x01, 0x73, //
        0x69, 0x00, // handles
        0x68, 0xac, 0x02, //
        0x66, 0x01, 0x7d, // streams and futures
        0x66, 0x00, //
        0x65, 0x01, 0x05, //
        0x65, 0x00, //
        0x3f, 0x7f, 0x00, // resources
        0x3f, 0x7e, 0x01, 0x02, //
    ];
    assert!(rt; is_written(rt.alloc(), defs, &sections)?);
    Ok(())
}

#[test]
#[tactic(auto, unfolding(comp_model::specs::Leb::leb))]
fn types_with_lists(rt: HostRuntime) -> Result<(), Fail> {
    let alloc = rt.alloc();
    let defs = list(
        &rt,
        rt.alloc(),
        [
            WireDef::Ty(WireType::Record(list(
                &rt,
                alloc,
                [("a", U8), ("b", ComponentValType::Ty(0))],
            ))),
            WireDef::Ty(WireType::Variant(list(&rt, alloc, [("a", Some(U8)), ("b", None)]))),
            WireDef::Ty(WireType::Tuple(list(&rt, alloc, [U8, ComponentValType::Ty(0)]))),
            WireDef::Ty(WireType::Flags(list(&rt, alloc, ["a", "bc"]))),
            WireDef::Ty(WireType::Enum(list(&rt, alloc, ["a"]))),
            WireDef::Ty(WireType::Func {
                async_: false,
                params: list(&rt, alloc, [("a", U8)]),
                result: Some(STRING),
            }),
            WireDef::Ty(WireType::Func {
                async_: true,
                params: list(&rt, alloc, []),
                result: None,
            }),
        ],
    );
    let sections = [
        0x07, 0x2e, 0x07, // 7 types
        0x72, 0x02, 0x01, 0x61, 0x7d, 0x01, 0x62, 0x00, // a record
        0x71, 0x02, 0x01, 0x61, 0x01, 0x7d, 0x00, 0x01, 0x62, 0x00, 0x00, // a variant
        0x6f, 0x02, 0x7d, 0x00, // a tuple
        0x6e, 0x02, 0x01, 0x61, 0x02, 0x62, 0x63, // flags
        0x6d, 0x01, 0x01, 0x61, // an enum
        0x40, 0x01, 0x01, 0x61, 0x7d, 0x00, 0x73, // functions
        0x43, 0x00, 0x01, 0x00,
    ];
    assert!(rt; is_written(alloc, defs, &sections)?);
    Ok(())
}

/// The type of a component with these declarations.
fn component_type<'a>(decls: Seq<WireDecl<'a>>) -> WireType<'a>
    ensures { type_row result ≡ make.component_type (type_scope kinds.ComponentType (declarations_of_list decls.entry)) }
{
    WireType::Component(decls)
}

/// The type of an instance with these declarations.
fn instance_type<'a>(decls: Seq<WireDecl<'a>>) -> WireType<'a>
    ensures { type_row result ≡ make.instance_type (type_scope kinds.InstanceType (declarations_of_list decls.entry)) }
{
    WireType::Instance(decls)
}

/// The type of a core module with these declarations.
fn module_type<'a>(decls: Seq<WireDecl<'a>>) -> WireCoreType<'a>
    ensures { core_type_row result ≡ make.module_type (type_scope kinds.ModuleType (declarations_of_list decls.entry)) }
{
    WireCoreType::Module(decls)
}

#[test]
#[tactic(auto, unfolding(comp_model::specs::Leb::leb))]
fn types_of_components(rt: HostRuntime) -> Result<(), Fail> {
    let alloc = rt.alloc();
    let core = WireFunc {
        params: list(&rt, alloc, []),
        results: list(&rt, alloc, [WireVal::I32]),
    };
    let function = WireType::Func {
        async_: false,
        params: list(&rt, alloc, []),
        result: None,
    };
    let component = [
        WireDecl::CoreType(WireCoreType::Func(core)),
        WireDecl::Ty(WireType::List(U8)),
        WireDecl::Alias(Alias::Outer {
            count: 1,
            kind: ComponentOuterAliasKind::Ty,
            index: 0,
        }),
        WireDecl::Import {
            name: ComponentExternName { name: "i" },
            ty: ComponentTypeRef::Func(0),
        },
        WireDecl::Export {
            name: ComponentExternName { name: "e" },
            ty: ComponentTypeRef::Ty(TypeBounds::Eq(0)),
        },
    ];
    let instance = [
        WireDecl::Ty(function),
        WireDecl::Export {
            name: ComponentExternName { name: "f" },
            ty: ComponentTypeRef::Func(0),
        },
    ];
    let defs = list(
        &rt,
        rt.alloc(),
        [
            WireDef::Ty(component_type(list(&rt, alloc, component))),
            WireDef::Ty(instance_type(list(&rt, alloc, instance))),
        ],
    );
    let sections = [
        0x07, 0x2a, 0x02, // two types
        0x41, 0x05, // of components
        0x00, 0x60, 0x00, 0x01, 0x7f, //
        0x01, 0x70, 0x7d, //
        0x02, 0x03, 0x02, 0x01, 0x00, //
        0x03, 0x00, 0x01, 0x69, 0x01, 0x00, //
        0x04, 0x00, 0x01, 0x65, 0x03, 0x00, 0x00, //
        0x42, 0x02, // of instances
        0x01, 0x40, 0x00, 0x01, 0x00, //
        0x04, 0x00, 0x01, 0x66, 0x01, 0x00,
    ];
    assert!(rt; is_written(alloc, defs, &sections)?);
    Ok(())
}

/// A reference.
const fn reference(nullable: bool, heap: WireHeap) -> WireVal
    ensures { result ≡ WireVal.Ref nullable heap }
{
    WireVal::Ref { nullable, heap }
}

#[test]
#[tactic(auto, unfolding(comp_model::specs::Leb::leb))]
fn core_types(rt: HostRuntime) -> Result<(), Fail> {
    let alloc = rt.alloc();
    let numbers = WireFunc {
        params: list(&rt, alloc, [WireVal::I32, WireVal::I64, WireVal::F32]),
        results: list(&rt, alloc, [WireVal::F64, WireVal::V128]),
    };
    let references = WireFunc {
        params: list(
            &rt,
            alloc,
            [
                reference(true, WireHeap::Func),
                reference(false, WireHeap::Func),
                reference(true, WireHeap::Extern),
                reference(false, WireHeap::Extern),
            ],
        ),
        results: list(
            &rt,
            alloc,
            [
                reference(true, WireHeap::Concrete(3)),
                reference(false, WireHeap::Concrete(64)),
            ],
        ),
    };
    let defs = list(
        &rt,
        rt.alloc(),
        [
            WireDef::CoreType(WireCoreType::Func(numbers)),
            WireDef::CoreType(WireCoreType::Rec(list(&rt, alloc, [references]))),
            WireDef::CoreType(WireCoreType::Rec(list(&rt, alloc, []))),
        ],
    );
    let sections = [
        0x03, 0x1b, 0x03, // three core types
        0x60, 0x03, 0x7f, 0x7e, 0x7d, 0x02, 0x7c, 0x7b, //
        0x4e, 0x01, 0x60, //
        0x04, 0x70, 0x64, 0x70, 0x6f, 0x64, 0x6f, 0x02, 0x63, 0x03, 0x64, 0xc0, 0x00, //
        0x4e, 0x00,
    ];
    assert!(rt; is_written(alloc, defs, &sections)?);
    Ok(())
}

#[test]
#[tactic(auto, unfolding(comp_model::specs::Leb::leb))]
fn types_of_core_modules(rt: HostRuntime) -> Result<(), Fail> {
    let alloc = rt.alloc();
    let nothing = WireFunc {
        params: list(&rt, alloc, []),
        results: list(&rt, alloc, []),
    };
    let func_ref = reference(true, WireHeap::Func);
    let decls = [
        WireDecl::CoreType(WireCoreType::Func(nothing)),
        WireDecl::Alias(Alias::Outer {
            count: 1,
            kind: ComponentOuterAliasKind::CoreType,
            index: 9,
        }),
        WireDecl::ModuleImport {
            module: "a",
            name: "b",
            entity: WireEntity::Func(0),
        },
        WireDecl::ModuleImport {
            module: "",
            name: "t",
            entity: WireEntity::Table(func_ref, 1, Some(200)),
        },
        WireDecl::ModuleExport {
            name: "c",
            entity: WireEntity::Memory(1, None),
        },
        WireDecl::ModuleExport {
            name: "d",
            entity: WireEntity::Global(WireVal::I64, true),
        },
        WireDecl::ModuleExport {
            name: "e",
            entity: WireEntity::Global(WireVal::F32, false),
        },
    ];
    let defs = list(
        &rt,
        rt.alloc(),
        [WireDef::CoreType(module_type(list(&rt, alloc, decls)))],
    );
    let sections = [
        0x03, 0x2f, 0x01, // a core type
        0x50, 0x07, // of modules
        0x01, 0x60, 0x00, 0x00, //
        0x02, 0x10, 0x01, 0x01, 0x09, //
        0x00, 0x01, 0x61, 0x01, 0x62, 0x00, 0x00, //
        0x00, 0x00, 0x01, 0x74, 0x01, 0x70, 0x01, 0x01, 0xc8, 0x01, //
        0x03, 0x01, 0x63, 0x02, 0x00, 0x01, //
        0x03, 0x01, 0x64, 0x03, 0x7e, 0x01, //
        0x03, 0x01, 0x65, 0x03, 0x7d, 0x00,
    ];
    assert!(rt; is_written(alloc, defs, &sections)?);
    Ok(())
}
