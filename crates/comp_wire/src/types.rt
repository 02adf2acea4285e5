//! Types: those of components, those of core modules, and the declarations in them.

use crate::externs::{Alias, ComponentExternName, ComponentTypeRef, WireEntity};
use crate::seq::Seq;
use crate::values::{ComponentValType, PrimitiveValType, WireFunc, WireVal};

/// A core type.
#[derive(Drop)]
#[cycle(types)]
pub enum WireCoreType<'a> {
    /// A function type.
    Func(WireFunc),
    /// Function types that may name each other.
    Rec(Seq<WireFunc>),
    /// The type of a core module.
    Module(Seq<WireDecl<'a>>),
}

/// A type of a component.
#[derive(Drop)]
#[cycle(types)]
pub enum WireType<'a> {
    /// A primitive under a new index.
    Primitive(PrimitiveValType),
    /// Fields by name.
    Record(Seq<(&'a str, ComponentValType)>),
    /// Cases by name, some with a value.
    Variant(Seq<(&'a str, Option<ComponentValType>)>),
    /// Any number of elements.
    List(ComponentValType),
    /// A fixed number of elements.
    FixedLengthList(ComponentValType, u32),
    /// Fields by place.
    Tuple(Seq<ComponentValType>),
    /// A set of these names.
    Flags(Seq<&'a str>),
    /// One of these names.
    Enum(Seq<&'a str>),
    /// A value or none.
    Option(ComponentValType),
    /// What comes of a success and of a failure.
    Result(Option<ComponentValType>, Option<ComponentValType>),
    /// A handle that owns the resource of this index.
    Own(u32),
    /// A handle that borrows the resource of this index.
    Borrow(u32),
    /// Values that come one after the other.
    Stream(Option<ComponentValType>),
    /// A value that comes later.
    Future(Option<ComponentValType>),
    /// A function type.
    Func {
        async_: bool,
        params: Seq<(&'a str, ComponentValType)>,
        result: Option<ComponentValType>,
    },
    /// The type of a component.
    Component(Seq<WireDecl<'a>>),
    /// The type of an instance.
    Instance(Seq<WireDecl<'a>>),
    /// A new resource: how it is represented, and the core function that destroys it.
    Resource {
        rep: WireVal,
        dtor: Option<u32>,
    },
}

/// One declaration of the type of a component, an instance or a core module.
///
/// A component type holds `CoreType`, `Ty`, `Alias`, `Import` and `Export`; an instance type the same but for `Import`.
/// The type of a core module holds `CoreType`, `Alias` (of an outer core type alone), `ModuleImport` and `ModuleExport`.
#[derive(Drop)]
#[cycle(types)]
pub enum WireDecl<'a> {
    /// A core type.
    CoreType(WireCoreType<'a>),
    /// A type.
    Ty(WireType<'a>),
    /// An alias.
    Alias(Alias<'a>),
    /// An import of a component.
    Import {
        name: ComponentExternName<'a>,
        ty: ComponentTypeRef,
    },
    /// An export of a component or instance.
    Export {
        name: ComponentExternName<'a>,
        ty: ComponentTypeRef,
    },
    /// An import of a core module.
    ModuleImport {
        module: &'a str,
        name: &'a str,
        entity: WireEntity,
    },
    /// An export of a core module.
    ModuleExport {
        name: &'a str,
        entity: WireEntity,
    },
}
