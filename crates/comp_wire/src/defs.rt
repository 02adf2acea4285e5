//! The definitions of a component.

use crate::canon::WireCanon;
use crate::externs::{Alias, ComponentExternName, ComponentTypeRef};
use crate::kinds::{ComponentExportKind, ExportKind, ModuleArg};
use crate::names::NameMaps;
use crate::seq::Seq;
use crate::types::{WireCoreType, WireType};

/// One definition of a component, with indices alone.
#[derive(Drop)]
pub enum WireDef<'a> {
    /// The bytes of a core module.
    CoreModule(Seq<u8>),
    /// A core module instantiated with named core instances.
    CoreInstantiate {
        module: u32,
        args: Seq<(&'a str, ModuleArg)>,
    },
    /// A core instance made of named core items: their kinds and indices.
    CoreBundle {
        exports: Seq<(&'a str, ExportKind, u32)>,
    },
    /// A core type.
    CoreType(WireCoreType<'a>),
    /// A component in the component: its definitions and its names.
    Component {
        defs: Seq<WireDef<'a>>,
        names: NameMaps<'a>,
    },
    /// A component instantiated with named items: their kinds and indices.
    Instantiate {
        component: u32,
        args: Seq<(&'a str, ComponentExportKind, u32)>,
    },
    /// An instance made of named items: their kinds and indices.
    Bundle {
        exports: Seq<(ComponentExternName<'a>, ComponentExportKind, u32)>,
    },
    /// An alias.
    Alias(Alias<'a>),
    /// A type.
    Ty(WireType<'a>),
    /// A canonical function.
    Canon(WireCanon),
    /// The call of a function: the indices of its arguments, and how many values it gives.
    Start {
        func: u32,
        args: Seq<u32>,
        results: u32,
    },
    /// An import.
    Import {
        name: ComponentExternName<'a>,
        ty: ComponentTypeRef,
    },
    /// An export of the item of this kind and index, and its description where it has one.
    Export {
        name: ComponentExternName<'a>,
        ty: Option<ComponentTypeRef>,
        kind: ComponentExportKind,
        index: u32,
    },
    /// A custom section.
    Custom {
        name: &'a str,
        payload: Seq<u8>,
    },
}
