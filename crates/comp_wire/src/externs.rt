//! What is imported, exported and aliased: names, descriptions, aliases, and the entities of core modules.

use crate::kinds::{ComponentExportKind, ComponentOuterAliasKind, ExportKind};
use crate::values::WireVal;

/// The name of an import or export of a component.
#[derive(Clone, Copy, Debug)]
pub struct ComponentExternName<'a> {
    /// The name.
    pub name: &'a str,
}

/// What is known of a type that is imported or exported.
#[derive(Clone, Copy, PartialEq, Eq, Debug)]
pub enum TypeBounds {
    /// It is the type of this index.
    Eq(u32),
    /// It is some resource.
    SubResource,
}

/// The description of an import or export: its kind, and the index of its type.
#[derive(Clone, Copy, PartialEq, Eq, Debug)]
pub enum ComponentTypeRef {
    /// A core module; the index is of a core type.
    Module(u32),
    /// A function.
    Func(u32),
    /// A type.
    Ty(TypeBounds),
    /// A component.
    Component(u32),
    /// An instance.
    Instance(u32),
}

/// A name for an item that stands elsewhere.
#[derive(Clone, Copy)]
pub enum Alias<'a> {
    /// An export of an instance.
    InstanceExport {
        instance: u32,
        kind: ComponentExportKind,
        name: &'a str,
    },
    /// An export of a core instance.
    CoreInstanceExport {
        instance: u32,
        kind: ExportKind,
        name: &'a str,
    },
    /// An item of the scope that stands `count` scopes further out.
    Outer {
        count: u32,
        kind: ComponentOuterAliasKind,
        index: u32,
    },
}

/// What a core module imports or exports.
#[derive(Clone, Copy, PartialEq, Eq, Debug)]
pub enum WireEntity {
    /// A function; the index is of a core type.
    Func(u32),
    /// A table: the type of its elements, its size at first, its size at most.
    Table(WireVal, u32, Option<u32>),
    /// A memory: its size at first and at most, in pages of 64 KiB.
    Memory(u32, Option<u32>),
    /// A global: its type, and whether it can be changed.
    Global(WireVal, bool),
}
