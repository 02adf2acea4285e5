//! The kinds of what is exported, aliased and passed on.

/// The kind of an item of a core module that can be exported.
#[derive(Clone, Copy, PartialEq, Eq, Debug)]
pub enum ExportKind {
    Func,
    Table,
    Memory,
    Global,
    Tag,
}

/// The kind of an item of a component that can be exported.
#[derive(Clone, Copy, PartialEq, Eq, Debug)]
pub enum ComponentExportKind {
    Module,
    Func,
    Value,
    Ty,
    Component,
    Instance,
}

/// The kind of an item that an inner component can take from an outer one.
#[derive(Clone, Copy, PartialEq, Eq, Debug)]
pub enum ComponentOuterAliasKind {
    CoreModule,
    CoreType,
    Ty,
    Component,
}

/// What is passed to a core module when it is instantiated.
#[derive(Clone, Copy, PartialEq, Eq, Debug)]
pub enum ModuleArg {
    /// The core instance of this index.
    Instance(u32),
}
