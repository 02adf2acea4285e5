//! The kinds of aliases (Component Model, "Alias Definitions").

/// The kind of an alias of an export of an instance.
#[derive(Clone, Copy, PartialEq, Eq, Debug)]
pub enum ComponentExportAliasKind {
    /// A core module.
    CoreModule,
    /// A function.
    Func,
    /// A value.
    Value,
    /// A type.
    Ty,
    /// A component.
    Component,
    /// An instance.
    Instance,
}

/// The kind of an outer alias.
#[derive(Clone, Copy, PartialEq, Eq, Debug)]
pub enum ComponentOuterAliasKind {
    /// A core module.
    CoreModule,
    /// A core type.
    CoreType,
    /// A type.
    Ty,
    /// A component.
    Component,
}
