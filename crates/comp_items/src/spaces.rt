//! The index spaces of a component, and the kinds of items in them (Component Model, "Index Spaces").

ghost use Rattle.std.specs.Prelude.{◌≡◌, cond, None, Some};
ghost use Rattle.std.specs.Option.{option_map};
ghost use Rattle.comp_model.specs.Rows.{is_space};
ghost use Rattle.comp_items.specs.Spaces.{alias_space, core_alias_space, core_export_spaces, export_spaces, ns_space, outer_space};

use crate::kinds::{ComponentExportAliasKind, ComponentOuterAliasKind};
use core_syntax::ExportKind;

/// An index space.
#[derive(Clone, Copy, PartialEq, Eq, Hash, Debug)]
pub enum Ns {
    /// Core functions.
    CoreFunc,
    /// Core tables.
    CoreTable,
    /// Core memories.
    CoreMemory,
    /// Core globals.
    CoreGlobal,
    /// Core exception tags.
    CoreTag,
    /// Core types.
    CoreType,
    /// Core modules.
    CoreModule,
    /// Core instances.
    CoreInstance,
    /// Functions.
    Func,
    /// Values.
    Value,
    /// Types.
    Ty,
    /// Components.
    Component,
    /// Instances.
    Instance,
}

impl Ns {
    /// The kind of an alias that gives an item of this space from an instance; None where instances export none of it.
    pub fn export_alias_kind(self) -> Option<ComponentExportAliasKind>
        ensures { option_map alias_space result ≡ cond (is_space (ns_space self) export_spaces) (Some (ns_space self)) None }
    {
        match self {
            Ns::CoreModule => Some(ComponentExportAliasKind::CoreModule),
            Ns::Func => Some(ComponentExportAliasKind::Func),
            Ns::Value => Some(ComponentExportAliasKind::Value),
            Ns::Ty => Some(ComponentExportAliasKind::Ty),
            Ns::Component => Some(ComponentExportAliasKind::Component),
            Ns::Instance => Some(ComponentExportAliasKind::Instance),
            Ns::CoreFunc => None,
            Ns::CoreTable => None,
            Ns::CoreMemory => None,
            Ns::CoreGlobal => None,
            Ns::CoreTag => None,
            Ns::CoreType => None,
            Ns::CoreInstance => None,
        }
    }

    /// The kind of an export of a core instance that is an item of this space; None where core instances export none of it.
    pub fn core_export_kind(self) -> Option<ExportKind>
        ensures { option_map core_alias_space result ≡ cond (is_space (ns_space self) core_export_spaces) (Some (ns_space self)) None }
    {
        match self {
            Ns::CoreFunc => Some(ExportKind::Func),
            Ns::CoreTable => Some(ExportKind::Table),
            Ns::CoreMemory => Some(ExportKind::Memory),
            Ns::CoreGlobal => Some(ExportKind::Global),
            Ns::CoreTag => Some(ExportKind::Tag),
            Ns::CoreType => None,
            Ns::CoreModule => None,
            Ns::CoreInstance => None,
            Ns::Func => None,
            Ns::Value => None,
            Ns::Ty => None,
            Ns::Component => None,
            Ns::Instance => None,
        }
    }
}

/// The space of what an outer alias of a kind leads to.
impl From<ComponentOuterAliasKind> for Ns {
    fn from(kind: ComponentOuterAliasKind) -> Ns
        ensures { ns_space result ≡ outer_space kind }
    {
        match kind {
            ComponentOuterAliasKind::CoreModule => Ns::CoreModule,
            ComponentOuterAliasKind::CoreType => Ns::CoreType,
            ComponentOuterAliasKind::Ty => Ns::Ty,
            ComponentOuterAliasKind::Component => Ns::Component,
        }
    }
}
