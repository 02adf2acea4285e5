//! The keywords that name kinds of items (Component Model, "Index Spaces").

ghost use Rattle.std.specs.Prelude.{◌≡◌};
ghost use Rattle.text_table.specs.ItemKinds.{item_space, core_item_space};
ghost use Rattle.text_table.specs.declared.kinds.ItemKind.{ItemKind as Kind};
ghost use Rattle.text_table.specs.declared.kinds.CoreItemKind.{CoreItemKind as CoreKind};

use comp_model::Space;
use text_table::{CoreItemKind, ItemKind};
use wast_parser::kw;

/// A keyword that names a kind of items.
pub trait ItemWord: Sized + Drop + Default {
    /// The kind.
    ghost item_kind: { Kind };

    /// The kind.
    fn kind() -> ItemKind
        ensures { result ≡ item_kind };
}

/// A keyword that names a kind of core items.
pub trait CoreItemWord: Sized + Drop + Default {
    /// The kind.
    ghost core_item_kind: { CoreKind };

    /// The kind.
    fn core_kind() -> CoreItemKind
        ensures { result ≡ core_item_kind };
}

/// A core module.
impl ItemWord for kw::module {
    ghost use Rattle.text_table.specs.declared.kinds.ItemKind.TheVariants.{CoreModule};

    ghost item_kind = { CoreModule };

    fn kind() -> ItemKind {
        ItemKind::CoreModule
    }
}

/// A function.
impl ItemWord for kw::func {
    ghost use Rattle.text_table.specs.declared.kinds.ItemKind.TheVariants.{Func};

    ghost item_kind = { Func };

    fn kind() -> ItemKind {
        ItemKind::Func
    }
}

/// A value.
impl ItemWord for kw::value {
    ghost use Rattle.text_table.specs.declared.kinds.ItemKind.TheVariants.{Value};

    ghost item_kind = { Value };

    fn kind() -> ItemKind {
        ItemKind::Value
    }
}

/// A type.
impl ItemWord for kw::type_ {
    ghost use Rattle.text_table.specs.declared.kinds.ItemKind.TheVariants.{Ty};

    ghost item_kind = { Ty };

    fn kind() -> ItemKind {
        ItemKind::Ty
    }
}

/// A component.
impl ItemWord for kw::component {
    ghost use Rattle.text_table.specs.declared.kinds.ItemKind.TheVariants.{Component};

    ghost item_kind = { Component };

    fn kind() -> ItemKind {
        ItemKind::Component
    }
}

/// An instance.
impl ItemWord for kw::instance {
    ghost use Rattle.text_table.specs.declared.kinds.ItemKind.TheVariants.{Instance};

    ghost item_kind = { Instance };

    fn kind() -> ItemKind {
        ItemKind::Instance
    }
}

/// A core function.
impl CoreItemWord for kw::func {
    ghost use Rattle.text_table.specs.declared.kinds.CoreItemKind.TheVariants.{Func};

    ghost core_item_kind = { Func };

    fn core_kind() -> CoreItemKind {
        CoreItemKind::Func
    }
}

/// A core table.
impl CoreItemWord for kw::table {
    ghost use Rattle.text_table.specs.declared.kinds.CoreItemKind.TheVariants.{Table};

    ghost core_item_kind = { Table };

    fn core_kind() -> CoreItemKind {
        CoreItemKind::Table
    }
}

/// A core memory.
impl CoreItemWord for kw::memory {
    ghost use Rattle.text_table.specs.declared.kinds.CoreItemKind.TheVariants.{Memory};

    ghost core_item_kind = { Memory };

    fn core_kind() -> CoreItemKind {
        CoreItemKind::Memory
    }
}

/// A core type.
impl CoreItemWord for kw::type_ {
    ghost use Rattle.text_table.specs.declared.kinds.CoreItemKind.TheVariants.{Ty};

    ghost core_item_kind = { Ty };

    fn core_kind() -> CoreItemKind {
        CoreItemKind::Ty
    }
}

/// A core instance.
impl CoreItemWord for kw::instance {
    ghost use Rattle.text_table.specs.declared.kinds.CoreItemKind.TheVariants.{Instance};

    ghost core_item_kind = { Instance };

    fn core_kind() -> CoreItemKind {
        CoreItemKind::Instance
    }
}

/// The space of a kind of items.
pub(crate) fn space_of(kind: ItemKind) -> Space
    ensures { result ≡ item_space kind }
{
    match kind {
        ItemKind::CoreModule => Space::CoreModule,
        ItemKind::Func => Space::Func,
        ItemKind::Value => Space::Value,
        ItemKind::Ty => Space::Ty,
        ItemKind::Component => Space::Component,
        ItemKind::Instance => Space::Instance,
    }
}

/// The space of a kind of core items.
pub(crate) fn core_space_of(kind: CoreItemKind) -> Space
    ensures { result ≡ core_item_space kind }
{
    match kind {
        CoreItemKind::Func => Space::CoreFunc,
        CoreItemKind::Table => Space::CoreTable,
        CoreItemKind::Memory => Space::CoreMemory,
        CoreItemKind::Ty => Space::CoreType,
        CoreItemKind::Instance => Space::CoreInstance,
    }
}
