//! The index spaces of keywords that name kinds of items (Component Model, "Index Spaces").

ghost use Rattle.std.specs.Prelude.{◌≡◌};
ghost use Rattle.comp_model.specs.declared.Space.{Space};
ghost use Rattle.comp_model.specs.declared.Space.TheVariants as space;
ghost use Rattle.comp_items.specs.Spaces.{core_alias_space, ns_space};

use crate::spaces::Ns;
use core_syntax::ExportKind;
use wast_parser::kw;

/// What names a kind of items.
pub trait ComponentItem {
    /// The space of the items.
    ghost items: { Self → Space };

    /// The space of the items.
    fn ns(&self) -> Ns
        ensures { ns_space result ≡ items self.now };
}

/// What names a kind of core items.
pub trait CoreItem {
    /// The space of the items.
    ghost core_items: { Self → Space };

    /// The space of the items.
    fn ns(&self) -> Ns
        ensures { ns_space result ≡ core_items self.now };
}

/// A function.
impl ComponentItem for kw::func {
    ghost items = { λ x. space.Func };

    fn ns(&self) -> Ns {
        Ns::Func
    }
}

/// A type.
impl ComponentItem for kw::type_ {
    ghost items = { λ x. space.Ty };

    fn ns(&self) -> Ns {
        Ns::Ty
    }
}

/// An instance.
impl ComponentItem for kw::instance {
    ghost items = { λ x. space.Instance };

    fn ns(&self) -> Ns {
        Ns::Instance
    }
}

/// A component.
impl ComponentItem for kw::component {
    ghost items = { λ x. space.Component };

    fn ns(&self) -> Ns {
        Ns::Component
    }
}

/// A value.
impl ComponentItem for kw::value {
    ghost items = { λ x. space.Value };

    fn ns(&self) -> Ns {
        Ns::Value
    }
}

/// A core module.
impl ComponentItem for kw::module {
    ghost items = { λ x. space.CoreModule };

    fn ns(&self) -> Ns {
        Ns::CoreModule
    }
}

/// A core function.
impl CoreItem for kw::func {
    ghost core_items = { λ x. space.CoreFunc };

    fn ns(&self) -> Ns {
        Ns::CoreFunc
    }
}

/// A core memory.
impl CoreItem for kw::memory {
    ghost core_items = { λ x. space.CoreMemory };

    fn ns(&self) -> Ns {
        Ns::CoreMemory
    }
}

/// A core table.
impl CoreItem for kw::table {
    ghost core_items = { λ x. space.CoreTable };

    fn ns(&self) -> Ns {
        Ns::CoreTable
    }
}

/// A core type.
impl CoreItem for kw::type_ {
    ghost core_items = { λ x. space.CoreType };

    fn ns(&self) -> Ns {
        Ns::CoreType
    }
}

/// A core instance.
impl CoreItem for kw::instance {
    ghost core_items = { λ x. space.CoreInstance };

    fn ns(&self) -> Ns {
        Ns::CoreInstance
    }
}

/// What a core instance exports.
impl CoreItem for ExportKind {
    ghost core_items = { core_alias_space };

    fn ns(&self) -> Ns {
        match self {
            ExportKind::Func => Ns::CoreFunc,
            ExportKind::Table => Ns::CoreTable,
            ExportKind::Memory => Ns::CoreMemory,
            ExportKind::Global => Ns::CoreGlobal,
            ExportKind::Tag => Ns::CoreTag,
        }
    }
}
