//! References to items, aliases and names of imports and exports as each is read alone (Component Model, "Alias Definitions", "Canonical
//! Definitions" and "Import and Export Definitions").

ghost use Rattle.std.specs.Prelude.{◌≡◌};
ghost use Rattle.text_table.specs.Code.{rule_of};
ghost use Rattle.text_parts.specs.ReadAlone.{item_part};

use text_table::canons::{CORE_ALIAS, INLINE_ALIAS};
use text_table::core_types::MODULE_TYPE_ALIAS;
use text_table::references::{CORE_ITEM, ITEM_GROUP, MEMORY_REFERENCE};
use text_table::rule::Rule;
use text_table::types::{
    EXPORT_KIND, EXPORTS, EXTERN_NAME, INLINE_EXPORTS, INLINE_IMPORT, OUTER_KIND,
};

/// What is read alone of references, aliases and names.
#[derive(Clone, Copy)]
pub enum ItemPart {
    /// `eref`, a reference to an item with its kind, in parentheses.
    Named,
    /// A reference to a core item with its kind.
    Core,
    /// `memory`, what stands behind that word in an option.
    MemoryOfOption,
    /// An alias of the export of a core instance, in the parentheses of a core function.
    CoreAlias,
    /// An alias of the export of an instance, in the parentheses of a function.
    InlineAlias,
    /// An outer alias among the declarations of a module type.
    ModuleTypeAlias,
    /// `ekind`, the kind of an alias of an export.
    ExportKind,
    /// `okind`, the kind of an outer alias.
    OuterKind,
    /// `ename`, the name of an import or an export.
    ExternName,
    /// `iimp`.
    InlineImport,
    /// `iexp*`.
    InlineExports,
    /// `( "(" export ")" )*`, each a definition.
    Exports,
}

/// The rule of a part.
pub fn item_rule(part: ItemPart) -> &'static Rule<'static>
    ensures { rule_of result.now ≡ item_part part }
{
    match part {
        ItemPart::Named => ITEM_GROUP,
        ItemPart::Core => CORE_ITEM,
        ItemPart::MemoryOfOption => MEMORY_REFERENCE,
        ItemPart::CoreAlias => CORE_ALIAS,
        ItemPart::InlineAlias => INLINE_ALIAS,
        ItemPart::ModuleTypeAlias => MODULE_TYPE_ALIAS,
        ItemPart::ExportKind => EXPORT_KIND,
        ItemPart::OuterKind => OUTER_KIND,
        ItemPart::ExternName => EXTERN_NAME,
        ItemPart::InlineImport => INLINE_IMPORT,
        ItemPart::InlineExports => INLINE_EXPORTS,
        ItemPart::Exports => EXPORTS,
    }
}
