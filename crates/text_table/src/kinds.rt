//! References to items of one kind as each is read alone (Component Model, "Alias Definitions" and "Canonical Definitions").

ghost use Rattle.std.specs.Prelude.{◌≡◌};
ghost use Rattle.text_rules.specs.ReferenceRules.{item_of, core_item_of, space_word, index_or_item, index_or_core, core_reference};
ghost use Rattle.text_table.specs.Code.{rule_of};
ghost use Rattle.text_table.specs.ItemKinds.{item_space, core_item_space};

use crate::references::{core_path, core_reference, index_or_core, index_or_item, item_path};
use crate::rule::Rule;
use crate::rule::Rule::Word;
use comp_model::Space;
use token_codes::numbers as word;

/// The kinds of items that a path may lead to.
#[derive(Clone, Copy)]
pub enum ItemKind {
    /// A core module.
    CoreModule,
    /// A function.
    Func,
    /// A value.
    Value,
    /// A type.
    Ty,
    /// A component.
    Component,
    /// An instance.
    Instance,
}

/// The kinds of core items that a reference may lead to by its word.
#[derive(Clone, Copy)]
pub enum CoreItemKind {
    /// A function.
    Func,
    /// A table.
    Table,
    /// A memory.
    Memory,
    /// A type.
    Ty,
    /// An instance.
    Instance,
}

const CORE_MODULE_ITEM: &Rule<'static> = &Word(word::MODULE, item_path!(Space::CoreModule));

const FUNC_ITEM: &Rule<'static> = &Word(word::FUNC, item_path!(Space::Func));

const VALUE_ITEM: &Rule<'static> = &Word(word::VALUE, item_path!(Space::Value));

const TY_ITEM: &Rule<'static> = &Word(word::TYPE, item_path!(Space::Ty));

const COMPONENT_ITEM: &Rule<'static> = &Word(word::COMPONENT, item_path!(Space::Component));

const INSTANCE_ITEM: &Rule<'static> = &Word(word::INSTANCE, item_path!(Space::Instance));

/// `k idx text*`, where `k` is the word of a kind.
pub fn item_reference(kind: ItemKind) -> &'static Rule<'static>
    ensures { rule_of result.now ≡ item_of (item_space kind) }
{
    match kind {
        ItemKind::CoreModule => CORE_MODULE_ITEM,
        ItemKind::Func => FUNC_ITEM,
        ItemKind::Value => VALUE_ITEM,
        ItemKind::Ty => TY_ITEM,
        ItemKind::Component => COMPONENT_ITEM,
        ItemKind::Instance => INSTANCE_ITEM,
    }
}

const CORE_MODULE_OR_INDEX: &Rule<'static> = index_or_item!(word::MODULE, Space::CoreModule);

const FUNC_OR_INDEX: &Rule<'static> = index_or_item!(word::FUNC, Space::Func);

const VALUE_OR_INDEX: &Rule<'static> = index_or_item!(word::VALUE, Space::Value);

const TY_OR_INDEX: &Rule<'static> = index_or_item!(word::TYPE, Space::Ty);

const COMPONENT_OR_INDEX: &Rule<'static> = index_or_item!(word::COMPONENT, Space::Component);

const INSTANCE_OR_INDEX: &Rule<'static> = index_or_item!(word::INSTANCE, Space::Instance);

/// `ior(k) = idx | "(" k idx text* ")"`, where `k` is the word of a kind.
pub fn index_or_item_reference(kind: ItemKind) -> &'static Rule<'static>
    ensures { rule_of result.now ≡ index_or_item (space_word (item_space kind)) (item_space kind) }
{
    match kind {
        ItemKind::CoreModule => CORE_MODULE_OR_INDEX,
        ItemKind::Func => FUNC_OR_INDEX,
        ItemKind::Value => VALUE_OR_INDEX,
        ItemKind::Ty => TY_OR_INDEX,
        ItemKind::Component => COMPONENT_OR_INDEX,
        ItemKind::Instance => INSTANCE_OR_INDEX,
    }
}

const CORE_FUNC_ITEM: &Rule<'static> = &Word(word::FUNC, core_path!(Space::CoreFunc));

const CORE_TABLE_ITEM: &Rule<'static> = &Word(word::TABLE, core_path!(Space::CoreTable));

const CORE_MEMORY_ITEM: &Rule<'static> = &Word(word::MEMORY, core_path!(Space::CoreMemory));

const CORE_TY_ITEM: &Rule<'static> = &Word(word::TYPE, core_path!(Space::CoreType));

const CORE_INSTANCE_ITEM: &Rule<'static> = &Word(word::INSTANCE, core_path!(Space::CoreInstance));

/// `k idx text?`, where `k` is the word of a kind.
pub fn core_item_reference(kind: CoreItemKind) -> &'static Rule<'static>
    ensures { rule_of result.now ≡ core_item_of (core_item_space kind) }
{
    match kind {
        CoreItemKind::Func => CORE_FUNC_ITEM,
        CoreItemKind::Table => CORE_TABLE_ITEM,
        CoreItemKind::Memory => CORE_MEMORY_ITEM,
        CoreItemKind::Ty => CORE_TY_ITEM,
        CoreItemKind::Instance => CORE_INSTANCE_ITEM,
    }
}

const CORE_FUNC_OR_INDEX: &Rule<'static> = index_or_core!(word::FUNC, Space::CoreFunc);

const CORE_TABLE_OR_INDEX: &Rule<'static> = index_or_core!(word::TABLE, Space::CoreTable);

const CORE_MEMORY_OR_INDEX: &Rule<'static> = index_or_core!(word::MEMORY, Space::CoreMemory);

const CORE_TY_OR_INDEX: &Rule<'static> = index_or_core!(word::TYPE, Space::CoreType);

const CORE_INSTANCE_OR_INDEX: &Rule<'static> = index_or_core!(word::INSTANCE, Space::CoreInstance);

/// `nref(k) = idx | "(" "core" k idx text? ")"`, where `k` is the word of a kind.
pub fn index_or_core_item(kind: CoreItemKind) -> &'static Rule<'static>
    ensures { rule_of result.now ≡ index_or_core (space_word (core_item_space kind)) (core_item_space kind) }
{
    match kind {
        CoreItemKind::Func => CORE_FUNC_OR_INDEX,
        CoreItemKind::Table => CORE_TABLE_OR_INDEX,
        CoreItemKind::Memory => CORE_MEMORY_OR_INDEX,
        CoreItemKind::Ty => CORE_TY_OR_INDEX,
        CoreItemKind::Instance => CORE_INSTANCE_OR_INDEX,
    }
}

const CORE_FUNC_OF_EITHER_FORM: &Rule<'static> = core_reference!(word::FUNC, Space::CoreFunc);

const CORE_TABLE_OF_EITHER_FORM: &Rule<'static> = core_reference!(word::TABLE, Space::CoreTable);

const CORE_MEMORY_OF_EITHER_FORM: &Rule<'static> = core_reference!(word::MEMORY, Space::CoreMemory);

const CORE_TY_OF_EITHER_FORM: &Rule<'static> = core_reference!(word::TYPE, Space::CoreType);

const CORE_INSTANCE_OF_EITHER_FORM: &Rule<'static> = core_reference!(
    word::INSTANCE,
    Space::CoreInstance
);

/// `cref(k) = idx | "(" "core" k idx text? ")"`, or in the older form `"(" k idx text? ")"`, where `k` is the word of a kind.
pub fn core_item_of_either_form(kind: CoreItemKind) -> &'static Rule<'static>
    ensures { rule_of result.now ≡ core_reference (space_word (core_item_space kind)) (core_item_space kind) }
{
    match kind {
        CoreItemKind::Func => CORE_FUNC_OF_EITHER_FORM,
        CoreItemKind::Table => CORE_TABLE_OF_EITHER_FORM,
        CoreItemKind::Memory => CORE_MEMORY_OF_EITHER_FORM,
        CoreItemKind::Ty => CORE_TY_OF_EITHER_FORM,
        CoreItemKind::Instance => CORE_INSTANCE_OF_EITHER_FORM,
    }
}
