//! References to items, with the names of exports that lead to them (Component Model, "Alias Definitions", "Instance Definitions" and "Canonical
//! Definitions").

use crate::forms::{IS_REFERENCE, cases};
use crate::rule::Rule::{Either, Group, Path, Use, Word};
use crate::rule::{Part, Rule, Steps, Test};
use comp_model::Space;
use token_codes::numbers as word;

/// `idx text*`, of a space.
macro_rules! item_path {
    ($space:expr) => {
        &crate::rule::Rule::Path($space, crate::rule::Steps::Many)
    };
}

pub(crate) use item_path;

/// `idx text?`, of a space.
macro_rules! core_path {
    ($space:expr) => {
        &crate::rule::Rule::Path($space, crate::rule::Steps::One)
    };
}

pub(crate) use core_path;

/// `idx`, of a space.
macro_rules! index {
    ($space:expr) => {
        &crate::rule::Rule::Alone(crate::rule::Step::Reference(
            $space,
            crate::rule::Reach::Outward,
        ))
    };
}

pub(crate) use index;

/// `ior(k) = idx | "(" k idx text* ")"`.
macro_rules! index_or_item {
    ($word:expr, $space:expr) => {
        &crate::rule::Rule::Either(
            crate::forms::IS_REFERENCE,
            $crate::references::index!($space),
            &crate::rule::Rule::Group(&crate::rule::Rule::Word($word, $crate::references::item_path!($space))),
        )
    };
}

pub(crate) use index_or_item;

/// `"core" k idx text?`.
macro_rules! core_words {
    ($word:expr, $space:expr) => {
        &crate::rule::Rule::Word(
            token_codes::numbers::CORE,
            &crate::rule::Rule::Word($word, $crate::references::core_path!($space)),
        )
    };
}

pub(crate) use core_words;

/// `nref(k) = idx | "(" "core" k idx text? ")"`.
macro_rules! index_or_core {
    ($word:expr, $space:expr) => {
        &crate::rule::Rule::Either(
            crate::forms::IS_REFERENCE,
            $crate::references::index!($space),
            &crate::rule::Rule::Group($crate::references::core_words!($word, $space)),
        )
    };
}

pub(crate) use index_or_core;

/// `cref(k) = idx | "(" "core" k idx text? ")"`, or in the older form `"(" k idx text? ")"`.
macro_rules! core_reference {
    ($word:expr, $space:expr) => {
        &crate::rule::Rule::Either(
            crate::forms::IS_REFERENCE,
            $crate::references::index!($space),
            &crate::rule::Rule::Group(&crate::rule::Rule::ByTest(
                &crate::rule::Test::Legacy,
                &crate::rule::Rule::Either(
                    &crate::rule::Test::Next(token_codes::numbers::CORE),
                    $crate::references::core_words!($word, $space),
                    &crate::rule::Rule::Word($word, $crate::references::core_path!($space)),
                ),
                $crate::references::core_words!($word, $space),
            )),
        )
    };
}

pub(crate) use core_reference;

/// `"(" "type" idx text* ")"`.
pub const TYPE_ITEM: &Rule<'static> = &Group(&Word(word::TYPE, item_path!(Space::Ty)));

/// `"(" "type" idx text? ")"`, of a core type.
pub const CORE_TYPE_ITEM: &Rule<'static> = &Group(&Word(word::TYPE, core_path!(Space::CoreType)));

/// `ekind idx text*`, where `ekind = "core" "module" | "func" | "value" | "type" | "component" | "instance"`.
pub const ITEM: &Rule<'static> = cases! {
    &Test::Next(word::CORE) => &Word(word::CORE, &Word(word::MODULE, item_path!(Space::CoreModule))),
    &Test::Next(word::FUNC) => &Word(word::FUNC, item_path!(Space::Func)),
    &Test::Next(word::VALUE) => &Word(word::VALUE, item_path!(Space::Value)),
    &Test::Next(word::TYPE) => &Word(word::TYPE, item_path!(Space::Ty)),
    &Test::Next(word::COMPONENT) => &Word(word::COMPONENT, item_path!(Space::Component)),
    &Test::Next(word::INSTANCE) => &Word(word::INSTANCE, item_path!(Space::Instance)),
};

/// `ckind idx text?`, where `ckind = "func" | "table" | "memory" | "global" | "tag"`.
pub const CORE_ITEM: &Rule<'static> = cases! {
    &Test::Next(word::FUNC) => &Word(word::FUNC, core_path!(Space::CoreFunc)),
    &Test::Next(word::TABLE) => &Word(word::TABLE, core_path!(Space::CoreTable)),
    &Test::Next(word::MEMORY) => &Word(word::MEMORY, core_path!(Space::CoreMemory)),
    &Test::Next(word::GLOBAL) => &Word(word::GLOBAL, core_path!(Space::CoreGlobal)),
    &Test::Next(word::TAG) => &Word(word::TAG, core_path!(Space::CoreTag)),
};

/// `eref = "(" ekind idx text* ")"`.
pub const ITEM_GROUP: &Rule<'static> = &Group(&Use(Part::Item));

/// `memory = idx | "(" "core" "memory" idx text? ")"`, or in the older form `idx text`.
pub const MEMORY_REFERENCE: &Rule<'static> = &Either(
    IS_REFERENCE,
    &Path(Space::CoreMemory, Steps::Legacy),
    &Group(core_words!(word::MEMORY, Space::CoreMemory)),
);
