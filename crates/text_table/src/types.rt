//! Types, aliases, imports and exports, and the declarations of the types of components and instances (Component Model, "Type Definitions", "Alias
//! Definitions" and "Import and Export Definitions").

use crate::core_types::{MODULE_TYPE_ITEMS, OUTWARD_CORE_VALUE};
use crate::forms::{ABSENT, GOING, IS_OPENING, IS_STRING, NAMES, cases, inline_name, lone_word};
use crate::references::{CORE_TYPE_ITEM, ITEM_GROUP, TYPE_ITEM, core_reference};
use crate::rule;
use crate::rule::Keep::{Export, Text};
use crate::rule::Reach::Outward;
use crate::rule::Rule::{
    Alone, Also, ByTest, Checked, Def, DefOf, Either, Group, InlineOf, Keep, Many, Named, Of, Part,
    Placed, Reference, Scope, Then, Use, Word, Wraps,
};
use crate::rule::{Add, Outside, RowName, Rule, Step, Test, Wrap};
use crate::values::{FUNCTION, INLINE_VAL, IS_PRIM, NONPRIM, PRIM, TYPE_INDEX};
use comp_model::{Row, ScopeKind, Space};
use token_codes::numbers as word;

/// `"(" "rep" cval ")" ( "(" "dtor" cref("func") ")" )?`.
pub const RESOURCE_PARTS: &Rule<'static> = &Then(
    &Group(&Word(word::REP, OUTWARD_CORE_VALUE)),
    &Either(
        IS_OPENING,
        &Part(&Group(&Word(word::DTOR, core_reference!(word::FUNC, Space::CoreFunc)))),
        ABSENT,
    ),
);

/// `"resource" "(" "rep" cval ")" ( "(" "dtor" cref("func") ")" )?`.
pub const RESOURCE_TYPE: &Rule<'static> = &Of(
    Row::ResourceType,
    &Word(word::RESOURCE, RESOURCE_PARTS),
);

/// `( tdecl | import )*`.
pub const COMPONENT_DECLARATIONS: &Rule<'static> = &Many(
    GOING,
    &Rule::Row(RowName::ComponentTypeItem),
);

/// `tdecl*`.
pub const INSTANCE_DECLARATIONS: &Rule<'static> = &Many(
    GOING,
    &Rule::Row(RowName::InstanceTypeItem),
);

/// `cty = ! ( tdecl | import )*`.
pub const COMPONENT_TYPE_ITEMS: &Rule<'static> = &Scope(
    ScopeKind::ComponentType,
    &Checked(COMPONENT_DECLARATIONS),
);

/// `ity = ! tdecl*`.
pub const INSTANCE_TYPE_ITEMS: &Rule<'static> = &Scope(
    ScopeKind::InstanceType,
    &Checked(INSTANCE_DECLARATIONS),
);

/// `cty`, with the row of a component type.
pub const COMPONENT_TYPE: &Rule<'static> = &Of(Row::ComponentType, COMPONENT_TYPE_ITEMS);

/// `ity`, with the row of an instance type.
pub const INSTANCE_TYPE: &Rule<'static> = &Of(Row::InstanceType, INSTANCE_TYPE_ITEMS);

/// `"func" fty | "component" cty | "instance" ity | resource | ! nonprim`, in the parentheses of `typedef`.
pub const TYPE_IN_GROUP: &Rule<'static> = &Either(
    &Test::Next(word::FUNC),
    &Of(Row::FunctionType, &Word(word::FUNC, FUNCTION)),
    &Either(
        &Test::Next(word::COMPONENT),
        &Word(word::COMPONENT, COMPONENT_TYPE),
        &Either(
            &Test::Next(word::INSTANCE),
            &Word(word::INSTANCE, INSTANCE_TYPE),
            &Either(
                &Test::Next(word::RESOURCE),
                &Use(rule::Part::Resource),
                &Checked(NONPRIM),
            ),
        ),
    ),
);

/// `typedef = prim | "(" "func" fty ")" | "(" "component" cty ")" | "(" "instance" ity ")" | "(" resource ")" | "(" ! nonprim ")"`.
pub const TYPE_DEFINITION: &Rule<'static> = &Either(
    IS_PRIM,
    &Of(Row::Primitive, PRIM),
    &Group(TYPE_IN_GROUP),
);

/// `"type" id? name? typedef`.
pub const TYPE_DECLARATION: &Rule<'static> = &Def(&Placed(
    true,
    word::TYPE,
    &Named(&Rule::Row(RowName::TypeDefinition)),
));

/// A word that is the kind of an item.
macro_rules! kind {
    ($word:expr, $space:expr) => {
        &Also(lone_word!($word), Add::Kind($space))
    };
}

/// Two words that are the kind of an item.
macro_rules! core_kind {
    ($word:expr, $space:expr) => {
        &Also(&Word(word::CORE, lone_word!($word)), Add::Kind($space))
    };
}

/// `ekind = "core" "module" | "func" | "value" | "type" | "component" | "instance"` (Alias Definitions).
pub const EXPORT_KIND: &Rule<'static> = cases! {
    &Test::Next(word::CORE) => core_kind!(word::MODULE, Space::CoreModule),
    &Test::Next(word::FUNC) => kind!(word::FUNC, Space::Func),
    &Test::Next(word::VALUE) => kind!(word::VALUE, Space::Value),
    &Test::Next(word::TYPE) => kind!(word::TYPE, Space::Ty),
    &Test::Next(word::COMPONENT) => kind!(word::COMPONENT, Space::Component),
    &Test::Next(word::INSTANCE) => kind!(word::INSTANCE, Space::Instance),
};

/// `okind = "core" "module" | "core" "type" | "type" | "component"` (Alias Definitions).
pub const OUTER_KIND: &Rule<'static> = cases! {
    &Test::Both(word::CORE, word::MODULE) => core_kind!(word::MODULE, Space::CoreModule),
    &Test::Next(word::CORE) => core_kind!(word::TYPE, Space::CoreType),
    &Test::Next(word::TYPE) => kind!(word::TYPE, Space::Ty),
    &Test::Next(word::COMPONENT) => kind!(word::COMPONENT, Space::Component),
};

/// `ckind = "func" | "table" | "memory" | "global" | "tag"` (Alias Definitions).
pub const CORE_KIND: &Rule<'static> = cases! {
    &Test::Next(word::FUNC) => kind!(word::FUNC, Space::CoreFunc),
    &Test::Next(word::TABLE) => kind!(word::TABLE, Space::CoreTable),
    &Test::Next(word::MEMORY) => kind!(word::MEMORY, Space::CoreMemory),
    &Test::Next(word::GLOBAL) => kind!(word::GLOBAL, Space::CoreGlobal),
    &Test::Next(word::TAG) => kind!(word::TAG, Space::CoreTag),
};

/// `"export" idx text "(" ekind id? name? ")"` (Alias Definitions).
pub const EXPORT_ALIAS: &Rule<'static> = &Of(
    Row::AliasExport,
    &Word(
        word::EXPORT,
        &Reference(
            Space::Instance,
            Outward,
            &Keep(Text, &Group(&Then(EXPORT_KIND, NAMES))),
        ),
    ),
);

/// `"core" "export" idx text "(" "core" ckind id? name? ")"` (Alias Definitions).
pub const CORE_EXPORT_ALIAS: &Rule<'static> = &Of(
    Row::AliasCoreExport,
    &Word(
        word::CORE,
        &Word(
            word::EXPORT,
            &Reference(
                Space::CoreInstance,
                Outward,
                &Keep(Text, &Group(&Word(word::CORE, &Then(CORE_KIND, NAMES)))),
            ),
        ),
    ),
);

/// `"outer" idx idx "(" okind id? name? ")"` (Alias Definitions).
pub const OUTER_ALIAS: &Rule<'static> = &Of(
    Row::AliasOuter,
    &Word(
        word::OUTER,
        &Reference(
            Space::Ty,
            Outward,
            &Reference(Space::Ty, Outward, &Group(&Then(OUTER_KIND, NAMES))),
        ),
    ),
);

/// `alias = "alias" ( "export" .. | "core" "export" .. | "outer" .. )` (Alias Definitions).
pub const ALIAS: &Rule<'static> = &Def(&Wraps(
    Wrap::Outer,
    &Placed(
        true,
        word::ALIAS,
        &Either(
            &Test::Next(word::EXPORT),
            EXPORT_ALIAS,
            &Either(&Test::Next(word::CORE), CORE_EXPORT_ALIAS, OUTER_ALIAS),
        ),
    ),
));

/// `"(" "type" idx` with `)` or a string behind it is next, which is a reference.
pub const IS_TYPE_USE: &Test<'static> = &Test::Form(
    &[word::OPENING],
    &[word::TYPE],
    &[
        &[word::ID, word::NUMERAL, word::WIDE],
        &[word::CLOSING, word::TEXT, word::BYTES],
    ],
);

/// A group of `type` is next.
pub const IS_TYPE_GROUP: &Test<'static> = &Test::Group(word::TYPE);

/// `use(fty) = "(" "type" idx text* ")" | fty`.
pub const FUNC_USE: &Rule<'static> = &Either(
    IS_TYPE_GROUP,
    TYPE_ITEM,
    &InlineOf(Space::Ty, Row::FunctionType, FUNCTION),
);

/// `use(cty)`.
pub const COMPONENT_USE: &Rule<'static> = &ByTest(
    IS_TYPE_USE,
    TYPE_ITEM,
    &InlineOf(Space::Ty, Row::ComponentType, COMPONENT_TYPE_ITEMS),
);

/// `use(ity)`.
pub const INSTANCE_USE: &Rule<'static> = &ByTest(
    IS_TYPE_USE,
    TYPE_ITEM,
    &InlineOf(Space::Ty, Row::InstanceType, INSTANCE_TYPE_ITEMS),
);

/// `cuse(mty)`.
pub const MODULE_USE: &Rule<'static> = &ByTest(
    IS_TYPE_USE,
    CORE_TYPE_ITEM,
    &InlineOf(Space::CoreType, Row::ModuleType, MODULE_TYPE_ITEMS),
);

/// `valuse = "(" "type" idx ")" | prim | "(" ! nonprim ")"`.
pub const VALUE_USE: &Rule<'static> = &Either(
    IS_TYPE_GROUP,
    &Group(&Word(word::TYPE, TYPE_INDEX)),
    INLINE_VAL,
);

/// `bound = "eq" idx | "sub" "resource"`.
pub const BOUND: &Rule<'static> = &Either(
    &Test::Next(word::EQ),
    &Of(Row::TypeEq, &Word(word::EQ, TYPE_INDEX)),
    &Of(
        Row::SubResource,
        &Word(word::SUB, lone_word!(word::RESOURCE)),
    ),
);

/// `id? name?`, then the rest.
macro_rules! named {
    ($rest:expr) => {
        &Named($rest)
    };
}

/// The rest without names.
macro_rules! nameless {
    ($rest:expr) => {
        $rest
    };
}

/// `sig = "core" "module" id? name? cuse(mty) | "func" id? name? use(fty) | "component" id? name? use(cty) | "instance" id? name? use(ity)
/// | "value" id? name? valuse | "type" id? name? "(" bound ")"`, with or without the names.
macro_rules! description {
    ($names:ident) => {
        cases! {
            &Test::Next(word::CORE) => &Of(Row::ModuleDescription, &Word(word::CORE, &Word(word::MODULE, $names!(MODULE_USE)))),
            &Test::Next(word::FUNC) => &Of(Row::FuncDescription, &Word(word::FUNC, $names!(FUNC_USE))),
            &Test::Next(word::COMPONENT) => &Of(Row::ComponentDescription, &Word(word::COMPONENT, $names!(COMPONENT_USE))),
            &Test::Next(word::INSTANCE) => &Of(Row::InstanceDescription, &Word(word::INSTANCE, $names!(INSTANCE_USE))),
            &Test::Next(word::VALUE) => &Of(Row::ValueDescription, &Word(word::VALUE, $names!(VALUE_USE))),
            &Test::Next(word::TYPE) => &Word(word::TYPE, $names!(&Group(BOUND))),
        }
    };
}

/// `sig`, with names.
pub const DESCRIPTION: &Rule<'static> = description!(named);

/// `signn`, the same without names.
pub const NAMELESS_DESCRIPTION: &Rule<'static> = description!(nameless);

/// `"(" sig ")"`, as a leaf.
pub const SIGNATURE: &Rule<'static> = &Rule::Node(&Group(DESCRIPTION));

/// `"(" signn ")"`, as a leaf.
pub const NAMELESS_SIGNATURE: &Rule<'static> = &Rule::Node(&Group(NAMELESS_DESCRIPTION));

/// `"(" sig ")"`, by its name.
pub const SIGNATURE_ROW: &Rule<'static> = &Rule::Row(RowName::Signature);

/// `"(" signn ")"`, by its name.
pub const NAMELESS_ROW: &Rule<'static> = &Rule::Row(RowName::NamelessSignature);

/// `ename`.
pub const EXTERN_NAME: &Rule<'static> = &Alone(Step::Outside(Outside::ExternName));

/// `ename`, then the rest.
macro_rules! extern_name {
    ($rest:expr) => {
        &crate::rule::Rule::Outside(crate::rule::Outside::ExternName, $rest)
    };
}

pub(crate) use extern_name;

/// `import = "import" ename "(" sig ")"`.
pub const IMPORT: &Rule<'static> = &DefOf(
    Row::Import,
    &Placed(true, word::IMPORT, extern_name!(SIGNATURE_ROW)),
);

/// The export of a component type or an instance type: `"export" ename "(" sig ")"`.
pub const EXPORT_TYPE: &Rule<'static> = &DefOf(
    Row::ExportType,
    &Placed(true, word::EXPORT, extern_name!(SIGNATURE_ROW)),
);

/// `( "(" signn ")" )?`.
pub const OPTIONAL_SIGNATURE: &Rule<'static> = &Either(IS_OPENING, &Part(NAMELESS_ROW), ABSENT);

/// `export = "export" id? name? ename "(" eref ")" ( "(" signn ")" )?`; the description stands in front of the item.
pub const EXPORT: &Rule<'static> = &DefOf(
    Row::Export,
    &Wraps(
        Wrap::Swapped,
        &Placed(
            true,
            word::EXPORT,
            &Named(extern_name!(&Then(ITEM_GROUP, OPTIONAL_SIGNATURE))),
        ),
    ),
);

/// `( "(" export ")" )*`, each a definition.
pub const EXPORTS: &Rule<'static> = &Many(GOING, &Group(&Use(rule::Part::Export)));

/// An inline export is next, to its end.
pub const IS_INLINE_EXPORT: &Test<'static> = &inline_name!(word::EXPORT);

/// `iexp`, of which the text is kept.
pub const INLINE_EXPORT: &Rule<'static> = &Group(&Word(
    word::EXPORT,
    &Either(
        IS_STRING,
        &Alone(Step::Keep(Export)),
        &Group(&Word(word::INTERFACE, &Alone(Step::Keep(Export)))),
    ),
));

/// `iexp*`, then the rest.
macro_rules! inline_exports {
    ($rest:expr) => {
        &crate::rule::Rule::ManyBy(
            crate::types::IS_INLINE_EXPORT,
            crate::types::INLINE_EXPORT,
            $rest,
        )
    };
}

pub(crate) use inline_exports;

/// `iexp*`, and nothing behind them.
pub const INLINE_EXPORTS: &Rule<'static> = inline_exports!(&Rule::End);

/// An inline import is next, to its end.
pub const IS_INLINE_IMPORT: &Test<'static> = &inline_name!(word::IMPORT);

/// `iimp = "(" "import" ( text | "(" "interface" text ")" ) ")"`.
pub const INLINE_IMPORT: &Rule<'static> = &Group(&Word(
    word::IMPORT,
    &Alone(Step::Outside(Outside::PlainName)),
));

/// `iimp` and a description of this row as the import of a definition, where an inline import is next, or else the rest.
macro_rules! imported {
    ($row:expr, $description:expr, $rest:expr) => {
        &crate::rule::Rule::ByTest(
            crate::types::IS_INLINE_IMPORT,
            &crate::rule::Rule::Of(
                comp_model::Row::Import,
                &crate::rule::Rule::Then(
                    crate::types::INLINE_IMPORT,
                    &crate::rule::Rule::NodeOf($row, $description),
                ),
            ),
            $rest,
        )
    };
}

pub(crate) use imported;

/// The words behind `core` by which a declaration begins, and what it is.
pub static CORE_DECLARATION_WORDS: [u8; 2] = [word::TYPE, word::REC];

pub static CORE_DECLARATION_ROWS: [Rule<'static>; 2] = [
    Use(rule::Part::CoreType),
    Use(rule::Part::CoreRec),
];

/// The other words by which a declaration of the type of an instance begins, and what it is:
/// `"type" id? name? typedef`, `alias` and `"export" ename "(" sig ")"`.
pub static INSTANCE_DECLARATION_WORDS: [u8; 3] = [word::TYPE, word::ALIAS, word::EXPORT];

pub static INSTANCE_DECLARATION_ROWS: [Rule<'static>; 3] = [
    Use(rule::Part::TypeDeclaration),
    Use(rule::Part::Alias),
    Use(rule::Part::ExportedType),
];

/// The same for the type of a component, which has imports too.
pub static COMPONENT_DECLARATION_WORDS: [u8; 4] = [
    word::TYPE,
    word::ALIAS,
    word::EXPORT,
    word::IMPORT,
];

pub static COMPONENT_DECLARATION_ROWS: [Rule<'static>; 4] = [
    Use(rule::Part::TypeDeclaration),
    Use(rule::Part::Alias),
    Use(rule::Part::ExportedType),
    Use(rule::Part::Import),
];

/// What stands in the parentheses of `tdecl | "(" import ")"`, by its name.
pub const COMPONENT_DECLARATION: &Rule<'static> = &Rule::Choice(rule::Choice::ComponentDeclaration);

/// What stands in the parentheses of `tdecl`, by its name.
pub const INSTANCE_DECLARATION: &Rule<'static> = &Rule::Choice(rule::Choice::InstanceDeclaration);

/// `tdecl | "(" import ")"`.
pub const COMPONENT_TYPE_ITEM: &Rule<'static> = &Group(COMPONENT_DECLARATION);

/// `tdecl`.
pub const INSTANCE_TYPE_ITEM: &Rule<'static> = &Group(INSTANCE_DECLARATION);
