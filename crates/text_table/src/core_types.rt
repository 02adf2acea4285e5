//! Core types and the types of core modules (WebAssembly text format, "Types" and "Imports"; Component Model, "Type Definitions").

use crate::forms::{
    ABSENT, COUNT, GOING, IS_ID, IS_NAME, IS_NUMBER, IS_REFERENCE, LABEL, NAMES, OPTIONAL_NAME,
    PART_ID, PART_NAME, cases, first_words, lone_word,
};
use crate::rule;
use crate::rule::Keep::{Count, Text};
use crate::rule::Reach::{Outward, Own};
use crate::rule::Rule::{
    Alone, Also, ByTest, Checked, Def, DefOf, Either, End, Entry, Group, InlineOf, Keep, List,
    Many, Marks, Named, Node, Of, Part, Placed, Reference, Scope, Skipping, Then, Use, Word, Wraps,
};
use crate::rule::{Add, CoreType, Ending, RowName, Rule, Silent, Step, Test, Wrap};
use comp_model::{Row, ScopeKind, Space};
use token_codes::numbers as word;

/// A word that spells a value type.
macro_rules! value_word {
    ($value:expr, $word:expr) => {
        &crate::rule::Rule::Also(lone_word!($word), crate::rule::Add::CoreValue($value))
    };
}

/// `"func" | "extern" | idx` (Heap Types).
macro_rules! heap_type {
    ($reach:expr, $nullable:expr) => {
        &Either(
            IS_REFERENCE,
            &Wraps(Wrap::Heap($nullable), &Alone(Step::Reference(Space::CoreType, $reach))),
            &Either(
                &Test::Next(word::FUNC),
                value_word!(CoreType::RefFunc($nullable), word::FUNC),
                value_word!(CoreType::RefExtern($nullable), word::EXTERN),
            ),
        )
    };
}

/// `rtype = "funcref" | "externref" | "(" "ref" "null"? ( "func" | "extern" | idx ) ")"` (Reference Types).
macro_rules! reference_type {
    ($reach:expr) => {
        &Either(
            &Test::Next(word::FUNCREF),
            value_word!(CoreType::RefFunc(true), word::FUNCREF),
            &Either(
                &Test::Next(word::EXTERNREF),
                value_word!(CoreType::RefExtern(true), word::EXTERNREF),
                &Group(&Word(
                    word::REF,
                    &Either(
                        &Test::Next(word::NULL),
                        &Word(word::NULL, heap_type!($reach, true)),
                        heap_type!($reach, false),
                    ),
                )),
            ),
        )
    };
}

/// `cval = "i32" | "i64" | "f32" | "f64" | "v128" | rtype` (Value Types).
macro_rules! core_value {
    ($reach:expr) => {
        &Either(
            IS_NUMBER_TYPE,
            NUMBER_TYPE,
            &ByTest(
                IS_REFERENCE_TYPE,
                reference_type!($reach),
                &Also(OTHER_REFERENCE, Add::CoreValue(CoreType::Other)),
            ),
        )
    };
}

/// A number type or a vector type is next.
pub const IS_NUMBER_TYPE: &Test<'static> = &Test::Among(&[
    word::I32,
    word::I64,
    word::F32,
    word::F64,
    word::V128,
]);

/// `rtype` is next, with its closing parenthesis.
pub const IS_REFERENCE_TYPE: &Test<'static> = &Test::Or(
    &Test::Range(word::FUNCREF, word::EXTERNREF),
    &Test::Or(
        &Test::Form(
            &[word::OPENING],
            &[word::REF],
            &[HEAP_CLASSES, &[word::CLOSING]],
        ),
        &Test::Form(
            &[word::OPENING],
            &[word::REF],
            &[&[word::NULL], HEAP_CLASSES, &[word::CLOSING]],
        ),
    ),
);

/// The classes of heap types.
const HEAP_CLASSES: &[u8] = &[word::FUNC, word::EXTERN, word::ID, word::NUMERAL];

/// A core value type is next, be it written or not.
pub const IS_CORE_VALUE: &Test<'static> = &Test::Or(
    IS_NUMBER_TYPE,
    &Test::Or(&Test::Ending(Ending::Reference), &Test::Group(word::REF)),
);

/// A reference type that is read and never written: its word, or another group of `ref`, of which nothing is kept (Reference Types).
pub const OTHER_REFERENCE: &Rule<'static> = &Either(
    &Test::Ending(Ending::OtherReference),
    &Alone(Step::Silent(Silent::OtherReference)),
    &Group(&Skipping(lone_word!(word::REF))),
);

/// `"i32" | "i64" | "f32" | "f64" | "v128"` (Number Types, Vector Types).
pub const NUMBER_TYPE: &Rule<'static> = cases! {
    &Test::Next(word::I32) => value_word!(CoreType::I32, word::I32),
    &Test::Next(word::I64) => value_word!(CoreType::I64, word::I64),
    &Test::Next(word::F32) => value_word!(CoreType::F32, word::F32),
    &Test::Next(word::F64) => value_word!(CoreType::F64, word::F64),
    &Test::Next(word::V128) => value_word!(CoreType::V128, word::V128),
};

/// `cval`, whose names are looked for in their own scope alone (Value Types).
pub const CORE_VALUE_RULE: &Rule<'static> = core_value!(Own);

/// `cval`, whose names are looked for outward (Value Types).
pub const OUTWARD_CORE_VALUE: &Rule<'static> = core_value!(Outward);

/// `cval`, by its name.
pub const CORE_VALUE: &Rule<'static> = &Rule::Row(RowName::CoreValue);

/// `cval` as an entry.
pub const VALUE_ENTRY: &Rule<'static> = &Entry(Row::CoreValueType, CORE_VALUE);

/// `param = "(" "param" ( ( id name? | name ) cval | cval* ) ")"`, behind its word; the id and the label aren't kept (Function Types).
pub const CORE_PARAM: &Rule<'static> = &Either(
    IS_ID,
    &Then(
        &Wraps(Wrap::Dropped, &Keep(crate::rule::Keep::Id, OPTIONAL_NAME)),
        VALUE_ENTRY,
    ),
    &Either(
        IS_NAME,
        &Then(&Wraps(Wrap::Dropped, LABEL), VALUE_ENTRY),
        &Many(IS_CORE_VALUE, VALUE_ENTRY),
    ),
);

/// `result = "(" "result" cval* ")"`, behind its word (Function Types).
pub const CORE_RESULT: &Rule<'static> = &Many(IS_CORE_VALUE, VALUE_ENTRY);

/// `param* result*` (Function Types).
pub const CORE_FUNCTION: &Rule<'static> = &Then(
    &List(
        &Test::Group(word::PARAM),
        &Group(&Word(word::PARAM, CORE_PARAM)),
    ),
    &List(
        &Test::Group(word::RESULT),
        &Group(&Word(word::RESULT, CORE_RESULT)),
    ),
);

/// `ctdef = "func" param* result*` (Composite Types).
pub const CORE_TYPE_DEFINITION: &Rule<'static> = &Either(
    &Test::Next(word::FUNC),
    &Of(
        Row::CoreFunctionType,
        &Word(word::FUNC, &Use(rule::Part::CoreFunction)),
    ),
    &Of(
        Row::OtherCoreType,
        &Skipping(&Alone(Step::Silent(Silent::OtherType))),
    ),
);

/// `"(" ctdef ")"` (Composite Types).
pub const CORE_TYPE_GROUP: &Rule<'static> = &Group(CORE_TYPE_DEFINITION);

/// `"(" ctdef ")"`, by its name.
pub const CORE_TYPE_ROW: &Rule<'static> = &Rule::Row(RowName::CoreTypeDefinition);

/// `( "(" "type" id? name? "(" ctdef ")" ")" )*` (Recursive Types).
pub const CORE_TYPES: &Rule<'static> = &List(
    GOING,
    &Group(&Word(
        word::TYPE,
        &Then(
            PART_ID,
            &Then(PART_NAME, &Wraps(Wrap::Entry, CORE_TYPE_ROW)),
        ),
    )),
);

/// `tuse = ( "(" "type" idx ")" )? param* result*`; behind an index parameters and results aren't kept (Type Uses).
pub const CORE_USE: &Rule<'static> = &Either(
    &Test::Group(word::TYPE),
    &Then(
        &Group(&Word(word::TYPE, CORE_INDEX)),
        &Wraps(Wrap::Dropped, &Use(rule::Part::CoreFunction)),
    ),
    &InlineOf(
        Space::CoreType,
        Row::CoreFunctionType,
        &Use(rule::Part::CoreFunction),
    ),
);

/// `limits = num num?` (Limits).
pub const LIMITS: &Rule<'static> = &Keep(Count, &Either(IS_NUMBER, &Part(COUNT), ABSENT));

/// Limits that are read and never written.
pub const OTHER_LIMITS: &Rule<'static> = &Of(
    Row::OtherEntity,
    &Skipping(&Alone(Step::Silent(Silent::OtherLimits))),
);

/// `limits`, or what is read and never written (Memory Types).
pub const MEMORY_TYPE: &Rule<'static> = &Either(
    IS_NUMBER,
    &Then(
        LIMITS,
        &ByTest(
            &Test::Range(word::FINISH, word::CLOSING),
            &Of(Row::MemoryEntity, &End),
            OTHER_LIMITS,
        ),
    ),
    OTHER_LIMITS,
);

/// The element of a table that is read and never written (Table Types).
pub const OTHER_ELEMENT: &Rule<'static> = &Of(
    Row::OtherEntity,
    &Skipping(&Either(
        &Test::Among(&[word::I64, word::SHARED]),
        &Alone(Step::Silent(Silent::OtherLimits)),
        OTHER_REFERENCE,
    )),
);

/// `limits rtype`, or what is read and never written; the limits stand behind the type (Table Types).
pub const TABLE_TYPE: &Rule<'static> = &Either(
    IS_NUMBER,
    &Wraps(
        Wrap::LastFirst,
        &Then(
            LIMITS,
            &ByTest(
                IS_REFERENCE_TYPE,
                &Of(Row::TableEntity, reference_type!(Own)),
                OTHER_ELEMENT,
            ),
        ),
    ),
    OTHER_LIMITS,
);

/// `gtype = cval | "(" "mut" cval ")"` (Global Types).
pub const GLOBAL_TYPE: &Rule<'static> = &Of(
    Row::GlobalEntity,
    &Either(
        &Test::Group(word::MUT),
        &Also(&Group(&Word(word::MUT, CORE_VALUE)), Add::Number(1)),
        &Also(CORE_VALUE, Add::Number(0)),
    ),
);

/// An item of a module type, whose names aren't kept.
macro_rules! unnamed {
    ($rest:expr) => {
        &Then(&Wraps(Wrap::Dropped, NAMES), $rest)
    };
}

/// `csig = "func" id? name? tuse | "table" id? name? limits rtype | "memory" id? name? limits | "global" id? name? gtype`, or `"tag" ..` (Imports).
pub const CORE_SIGNATURES: &Rule<'static> = cases! {
    &Test::Next(word::FUNC) => &Of(Row::FuncEntity, &Word(word::FUNC, unnamed!(CORE_USE))),
    &Test::Next(word::TABLE) => &Word(word::TABLE, unnamed!(TABLE_TYPE)),
    &Test::Next(word::MEMORY) => &Word(word::MEMORY, unnamed!(MEMORY_TYPE)),
    &Test::Next(word::GLOBAL) => &Word(word::GLOBAL, unnamed!(GLOBAL_TYPE)),
    &Test::Next(word::TAG) => &Of(Row::OtherEntity, &Skipping(lone_word!(word::TAG))),
};

/// `csig` as a leaf; what is read and never written has no parts (Imports).
pub const CORE_SIGNATURE: &Rule<'static> = &Node(&Wraps(Wrap::OtherAlone, CORE_SIGNATURES));

/// `idx`, of a core type that is looked for in its own scope alone (Index Spaces).
pub const CORE_INDEX: &Rule<'static> = &Alone(Step::Reference(Space::CoreType, Own));

/// `"alias" "outer" idx idx "(" "type" id? name? ")"` (Component Model, Type Definitions).
pub const MODULE_TYPE_ALIAS: &Rule<'static> = &Def(&Wraps(
    Wrap::Outer,
    &Placed(
        true,
        word::ALIAS,
        &Word(
            word::OUTER,
            &Reference(
                Space::CoreType,
                Own,
                &Reference(
                    Space::CoreType,
                    Own,
                    &Group(&Word(
                        word::TYPE,
                        &Also(&Of(Row::AliasOuter, NAMES), Add::Kind(Space::CoreType)),
                    )),
                ),
            ),
        ),
    ),
));

/// `"import" text text "(" csig ")"` (Component Model, Type Definitions).
pub const MODULE_IMPORT: &Rule<'static> = &DefOf(
    Row::ModuleImport,
    &Placed(
        true,
        word::IMPORT,
        &Keep(Text, &Keep(Text, &Group(&Use(rule::Part::CoreSignature)))),
    ),
);

/// `"export" text "(" csig ")"`, with the offset of its signature (Component Model, Type Definitions).
pub const MODULE_EXPORT: &Rule<'static> = &DefOf(
    Row::ModuleExport,
    &Word(
        word::EXPORT,
        &Keep(Text, &Group(&Marks(&Use(rule::Part::CoreSignature)))),
    ),
);

/// `mdecl = "(" "type" id? name? "(" ctdef ")" ")" | "(" "rec" .. ")" | "(" alias ")" | "(" "import" .. ")" | "(" "export" .. ")"`, in its
/// parentheses (Component Model, Type Definitions).
pub const MODULE_DECLARATION: &Rule<'static> = cases! {
    &Test::Next(word::TYPE) => &Def(&Placed(true, word::TYPE, &Named(CORE_TYPE_ROW))),
    &Test::Next(word::REC) => &DefOf(Row::CoreRec, &Placed(true, word::REC, CORE_TYPES)),
    &Test::Next(word::ALIAS) => MODULE_TYPE_ALIAS,
    &Test::Next(word::IMPORT) => MODULE_IMPORT,
    &Test::Next(word::EXPORT) => MODULE_EXPORT,
};

/// `mdecl` (Component Model, Type Definitions).
pub const MODULE_TYPE_ITEM: &Rule<'static> = &Group(MODULE_DECLARATION);

/// `mdecl*` (Component Model, Type Definitions).
pub const MODULE_DECLARATIONS: &Rule<'static> = &Many(GOING, &Rule::Row(RowName::ModuleTypeItem));

/// `mty = ! mdecl*` (Component Model, Type Definitions).
pub const MODULE_TYPE_ITEMS: &Rule<'static> = &Scope(
    ScopeKind::ModuleType,
    &Checked(MODULE_DECLARATIONS),
);

/// `mty`, with the row of a module type (Component Model, Type Definitions).
pub const MODULE_TYPE: &Rule<'static> = &Of(Row::ModuleType, MODULE_TYPE_ITEMS);

/// `"module" mty | ctdef` (Component Model, Type Definitions).
pub const CORE_OR_MODULE_TYPE: &Rule<'static> = &Either(
    &Test::Next(word::MODULE),
    &Word(word::MODULE, MODULE_TYPE),
    CORE_TYPE_DEFINITION,
);

/// `"core" "type" id? name? "(" ( "module" mty | ctdef ) ")"` (Component Model, Type Definitions).
pub const CORE_TYPE: &Rule<'static> = &Def(first_words!(
    word::CORE,
    word::TYPE,
    &Named(&Group(CORE_OR_MODULE_TYPE))
));

/// `"core" "rec" ( "(" "type" id? name? "(" ctdef ")" ")" )*` (Component Model, Type Definitions).
pub const CORE_REC: &Rule<'static> = &DefOf(
    Row::CoreRec,
    first_words!(word::CORE, word::REC, CORE_TYPES),
);
