//! The fields of a component, and a whole text (Component Model, "Component Definitions", "Start Definitions"; WebAssembly text format, "Modules"
//! and "Custom Annotations").

use crate::canons::FUNC;
use crate::forms::{GOING, PART_ID, first_words};
use crate::instances::INSTANCE;
use crate::references::item_path;
use crate::rule;
use crate::rule::Keep::{Bytes, Text};
use crate::rule::Reach::Outward;
use crate::rule::Rule::{
    Alone, Checked, Closes, Def, DefOf, Either, Entry, Group, Keep, List, Many, Named, Of, Placed,
    Reference, Scope, Then, Told, Use, Word, Wraps,
};
use crate::rule::{Outside, RowName, Rule, Step, Test, Wrap};
use crate::types::{ALIAS, COMPONENT_USE, EXPORT, IMPORT, MODULE_USE, imported, inline_exports};
use comp_model::{Row, ScopeKind, Space};
use token_codes::numbers as word;

/// `"core" "module" id? name? iexp* ( iimp cuse(mty) | cfield* )`.
pub const CORE_MODULE: &Rule<'static> = &Def(first_words!(
    word::CORE,
    word::MODULE,
    &Named(inline_exports!(imported!(
        Row::ModuleDescription,
        MODULE_USE,
        &Of(Row::CoreModule, CORE_FIELDS)
    )))
));

/// `cfield*`.
const CORE_FIELDS: &Rule<'static> = &Alone(Step::Outside(Outside::CoreFields));

/// `field*`, as the scope of a component.
pub const COMPONENT_ITEMS: &Rule<'static> = &Scope(
    ScopeKind::Component,
    &Many(GOING, &Rule::Row(RowName::ComponentItem)),
);

/// `"component" id? name? iexp* ( iimp use(cty) | field* )`.
pub const INNER_COMPONENT: &Rule<'static> = &Def(&Placed(
    true,
    word::COMPONENT,
    &Named(inline_exports!(imported!(
        Row::ComponentDescription,
        COMPONENT_USE,
        &Of(Row::Component, COMPONENT_ITEMS)
    ))),
));

/// `"type" id? name? iexp* typedef`.
pub const TYPE: &Rule<'static> = &Def(&Placed(
    true,
    word::TYPE,
    &Named(inline_exports!(&Rule::Row(RowName::TypeDefinition))),
));

/// `( "(" "value" idx text* ")" )*`.
pub const START_ARGUMENTS: &Rule<'static> = &List(
    &Test::Group(word::VALUE),
    &Group(&Entry(
        Row::StartArgument,
        &Word(word::VALUE, item_path!(Space::Value)),
    )),
);

/// `( "(" "result" "(" "value" id? ")" ")" )*`.
pub const START_RESULTS: &Rule<'static> = &Wraps(
    Wrap::Results,
    &Many(
        GOING,
        &Group(&Word(word::RESULT, &Group(&Word(word::VALUE, PART_ID)))),
    ),
);

/// `"start" idx ( "(" "value" idx text* ")" )* ( "(" "result" "(" "value" id? ")" ")" )*`.
pub const START: &Rule<'static> = &DefOf(
    Row::Start,
    &Placed(
        true,
        word::START,
        &Reference(Space::Func, Outward, &Then(START_ARGUMENTS, START_RESULTS)),
    ),
);

/// `string*`, as one text (WebAssembly text format, Strings).
pub const PAYLOAD: &Rule<'static> = &Wraps(
    Wrap::Joined,
    &Many(
        GOING,
        &Either(
            &Test::Next(word::TEXT),
            &Alone(Step::Keep(Text)),
            &Alone(Step::Keep(Bytes)),
        ),
    ),
);

/// A row from its annotation on, and what stands behind that.
macro_rules! noted {
    ($row:ident, $word:ident, $rest:expr) => {
        &DefOf(Row::$row, &Placed(true, word::$word, $rest))
    };
}

/// `text string*` (WebAssembly text format, Custom Annotations).
pub const CUSTOM_PARTS: &Rule<'static> = &Keep(Text, PAYLOAD);

/// `"(@custom" text string* ")"`, whose group the annotation opens itself (WebAssembly text format, Custom Annotations).
pub const CUSTOM: &Rule<'static> = noted!(Custom, CUSTOM, &Closes(CUSTOM_PARTS));

/// The same up to what closes its group.
pub const CUSTOM_CONTENTS: &Rule<'static> = noted!(Custom, CUSTOM, CUSTOM_PARTS);

/// `"(" ( "language" | "sdk" | "processed-by" ) text text ")"`.
pub const PRODUCER: &Rule<'static> = &Group(&Entry(
    Row::Producer,
    &Told(
        crate::rule::Told::Producer,
        &Keep(Text, &Alone(Step::Keep(Text))),
    ),
));

/// `( "(" ( "language" | "sdk" | "processed-by" ) text text ")" )*` (WebAssembly tool conventions, Producers Section).
pub const PRODUCERS_PARTS: &Rule<'static> = &Wraps(Wrap::ByNumber(3), &Many(GOING, PRODUCER));

/// `"(@producers" ( "(" ( "language" | "sdk" | "processed-by" ) text text ")" )* ")"` (WebAssembly tool conventions, Producers Section).
pub const PRODUCERS: &Rule<'static> = noted!(Producers, PRODUCERS, &Closes(PRODUCERS_PARTS));

/// The same up to what closes its group.
pub const PRODUCERS_CONTENTS: &Rule<'static> = noted!(Producers, PRODUCERS, PRODUCERS_PARTS);

/// The words behind `core` by which a field begins, and what it is.
pub static CORE_FIELD_WORDS: [u8; 5] = [
    word::MODULE,
    word::INSTANCE,
    word::TYPE,
    word::REC,
    word::FUNC,
];

pub static CORE_FIELD_ROWS: [Rule<'static>; 5] = [
    Checked(&Use(rule::Part::CoreModule)),
    Use(rule::Part::CoreInstance),
    Use(rule::Part::CoreType),
    Use(rule::Part::CoreRec),
    Rule::Row(RowName::CoreFunc),
];

/// The other words by which a field begins, and what it is.
pub static FIELD_WORDS: [u8; 9] = [
    word::COMPONENT,
    word::INSTANCE,
    word::ALIAS,
    word::TYPE,
    word::FUNC,
    word::IMPORT,
    word::EXPORT,
    word::START,
    word::CANON,
];

pub static FIELD_ROWS: [Rule<'static>; 9] = [
    Checked(&Use(rule::Part::InnerComponent)),
    Use(rule::Part::Instance),
    Use(rule::Part::Alias),
    Use(rule::Part::Type),
    Use(rule::Part::Func),
    Use(rule::Part::Import),
    Use(rule::Part::Export),
    Use(rule::Part::Start),
    Rule::Row(RowName::Canon),
];

/// `field`, in its parentheses, by its name.
pub const FIELD_IN_GROUP: &Rule<'static> = &Rule::Choice(rule::Choice::Field);

/// `field` (Component Definitions).
pub const COMPONENT_ITEM: &Rule<'static> = &Either(
    &Test::Next(word::CUSTOM),
    &Use(rule::Part::Custom),
    &Either(
        &Test::Next(word::PRODUCERS),
        &Use(rule::Part::Producers),
        &Group(FIELD_IN_GROUP),
    ),
);

/// `field`, without what opens its group, if that isn't its annotation, and without what closes it.
pub const FIELD_CONTENTS: &Rule<'static> = &Either(
    &Test::Next(word::CUSTOM),
    CUSTOM_CONTENTS,
    &Either(
        &Test::Next(word::PRODUCERS),
        PRODUCERS_CONTENTS,
        FIELD_IN_GROUP,
    ),
);

/// `"binary" string*`, or the rest.
macro_rules! binary_or {
    ($rest:expr) => {
        &Named(&Either(
            &Test::Next(word::BINARY),
            &Word(word::BINARY, PAYLOAD),
            $rest,
        ))
    };
}

/// `"component" id? name? ( field* | "binary" string* )`.
pub const WHOLE_COMPONENT: &Rule<'static> = &DefOf(
    Row::Component,
    &Placed(true, word::COMPONENT, binary_or!(COMPONENT_ITEMS)),
);

/// `"module" id? name? ( cfield* | "binary" string* )`.
pub const WHOLE_MODULE: &Rule<'static> = &DefOf(
    Row::CoreModule,
    &Placed(true, word::MODULE, binary_or!(CORE_FIELDS)),
);

/// `wat = "(" "component" .. ")" | "(" "module" .. ")" | cfield cfield*`.
pub const WHOLE_TEXT: &Rule<'static> = &Either(
    &Test::Group(word::COMPONENT),
    &Group(WHOLE_COMPONENT),
    &Either(
        &Test::Group(word::MODULE),
        &Group(WHOLE_MODULE),
        &DefOf(
            Row::CoreModule,
            &Alone(Step::Outside(Outside::SomeCoreFields)),
        ),
    ),
);
