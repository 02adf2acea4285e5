//! Instances and core instances (Component Model, "Instance Definitions").

use crate::forms::{GOING, IS_OPENING, OPTIONAL_ID, OPTIONAL_NAME, first_words};
use crate::references::{CORE_ITEM, ITEM_GROUP, core_path, index_or_item};
use crate::rule::Keep::Text;
use crate::rule::Rule::{
    Bundle, ByTest, Def, Either, End, Entry, Group, Keep, List, Named, Of, Placed, Then, Word,
    Wraps,
};
use crate::rule::{Rule, Test, Wrap};
use crate::types::{INSTANCE_USE, NAMELESS_ROW, extern_name, imported, inline_exports};
use comp_model::{Row, Space};
use token_codes::numbers as word;

/// An index with `)` or a string behind it is next.
pub const IS_INDEX_ALONE: &Test<'static> = &Test::Form(
    &[word::ID, word::NUMERAL, word::WIDE],
    &[word::CLOSING, word::TEXT, word::BYTES],
    &[],
);

/// An index stands behind the words of `ekind`.
pub const IS_ITEM: &Test<'static> = &Test::Or(
    &Test::Form(
        &[word::OPENING],
        &[
            word::FUNC,
            word::VALUE,
            word::TYPE,
            word::COMPONENT,
            word::INSTANCE,
        ],
        &[&[word::ID, word::NUMERAL, word::WIDE]],
    ),
    &Test::Form(
        &[word::OPENING],
        &[word::CORE],
        &[&[word::MODULE], &[word::ID, word::NUMERAL, word::WIDE]],
    ),
);

/// `instantiate` is next in a group.
pub const IS_INSTANTIATE: &Test<'static> = &Test::Group(word::INSTANTIATE);

/// `cbexp = "(" "export" text "(" ckind idx text? ")" ")"`, in its parentheses.
pub const CORE_EXPORT: &Rule<'static> = &Word(word::EXPORT, &Keep(Text, &Group(CORE_ITEM)));

/// `cbexp*`.
pub const CORE_EXPORTS: &Rule<'static> = &List(
    GOING,
    &Group(&Entry(Row::CoreBundleExport, CORE_EXPORT)),
);

/// `"(" "instance" idx text? ")" | "(" "instance" cbexp* ")"`.
pub const CORE_ARGUMENT_KIND: &Rule<'static> = &Group(&Word(
    word::INSTANCE,
    &ByTest(
        IS_INDEX_ALONE,
        core_path!(Space::CoreInstance),
        &Bundle(Space::CoreInstance, Row::CoreBundle, CORE_EXPORTS),
    ),
));

/// `carg = "(" "with" text ( "(" "instance" idx text? ")" | "(" "instance" cbexp* ")" ) ")"`, in its parentheses.
pub const CORE_ARGUMENT: &Rule<'static> = &Word(word::WITH, &Keep(Text, CORE_ARGUMENT_KIND));

/// `carg*`.
pub const CORE_ARGUMENTS: &Rule<'static> = &List(
    GOING,
    &Group(&Entry(Row::CoreArgument, CORE_ARGUMENT)),
);

/// `"(" "instantiate" ior("module") carg* ")"`.
pub const CORE_INSTANTIATE: &Rule<'static> = &Of(
    Row::CoreInstantiate,
    &Group(&Word(
        word::INSTANTIATE,
        &Then(
            index_or_item!(word::MODULE, Space::CoreModule),
            CORE_ARGUMENTS,
        ),
    )),
);

/// `"(" "instantiate" ior("module") carg* ")" | cbexp*`.
pub const CORE_INSTANCE_KIND: &Rule<'static> = &Either(
    IS_INSTANTIATE,
    CORE_INSTANTIATE,
    &Of(Row::CoreBundle, CORE_EXPORTS),
);

/// `"core" "instance" id? name? ( "(" "instantiate" ior("module") carg* ")" | cbexp* )`.
pub const CORE_INSTANCE: &Rule<'static> = &Def(first_words!(
    word::CORE,
    word::INSTANCE,
    &Named(CORE_INSTANCE_KIND)
));

/// `export`, of which the item alone is kept behind the name.
pub const BUNDLE_EXPORT: &Rule<'static> = &Entry(
    Row::BundleExport,
    &Word(
        word::EXPORT,
        &Then(
            &Wraps(Wrap::Dropped, OPTIONAL_ID),
            &Then(
                &Wraps(Wrap::Dropped, OPTIONAL_NAME),
                extern_name!(&Then(
                    ITEM_GROUP,
                    &Wraps(Wrap::Dropped, &Either(IS_OPENING, NAMELESS_ROW, &End)),
                )),
            ),
        ),
    ),
);

/// `( "(" export ")" )*`.
pub const BUNDLE_ITEMS: &Rule<'static> = &List(GOING, &Group(BUNDLE_EXPORT));

/// `eref | "(" "instance" export* ")"`.
pub const ARGUMENT_KIND: &Rule<'static> = &ByTest(
    IS_ITEM,
    ITEM_GROUP,
    &Group(&Word(
        word::INSTANCE,
        &Bundle(Space::Instance, Row::Bundle, BUNDLE_ITEMS),
    )),
);

/// `arg = "(" "with" text ( eref | "(" "instance" export* ")" ) ")"`, in its parentheses.
pub const ARGUMENT: &Rule<'static> = &Word(word::WITH, &Keep(Text, ARGUMENT_KIND));

/// `arg*`.
pub const ARGUMENTS: &Rule<'static> = &List(GOING, &Group(&Entry(Row::Argument, ARGUMENT)));

/// `"(" "instantiate" ior("component") arg* ")"`.
pub const INSTANTIATE: &Rule<'static> = &Of(
    Row::Instantiate,
    &Group(&Word(
        word::INSTANTIATE,
        &Then(index_or_item!(word::COMPONENT, Space::Component), ARGUMENTS),
    )),
);

/// `iimp use(ity) | "(" "instantiate" ior("component") arg* ")" | export*`.
pub const INSTANCE_KIND: &Rule<'static> = imported!(
    Row::InstanceDescription,
    INSTANCE_USE,
    &Either(IS_INSTANTIATE, INSTANTIATE, &Of(Row::Bundle, BUNDLE_ITEMS))
);

/// `"instance" id? name? iexp* ( iimp use(ity) | "(" "instantiate" ior("component") arg* ")" | export* )`.
pub const INSTANCE: &Rule<'static> = &Def(&Placed(
    true,
    word::INSTANCE,
    &Named(inline_exports!(INSTANCE_KIND)),
));
