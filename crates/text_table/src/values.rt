//! Value types and function types (Component Model, "Type Definitions").

use crate::forms::{
    ABSENT, COUNT, GOING, IS_ID, IS_NUMBER, IS_REFERENCE, IS_STRING, TEXT, lone_word,
};
use crate::rule::Keep::{CaseId, Text};
use crate::rule::Reach::Outward;
use crate::rule::Rule::{
    Adds, Alone, Also, Checked, Choice, Either, End, Entry, Group, Inline, Keep, List, Of, Part,
    Placed, Then, Word,
};
use crate::rule::{Add, RowName, Rule, Step, Test, Told};
use comp_model::{Row, Space};
use token_codes::numbers as word;

/// `prim` is next.
pub const IS_PRIM: &Test<'static> = &Test::Range(word::BOOL, word::ERROR_CONTEXT);

/// A value type that isn't a reference is next.
pub const IS_DEFINED: &Test<'static> = &Test::Or(
    IS_PRIM,
    &Test::GroupRange(word::RECORD, word::FUTURE),
);

/// `val` is next.
pub const IS_VAL: &Test<'static> = &Test::Or(IS_REFERENCE, IS_DEFINED);

/// `async` is next.
pub const IS_ASYNC: &Test<'static> = &Test::Next(word::ASYNC);

/// `idx`, of a type.
pub const TYPE_INDEX: &Rule<'static> = &Alone(Step::Reference(Space::Ty, Outward));

/// `prim = "bool" | "s8" | "u8" | .. | "error-context"`.
pub const PRIM: &Rule<'static> = &Alone(Step::Told(Told::Primitive));

/// `val = idx | prim | "(" ! nonprim ")"`, by its name.
pub const VAL: &Rule<'static> = &Rule::Row(RowName::Val);

/// `val?`.
pub const OPTIONAL_VAL: &Rule<'static> = &Either(IS_VAL, &Part(VAL), ABSENT);

/// `"field" text val`.
pub const RECORD_FIELD: &Rule<'static> = &Word(word::FIELD, &Keep(Text, VAL));

/// `record = "record" ( "(" "field" text val ")" )*`.
pub const RECORD: &Rule<'static> = &Word(
    word::RECORD,
    &List(GOING, &Group(&Entry(Row::NamedType, RECORD_FIELD))),
);

/// `id?` of a case, which is looked for nowhere.
pub const CASE_ID: &Rule<'static> = &Either(
    IS_ID,
    &Alone(Step::Keep(CaseId)),
    &Adds(Add::NoCaseId),
);

/// `"case" id? text val?`.
pub const VARIANT_CASE: &Rule<'static> = &Placed(
    false,
    word::CASE,
    &Then(CASE_ID, &Keep(Text, OPTIONAL_VAL)),
);

/// `variant = "variant" ( "(" "case" id? text val? ")" )*`.
pub const VARIANT: &Rule<'static> = &Word(
    word::VARIANT,
    &List(GOING, &Group(&Entry(Row::CaseType, VARIANT_CASE))),
);

/// `num?` behind the element of a list, with the row of the list.
pub const LIST_LENGTH: &Rule<'static> = &Either(
    IS_NUMBER,
    &Of(Row::FixedLengthListType, COUNT),
    &Of(Row::ListType, &End),
);

/// `map = "map" val val`.
pub const MAP: &Rule<'static> = &Word(word::MAP, &Then(VAL, VAL));

/// `tuple = "tuple" val*`.
pub const TUPLE: &Rule<'static> = &Word(word::TUPLE, &List(GOING, &Entry(Row::LoneType, VAL)));

/// `text*`.
pub const TEXTS: &Rule<'static> = &List(GOING, &Entry(Row::LoneName, TEXT));

/// `flags = "flags" text*`.
pub const FLAGS: &Rule<'static> = &Word(word::FLAGS, TEXTS);

/// `enum = "enum" text*`.
pub const ENUM: &Rule<'static> = &Word(word::ENUM, TEXTS);

/// `option = "option" val`.
pub const OPTION: &Rule<'static> = &Word(word::OPTION, VAL);

/// `( "(" "error" val ")" )?`.
pub const OPTIONAL_ERROR: &Rule<'static> = &Either(
    &Test::Group(word::ERROR),
    &Part(&Group(&Word(word::ERROR, VAL))),
    ABSENT,
);

/// `result = "result" val? ( "(" "error" val ")" )?`.
pub const RESULT: &Rule<'static> = &Word(word::RESULT, &Then(OPTIONAL_VAL, OPTIONAL_ERROR));

/// `stream = "stream" val?`.
pub const STREAM: &Rule<'static> = &Word(word::STREAM, OPTIONAL_VAL);

/// `future = "future" val?`.
pub const FUTURE: &Rule<'static> = &Word(word::FUTURE, OPTIONAL_VAL);

/// `nonprim = record | variant | list | .. | future`, in the order of their words' numbers.
pub static NONPRIM_ROWS: [Rule<'static>; 13] = [
    Of(Row::RecordType, RECORD),
    Of(Row::VariantType, VARIANT),
    Word(word::LIST, &Then(VAL, LIST_LENGTH)),
    Of(Row::MapType, MAP),
    Of(Row::TupleType, TUPLE),
    Of(Row::FlagsType, FLAGS),
    Of(Row::EnumType, ENUM),
    Of(Row::OptionType, OPTION),
    Of(Row::ResultType, RESULT),
    Of(Row::OwnType, &Word(word::OWN, TYPE_INDEX)),
    Of(Row::BorrowType, &Word(word::BORROW, TYPE_INDEX)),
    Of(Row::StreamType, STREAM),
    Of(Row::FutureType, FUTURE),
];

/// `nonprim`, by its name.
pub const NONPRIM: &Rule<'static> = &Choice(crate::rule::Choice::NonPrim);

/// `prim | "(" ! nonprim ")"`.
pub const INLINE_VAL: &Rule<'static> = &Either(
    IS_PRIM,
    PRIM,
    &Inline(Space::Ty, &Group(&Checked(NONPRIM))),
);

/// `val = idx | prim | "(" ! nonprim ")"`.
pub const VAL_RULE: &Rule<'static> = &Either(IS_REFERENCE, TYPE_INDEX, INLINE_VAL);

/// `( "(" "result" val ")" )?`.
pub const OPTIONAL_RESULT: &Rule<'static> = &Either(
    &Test::Group(word::RESULT),
    &Part(&Group(&Word(word::RESULT, VAL))),
    ABSENT,
);

/// `"async"?`.
pub const OPTIONAL_ASYNC: &Rule<'static> = &Either(
    IS_ASYNC,
    &Also(lone_word!(word::ASYNC), Add::Number(1)),
    &Adds(Add::Number(0)),
);

/// `"param" text val`.
pub const FUNCTION_PARAM: &Rule<'static> = &Word(word::PARAM, &Keep(Text, VAL));

/// `( "(" "param" text val ")" )*`.
pub const PARAMS: &Rule<'static> = &List(
    &Test::Group(word::PARAM),
    &Group(&Entry(Row::NamedType, FUNCTION_PARAM)),
);

/// `"result" text? val`, which stands in no other row.
pub const FUNCTION_RESULT: &Rule<'static> = &Word(
    word::RESULT,
    &Then(&Either(IS_STRING, &Part(TEXT), ABSENT), VAL),
);

/// `fty = "async"? ( "(" "param" text val ")" )* ( "(" "result" val ")" )?`.
pub const FUNCTION: &Rule<'static> = &Then(OPTIONAL_ASYNC, &Then(PARAMS, OPTIONAL_RESULT));
