//! Value types, function types and their parts as each is read alone (Component Model, "Type Definitions").

ghost use Rattle.std.specs.Prelude.{◌≡◌};
ghost use Rattle.text_table.specs.Code.{rule_of};
ghost use Rattle.text_parts.specs.ReadAlone.{value_part};

use text_table::rule::Rule;
use text_table::values::{
    ENUM, FLAGS, FUNCTION, FUNCTION_PARAM, FUNCTION_RESULT, FUTURE, INLINE_VAL, MAP, OPTION, PRIM,
    RECORD, RECORD_FIELD, RESULT, STREAM, TUPLE, VARIANT, VARIANT_CASE,
};

/// What is read alone of value types and function types.
#[derive(Clone, Copy)]
pub enum ValuePart {
    /// `prim`.
    Primitive,
    /// A value type that is written where it is needed: `prim | "(" ! nonprim ")"`.
    Inline,
    /// `record`, from its word on.
    Record,
    /// A field of a record, in its parentheses.
    RecordField,
    /// `variant`, from its word on.
    Variant,
    /// A case of a variant, in its parentheses.
    VariantCase,
    /// `map`, from its word on.
    Map,
    /// `tuple`, from its word on.
    Tuple,
    /// `flags`, from its word on.
    Flags,
    /// `enum`, from its word on.
    Enumeration,
    /// `option`, from its word on.
    Optional,
    /// `result`, from its word on.
    ResultOf,
    /// `stream`, from its word on.
    Stream,
    /// `future`, from its word on.
    Future,
    /// `fty`, the type of a function.
    Function,
    /// A parameter of a function, in its parentheses.
    FunctionParam,
    /// The result of a function, which may have a name, in its parentheses.
    FunctionResult,
}

/// The rule of a part.
pub fn value_rule(part: ValuePart) -> &'static Rule<'static>
    ensures { rule_of result.now ≡ value_part part }
{
    match part {
        ValuePart::Primitive => PRIM,
        ValuePart::Inline => INLINE_VAL,
        ValuePart::Record => RECORD,
        ValuePart::RecordField => RECORD_FIELD,
        ValuePart::Variant => VARIANT,
        ValuePart::VariantCase => VARIANT_CASE,
        ValuePart::Map => MAP,
        ValuePart::Tuple => TUPLE,
        ValuePart::Flags => FLAGS,
        ValuePart::Enumeration => ENUM,
        ValuePart::Optional => OPTION,
        ValuePart::ResultOf => RESULT,
        ValuePart::Stream => STREAM,
        ValuePart::Future => FUTURE,
        ValuePart::Function => FUNCTION,
        ValuePart::FunctionParam => FUNCTION_PARAM,
        ValuePart::FunctionResult => FUNCTION_RESULT,
    }
}
