//! The readers of parameters, function types, types and uses of types.

ghost use Rattle.std.specs.Prelude.{◌≡◌, ◌≤◌, IfOk, codes};
ghost use Rattle.wast_grammar.specs.Grammar.{holds, left, or_else, right};
ghost use Rattle.wast_grammar.specs.Read.{Gives, read};
ghost use Rattle.wast_grammar.specs.Rows.{is_group};
ghost use Rattle.wast_parser.specs.View.{option_view, reference_view};
ghost use Rattle.wast_grammar.specs.CoreForms.{filling};
ghost use Rattle.wast_grammar.specs.CoreRows.{function_type, parameter_item, signature, type_index, with_id, with_name};
ghost use Rattle.core_syntax.specs.CoreView.{function_type_view, param_item_view, value_type_view, with_id_view, with_name_view};

use crate::fields::Local;
use crate::types::{FunctionType, Param, TypeUse, ValType};
use core_parts::{
    GroupItem, Groups, Joined, Part, WordedItem, in_turn, is_group_of, two_alone, word_group,
};
use std::alloc::Global;
use wast_parser::{Error, Id, Index, NameAnnotation, Parse, ParseView, Parser};

/// A name or none, and a value type.
type Named<'a> = Joined<Option<NameAnnotation<'a>>, ValType<'a>>;

/// One parameter inside its group: an id or none, a name or none, and a value type.
impl<'a> Parse<'a> for Param<'a> {
    ghost use Rattle.wast_grammar.specs.CoreRows.{parameter};
    ghost use Rattle.core_syntax.specs.CoreLaws.{readable_parameter};
    ghost use Rattle.core_syntax.specs.CoreView.{param_view};
    ghost use Rattle.wast_parser.specs.Standing.{by_view};

    ghost grammar = { parameter };

    ghost is_sound = { readable_parameter.0 };

    ghost is_clear = { readable_parameter.1 };

    ghost stands = { by_view param_view };

    #[tactic(auto, unfolding(wast_grammar::specs::CoreRows::parameter, wast_parser::specs::Words::noted_at))]
    fn parse(alloc: Global, parser: &mut Parser<'a>) -> Result<Param<'a>, Error> {
        match in_turn::<Option<Id<'a>>, Named<'a>>(alloc, parser) {
            Ok((id, Joined { first, second })) => Ok(Param {
                id,
                name: first,
                ty: second,
            }),
            Err(error) => Err(error),
        }
    }
}

impl<'a> ParseView<'a> for Param<'a> {
    ghost use Rattle.core_syntax.specs.CoreView.{param_view};

    ghost view = { param_view };

    ghost is_view = { λ x v h. h };
}

/// Reads an id, a name or none, and a value type, behind which their group ends.
#[tactic(auto, unfolding(wast_grammar::specs::CoreRows::with_id, wast_parser::specs::Words::noted_at))]
fn alone_with_id<'a>(alloc: Global, parser: &mut Parser<'a>) -> Result<Param<'a>, Error>
    ensures gives { Gives with_id_view result parser.new (read (filling with_id) parser.old) }
    ensures item { IfOk result (λ p. param_item_view p ≡ left (with_id_view p)) }
    ensures text { parser.new.text ≡ parser.old.text }
    ensures forward { parser.old.at ≤ parser.new.at }
{
    match two_alone::<Id<'a>, Named<'a>>(alloc, parser) {
        Ok((id, Joined { first, second })) => Ok(Param {
            id: Some(id),
            name: first,
            ty: second,
        }),
        Err(error) => Err(error),
    }
}

/// Reads a name and a value type, behind which their group ends.
#[tactic(auto, unfolding(wast_grammar::specs::CoreRows::with_name))]
fn alone_with_name<'a>(alloc: Global, parser: &mut Parser<'a>) -> Result<Param<'a>, Error>
    ensures gives { Gives with_name_view result parser.new (read (filling with_name) parser.old) }
    ensures item { IfOk result (λ p. param_item_view p ≡ right (left (with_name_view p))) }
    ensures text { parser.new.text ≡ parser.old.text }
    ensures forward { parser.old.at ≤ parser.new.at }
{
    match two_alone::<NameAnnotation<'a>, ValType<'a>>(alloc, parser) {
        Ok((name, ty)) => Ok(Param {
            id: None,
            name: Some(name),
            ty,
        }),
        Err(error) => Err(error),
    }
}

/// Reads a parameter in a group of parameters: with an id or a name it is alone there.
#[tactic(auto, unfolding(wast_grammar::specs::CoreRows::parameter_item, wast_parser::specs::Words::noted_at))]
fn parameter_item<'a>(alloc: Global, parser: &mut Parser<'a>) -> Result<Param<'a>, Error>
    ensures gives { Gives param_item_view result parser.new (read parameter_item parser.old) }
    ensures text { parser.new.text ≡ parser.old.text }
    ensures forward { parser.old.at ≤ parser.new.at }
{
    if parser.peek::<Id<'a>>() {
        return alone_with_id(alloc, parser);
    }
    if parser.peek::<NameAnnotation<'a>>() {
        return alone_with_name(alloc, parser);
    }
    match parser.parse::<ValType<'a>>(alloc) {
        Ok(ty) => Ok(Param {
            id: None,
            name: None,
            ty,
        }),
        Err(error) => Err(error),
    }
}

impl<'a> GroupItem<'a> for Param<'a> {
    ghost use Rattle.core_syntax.specs.CoreLaws.{sound_parameter_item, has_token_parameter_item};

    ghost item_row = { parameter_item };

    ghost is_sound = { sound_parameter_item };

    ghost has_token = { has_token_parameter_item };

    ghost view = { param_item_view };

    fn item(alloc: Global, parser: &mut Parser<'a>) -> Result<Param<'a>, Error> {
        parameter_item(alloc, parser)
    }
}

impl<'a> GroupItem<'a> for Local<'a> {
    ghost use Rattle.core_syntax.specs.CoreLaws.{sound_parameter_item, has_token_parameter_item};
    ghost use Rattle.core_syntax.specs.CoreView.{local_item_view};

    ghost item_row = { parameter_item };

    ghost is_sound = { sound_parameter_item };

    ghost has_token = { has_token_parameter_item };

    ghost view = { local_item_view };

    fn item(alloc: Global, parser: &mut Parser<'a>) -> Result<Local<'a>, Error> {
        match parameter_item(alloc, parser) {
            Ok(Param { id, name, ty }) => Ok(Local { id, name, ty }),
            Err(error) => Err(error),
        }
    }
}

impl<'a> GroupItem<'a> for ValType<'a> {
    ghost use Rattle.wast_grammar.specs.CoreRows.{value_type};
    ghost use Rattle.core_syntax.specs.CoreLaws.{sound_value_type, has_token_value_type};

    ghost item_row = { value_type };

    ghost is_sound = { sound_value_type };

    ghost has_token = { has_token_value_type };

    ghost view = { value_type_view };

    fn item(alloc: Global, parser: &mut Parser<'a>) -> Result<ValType<'a>, Error> {
        parser.parse::<ValType<'a>>(alloc)
    }
}

impl<'a> WordedItem<'a> for Param<'a> {
    ghost group_word = { codes "param" };

    fn word() -> &'static str
        ensures word { result.now ≡ codes "param" }
    {
        "param"
    }
}

impl<'a> WordedItem<'a> for Local<'a> {
    ghost group_word = { codes "local" };

    fn word() -> &'static str
        ensures word { result.now ≡ codes "local" }
    {
        "local"
    }
}

impl<'a> WordedItem<'a> for ValType<'a> {
    ghost group_word = { codes "result" };

    fn word() -> &'static str
        ensures word { result.now ≡ codes "result" }
    {
        "result"
    }
}

/// The groups of parameters, and those of results behind them.
impl<'a> Parse<'a> for FunctionType<'a> {
    ghost use Rattle.core_syntax.specs.CoreLaws.{readable_function_type};
    ghost use Rattle.wast_parser.specs.Standing.{by_view};

    ghost grammar = { function_type };

    ghost is_sound = { readable_function_type.0 };

    ghost is_clear = { readable_function_type.1 };

    ghost stands = { by_view function_type_view };

    #[tactic(auto, unfolding(wast_grammar::specs::CoreRows::function_type, wast_grammar::specs::CoreRows::params, wast_grammar::specs::CoreRows::results))]
    fn parse(alloc: Global, parser: &mut Parser<'a>) -> Result<FunctionType<'a>, Error> {
        match in_turn::<Groups<Param<'a>>, Groups<ValType<'a>>>(alloc, parser) {
            Ok((Groups { items: params }, Groups { items: results })) => {
                Ok(FunctionType { params, results })
            }
            Err(error) => Err(error),
        }
    }
}

impl<'a> ParseView<'a> for FunctionType<'a> {
    ghost view = { function_type_view };

    ghost is_view = { λ x v h. h };
}

/// The index of a type use.
#[derive(Drop)]
struct TypeIndex<'a> {
    index: Option<Index<'a>>,
}

/// It is read where its group is next.
impl<'a> Part<'a> for TypeIndex<'a> {
    ghost use Rattle.wast_grammar.specs.CoreRows.{type_index};
    ghost use Rattle.wast_parser.specs.View.{option_view, reference_view};

    ghost part_row = { type_index };

    ghost view = { λ x. option_view reference_view x.index };

    #[tactic(auto, unfolding(wast_grammar::specs::CoreRows::type_index))]
    fn part(alloc: Global, parser: &mut Parser<'a>) -> Result<TypeIndex<'a>, Error> {
        if is_group_of(parser.cursor(), "type") {
            return match word_group::<Index<'a>>(alloc, parser, "type") {
                Ok(index) => Ok(TypeIndex { index: Some(index) }),
                Err(error) => Err(error),
            };
        }
        Ok(TypeIndex { index: None })
    }
}

/// Whether a group of parameters or results is next.
fn is_signature(parser: &Parser<'_>) -> bool
    ensures next { result ≡ holds (or_else (is_group "param") (is_group "result")) parser.now }
{
    is_group_of(parser.cursor(), "param") || is_group_of(parser.cursor(), "result")
}

/// The signature of a type use.
#[derive(Drop)]
struct Signature<'a> {
    inline: Option<FunctionType<'a>>,
}

/// It is read where a group of parameters or results is next.
impl<'a> Part<'a> for Signature<'a> {
    ghost use Rattle.wast_grammar.specs.CoreRows.{signature};
    ghost use Rattle.wast_parser.specs.View.{option_view};
    ghost use Rattle.core_syntax.specs.CoreView.{function_type_view};

    ghost part_row = { signature };

    ghost view = { λ x. option_view function_type_view x.inline };

    #[tactic(auto, unfolding(wast_grammar::specs::CoreRows::signature))]
    fn part(alloc: Global, parser: &mut Parser<'a>) -> Result<Signature<'a>, Error> {
        if is_signature(parser) {
            return match parser.parse::<FunctionType<'a>>(alloc) {
                Ok(ty) => Ok(Signature { inline: Some(ty) }),
                Err(error) => Err(error),
            };
        }
        Ok(Signature { inline: None })
    }
}

/// An index in its parentheses, a signature, both or neither.
impl<'a> Parse<'a> for TypeUse<'a> {
    ghost use Rattle.wast_grammar.specs.CoreRows.{type_use};
    ghost use Rattle.core_syntax.specs.CoreLaws.{readable_type_use};
    ghost use Rattle.core_syntax.specs.CoreView.{type_use_view};
    ghost use Rattle.wast_parser.specs.Standing.{by_view};

    ghost grammar = { type_use };

    ghost is_sound = { readable_type_use.0 };

    ghost is_clear = { readable_type_use.1 };

    ghost stands = { by_view type_use_view };

    #[tactic(auto, unfolding(wast_grammar::specs::CoreRows::type_use))]
    fn parse(alloc: Global, parser: &mut Parser<'a>) -> Result<TypeUse<'a>, Error> {
        match in_turn::<TypeIndex<'a>, Signature<'a>>(alloc, parser) {
            Ok((TypeIndex { index }, Signature { inline })) => Ok(TypeUse { index, inline }),
            Err(error) => Err(error),
        }
    }
}

impl<'a> ParseView<'a> for TypeUse<'a> {
    ghost use Rattle.core_syntax.specs.CoreView.{type_use_view};

    ghost view = { type_use_view };

    ghost is_view = { λ x v h. h };
}
