//! The readers of type definitions.

ghost use Rattle.wast_grammar.specs.CoreRows.{type_definition, type_field};
ghost use Rattle.core_syntax.specs.CoreView.{type_definition_view, type_field_view};

use crate::types::{FunctionType, Rec, Type, TypeDef};
use core_parts::{
    GroupItem, Grouped, Joined, Part, in_parentheses, in_turn, items_to_end, other_type,
};
use std::alloc::Global;
use wast_parser::{Error, Id, NameAnnotation, Parse, ParseView, Parser, kw};

/// What stands in the parentheses of a type: `func` and its groups, or another type up to the end of its group.
impl<'a> Parse<'a> for TypeDef<'a> {
    ghost use Rattle.core_syntax.specs.CoreLaws.{readable_type_definition};
    ghost use Rattle.wast_parser.specs.Standing.{by_view};

    ghost grammar = { type_definition };

    ghost is_sound = { readable_type_definition.0 };

    ghost is_clear = { readable_type_definition.1 };

    ghost stands = { by_view type_definition_view };

    #[tactic(auto, unfolding(wast_grammar::specs::CoreRows::type_definition, wast_parser::specs::Words::spelled_at))]
    fn parse(alloc: Global, parser: &mut Parser<'a>) -> Result<TypeDef<'a>, Error> {
        if parser.peek::<kw::func>() {
            return match kw::func::parse_then::<FunctionType<'a>>(alloc, parser) {
                Ok(ty) => Ok(TypeDef::Func(ty)),
                Err(error) => Err(error),
            };
        }
        match other_type(parser) {
            Ok(span) => Ok(TypeDef::Other(span)),
            Err(error) => Err(error),
        }
    }
}

impl<'a> ParseView<'a> for TypeDef<'a> {
    ghost view = { type_definition_view };

    ghost is_view = { λ x v h. h };
}

/// The id and the label of a type, and in parentheses what it is defined to be.
type Defined<'a> = Joined<Option<Id<'a>>, Joined<Option<NameAnnotation<'a>>, Grouped<TypeDef<'a>>>>;

/// What stands in the parentheses of a type definition, from its word `type` on.
impl<'a> Parse<'a> for Type<'a> {
    ghost use Rattle.core_syntax.specs.CoreLaws.{readable_type_field};
    ghost use Rattle.wast_parser.specs.Standing.{by_view};

    ghost grammar = { type_field };

    ghost is_sound = { readable_type_field.0 };

    ghost is_clear = { readable_type_field.1 };

    ghost stands = { by_view type_field_view };

    #[tactic(auto, unfolding(wast_grammar::specs::CoreRows::type_field, wast_parser::specs::Words::spelled_at, wast_parser::specs::Words::noted_at))]
    fn parse(alloc: Global, parser: &mut Parser<'a>) -> Result<Type<'a>, Error> {
        match in_turn::<kw::type_, Defined<'a>>(alloc, parser) {
            Ok((word, Joined { first, second })) => Ok(Type {
                span: word.span,
                id: first,
                name: second.first,
                def: second.second.part,
            }),
            Err(error) => Err(error),
        }
    }
}

impl<'a> ParseView<'a> for Type<'a> {
    ghost view = { type_field_view };

    ghost is_view = { λ x v h. h };
}

/// A type definition in its parentheses.
impl<'a> GroupItem<'a> for Type<'a> {
    ghost use Rattle.std.specs.Prelude.{refl};
    ghost use Rattle.wast_grammar.specs.Grammar.{group};
    ghost use Rattle.core_syntax.specs.CoreLaws.{sound_type_group};

    ghost item_row = { group type_field };

    ghost is_sound = { sound_type_group };

    ghost has_token = { refl };

    ghost view = { type_field_view };

    fn item(alloc: Global, parser: &mut Parser<'a>) -> Result<Type<'a>, Error> {
        in_parentheses::<Type<'a>>(alloc, parser)
    }
}

/// Type definitions up to the end of their group.
#[derive(Drop)]
struct Types<'a> {
    items: Vec<Type<'a>>,
}

impl<'a> Part<'a> for Types<'a> {
    ghost use Rattle.wast_parser.specs.View.{many_view};
    ghost use Rattle.wast_grammar.specs.CoreRows.{type_fields};
    ghost use Rattle.core_syntax.specs.CoreView.{type_field_view};

    ghost part_row = { type_fields };

    ghost view = { λ x. many_view type_field_view x.items.items };

    #[tactic(auto, unfolding(wast_grammar::specs::CoreRows::type_fields))]
    fn part(alloc: Global, parser: &mut Parser<'a>) -> Result<Types<'a>, Error> {
        let mut items = Vec::new(alloc);
        match items_to_end(alloc, parser, &mut items) {
            Ok(()) => Ok(Types { items }),
            Err(error) => Err(error),
        }
    }
}

/// What stands in the parentheses of a group of types, from its word `rec` on.
impl<'a> Parse<'a> for Rec<'a> {
    ghost use Rattle.wast_grammar.specs.CoreRows.{rec_group};
    ghost use Rattle.core_syntax.specs.CoreLaws.{readable_rec_group};
    ghost use Rattle.core_syntax.specs.CoreView.{rec_group_view};
    ghost use Rattle.wast_parser.specs.Standing.{by_view};

    ghost grammar = { rec_group };

    ghost is_sound = { readable_rec_group.0 };

    ghost is_clear = { readable_rec_group.1 };

    ghost stands = { by_view rec_group_view };

    #[tactic(auto, unfolding(wast_grammar::specs::CoreRows::rec_group, wast_parser::specs::Words::spelled_at))]
    fn parse(alloc: Global, parser: &mut Parser<'a>) -> Result<Rec<'a>, Error> {
        match in_turn::<kw::rec, Types<'a>>(alloc, parser) {
            Ok((word, Types { items: types })) => Ok(Rec {
                span: word.span,
                types,
            }),
            Err(error) => Err(error),
        }
    }
}

impl<'a> ParseView<'a> for Rec<'a> {
    ghost use Rattle.core_syntax.specs.CoreView.{rec_group_view};

    ghost view = { rec_group_view };

    ghost is_view = { λ x v h. h };
}
