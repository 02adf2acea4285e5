//! The readers of value types, reference types and heap types.

ghost use Rattle.std.specs.Prelude.{◌≡◌, ◌≤◌, true, IfSome};
ghost use Rattle.std.specs.Option.{option_map};
ghost use Rattle.wast_grammar.specs.Classes.{keyword};
ghost use Rattle.wast_grammar.specs.Stand.{IsInside, class_at, moved};
ghost use Rattle.wast_grammar.specs.Grammar.{either, group, number_in, word, nothing, num, left};
ghost use Rattle.wast_grammar.specs.Read.{Gives, read};
ghost use Rattle.wast_grammar.specs.Rows.{is_word};
ghost use Rattle.wast_parser.specs.View.{stand_of};
ghost use Rattle.wast_grammar.specs.CoreRows.{heap_type, reference_parts, number_words};
ghost use Rattle.core_syntax.specs.CoreView.{flag_view, reference_parts_view, number_view, value_type_view};

use crate::types::{HeapType, RefType, ValType};
use core_parts::{
    Joined, Part, is_reference_type, is_word_next, other_reference, take_word, word_group,
};
use std::alloc::Global;
use wast_parser::{Cursor, Error, Index, Parse, ParseView, Parser};

/// Takes `func` or `extern`, and tells whether it is the first.
fn is_func(parser: &mut Parser<'_>) -> Result<bool, Error>
    ensures gives { Gives flag_view result parser.new (read (either (is_word "func") (word "func" nothing) (word "extern" nothing)) parser.old) }
    ensures text { parser.new.text ≡ parser.old.text }
    ensures forward { parser.old.at ≤ parser.new.at }
{
    if is_word_next(parser, "func") {
        return match take_word(parser, "func") {
            Ok(()) => Ok(true),
            Err(error) => Err(error),
        };
    }
    match take_word(parser, "extern") {
        Ok(()) => Ok(false),
        Err(error) => Err(error),
    }
}

impl<'a> Parse<'a> for HeapType<'a> {
    ghost use Rattle.core_syntax.specs.CoreLaws.{readable_heap_type};
    ghost use Rattle.core_syntax.specs.CoreView.{heap_view};
    ghost use Rattle.wast_parser.specs.Standing.{by_view};

    ghost grammar = { heap_type };

    ghost is_sound = { readable_heap_type.0 };

    ghost is_clear = { readable_heap_type.1 };

    ghost stands = { by_view heap_view };

    #[tactic(auto, unfolding(wast_grammar::specs::CoreRows::heap_type))]
    fn parse(alloc: Global, parser: &mut Parser<'a>) -> Result<HeapType<'a>, Error> {
        if parser.peek::<Index<'a>>() {
            return match parser.parse::<Index<'a>>(alloc) {
                Ok(index) => Ok(HeapType::Concrete(index)),
                Err(error) => Err(error),
            };
        }
        match is_func(parser) {
            Ok(true) => Ok(HeapType::Func),
            Ok(false) => Ok(HeapType::Extern),
            Err(error) => Err(error),
        }
    }
}

impl<'a> ParseView<'a> for HeapType<'a> {
    ghost use Rattle.core_syntax.specs.CoreView.{heap_view};

    ghost view = { heap_view };

    ghost is_view = { λ x v h. h };
}

/// Whether a reference may be null.
#[derive(Drop)]
struct Nullable {
    holds: bool,
}

/// It may where `null` is next, which is taken.
impl<'a> Part<'a> for Nullable {
    ghost use Rattle.wast_grammar.specs.CoreRows.{optional_null};
    ghost use Rattle.core_syntax.specs.CoreView.{flag_view};

    ghost part_row = { optional_null };

    ghost view = { λ x. flag_view x.holds };

    #[tactic(auto, unfolding(wast_grammar::specs::CoreRows::optional_null))]
    fn part(_alloc: Global, parser: &mut Parser<'a>) -> Result<Nullable, Error> {
        if is_word_next(parser, "null") {
            return match take_word(parser, "null") {
                Ok(()) => Ok(Nullable { holds: true }),
                Err(error) => Err(error),
            };
        }
        Ok(Nullable { holds: false })
    }
}

/// Reads a reference type in its parentheses.
#[tactic(auto, unfolding(wast_grammar::specs::CoreRows::reference_parts))]
fn reference_group<'a>(alloc: Global, parser: &mut Parser<'a>) -> Result<RefType<'a>, Error>
    ensures gives { Gives reference_parts_view result parser.new (read (group reference_parts) parser.old) }
    ensures text { parser.new.text ≡ parser.old.text }
    ensures forward { parser.old.at ≤ parser.new.at }
{
    match word_group::<Joined<Nullable, HeapType<'a>>>(alloc, parser, "ref") {
        Ok(Joined { first, second }) => Ok(RefType {
            nullable: first.holds,
            heap: second,
        }),
        Err(error) => Err(error),
    }
}

/// What a word for a reference that may be null stands for.
fn short_form<'a>(heap: HeapType<'a>) -> RefType<'a>
    ensures parts { result ≡ record { nullable = true; heap = heap.entry } }
{
    RefType {
        nullable: true,
        heap,
    }
}

impl<'a> Parse<'a> for RefType<'a> {
    ghost use Rattle.wast_grammar.specs.CoreRows.{reference_type};
    ghost use Rattle.core_syntax.specs.CoreLaws.{readable_reference_type};
    ghost use Rattle.core_syntax.specs.CoreView.{reference_type_view};
    ghost use Rattle.wast_parser.specs.Standing.{by_view};

    ghost grammar = { reference_type };

    ghost is_sound = { readable_reference_type.0 };

    ghost is_clear = { readable_reference_type.1 };

    ghost stands = { by_view reference_type_view };

    #[tactic(auto, unfolding(wast_grammar::specs::CoreRows::reference_type))]
    fn parse(alloc: Global, parser: &mut Parser<'a>) -> Result<RefType<'a>, Error> {
        if is_word_next(parser, "funcref") {
            return match take_word(parser, "funcref") {
                Ok(()) => Ok(short_form(HeapType::Func)),
                Err(error) => Err(error),
            };
        }
        if is_word_next(parser, "externref") {
            return match take_word(parser, "externref") {
                Ok(()) => Ok(short_form(HeapType::Extern)),
                Err(error) => Err(error),
            };
        }
        if parser.cursor().lparen().is_none() {
            return Err(parser.error());
        }
        reference_group(alloc, parser)
    }
}

impl<'a> ParseView<'a> for RefType<'a> {
    ghost use Rattle.core_syntax.specs.CoreView.{reference_type_view};

    ghost view = { reference_type_view };

    ghost is_view = { λ x v h. h };
}

/// The number or vector type that a word names.
fn number_type_of<'a>(word: &str) -> Option<ValType<'a>>
    ensures word { option_map number_view result ≡ option_map num (number_in number_words (keyword word.now)) }
    ensures numbered { IfSome result (λ t. value_type_view t ≡ left (number_view t)) }
{
    match word {
        "i32" => Some(ValType::I32),
        "i64" => Some(ValType::I64),
        "f32" => Some(ValType::F32),
        "f64" => Some(ValType::F64),
        "v128" => Some(ValType::V128),
        _ => None,
    }
}

/// The number or vector type whose word is next, and the place behind it.
#[tactic(auto, using(core_parts::proofs::Looks::no_number))]
fn next_number_type<'a>(cursor: Cursor<'a>) -> Option<(ValType<'a>, Cursor<'a>)>
    ensures next { option_map (λ r. number_view r.0) result ≡ option_map num (number_in number_words (class_at (stand_of cursor.entry))) }
    ensures numbered { IfSome result (λ r. value_type_view r.0 ≡ left (number_view r.0)) }
    ensures behind { IfSome result (λ r. stand_of r.1 ≡ moved (stand_of cursor.entry) 1) }
    ensures inside { IfSome result (λ r. IsInside (stand_of r.1)) }
{
    match cursor.keyword() {
        Some((word, rest)) => match number_type_of(word) {
            Some(ty) => Some((ty, rest)),
            None => None,
        },
        None => None,
    }
}

impl<'a> Parse<'a> for ValType<'a> {
    ghost use Rattle.wast_grammar.specs.CoreRows.{value_type};
    ghost use Rattle.core_syntax.specs.CoreLaws.{sound_value_type, clear_value_type};
    ghost use Rattle.wast_parser.specs.Standing.{by_view};

    ghost grammar = { value_type };

    ghost is_sound = { sound_value_type };

    ghost is_clear = { clear_value_type };

    ghost stands = { by_view value_type_view };

    #[tactic(auto, unfolding(wast_grammar::specs::CoreRows::value_type))]
    fn parse(alloc: Global, parser: &mut Parser<'a>) -> Result<ValType<'a>, Error> {
        if let Some((ty, rest)) = next_number_type(parser.cursor()) {
            parser.advance(rest);
            return Ok(ty);
        }
        if is_reference_type(parser) {
            return match parser.parse::<RefType<'a>>(alloc) {
                Ok(ty) => Ok(ValType::Ref(ty)),
                Err(error) => Err(error),
            };
        }
        match other_reference(parser) {
            Ok(span) => Ok(ValType::Other(span)),
            Err(error) => Err(error),
        }
    }
}

impl<'a> ParseView<'a> for ValType<'a> {
    ghost view = { value_type_view };

    ghost is_view = { λ x v h. h };
}
