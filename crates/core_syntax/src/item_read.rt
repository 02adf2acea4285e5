//! The readers of imports and of their signatures.

ghost use Rattle.std.specs.Prelude.{◌≡◌, ◌≤◌, IfOk};
ghost use Rattle.wast_grammar.specs.Grammar.{none, right};
ghost use Rattle.wast_grammar.specs.Read.{Gives, read};
ghost use Rattle.wast_grammar.specs.CoreRows.{item_signature, memory_or_tag, names, signature_parts, table_or_other};
ghost use Rattle.core_syntax.specs.CoreView.{behind_three, behind_two, item_signature_view, kind_view, signature_parts_view};

use crate::global_read::GlobalType;
use crate::items::{Imports, ItemKind, ItemSig, Limits};
use crate::table_read::TableType;
use crate::types::TypeUse;
use core_parts::{
    Grouped, Joined, NameParts, Names, Place, in_turn, is_word_next, over_word, word_and_perhaps,
    word_and_two,
};
use std::alloc::Global;
use wast_parser::{Error, Parse, ParseView, Parser, Span, kw};

/// A signature of a kind.
fn signature_of<'a>(span: Span, names: Names<'a>, kind: ItemKind<'a>) -> ItemSig<'a>
    ensures parts { signature_parts_view result ≡ kind_view names.entry kind.entry span.offset }
    ensures span { result.span ≡ span }
{
    let (id, name) = names;
    ItemSig {
        span,
        id,
        name,
        kind,
    }
}

/// A signature that is never written.
#[tactic(auto, using(crate::proofs::Views::same_offset))]
fn other_signature<'a>(span: Span) -> ItemSig<'a>
    ensures parts { signature_parts_view result ≡ right (right (right (right none))) }
    ensures span { result.span ≡ span }
{
    ItemSig {
        span,
        id: None,
        name: None,
        kind: ItemKind::Other(span),
    }
}

/// Reads the signature of a memory or a tag, whose word stands at `span`.
#[tactic(auto, unfolding(wast_grammar::specs::CoreRows::memory_or_tag, wast_grammar::specs::CoreRows::names, wast_parser::specs::Words::noted_at))]
fn memory_or_tag<'a>(
    alloc: Global,
    parser: &mut Parser<'a>,
    span: Span,
) -> Result<ItemSig<'a>, Error>
    ensures gives { Gives (λ x. behind_three (signature_parts_view x)) result parser.new (read memory_or_tag parser.old) }
    ensures parts { IfOk result (λ x. signature_parts_view x ≡ right (right (right (behind_three (signature_parts_view x))))) }
    ensures span { IfOk result (λ x. x.span ≡ span) }
    ensures text { parser.new.text ≡ parser.old.text }
    ensures forward { parser.old.at ≤ parser.new.at }
{
    if is_word_next(parser, "memory") {
        return match word_and_perhaps::<NameParts<'a>, Limits>(
            alloc,
            parser,
            "memory",
            Place::Signature,
        ) {
            Ok(Some((Joined { first, second }, limits))) => {
                Ok(signature_of(span, (first, second), ItemKind::Memory(limits)))
            }
            Ok(None) => Ok(other_signature(span)),
            Err(error) => Err(error),
        };
    }
    match over_word(parser, "tag") {
        Ok(()) => Ok(other_signature(span)),
        Err(error) => Err(error),
    }
}

/// Reads the signature of a table, or of one of these.
#[tactic(auto, unfolding(wast_grammar::specs::CoreRows::table_or_other, wast_grammar::specs::CoreRows::names, wast_parser::specs::Words::noted_at))]
fn table_or_other<'a>(
    alloc: Global,
    parser: &mut Parser<'a>,
    span: Span,
) -> Result<ItemSig<'a>, Error>
    ensures gives { Gives (λ x. behind_two (signature_parts_view x)) result parser.new (read table_or_other parser.old) }
    ensures parts { IfOk result (λ x. signature_parts_view x ≡ right (right (behind_two (signature_parts_view x)))) }
    ensures span { IfOk result (λ x. x.span ≡ span) }
    ensures text { parser.new.text ≡ parser.old.text }
    ensures forward { parser.old.at ≤ parser.new.at }
{
    if is_word_next(parser, "table") {
        return match word_and_perhaps::<NameParts<'a>, TableType<'a>>(
            alloc,
            parser,
            "table",
            Place::Signature,
        ) {
            Ok(Some((Joined { first, second }, TableType { limits, ty }))) => {
                Ok(signature_of(span, (first, second), ItemKind::Table(limits, ty)))
            }
            Ok(None) => Ok(other_signature(span)),
            Err(error) => Err(error),
        };
    }
    memory_or_tag(alloc, parser, span)
}

/// Reads a signature by its word, which stands at `span`.
#[tactic(auto, unfolding(wast_grammar::specs::CoreRows::signature_parts, wast_grammar::specs::CoreRows::names, wast_parser::specs::Words::noted_at))]
fn signature_parts<'a>(
    alloc: Global,
    parser: &mut Parser<'a>,
    span: Span,
) -> Result<ItemSig<'a>, Error>
    ensures gives { Gives signature_parts_view result parser.new (read signature_parts parser.old) }
    ensures span { IfOk result (λ x. x.span ≡ span) }
    ensures text { parser.new.text ≡ parser.old.text }
    ensures forward { parser.old.at ≤ parser.new.at }
{
    if is_word_next(parser, "func") {
        return match word_and_two::<NameParts<'a>, TypeUse<'a>>(alloc, parser, "func") {
            Ok((Joined { first, second }, use_)) => {
                Ok(signature_of(span, (first, second), ItemKind::Func(use_)))
            }
            Err(error) => Err(error),
        };
    }
    if is_word_next(parser, "global") {
        return match word_and_two::<NameParts<'a>, GlobalType<'a>>(alloc, parser, "global") {
            Ok((Joined { first, second }, GlobalType { ty, mutable })) => {
                Ok(signature_of(span, (first, second), ItemKind::Global(ty, mutable)))
            }
            Err(error) => Err(error),
        };
    }
    table_or_other(alloc, parser, span)
}

/// What stands in the parentheses of an import's signature, from its word on.
impl<'a> Parse<'a> for ItemSig<'a> {
    ghost use Rattle.core_syntax.specs.CoreLaws.{readable_item_signature};
    ghost use Rattle.wast_parser.specs.Standing.{by_view};

    ghost grammar = { item_signature };

    ghost is_sound = { readable_item_signature.0 };

    ghost is_clear = { readable_item_signature.1 };

    ghost stands = { by_view item_signature_view };

    #[tactic(auto, unfolding(wast_grammar::specs::CoreRows::item_signature))]
    fn parse(alloc: Global, parser: &mut Parser<'a>) -> Result<ItemSig<'a>, Error> {
        let span = parser.cur_span();
        signature_parts(alloc, parser, span)
    }
}

impl<'a> ParseView<'a> for ItemSig<'a> {
    ghost view = { item_signature_view };

    ghost is_view = { λ x v h. h };
}

/// The module and the name of an import, and its signature in parentheses.
type Imported<'a> = Joined<Joined<&'a str, &'a str>, Grouped<ItemSig<'a>>>;

/// What stands in the parentheses of an import, from its word on.
impl<'a> Parse<'a> for Imports<'a> {
    ghost use Rattle.wast_grammar.specs.CoreRows.{import_field};
    ghost use Rattle.core_syntax.specs.CoreLaws.{readable_import_field};
    ghost use Rattle.core_syntax.specs.CoreView.{import_view};
    ghost use Rattle.wast_parser.specs.Standing.{by_view};

    ghost grammar = { import_field };

    ghost is_sound = { readable_import_field.0 };

    ghost is_clear = { readable_import_field.1 };

    ghost stands = { by_view import_view };

    #[tactic(auto, unfolding(wast_grammar::specs::CoreRows::import_field, wast_grammar::specs::CoreRows::import_names, wast_parser::specs::Words::spelled_at))]
    fn parse(alloc: Global, parser: &mut Parser<'a>) -> Result<Imports<'a>, Error> {
        match in_turn::<kw::import, Imported<'a>>(alloc, parser) {
            Ok(
                (
                    word,
                    Joined {
                        first: names,
                        second,
                    },
                ),
            ) => Ok(Imports {
                span: word.span,
                module: names.first,
                name: names.second,
                sig: second.part,
            }),
            Err(error) => Err(error),
        }
    }
}

impl<'a> ParseView<'a> for Imports<'a> {
    ghost use Rattle.core_syntax.specs.CoreView.{import_view};

    ghost view = { import_view };

    ghost is_view = { λ x v h. h };
}
