//! The readers of exports.

ghost use Rattle.std.specs.Prelude.{◌≡◌, IfSome};
ghost use Rattle.std.specs.Option.{option_map};
ghost use Rattle.wast_grammar.specs.Classes.{keyword};
ghost use Rattle.wast_grammar.specs.Stand.{IsInside, class_at, moved};
ghost use Rattle.wast_grammar.specs.Grammar.{num, number_in};
ghost use Rattle.wast_parser.specs.View.{stand_of};
ghost use Rattle.wast_grammar.specs.CoreRows.{export_kind, export_words};
ghost use Rattle.core_syntax.specs.CoreView.{export_kind_view};

use crate::fields::Export;
use crate::items::ExportKind;
use core_parts::{Grouped, Joined, in_turn};
use std::alloc::Global;
use wast_parser::{Cursor, Error, Index, Parse, ParseView, Parser, kw};

/// The kind that a word names.
fn kind_of(word: &str) -> Option<ExportKind>
    ensures word { option_map export_kind_view result ≡ option_map num (number_in export_words (keyword word.now)) }
{
    match word {
        "func" => Some(ExportKind::Func),
        "table" => Some(ExportKind::Table),
        "memory" => Some(ExportKind::Memory),
        "global" => Some(ExportKind::Global),
        _ => None,
    }
}

/// The kind whose word is next, and the place behind it.
#[tactic(auto, using(core_parts::proofs::Looks::no_number))]
fn next_kind<'a>(cursor: Cursor<'a>) -> Option<(ExportKind, Cursor<'a>)>
    ensures next { option_map (λ r. export_kind_view r.0) result ≡ option_map num (number_in export_words (class_at (stand_of cursor.entry))) }
    ensures behind { IfSome result (λ r. stand_of r.1 ≡ moved (stand_of cursor.entry) 1) }
    ensures inside { IfSome result (λ r. IsInside (stand_of r.1)) }
{
    match cursor.keyword() {
        Some((word, rest)) => match kind_of(word) {
            Some(kind) => Some((kind, rest)),
            None => None,
        },
        None => None,
    }
}

/// The word of what is exported; `tag` isn't one.
impl<'a> Parse<'a> for ExportKind {
    ghost use Rattle.core_syntax.specs.CoreLaws.{readable_export_kind};
    ghost use Rattle.wast_parser.specs.Standing.{by_view};

    ghost grammar = { export_kind };

    ghost is_sound = { readable_export_kind.0 };

    ghost is_clear = { readable_export_kind.1 };

    ghost stands = { by_view export_kind_view };

    #[tactic(auto, unfolding(wast_grammar::specs::CoreRows::export_kind))]
    fn parse(_alloc: Global, parser: &mut Parser<'a>) -> Result<ExportKind, Error> {
        match next_kind(parser.cursor()) {
            Some((kind, rest)) => {
                parser.advance(rest);
                Ok(kind)
            }
            None => Err(parser.error()),
        }
    }
}

impl<'a> ParseView<'a> for ExportKind {
    ghost view = { export_kind_view };

    ghost is_view = { λ x v h. h };
}

/// The name of an export, and in parentheses its kind and its index.
type Exported<'a> = Joined<&'a str, Grouped<Joined<ExportKind, Index<'a>>>>;

/// What stands in the parentheses of an export, from its word on.
impl<'a> Parse<'a> for Export<'a> {
    ghost use Rattle.wast_grammar.specs.CoreRows.{export_field};
    ghost use Rattle.core_syntax.specs.CoreLaws.{readable_export_field};
    ghost use Rattle.core_syntax.specs.CoreView.{export_view};
    ghost use Rattle.wast_parser.specs.Standing.{by_view};

    ghost grammar = { export_field };

    ghost is_sound = { readable_export_field.0 };

    ghost is_clear = { readable_export_field.1 };

    ghost stands = { by_view export_view };

    #[tactic(auto, unfolding(wast_grammar::specs::CoreRows::export_field, wast_grammar::specs::CoreRows::exported_item, wast_parser::specs::Words::spelled_at))]
    fn parse(alloc: Global, parser: &mut Parser<'a>) -> Result<Export<'a>, Error> {
        match in_turn::<kw::export, Exported<'a>>(alloc, parser) {
            Ok((word, Joined { first, second })) => Ok(Export {
                span: word.span,
                name: first,
                kind: second.part.first,
                item: second.part.second,
            }),
            Err(error) => Err(error),
        }
    }
}

impl<'a> ParseView<'a> for Export<'a> {
    ghost use Rattle.core_syntax.specs.CoreView.{export_view};

    ghost view = { export_view };

    ghost is_view = { λ x v h. h };
}
