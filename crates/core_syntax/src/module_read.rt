//! The readers of whole modules, and of what made them.

ghost use Rattle.std.specs.Prelude.{◌≡◌, ◌≤◌, IfOk};
ghost use Rattle.wast_grammar.specs.Grammar.{right, word};
ghost use Rattle.wast_grammar.specs.Read.{Gives, read};
ghost use Rattle.wast_parser.specs.View.{many_view};
ghost use Rattle.wast_grammar.specs.CoreRows.{field_group, field_groups, noted_group, strings};
ghost use Rattle.core_syntax.specs.CoreView.{behind_one, field_group_view, module_kind_view, string_view};

use crate::fields::ModuleField;
use crate::module::{Module, ModuleKind, Stage};
use crate::module_field_read::module_field;
use core_parts::{
    GroupItem, Joined, NameParts, Part, in_parentheses, in_turn, is_noted, is_word_next,
    items_to_end, note_group, take_word,
};
use std::alloc::Global;
use wast_parser::{Error, Parse, ParseView, Parser, kw, parse_all};

/// Goes over the group of such an annotation, which is a field.
#[tactic(auto, unfolding(wast_grammar::specs::CoreRows::noted_group))]
fn noted_group<'a>(parser: &mut Parser<'a>) -> Result<ModuleField<'a>, Error>
    ensures gives { Gives field_group_view result parser.new (read noted_group parser.old) }
    ensures text { parser.new.text ≡ parser.old.text }
    ensures forward { parser.old.at ≤ parser.new.at }
{
    let span = parser.cur_span();
    match note_group(parser) {
        Ok(()) => Ok(ModuleField::Other(span)),
        Err(error) => Err(error),
    }
}

/// A field that begins with its word, and with no annotation.
#[derive(Drop)]
struct Worded<'a> {
    field: ModuleField<'a>,
}

impl<'a> Part<'a> for Worded<'a> {
    ghost use Rattle.std.specs.Prelude.{false};
    ghost use Rattle.wast_grammar.specs.CoreRows.{module_field};
    ghost use Rattle.core_syntax.specs.CoreView.{field_view};

    ghost part_row = { module_field false };

    ghost view = { λ x. field_view x.field };

    fn part(alloc: Global, parser: &mut Parser<'a>) -> Result<Worded<'a>, Error> {
        match module_field(alloc, parser, false) {
            Ok(field) => Ok(Worded { field }),
            Err(error) => Err(error),
        }
    }
}

/// A field in its parentheses.
impl<'a> GroupItem<'a> for ModuleField<'a> {
    ghost use Rattle.wast_grammar.specs.CoreRows.{field_group};
    ghost use Rattle.core_syntax.specs.CoreLaws.{sound_field_group, has_token_field_group};
    ghost use Rattle.core_syntax.specs.CoreView.{field_group_view};

    ghost item_row = { field_group };

    ghost is_sound = { sound_field_group };

    ghost has_token = { has_token_field_group };

    ghost view = { field_group_view };

    #[tactic(auto, unfolding(wast_grammar::specs::CoreRows::field_group))]
    fn item(alloc: Global, parser: &mut Parser<'a>) -> Result<ModuleField<'a>, Error> {
        if is_noted(parser) {
            return noted_group(parser);
        }
        match in_parentheses::<Worded<'a>>(alloc, parser) {
            Ok(Worded { field }) => Ok(field),
            Err(error) => Err(error),
        }
    }
}

/// Reads the fields of a module up to the end of its group.
#[tactic(auto, unfolding(wast_grammar::specs::CoreRows::field_groups))]
fn text_kind<'a>(alloc: Global, parser: &mut Parser<'a>) -> Result<ModuleKind<'a>, Error>
    ensures gives { Gives (λ k. behind_one (module_kind_view k)) result parser.new (read field_groups parser.old) }
    ensures kind { IfOk result (λ k. module_kind_view k ≡ right (behind_one (module_kind_view k))) }
    ensures text { parser.new.text ≡ parser.old.text }
    ensures forward { parser.old.at ≤ parser.new.at }
{
    let mut fields = Vec::new(alloc);
    match items_to_end(alloc, parser, &mut fields) {
        Ok(()) => Ok(ModuleKind::Text(fields)),
        Err(error) => Err(error),
    }
}

/// Reads strings up to the end of their group.
#[tactic(auto, unfolding(wast_grammar::specs::CoreRows::strings, wast_grammar::specs::Rows::bytes))]
fn strings<'a>(alloc: Global, parser: &mut Parser<'a>) -> Result<Vec<&'a [u8]>, Error>
    ensures gives { Gives (λ v. many_view string_view v.items) result parser.new (read strings parser.old) }
    ensures text { parser.new.text ≡ parser.old.text }
    ensures forward { parser.old.at ≤ parser.new.at }
{
    parse_all::<&'a [u8]>(alloc, parser)
}

/// Reads `binary` and the strings behind it.
fn binary<'a>(alloc: Global, parser: &mut Parser<'a>) -> Result<Vec<&'a [u8]>, Error>
    ensures gives { Gives (λ v. many_view string_view v.items) result parser.new (read (word "binary" strings) parser.old) }
    ensures text { parser.new.text ≡ parser.old.text }
    ensures forward { parser.old.at ≤ parser.new.at }
{
    match take_word(parser, "binary") {
        Ok(()) => strings(alloc, parser),
        Err(error) => Err(error),
    }
}

/// The fields or the bytes of a module.
impl<'a> Part<'a> for ModuleKind<'a> {
    ghost use Rattle.wast_grammar.specs.CoreRows.{module_kind};
    ghost use Rattle.core_syntax.specs.CoreView.{module_kind_view};

    ghost part_row = { module_kind };

    ghost view = { module_kind_view };

    #[tactic(auto, unfolding(wast_grammar::specs::CoreRows::module_kind))]
    fn part(alloc: Global, parser: &mut Parser<'a>) -> Result<ModuleKind<'a>, Error> {
        if is_word_next(parser, "binary") {
            return match binary(alloc, parser) {
                Ok(strings) => Ok(ModuleKind::Binary(strings)),
                Err(error) => Err(error),
            };
        }
        text_kind(alloc, parser)
    }
}

/// The id and the label of a module, and its fields or bytes.
type NamesAndKind<'a> = Joined<NameParts<'a>, ModuleKind<'a>>;

/// What stands in the parentheses of a module, from its word on.
impl<'a> Parse<'a> for Module<'a> {
    ghost use Rattle.wast_grammar.specs.CoreRows.{module_row};
    ghost use Rattle.core_syntax.specs.CoreLaws.{readable_module_row};
    ghost use Rattle.core_syntax.specs.CoreView.{module_view};
    ghost use Rattle.wast_parser.specs.Standing.{by_view};

    ghost grammar = { module_row };

    ghost is_sound = { readable_module_row.0 };

    ghost is_clear = { readable_module_row.1 };

    ghost stands = { by_view module_view };

    #[tactic(auto, unfolding(wast_grammar::specs::CoreRows::module_row, wast_grammar::specs::CoreRows::names, wast_parser::specs::Words::spelled_at, wast_parser::specs::Words::noted_at))]
    fn parse(alloc: Global, parser: &mut Parser<'a>) -> Result<Module<'a>, Error> {
        match in_turn::<kw::module, NamesAndKind<'a>>(alloc, parser) {
            Ok((word, Joined { first, second })) => Ok(Module {
                span: word.span,
                id: first.first,
                name: first.second,
                kind: second,
                stage: Stage::Parsed,
            }),
            Err(error) => Err(error),
        }
    }
}

impl<'a> ParseView<'a> for Module<'a> {
    ghost use Rattle.core_syntax.specs.CoreView.{module_view};

    ghost view = { module_view };

    ghost is_view = { λ x v h. h };
}
