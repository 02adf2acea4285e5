//! The readers of the fields of a module.

ghost use Rattle.std.specs.Prelude.{◌≡◌, ◌≤◌, true, IfOk};
ghost use Rattle.wast_grammar.specs.Grammar.{part_at, right};
ghost use Rattle.wast_grammar.specs.Read.{Gives, read};
ghost use Rattle.wast_grammar.specs.CoreRows.{export_or_more, func_or_more, global_or_more, import_or_more, last_field, memory_or_other, module_field, other_field, table_or_memory};
ghost use Rattle.core_syntax.specs.CoreView.{after_five, behind_five, behind_four, behind_one, behind_three, behind_two, field_view, table_field_view};

use crate::field_read::{memory_or_other, table_or_other};
use crate::fields::{Export, Func, GlobalField, ModuleField};
use crate::items::Imports;
use crate::types::Type;
use core_parts::{is_word_next, other_field};
use std::alloc::Global;
use wast_parser::{Error, Parse, ParseView, Parser, Span};

/// Goes over a field that is never written, which stands at `span`.
fn other_at<'a>(parser: &mut Parser<'a>, span: Span, noted: bool) -> Result<ModuleField<'a>, Error>
    ensures gives { Gives (λ f. behind_one (behind_one (table_field_view f))) result parser.new (read (other_field noted) parser.old) }
    ensures last { IfOk result (λ f. field_view f ≡ after_five (part_at span.offset (table_field_view f))) }
    ensures third { IfOk result (λ f. table_field_view f ≡ right (right (behind_one (behind_one (table_field_view f))))) }
    ensures text { parser.new.text ≡ parser.old.text }
    ensures forward { parser.old.at ≤ parser.new.at }
{
    match other_field(parser, noted) {
        Ok(()) => Ok(ModuleField::Other(span)),
        Err(error) => Err(error),
    }
}

/// Reads a memory, or a field that is never written; it stands at `span`.
#[tactic(auto, unfolding(wast_grammar::specs::CoreRows::memory_or_other))]
fn memory_or_more<'a>(
    alloc: Global,
    parser: &mut Parser<'a>,
    span: Span,
    noted: bool,
) -> Result<ModuleField<'a>, Error>
    ensures gives { Gives (λ f. behind_one (table_field_view f)) result parser.new (read (memory_or_other noted) parser.old) }
    ensures last { IfOk result (λ f. field_view f ≡ after_five (part_at span.offset (table_field_view f))) }
    ensures second { IfOk result (λ f. table_field_view f ≡ right (behind_one (table_field_view f))) }
    ensures text { parser.new.text ≡ parser.old.text }
    ensures forward { parser.old.at ≤ parser.new.at }
{
    if is_word_next(parser, "memory") {
        return memory_or_other(alloc, parser, span);
    }
    other_at(parser, span, noted)
}

/// Reads a table, or one of these; it stands at `span`.
#[tactic(auto, unfolding(wast_grammar::specs::CoreRows::table_or_memory))]
fn table_or_memory<'a>(
    alloc: Global,
    parser: &mut Parser<'a>,
    span: Span,
    noted: bool,
) -> Result<ModuleField<'a>, Error>
    ensures gives { Gives table_field_view result parser.new (read (table_or_memory noted) parser.old) }
    ensures last { IfOk result (λ f. field_view f ≡ after_five (part_at span.offset (table_field_view f))) }
    ensures text { parser.new.text ≡ parser.old.text }
    ensures forward { parser.old.at ≤ parser.new.at }
{
    if is_word_next(parser, "table") {
        return table_or_other(alloc, parser, span);
    }
    memory_or_more(alloc, parser, span, noted)
}

/// Reads one of these fields.
#[tactic(auto, unfolding(wast_grammar::specs::CoreRows::last_field))]
fn last_field<'a>(
    alloc: Global,
    parser: &mut Parser<'a>,
    noted: bool,
) -> Result<ModuleField<'a>, Error>
    ensures gives { Gives (λ f. behind_five (field_view f)) result parser.new (read (last_field noted) parser.old) }
    ensures behind { IfOk result (λ f. field_view f ≡ after_five (behind_five (field_view f))) }
    ensures text { parser.new.text ≡ parser.old.text }
    ensures forward { parser.old.at ≤ parser.new.at }
{
    let span = parser.cur_span();
    table_or_memory(alloc, parser, span, noted)
}

/// Reads an export, or one of these fields.
#[tactic(auto, unfolding(wast_grammar::specs::CoreRows::export_or_more))]
fn export_or_more<'a>(
    alloc: Global,
    parser: &mut Parser<'a>,
    noted: bool,
) -> Result<ModuleField<'a>, Error>
    ensures gives { Gives (λ f. behind_four (field_view f)) result parser.new (read (export_or_more noted) parser.old) }
    ensures behind { IfOk result (λ f. field_view f ≡ right (right (right (right (behind_four (field_view f)))))) }
    ensures text { parser.new.text ≡ parser.old.text }
    ensures forward { parser.old.at ≤ parser.new.at }
{
    if is_word_next(parser, "export") {
        return match parser.parse::<Export<'a>>(alloc) {
            Ok(field) => Ok(ModuleField::Export(field)),
            Err(error) => Err(error),
        };
    }
    last_field(alloc, parser, noted)
}

/// Reads a global, or one of these fields.
#[tactic(auto, unfolding(wast_grammar::specs::CoreRows::global_or_more))]
fn global_or_more<'a>(
    alloc: Global,
    parser: &mut Parser<'a>,
    noted: bool,
) -> Result<ModuleField<'a>, Error>
    ensures gives { Gives (λ f. behind_three (field_view f)) result parser.new (read (global_or_more noted) parser.old) }
    ensures behind { IfOk result (λ f. field_view f ≡ right (right (right (behind_three (field_view f))))) }
    ensures text { parser.new.text ≡ parser.old.text }
    ensures forward { parser.old.at ≤ parser.new.at }
{
    if is_word_next(parser, "global") {
        return match parser.parse::<GlobalField<'a>>(alloc) {
            Ok(field) => Ok(ModuleField::Global(field)),
            Err(error) => Err(error),
        };
    }
    export_or_more(alloc, parser, noted)
}

/// Reads a function, or one of these fields.
#[tactic(auto, unfolding(wast_grammar::specs::CoreRows::func_or_more))]
fn func_or_more<'a>(
    alloc: Global,
    parser: &mut Parser<'a>,
    noted: bool,
) -> Result<ModuleField<'a>, Error>
    ensures gives { Gives (λ f. behind_two (field_view f)) result parser.new (read (func_or_more noted) parser.old) }
    ensures behind { IfOk result (λ f. field_view f ≡ right (right (behind_two (field_view f)))) }
    ensures text { parser.new.text ≡ parser.old.text }
    ensures forward { parser.old.at ≤ parser.new.at }
{
    if is_word_next(parser, "func") {
        return match parser.parse::<Func<'a>>(alloc) {
            Ok(field) => Ok(ModuleField::Func(field)),
            Err(error) => Err(error),
        };
    }
    global_or_more(alloc, parser, noted)
}

/// Reads an import, or one of these fields.
#[tactic(auto, unfolding(wast_grammar::specs::CoreRows::import_or_more))]
fn import_or_more<'a>(
    alloc: Global,
    parser: &mut Parser<'a>,
    noted: bool,
) -> Result<ModuleField<'a>, Error>
    ensures gives { Gives (λ f. behind_one (field_view f)) result parser.new (read (import_or_more noted) parser.old) }
    ensures behind { IfOk result (λ f. field_view f ≡ right (behind_one (field_view f))) }
    ensures text { parser.new.text ≡ parser.old.text }
    ensures forward { parser.old.at ≤ parser.new.at }
{
    if is_word_next(parser, "import") {
        return match parser.parse::<Imports<'a>>(alloc) {
            Ok(field) => Ok(ModuleField::Import(field)),
            Err(error) => Err(error),
        };
    }
    func_or_more(alloc, parser, noted)
}

/// Reads a field; it may begin with an annotation where that is said.
#[tactic(auto, unfolding(wast_grammar::specs::CoreRows::module_field))]
pub(crate) fn module_field<'a>(
    alloc: Global,
    parser: &mut Parser<'a>,
    noted: bool,
) -> Result<ModuleField<'a>, Error>
    ensures gives { Gives field_view result parser.new (read (module_field noted) parser.old) }
    ensures text { parser.new.text ≡ parser.old.text }
    ensures forward { parser.old.at ≤ parser.new.at }
{
    if is_word_next(parser, "type") {
        return match parser.parse::<Type<'a>>(alloc) {
            Ok(field) => Ok(ModuleField::Ty(field)),
            Err(error) => Err(error),
        };
    }
    import_or_more(alloc, parser, noted)
}

/// What stands in the parentheses of a field, from its word on, or from the annotation that opens the group itself.
impl<'a> Parse<'a> for ModuleField<'a> {
    ghost use Rattle.core_syntax.specs.CoreLaws.{readable_module_field};
    ghost use Rattle.wast_parser.specs.Standing.{by_view};

    ghost grammar = { module_field true };

    ghost is_sound = { readable_module_field.0 };

    ghost is_clear = { readable_module_field.1 };

    ghost stands = { by_view field_view };

    fn parse(alloc: Global, parser: &mut Parser<'a>) -> Result<ModuleField<'a>, Error> {
        module_field(alloc, parser, true)
    }
}

impl<'a> ParseView<'a> for ModuleField<'a> {
    ghost view = { field_view };

    ghost is_view = { λ x v h. h };
}
