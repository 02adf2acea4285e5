//! The readers of memories and tables.

ghost use Rattle.std.specs.Prelude.{◌≡◌, ◌≤◌, IfOk};
ghost use Rattle.wast_grammar.specs.Grammar.{both, led, part_at, right};
ghost use Rattle.wast_grammar.specs.Read.{Gives, read};
ghost use Rattle.wast_grammar.specs.CoreRows.{Field, memory_head, memory_type, table_head, table_type};
ghost use Rattle.core_syntax.specs.CoreView.{after_five, behind_one, field_view, head_view, limits_view, memory_parts_view, optional_import_view, reference_type_view, table_field_view, table_parts_view};

use crate::fields::{Memory, ModuleField, Table};
use crate::items::Limits;
use crate::table_read::TableType;
use crate::types::RefType;
use core_parts::{
    Head, Joined, OptionalImport, Part, Place, in_turn, part_and_perhaps, word_and_two,
};
use std::alloc::Global;
use wast_parser::{Error, Parse, ParseView, Parser, Span};

/// What stands before the type of a memory or a table.
type ItemHead<'a> = (Head<'a>, OptionalImport<'a>);

/// What stands before the type of a memory.
#[derive(Drop)]
struct MemoryHead<'a> {
    head: ItemHead<'a>,
}

impl<'a> Part<'a> for MemoryHead<'a> {
    ghost use Rattle.wast_grammar.specs.Grammar.{both};
    ghost use Rattle.wast_grammar.specs.CoreRows.{memory_head};
    ghost use Rattle.core_syntax.specs.CoreView.{head_view, optional_import_view};

    ghost part_row = { memory_head };

    ghost view = { λ x. both (head_view x.head.0.names x.head.0.exports.items) (optional_import_view x.head.1.names) };

    #[tactic(auto, unfolding(wast_grammar::specs::CoreRows::memory_head))]
    fn part(alloc: Global, parser: &mut Parser<'a>) -> Result<MemoryHead<'a>, Error> {
        match word_and_two::<Head<'a>, OptionalImport<'a>>(alloc, parser, "memory") {
            Ok(head) => Ok(MemoryHead { head }),
            Err(error) => Err(error),
        }
    }
}

/// What stands before the type of a table.
#[derive(Drop)]
struct TableHead<'a> {
    head: ItemHead<'a>,
}

impl<'a> Part<'a> for TableHead<'a> {
    ghost use Rattle.wast_grammar.specs.Grammar.{both};
    ghost use Rattle.wast_grammar.specs.CoreRows.{table_head};
    ghost use Rattle.core_syntax.specs.CoreView.{head_view, optional_import_view};

    ghost part_row = { table_head };

    ghost view = { λ x. both (head_view x.head.0.names x.head.0.exports.items) (optional_import_view x.head.1.names) };

    #[tactic(auto, unfolding(wast_grammar::specs::CoreRows::table_head))]
    fn part(alloc: Global, parser: &mut Parser<'a>) -> Result<TableHead<'a>, Error> {
        match word_and_two::<Head<'a>, OptionalImport<'a>>(alloc, parser, "table") {
            Ok(head) => Ok(TableHead { head }),
            Err(error) => Err(error),
        }
    }
}

/// A memory of its parts.
fn memory_of<'a>(span: Span, head: ItemHead<'a>, limits: Limits) -> Memory<'a>
    ensures parts { memory_parts_view result ≡ both (both (head_view head.entry.0.names head.entry.0.exports.items) (optional_import_view head.entry.1.names)) (limits_view limits) }
    ensures span { result.span ≡ span }
{
    let (Head { names, exports }, OptionalImport { names: import }) = head;
    let (id, name) = names;
    Memory {
        span,
        id,
        name,
        exports,
        import,
        limits,
    }
}

/// What stands in the parentheses of a memory, from its word on.
impl<'a> Parse<'a> for Memory<'a> {
    ghost use Rattle.wast_grammar.specs.CoreRows.{Field, memory_field};
    ghost use Rattle.core_syntax.specs.CoreLaws.{readable_memory_field};
    ghost use Rattle.core_syntax.specs.CoreView.{memory_view};
    ghost use Rattle.wast_parser.specs.Standing.{by_view};

    ghost grammar = { memory_field };

    ghost is_sound = { readable_memory_field.0 };

    ghost is_clear = { readable_memory_field.1 };

    ghost stands = { by_view memory_view };

    #[tactic(auto, unfolding(wast_grammar::specs::CoreRows::memory_field, wast_grammar::specs::CoreRows::memory_parts))]
    fn parse(alloc: Global, parser: &mut Parser<'a>) -> Result<Memory<'a>, Error> {
        let span = parser.cur_span();
        match in_turn::<MemoryHead<'a>, Limits>(alloc, parser) {
            Ok((MemoryHead { head }, limits)) => Ok(memory_of(span, head, limits)),
            Err(error) => Err(error),
        }
    }
}

impl<'a> ParseView<'a> for Memory<'a> {
    ghost use Rattle.core_syntax.specs.CoreView.{memory_view};

    ghost view = { memory_view };

    ghost is_view = { λ x v h. h };
}

/// Reads a memory, whose word stands at `span`, or goes over one that is never written.
pub(crate) fn memory_or_other<'a>(
    alloc: Global,
    parser: &mut Parser<'a>,
    span: Span,
) -> Result<ModuleField<'a>, Error>
    ensures gives { Gives (λ f. behind_one (table_field_view f)) result parser.new (read (led memory_head (memory_type Field)) parser.old) }
    ensures last { IfOk result (λ f. field_view f ≡ after_five (part_at span.offset (table_field_view f))) }
    ensures second { IfOk result (λ f. table_field_view f ≡ right (behind_one (table_field_view f))) }
    ensures text { parser.new.text ≡ parser.old.text }
    ensures forward { parser.old.at ≤ parser.new.at }
{
    match part_and_perhaps::<MemoryHead<'a>, Limits>(alloc, parser, Place::Field) {
        Ok(Some((before, limits))) => {
            Ok(ModuleField::Memory(memory_of(span, before.head, limits)))
        }
        Ok(None) => Ok(ModuleField::Other(span)),
        Err(error) => Err(error),
    }
}

/// A table of its parts.
fn table_of<'a>(span: Span, head: ItemHead<'a>, limits: Limits, ty: RefType<'a>) -> Table<'a>
    ensures parts { table_parts_view result ≡ both (both (head_view head.entry.0.names head.entry.0.exports.items) (optional_import_view head.entry.1.names)) (both (limits_view limits) (reference_type_view ty.entry)) }
    ensures span { result.span ≡ span }
{
    let (Head { names, exports }, OptionalImport { names: import }) = head;
    let (id, name) = names;
    Table {
        span,
        id,
        name,
        exports,
        import,
        limits,
        ty,
    }
}

/// What stands in the parentheses of a table, from its word on.
impl<'a> Parse<'a> for Table<'a> {
    ghost use Rattle.wast_grammar.specs.CoreRows.{Field, table_field};
    ghost use Rattle.core_syntax.specs.CoreLaws.{readable_table_field};
    ghost use Rattle.core_syntax.specs.CoreView.{table_view};
    ghost use Rattle.wast_parser.specs.Standing.{by_view};

    ghost grammar = { table_field };

    ghost is_sound = { readable_table_field.0 };

    ghost is_clear = { readable_table_field.1 };

    ghost stands = { by_view table_view };

    #[tactic(auto, unfolding(wast_grammar::specs::CoreRows::table_field, wast_grammar::specs::CoreRows::table_parts, wast_grammar::specs::CoreRows::limits_and_type))]
    fn parse(alloc: Global, parser: &mut Parser<'a>) -> Result<Table<'a>, Error> {
        let span = parser.cur_span();
        match in_turn::<TableHead<'a>, Joined<Limits, RefType<'a>>>(alloc, parser) {
            Ok((TableHead { head }, Joined { first, second })) => {
                Ok(table_of(span, head, first, second))
            }
            Err(error) => Err(error),
        }
    }
}

impl<'a> ParseView<'a> for Table<'a> {
    ghost use Rattle.core_syntax.specs.CoreView.{table_view};

    ghost view = { table_view };

    ghost is_view = { λ x v h. h };
}

/// Reads a table, whose word stands at `span`, or goes over one that is never written.
pub(crate) fn table_or_other<'a>(
    alloc: Global,
    parser: &mut Parser<'a>,
    span: Span,
) -> Result<ModuleField<'a>, Error>
    ensures gives { Gives table_field_view result parser.new (read (led table_head (table_type Field)) parser.old) }
    ensures last { IfOk result (λ f. field_view f ≡ after_five (part_at span.offset (table_field_view f))) }
    ensures text { parser.new.text ≡ parser.old.text }
    ensures forward { parser.old.at ≤ parser.new.at }
{
    match part_and_perhaps::<TableHead<'a>, TableType<'a>>(alloc, parser, Place::Field) {
        Ok(Some((before, ty))) => {
            Ok(ModuleField::Table(table_of(span, before.head, ty.limits, ty.ty)))
        }
        Ok(None) => Ok(ModuleField::Other(span)),
        Err(error) => Err(error),
    }
}
