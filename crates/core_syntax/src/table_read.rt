//! The readers of the types of tables.
//!
//! What the text format has beside limits and element types, and this crate never writes, is gone over; the answer is then none.

ghost use Rattle.std.specs.Prelude.{◌≡◌, ◌≤◌};
ghost use Rattle.wast_grammar.specs.Grammar.{both, none, skipping};
ghost use Rattle.wast_grammar.specs.Read.{Gives, read};
ghost use Rattle.wast_grammar.specs.CoreRows.{any_reference, table_start, typed_segment};
ghost use Rattle.core_parts.specs.Places.{place_of};

use crate::items::Limits;
use crate::types::RefType;
use core_parts::{
    LimitWord, Perhaps, Place, TypeEnd, is_any_next, is_reference_type, is_segment,
    other_reference, part_and_perhaps, segment, skip_rest, take_any, unread_type,
};
use std::alloc::Global;
use wast_parser::{Error, Parser};

/// Goes over a reference type, be it one that is never written.
#[tactic(auto, unfolding(wast_grammar::specs::CoreRows::any_reference))]
fn any_reference(alloc: Global, parser: &mut Parser<'_>) -> Result<(), Error>
    ensures gives { Gives (λ _. none) result parser.new (read any_reference parser.old) }
    ensures text { parser.new.text ≡ parser.old.text }
    ensures forward { parser.old.at ≤ parser.new.at }
{
    if is_reference_type(parser) {
        return match parser.parse::<RefType<'_>>(alloc) {
            Ok(_) => Ok(()),
            Err(error) => Err(error),
        };
    }
    match other_reference(parser) {
        Ok(_) => Ok(()),
        Err(error) => Err(error),
    }
}

/// Goes over a reference type and the segment behind it.
fn typed_segment(alloc: Global, parser: &mut Parser<'_>) -> Result<(), Error>
    ensures gives { Gives (λ _. both none none) result parser.new (read typed_segment parser.old) }
    ensures text { parser.new.text ≡ parser.old.text }
    ensures forward { parser.old.at ≤ parser.new.at }
{
    match any_reference(alloc, parser) {
        Ok(()) => segment(parser),
        Err(error) => Err(error),
    }
}

/// Goes over what begins a table type of a field or a signature that is never written.
#[tactic(auto, unfolding(wast_grammar::specs::CoreRows::table_start))]
fn table_start(alloc: Global, parser: &mut Parser<'_>, place: Place) -> Result<(), Error>
    ensures gives { Gives (λ _. none) result parser.new (read (table_start (place_of place)) parser.old) }
    ensures text { parser.new.text ≡ parser.old.text }
    ensures forward { parser.old.at ≤ parser.new.at }
{
    match place {
        Place::Signature => take_any::<LimitWord>(parser),
        Place::Field if is_any_next::<LimitWord>(parser) => take_any::<LimitWord>(parser),
        Place::Field if is_segment(parser) => segment(parser),
        Place::Field => typed_segment(alloc, parser),
    }
}

/// Goes over a table type that is never written.
fn unread_table(alloc: Global, parser: &mut Parser<'_>, place: Place) -> Result<(), Error>
    ensures gives { Gives (λ _. none) result parser.new (read (skipping (table_start (place_of place))) parser.old) }
    ensures text { parser.new.text ≡ parser.old.text }
    ensures forward { parser.old.at ≤ parser.new.at }
{
    match table_start(alloc, parser, place) {
        Ok(()) => skip_rest(parser),
        Err(error) => Err(error),
    }
}

/// The type of the elements of a table.
impl<'a> Perhaps<'a> for RefType<'a> {
    ghost use Rattle.wast_grammar.specs.Grammar.{both, none, right};
    ghost use Rattle.wast_grammar.specs.CoreRows.{element_type};
    ghost use Rattle.core_syntax.specs.CoreView.{reference_type_view};

    ghost perhaps_row = { element_type };

    ghost kept = { λ r. both (reference_type_view r) none };

    ghost lost = { right none };

    #[tactic(auto, unfolding(wast_grammar::specs::CoreRows::element_type))]
    fn perhaps(
        alloc: Global,
        parser: &mut Parser<'a>,
        place: Place,
    ) -> Result<Option<RefType<'a>>, Error> {
        if is_reference_type(parser) {
            return match part_and_perhaps::<RefType<'a>, TypeEnd>(alloc, parser, place) {
                Ok(Some((ty, TypeEnd))) => Ok(Some(ty)),
                Ok(None) => Ok(None),
                Err(error) => Err(error),
            };
        }
        match unread_type(parser, place) {
            Ok(()) => Ok(None),
            Err(error) => Err(error),
        }
    }
}

/// The type of a table: limits, and the type of its elements.
#[derive(Drop)]
pub(crate) struct TableType<'a> {
    pub(crate) limits: Limits,
    pub(crate) ty: RefType<'a>,
}

impl<'a> Perhaps<'a> for TableType<'a> {
    ghost use Rattle.wast_grammar.specs.Grammar.{both, none, right};
    ghost use Rattle.wast_grammar.specs.CoreRows.{table_type};
    ghost use Rattle.core_syntax.specs.CoreView.{limits_view, reference_type_view};

    ghost perhaps_row = { table_type };

    ghost kept = { λ t. both (limits_view t.limits) (both (reference_type_view t.ty) none) };

    ghost lost = { right none };

    #[tactic(auto, unfolding(wast_grammar::specs::CoreRows::table_type))]
    fn perhaps(
        alloc: Global,
        parser: &mut Parser<'a>,
        place: Place,
    ) -> Result<Option<TableType<'a>>, Error> {
        if parser.peek::<u32>() {
            return match part_and_perhaps::<Limits, RefType<'a>>(alloc, parser, place) {
                Ok(Some((limits, ty))) => Ok(Some(TableType { limits, ty })),
                Ok(None) => Ok(None),
                Err(error) => Err(error),
            };
        }
        match unread_table(alloc, parser, place) {
            Ok(()) => Ok(None),
            Err(error) => Err(error),
        }
    }
}
