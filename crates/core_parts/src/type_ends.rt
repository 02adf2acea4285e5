//! What stands in the place of an element type, or behind one, and is never written: it is gone over, in a field or in a signature.

ghost use Rattle.std.specs.Prelude.{◌≡◌, ◌≤◌};
ghost use Rattle.wast_grammar.specs.Grammar.{none, skipping};
ghost use Rattle.wast_grammar.specs.Read.{Gives, read};
ghost use Rattle.wast_grammar.specs.CoreRows.{Field, Signature, segment_start, type_start};
ghost use Rattle.core_parts.specs.Places.{place_of};

use crate::keywords::{is_any_next, take_any};
use crate::limit_ends::{LimitWord, is_segment, segment};
use crate::parts::Perhaps;
use crate::type_looks::other_reference;
use crate::type_place::Place;
use crate::unread::skip_rest;
use std::alloc::Global;
use wast_parser::{Error, Parser};

/// Goes over what stands behind limits in a signature where the element type isn't written.
#[tactic(auto, unfolding(wast_grammar::specs::CoreRows::type_start))]
fn limit_word_or_type(parser: &mut Parser<'_>) -> Result<(), Error>
    ensures gives { Gives (λ _. none) result parser.new (read (type_start Signature) parser.old) }
    ensures text { parser.new.text ≡ parser.old.text }
    ensures forward { parser.old.at ≤ parser.new.at }
{
    if is_any_next::<LimitWord>(parser) {
        return take_any::<LimitWord>(parser);
    }
    match other_reference(parser) {
        Ok(_) => Ok(()),
        Err(error) => Err(error),
    }
}

/// The same in a field.
#[tactic(auto, unfolding(wast_grammar::specs::CoreRows::type_start))]
fn segment_or_type(parser: &mut Parser<'_>) -> Result<(), Error>
    ensures gives { Gives (λ _. none) result parser.new (read (type_start Field) parser.old) }
    ensures text { parser.new.text ≡ parser.old.text }
    ensures forward { parser.old.at ≤ parser.new.at }
{
    if is_any_next::<LimitWord>(parser) {
        return take_any::<LimitWord>(parser);
    }
    if is_segment(parser) {
        return segment(parser);
    }
    match other_reference(parser) {
        Ok(_) => Ok(()),
        Err(error) => Err(error),
    }
}

/// The same in a field or a signature.
fn type_start(parser: &mut Parser<'_>, place: Place) -> Result<(), Error>
    ensures gives { Gives (λ _. none) result parser.new (read (type_start (place_of place)) parser.old) }
    ensures text { parser.new.text ≡ parser.old.text }
    ensures forward { parser.old.at ≤ parser.new.at }
{
    match place {
        Place::Signature => limit_word_or_type(parser),
        Place::Field => segment_or_type(parser),
    }
}

/// Goes over an element type that is never written.
pub fn unread_type(parser: &mut Parser<'_>, place: Place) -> Result<(), Error>
    ensures gives { Gives (λ _. none) result parser.new (read (skipping (type_start (place_of place))) parser.old) }
    ensures text { parser.new.text ≡ parser.old.text }
    ensures forward { parser.old.at ≤ parser.new.at }
{
    match type_start(parser, place) {
        Ok(()) => skip_rest(parser),
        Err(error) => Err(error),
    }
}

/// Goes over a segment behind an element type, which only a field may have.
#[tactic(auto, unfolding(wast_grammar::specs::CoreRows::segment_start))]
fn segment_start(parser: &mut Parser<'_>, place: Place) -> Result<(), Error>
    ensures gives { Gives (λ _. none) result parser.new (read (segment_start (place_of place)) parser.old) }
    ensures text { parser.new.text ≡ parser.old.text }
    ensures forward { parser.old.at ≤ parser.new.at }
{
    match place {
        Place::Signature => Err(parser.error()),
        Place::Field => segment(parser),
    }
}

/// Goes over segments behind an element type.
fn unread_segments(parser: &mut Parser<'_>, place: Place) -> Result<(), Error>
    ensures gives { Gives (λ _. none) result parser.new (read (skipping (segment_start (place_of place))) parser.old) }
    ensures text { parser.new.text ≡ parser.old.text }
    ensures forward { parser.old.at ≤ parser.new.at }
{
    match segment_start(parser, place) {
        Ok(()) => skip_rest(parser),
        Err(error) => Err(error),
    }
}

/// The end of a group behind an element type.
#[derive(Clone, Copy)]
pub struct TypeEnd;

/// What else stands there is gone over.
impl<'a> Perhaps<'a> for TypeEnd {
    ghost use Rattle.wast_grammar.specs.Grammar.{none, right};
    ghost use Rattle.wast_grammar.specs.CoreRows.{type_end};

    ghost perhaps_row = { type_end };

    ghost kept = { λ _. none };

    ghost lost = { right none };

    #[tactic(auto, unfolding(wast_grammar::specs::CoreRows::type_end))]
    fn perhaps(
        _alloc: Global,
        parser: &mut Parser<'a>,
        place: Place,
    ) -> Result<Option<TypeEnd>, Error> {
        if parser.is_empty() {
            return Ok(Some(TypeEnd));
        }
        match unread_segments(parser, place) {
            Ok(()) => Ok(None),
            Err(error) => Err(error),
        }
    }
}
