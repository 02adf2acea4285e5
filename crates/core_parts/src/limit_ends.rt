//! What stands beside limits and is never written: it is gone over, in a field or in a signature.

ghost use Rattle.std.specs.Prelude.{◌≡◌, ◌≤◌};
ghost use Rattle.wast_grammar.specs.Grammar.{holds, none, skipping};
ghost use Rattle.wast_grammar.specs.Read.{Gives, read};
ghost use Rattle.wast_grammar.specs.CoreRows.{is_segment, limits_end, limits_start, segment};
ghost use Rattle.core_parts.specs.Places.{place_of};

use crate::keywords::{Words, behind_any, is_any_next, over_any, take_any};
use crate::parts::Perhaps;
use crate::type_place::Place;
use crate::unread::skip_rest;
use std::alloc::Global;
use wast_parser::{Error, Parser};

/// The words that stand beside limits which are never written.
pub struct LimitWord;

impl Words for LimitWord {
    ghost use Rattle.std.specs.Prelude.{refl};
    ghost use Rattle.wast_grammar.specs.CoreRows.{limit_words};

    ghost classes = { limit_words };

    ghost are_words = { refl };

    fn has(word: &str) -> bool {
        match word {
            "i64" | "shared" => true,
            _ => false,
        }
    }
}

/// The words that begin a segment in a memory or a table.
pub struct SegmentWord;

impl Words for SegmentWord {
    ghost use Rattle.std.specs.Prelude.{refl};
    ghost use Rattle.wast_grammar.specs.CoreRows.{segment_words};

    ghost classes = { segment_words };

    ghost are_words = { refl };

    fn has(word: &str) -> bool {
        match word {
            "data" | "elem" => true,
            _ => false,
        }
    }
}

/// Whether the group of a segment is next.
pub fn is_segment(parser: &Parser<'_>) -> bool
    ensures next { result ≡ holds is_segment parser.now }
{
    match parser.cursor().lparen() {
        Some(inner) => behind_any::<SegmentWord>(inner).is_some(),
        None => false,
    }
}

/// Goes over the group of a segment.
#[tactic(auto, unfolding(wast_grammar::specs::CoreRows::segment))]
pub fn segment(parser: &mut Parser<'_>) -> Result<(), Error>
    ensures gives { Gives (λ _. none) result parser.new (read segment parser.old) }
    ensures text { parser.new.text ≡ parser.old.text }
    ensures forward { parser.old.at ≤ parser.new.at }
{
    parser.enter()?;
    over_any::<SegmentWord>(parser)?;
    parser.leave()?;
    Ok(())
}

/// Goes over what begins a memory type of a field or a signature that is never written.
#[tactic(auto, unfolding(wast_grammar::specs::CoreRows::limits_start))]
fn limits_start(parser: &mut Parser<'_>, place: Place) -> Result<(), Error>
    ensures gives { Gives (λ _. none) result parser.new (read (limits_start (place_of place)) parser.old) }
    ensures text { parser.new.text ≡ parser.old.text }
    ensures forward { parser.old.at ≤ parser.new.at }
{
    match place {
        Place::Field if !is_any_next::<LimitWord>(parser) => segment(parser),
        _ => take_any::<LimitWord>(parser),
    }
}

/// Goes over a memory type that is never written.
pub fn unread_limits(parser: &mut Parser<'_>, place: Place) -> Result<(), Error>
    ensures gives { Gives (λ _. none) result parser.new (read (skipping (limits_start (place_of place))) parser.old) }
    ensures text { parser.new.text ≡ parser.old.text }
    ensures forward { parser.old.at ≤ parser.new.at }
{
    match limits_start(parser, place) {
        Ok(()) => skip_rest(parser),
        Err(error) => Err(error),
    }
}

/// The end of a group behind limits.
#[derive(Clone, Copy)]
pub struct LimitsEnd;

/// What else stands there is gone over.
impl<'a> Perhaps<'a> for LimitsEnd {
    ghost use Rattle.wast_grammar.specs.Grammar.{none};
    ghost use Rattle.wast_grammar.specs.CoreRows.{limits_end};

    ghost perhaps_row = { limits_end };

    ghost kept = { λ _. none };

    ghost lost = { none };

    #[tactic(auto, unfolding(wast_grammar::specs::CoreRows::limits_end))]
    fn perhaps(
        _alloc: Global,
        parser: &mut Parser<'a>,
        place: Place,
    ) -> Result<Option<LimitsEnd>, Error> {
        if parser.is_empty() {
            return Ok(Some(LimitsEnd));
        }
        match unread_limits(parser, place) {
            Ok(()) => Ok(None),
            Err(error) => Err(error),
        }
    }
}
