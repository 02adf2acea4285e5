//! The readers of limits, and of the types of memories.
//!
//! What the text format has beside limits and element types, and this crate never writes, is gone over; the answer is then none.

ghost use Rattle.wast_grammar.specs.Grammar.{none};
ghost use Rattle.wast_grammar.specs.CoreRows.{limits};
ghost use Rattle.core_syntax.specs.CoreView.{limits_view};

use crate::items::Limits;
use core_parts::{LimitsEnd, Part, Perhaps, Place, in_turn, part_and_perhaps, unread_limits};
use std::alloc::Global;
use wast_parser::{Error, Parser};

/// The least number, and the greatest or none.
impl<'a> Part<'a> for Limits {
    ghost use Rattle.wast_grammar.specs.CoreRows.{limits};
    ghost use Rattle.core_syntax.specs.CoreView.{limits_view};

    ghost part_row = { limits };

    ghost view = { limits_view };

    #[tactic(auto, unfolding(wast_grammar::specs::CoreRows::limits, wast_grammar::specs::Rows::optional_number))]
    fn part(alloc: Global, parser: &mut Parser<'a>) -> Result<Limits, Error> {
        match in_turn::<u32, Option<u32>>(alloc, parser) {
            Ok((min, max)) => Ok(Limits { min, max }),
            Err(error) => Err(error),
        }
    }
}

/// The limits of a memory, or what is gone over in their place.
impl<'a> Perhaps<'a> for Limits {
    ghost use Rattle.wast_grammar.specs.Grammar.{both, none};
    ghost use Rattle.wast_grammar.specs.CoreRows.{memory_type};
    ghost use Rattle.core_syntax.specs.CoreView.{limits_view};

    ghost perhaps_row = { memory_type };

    ghost kept = { λ l. both (limits_view l) none };

    ghost lost = { none };

    #[tactic(auto, unfolding(wast_grammar::specs::CoreRows::memory_type))]
    fn perhaps(
        alloc: Global,
        parser: &mut Parser<'a>,
        place: Place,
    ) -> Result<Option<Limits>, Error> {
        if parser.peek::<u32>() {
            return match part_and_perhaps::<Limits, LimitsEnd>(alloc, parser, place) {
                Ok(Some((limits, LimitsEnd))) => Ok(Some(limits)),
                Ok(None) => Ok(None),
                Err(error) => Err(error),
            };
        }
        match unread_limits(parser, place) {
            Ok(()) => Ok(None),
            Err(error) => Err(error),
        }
    }
}
