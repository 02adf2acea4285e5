//! The reader of what made a module.

ghost use Rattle.std.specs.Prelude.{◌≡◌, ◌≤◌};
ghost use Rattle.wast_grammar.specs.Read.{Gives, read};
ghost use Rattle.wast_parser.specs.View.{many_view};
ghost use Rattle.wast_grammar.specs.CoreRows.{producer_groups};
ghost use Rattle.core_syntax.specs.CoreView.{producer_view};

use crate::module::Producers;
use core_parts::{items_to_end, take_note};
use std::alloc::Global;
use wast_parser::{Error, Parse, ParseView, Parser};

/// Reads these up to the end of their group.
#[tactic(auto, unfolding(wast_grammar::specs::CoreRows::producer_groups))]
fn all_producers<'a>(alloc: Global, parser: &mut Parser<'a>) -> Result<Producers<'a>, Error>
    ensures gives { Gives (λ p. many_view producer_view p.fields.items) result parser.new (read producer_groups parser.old) }
    ensures text { parser.new.text ≡ parser.old.text }
    ensures forward { parser.old.at ≤ parser.new.at }
{
    let mut fields = Vec::new(alloc);
    match items_to_end(alloc, parser, &mut fields) {
        Ok(()) => Ok(Producers { fields }),
        Err(error) => Err(error),
    }
}

/// What stands in the group of the annotation `@producers`, from the annotation on.
impl<'a> Parse<'a> for Producers<'a> {
    ghost use Rattle.wast_grammar.specs.CoreRows.{producers};
    ghost use Rattle.core_syntax.specs.CoreLaws.{readable_producers};
    ghost use Rattle.core_syntax.specs.CoreView.{producers_view};
    ghost use Rattle.wast_parser.specs.Standing.{by_view};

    ghost grammar = { producers };

    ghost is_sound = { readable_producers.0 };

    ghost is_clear = { readable_producers.1 };

    ghost stands = { by_view producers_view };

    #[tactic(auto, unfolding(wast_grammar::specs::CoreRows::producers))]
    fn parse(alloc: Global, parser: &mut Parser<'a>) -> Result<Producers<'a>, Error> {
        take_note(parser, "producers")?;
        let producers = all_producers(alloc, parser)?;
        Ok(producers)
    }
}

impl<'a> ParseView<'a> for Producers<'a> {
    ghost use Rattle.core_syntax.specs.CoreView.{producers_view};

    ghost view = { producers_view };

    ghost is_view = { λ x v h. h };
}
