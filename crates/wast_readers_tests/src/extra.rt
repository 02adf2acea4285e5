//! A word that has no type of its own in `wast_parser`, looked for with a cursor.

use std::alloc::Global;
use wast_parser::{Error, Parse, Parser};

/// A number behind a word of one's own: `"(" "extra" num ")"`.
#[derive(Clone, Copy, PartialEq, Eq, Debug, Drop)]
pub struct Extra {
    /// The number.
    pub number: u32,
}

impl<'a> Parse<'a> for Extra {
    ghost use Rattle.std.specs.Prelude.{refl};
    ghost use Rattle.wast_grammar.specs.Grammar.{group, word, leaf, a_number, num};
    ghost use Rattle.wast_parser.specs.Standing.{by_view};

    ghost grammar = { group (word "extra" (leaf a_number)) };

    ghost is_sound = { refl };

    ghost is_clear = { refl };

    ghost stands = { by_view (λ e. num e.number) };

    fn parse(alloc: Global, parser: &mut Parser<'a>) -> Result<Extra, Error> {
        parser.enter()?;
        match parser.cursor().keyword() {
            Some((word, behind)) if word == "extra" => parser.advance(behind),
            _ => return Err(parser.error()),
        }
        let number = parser.parse::<u32>(alloc)?;
        parser.leave()?;
        Ok(Extra { number })
    }
}
