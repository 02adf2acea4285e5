//! A part that is there only where references are read in their older forms too.

ghost use Rattle.std.specs.Prelude.{◌≡◌, ◌≤◌};
ghost use Rattle.wast_grammar.specs.Grammar.{group, leaf, a_number, num};
ghost use Rattle.wast_grammar.specs.Read.{Gives, read};

use std::alloc::Global;
use wast_parser::{Error, Parse, Parser};

/// A limit: `num`, and in the older form also `"(" num ")"`.
#[derive(Clone, Copy, PartialEq, Eq, Debug, Drop)]
pub enum Limit {
    /// A number in parentheses.
    Grouped(u32),
    /// A number.
    Plain(u32),
}

/// Reads `"(" num ")"`.
fn grouped(alloc: Global, parser: &mut Parser<'_>) -> Result<u32, Error>
    ensures gives { Gives num result parser.new (read (group (leaf a_number)) parser.old) }
    ensures text { parser.new.text ≡ parser.old.text }
    ensures forward { parser.old.at ≤ parser.new.at }
{
    parser.enter()?;
    let number = parser.parse::<u32>(alloc)?;
    parser.leave()?;
    Ok(number)
}

impl<'a> Parse<'a> for Limit {
    ghost use Rattle.std.specs.Prelude.{refl};
    ghost use Rattle.wast_readers_tests.specs.Rows.{limit};
    ghost use Rattle.wast_readers_tests.specs.View.{limit_view};
    ghost use Rattle.wast_parser.specs.Standing.{by_view};

    ghost grammar = { limit };

    ghost is_sound = { refl };

    ghost is_clear = { refl };

    ghost stands = { by_view limit_view };

    fn parse(alloc: Global, parser: &mut Parser<'a>) -> Result<Limit, Error> {
        if parser.legacy() && parser.cursor().lparen().is_some() {
            return Ok(Limit::Grouped(grouped(alloc, parser)?));
        }
        Ok(Limit::Plain(parser.parse::<u32>(alloc)?))
    }
}
