//! One of several, whose number stands in the value.

ghost use Rattle.std.specs.Prelude.{◌≡◌, ◌≤◌};
ghost use Rattle.wast_grammar.specs.Grammar.{word, leaf, a_text, text};
ghost use Rattle.wast_grammar.specs.Read.{Gives, read};

use crate::words::{is_word, take_word, word_and_number};
use std::alloc::Global;
use wast_parser::{Error, Parse, Parser};

/// A setting: `"size" num | "name" text | "off"`.
#[derive(Clone, Copy, PartialEq, Eq, Debug, Drop)]
pub enum Setting<'a> {
    /// A size.
    Size(u32),
    /// A name.
    Name(&'a str),
    /// Nothing is set.
    Off,
}

/// Reads `"name" text`.
fn name<'a>(alloc: Global, parser: &mut Parser<'a>) -> Result<&'a str, Error>
    ensures gives { Gives (λ n. text n.now) result parser.new (read (word "name" (leaf a_text)) parser.old) }
    ensures text { parser.new.text ≡ parser.old.text }
    ensures forward { parser.old.at ≤ parser.new.at }
{
    take_word(parser, "name")?;
    let name = parser.parse::<&'a str>(alloc)?;
    Ok(name)
}

impl<'a> Parse<'a> for Setting<'a> {
    ghost use Rattle.std.specs.Prelude.{refl};
    ghost use Rattle.wast_readers_tests.specs.Rows.{setting};
    ghost use Rattle.wast_readers_tests.specs.View.{setting_view};
    ghost use Rattle.wast_parser.specs.Standing.{by_view};

    ghost grammar = { setting };

    ghost is_sound = { refl };

    ghost is_clear = { refl };

    ghost stands = { by_view setting_view };

    fn parse(alloc: Global, parser: &mut Parser<'a>) -> Result<Setting<'a>, Error> {
        if is_word(parser.cursor(), "size") {
            return Ok(Setting::Size(word_and_number(alloc, parser, "size")?));
        }
        if is_word(parser.cursor(), "name") {
            return Ok(Setting::Name(name(alloc, parser)?));
        }
        take_word(parser, "off")?;
        Ok(Setting::Off)
    }
}
