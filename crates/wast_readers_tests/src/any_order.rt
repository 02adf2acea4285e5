//! Parts of which each stands at most once, in any order.

ghost use Rattle.std.specs.Prelude.{◌≡◌, ◌≤◌, ◌∷◌, [], ◌&&◌, not};
ghost use Rattle.std.specs.Option.{is_some};
ghost use Rattle.wast_grammar.specs.Classes.{opening, keyword};
ghost use Rattle.wast_grammar.specs.Grammar.{next2, holds};
ghost use Rattle.wast_grammar.specs.Read.{Gives, read};
ghost use Rattle.wast_readers_tests.specs.Rows.{attributes};
ghost use Rattle.wast_readers_tests.specs.View.{attributes_view};

use crate::words::{group_of, is_group_of};
use std::alloc::Global;
use wast_parser::{Error, Parse, Parser};

/// What may be said of an access, each at most once: `"(" "align" num ")"`, `"(" "offset" num ")"`, `"(" "page" num ")"`.
#[derive(Clone, Copy, PartialEq, Eq, Debug, Drop)]
pub struct Attributes {
    /// How it is aligned.
    pub align: Option<u32>,
    /// Where it begins.
    pub offset: Option<u32>,
    /// In which page it is.
    pub page: Option<u32>,
}

/// Whether an attribute begins here, which wasn't found before.
fn begins(parser: &Parser<'_>, found: Option<u32>, word: &str) -> bool
    ensures next { result ≡ (not (is_some found) && holds (next2 opening (keyword word.now ∷ [])) parser.now) }
{
    found.is_none() && is_group_of(parser.cursor(), word)
}

/// Reads attributes until none begins that wasn't found before.
fn all_attributes(alloc: Global, parser: &mut Parser<'_>) -> Result<Attributes, Error>
    ensures gives { Gives attributes_view result parser.new (read attributes parser.old) }
    ensures text { parser.new.text ≡ parser.old.text }
    ensures forward { parser.old.at ≤ parser.new.at }
{
    let mut align = None;
    let mut offset = None;
    let mut page = None;
    'parts: loop {
        if begins(parser, align, "align") {
            align = Some(group_of(alloc, parser, "align")?);
        } else if begins(parser, offset, "offset") {
            offset = Some(group_of(alloc, parser, "offset")?);
        } else if begins(parser, page, "page") {
            page = Some(group_of(alloc, parser, "page")?);
        } else {
            return Ok(Attributes {
                align,
                offset,
                page,
            });
        }
    }
}

impl<'a> Parse<'a> for Attributes {
    ghost use Rattle.wast_readers_tests.specs.Laws.{sound_attributes, clear_attributes};
    ghost use Rattle.wast_parser.specs.Standing.{by_view};

    ghost grammar = { attributes };

    ghost is_sound = { sound_attributes };

    ghost is_clear = { clear_attributes };

    ghost stands = { by_view attributes_view };

    fn parse(alloc: Global, parser: &mut Parser<'a>) -> Result<Attributes, Error> {
        all_attributes(alloc, parser)
    }
}
