//! A choice that depends on the token behind the next one.

use crate::words::{group_of, is_group_of};
use std::alloc::Global;
use wast_parser::{Error, Parse, Parser};

/// A part of a signature: `"(" "param" num ")"` or `"(" "result" num ")"`.
#[derive(Clone, Copy, PartialEq, Eq, Debug, Drop)]
pub enum Part {
    /// A parameter.
    Param(u32),
    /// A result.
    Result(u32),
}

impl<'a> Parse<'a> for Part {
    ghost use Rattle.std.specs.Prelude.{refl};
    ghost use Rattle.wast_readers_tests.specs.Rows.{part};
    ghost use Rattle.wast_readers_tests.specs.View.{part_view};
    ghost use Rattle.wast_parser.specs.Standing.{by_view};

    ghost grammar = { part };

    ghost is_sound = { refl };

    ghost is_clear = { refl };

    ghost stands = { by_view part_view };

    fn parse(alloc: Global, parser: &mut Parser<'a>) -> Result<Part, Error> {
        if is_group_of(parser.cursor(), "param") {
            return Ok(Part::Param(group_of(alloc, parser, "param")?));
        }
        Ok(Part::Result(group_of(alloc, parser, "result")?))
    }
}
