//! The readers of the types of globals.

use crate::types::ValType;
use core_parts::{Part, is_group_of, word_group};
use std::alloc::Global;
use wast_parser::{Error, Parser};

/// The type of a global, and whether it is mutable.
#[derive(Drop)]
pub(crate) struct GlobalType<'a> {
    pub(crate) ty: ValType<'a>,
    pub(crate) mutable: bool,
}

impl<'a> Part<'a> for GlobalType<'a> {
    ghost use Rattle.wast_grammar.specs.CoreRows.{global_type};
    ghost use Rattle.core_syntax.specs.CoreView.{global_type_view};

    ghost part_row = { global_type };

    ghost view = { λ x. global_type_view (x.ty, x.mutable) };

    #[tactic(auto, unfolding(wast_grammar::specs::CoreRows::global_type))]
    fn part(alloc: Global, parser: &mut Parser<'a>) -> Result<GlobalType<'a>, Error> {
        if is_group_of(parser.cursor(), "mut") {
            return match word_group::<ValType<'a>>(alloc, parser, "mut") {
                Ok(ty) => Ok(GlobalType { ty, mutable: true }),
                Err(error) => Err(error),
            };
        }
        match parser.parse::<ValType<'a>>(alloc) {
            Ok(ty) => Ok(GlobalType { ty, mutable: false }),
            Err(error) => Err(error),
        }
    }
}
