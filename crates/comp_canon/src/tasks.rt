//! Built-ins of tasks (Component Model, "Canonical Definitions").

ghost use Rattle.std.specs.Prelude.{◌≡◌};
ghost use Rattle.comp_model.specs.Rows.{leaves_of};
ghost use Rattle.comp_model.specs.declared.row.Row.TheVariants as rows;
ghost use Rattle.text_rules.specs.Rule.{reads};
ghost use Rattle.text_table.specs.Code.{rule_of};
ghost use Rattle.typed_parts.specs.Leaves.{left_by};
ghost use Rattle.wast_parser.specs.Standing.{by_relation};
ghost use Rattle.comp_canon.specs.LineLaws.{subtask_cancel_reads};
ghost use Rattle.comp_canon.specs.Lines.{subtask_cancel};
ghost use Rattle.comp_canon.specs.Stands.{subtask_cancel_leaves};

use crate::lines::built_in;
use bumpalo::Bump;
use comp_tree::Leaf;
use std::alloc::{AllocError, Global};
use text_table::rule::Rule;
use token_codes::numbers as word;
use typed_nodes::{one_from, one_into};
use typed_parts::{OfLeaves, parse_leaves};
use wast_parser::{Error, Parse, Parser};

/// What cancels a subtask.
#[derive(Drop)]
pub struct CanonSubtaskCancel {
    /// Whether the call is asynchronous.
    pub async_: bool,
}

impl<'a> OfLeaves<'a> for CanonSubtaskCancel {
    ghost line = { subtask_cancel };

    ghost is_readable = { subtask_cancel_reads.taken };

    ghost shapes = { leaves_of rows.SubtaskCancel };

    ghost is_of_shapes = { subtask_cancel_reads.shaped };

    ghost leaves = { subtask_cancel_leaves };

    fn rule() -> &'static Rule<'static>
        ensures { rule_of result.now ≡ subtask_cancel }
    {
        built_in(word::SUBTASK_CANCEL)
    }

    fn into_tree<'t>(
        &self,
        alloc: Global,
        bump: &'t Bump,
    ) -> Result<&'t [Leaf<'t, 'a>], AllocError> {
        one_into::<'a, bool>(alloc, bump, &self.async_)
    }

    fn from_tree(
        alloc: Global,
        bump: &'a Bump,
        parts: &[Leaf<'_, 'a>],
    ) -> Result<CanonSubtaskCancel, AllocError> {
        let async_ = one_from::<'a, bool>(alloc, bump, parts)?;
        Ok(CanonSubtaskCancel { async_ })
    }
}

/// `"subtask.cancel" "async"?`.
impl<'a> Parse<'a> for CanonSubtaskCancel {
    ghost grammar = { reads subtask_cancel };

    ghost is_sound = { subtask_cancel_reads.read_on };

    ghost is_clear = { subtask_cancel_reads.decided };

    ghost stands = { by_relation (λ x v. subtask_cancel_leaves x ≡ left_by subtask_cancel v) };

    fn parse(alloc: Global, parser: &mut Parser<'a>) -> Result<CanonSubtaskCancel, Error> {
        parse_leaves::<CanonSubtaskCancel>(alloc, parser)
    }
}
