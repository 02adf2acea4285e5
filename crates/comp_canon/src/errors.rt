//! Built-ins of error contexts (Component Model, "Canonical Definitions").

ghost use Rattle.std.specs.Prelude.{◌≡◌};
ghost use Rattle.comp_model.specs.Rows.{leaves_of};
ghost use Rattle.comp_model.specs.declared.row.Row.TheVariants as rows;
ghost use Rattle.text_rules.specs.Rule.{reads};
ghost use Rattle.text_table.specs.Code.{rule_of};
ghost use Rattle.typed_parts.specs.Leaves.{left_by};
ghost use Rattle.wast_parser.specs.Standing.{by_relation};
ghost use Rattle.comp_canon.specs.LineLaws.{error_context_new_reads, error_context_debug_message_reads};
ghost use Rattle.comp_canon.specs.Lines.{error_context_new, error_context_debug_message};
ghost use Rattle.comp_canon.specs.Stands.{error_context_new_leaves, error_context_debug_message_leaves};

use crate::lines::built_in;
use bumpalo::Bump;
use comp_items::CanonOpt;
use comp_tree::Leaf;
use std::alloc::{AllocError, Global};
use text_table::rule::Rule;
use token_codes::numbers as word;
use typed_nodes::{one_from, one_into};
use typed_parts::{OfLeaves, parse_leaves};
use wast_parser::{Error, Parse, Parser};

/// What makes an error context.
#[derive(Drop)]
pub struct CanonErrorContextNew<'a> {
    /// The options, in the order of the text.
    pub opts: Vec<CanonOpt<'a>>,
}

impl<'a> OfLeaves<'a> for CanonErrorContextNew<'a> {
    ghost line = { error_context_new };

    ghost is_readable = { error_context_new_reads.taken };

    ghost shapes = { leaves_of rows.ErrorContextNew };

    ghost is_of_shapes = { error_context_new_reads.shaped };

    ghost leaves = { error_context_new_leaves };

    fn rule() -> &'static Rule<'static>
        ensures { rule_of result.now ≡ error_context_new }
    {
        built_in(word::ERROR_CONTEXT_NEW)
    }

    fn into_tree<'t>(
        &self,
        alloc: Global,
        bump: &'t Bump,
    ) -> Result<&'t [Leaf<'t, 'a>], AllocError> {
        one_into::<Vec<CanonOpt<'a>>>(alloc, bump, &self.opts)
    }

    fn from_tree(
        alloc: Global,
        bump: &'a Bump,
        parts: &[Leaf<'_, 'a>],
    ) -> Result<CanonErrorContextNew<'a>, AllocError> {
        let opts = one_from::<Vec<CanonOpt<'a>>>(alloc, bump, parts)?;
        Ok(CanonErrorContextNew { opts })
    }
}

/// `"error-context.new" opt*`.
impl<'a> Parse<'a> for CanonErrorContextNew<'a> {
    ghost grammar = { reads error_context_new };

    ghost is_sound = { error_context_new_reads.read_on };

    ghost is_clear = { error_context_new_reads.decided };

    ghost stands = { by_relation (λ x v. error_context_new_leaves x ≡ left_by error_context_new v) };

    fn parse(alloc: Global, parser: &mut Parser<'a>) -> Result<CanonErrorContextNew<'a>, Error> {
        parse_leaves::<CanonErrorContextNew<'a>>(alloc, parser)
    }
}

/// What gives the message of an error context.
#[derive(Drop)]
pub struct CanonErrorContextDebugMessage<'a> {
    /// The options, in the order of the text.
    pub opts: Vec<CanonOpt<'a>>,
}

impl<'a> OfLeaves<'a> for CanonErrorContextDebugMessage<'a> {
    ghost line = { error_context_debug_message };

    ghost is_readable = { error_context_debug_message_reads.taken };

    ghost shapes = { leaves_of rows.ErrorContextDebugMessage };

    ghost is_of_shapes = { error_context_debug_message_reads.shaped };

    ghost leaves = { error_context_debug_message_leaves };

    fn rule() -> &'static Rule<'static>
        ensures { rule_of result.now ≡ error_context_debug_message }
    {
        built_in(word::ERROR_CONTEXT_DEBUG_MESSAGE)
    }

    fn into_tree<'t>(
        &self,
        alloc: Global,
        bump: &'t Bump,
    ) -> Result<&'t [Leaf<'t, 'a>], AllocError> {
        one_into::<Vec<CanonOpt<'a>>>(alloc, bump, &self.opts)
    }

    fn from_tree(
        alloc: Global,
        bump: &'a Bump,
        parts: &[Leaf<'_, 'a>],
    ) -> Result<CanonErrorContextDebugMessage<'a>, AllocError> {
        let opts = one_from::<Vec<CanonOpt<'a>>>(alloc, bump, parts)?;
        Ok(CanonErrorContextDebugMessage { opts })
    }
}

/// `"error-context.debug-message" opt*`.
impl<'a> Parse<'a> for CanonErrorContextDebugMessage<'a> {
    ghost grammar = { reads error_context_debug_message };

    ghost is_sound = { error_context_debug_message_reads.read_on };

    ghost is_clear = { error_context_debug_message_reads.decided };

    ghost stands = { by_relation (λ x v. error_context_debug_message_leaves x ≡ left_by error_context_debug_message v) };

    fn parse(
        alloc: Global,
        parser: &mut Parser<'a>,
    ) -> Result<CanonErrorContextDebugMessage<'a>, Error> {
        parse_leaves::<CanonErrorContextDebugMessage<'a>>(alloc, parser)
    }
}
