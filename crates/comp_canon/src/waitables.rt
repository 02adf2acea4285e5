//! Built-ins of sets of waitables (Component Model, "Canonical Definitions").

ghost use Rattle.std.specs.Prelude.{◌≡◌};
ghost use Rattle.comp_model.specs.Rows.{leaves_of};
ghost use Rattle.comp_model.specs.declared.row.Row.TheVariants as rows;
ghost use Rattle.text_rules.specs.Rule.{reads};
ghost use Rattle.text_table.specs.Code.{rule_of};
ghost use Rattle.typed_parts.specs.Leaves.{left_by};
ghost use Rattle.wast_parser.specs.Standing.{by_relation};
ghost use Rattle.comp_canon.specs.LineLaws.{waitable_set_wait_reads, waitable_set_poll_reads};
ghost use Rattle.comp_canon.specs.Lines.{waitable_set_wait, waitable_set_poll};
ghost use Rattle.comp_canon.specs.Stands.{waitable_set_wait_leaves, waitable_set_poll_leaves};

use crate::lines::built_in;
use bumpalo::Bump;
use comp_items::CoreItemRef;
use comp_tree::Leaf;
use std::alloc::{AllocError, Global};
use text_table::rule::Rule;
use token_codes::numbers as word;
use typed_nodes::{one_from, one_into};
use typed_parts::{OfLeaves, parse_leaves};
use wast_parser::{Error, Parse, Parser, kw};

/// What waits for an event of a set.
#[derive(Drop)]
pub struct CanonWaitableSetWait<'a> {
    /// The memory into which events are written.
    pub memory: CoreItemRef<'a, kw::memory>,
}

impl<'a> OfLeaves<'a> for CanonWaitableSetWait<'a> {
    ghost line = { waitable_set_wait };

    ghost is_readable = { waitable_set_wait_reads.taken };

    ghost shapes = { leaves_of rows.WaitableSetWait };

    ghost is_of_shapes = { waitable_set_wait_reads.shaped };

    ghost leaves = { waitable_set_wait_leaves };

    fn rule() -> &'static Rule<'static>
        ensures { rule_of result.now ≡ waitable_set_wait }
    {
        built_in(word::WAITABLE_SET_WAIT)
    }

    fn into_tree<'t>(
        &self,
        alloc: Global,
        bump: &'t Bump,
    ) -> Result<&'t [Leaf<'t, 'a>], AllocError> {
        one_into::<CoreItemRef<'a, kw::memory>>(alloc, bump, &self.memory)
    }

    fn from_tree(
        alloc: Global,
        bump: &'a Bump,
        parts: &[Leaf<'_, 'a>],
    ) -> Result<CanonWaitableSetWait<'a>, AllocError> {
        let memory = one_from::<CoreItemRef<'a, kw::memory>>(alloc, bump, parts)?;
        Ok(CanonWaitableSetWait { memory })
    }
}

/// `"waitable-set.wait" "(" "memory" memory ")"`.
impl<'a> Parse<'a> for CanonWaitableSetWait<'a> {
    ghost grammar = { reads waitable_set_wait };

    ghost is_sound = { waitable_set_wait_reads.read_on };

    ghost is_clear = { waitable_set_wait_reads.decided };

    ghost stands = { by_relation (λ x v. waitable_set_wait_leaves x ≡ left_by waitable_set_wait v) };

    fn parse(alloc: Global, parser: &mut Parser<'a>) -> Result<CanonWaitableSetWait<'a>, Error> {
        parse_leaves::<CanonWaitableSetWait<'a>>(alloc, parser)
    }
}

/// What asks whether a set has an event.
#[derive(Drop)]
pub struct CanonWaitableSetPoll<'a> {
    /// The memory into which events are written.
    pub memory: CoreItemRef<'a, kw::memory>,
}

impl<'a> OfLeaves<'a> for CanonWaitableSetPoll<'a> {
    ghost line = { waitable_set_poll };

    ghost is_readable = { waitable_set_poll_reads.taken };

    ghost shapes = { leaves_of rows.WaitableSetPoll };

    ghost is_of_shapes = { waitable_set_poll_reads.shaped };

    ghost leaves = { waitable_set_poll_leaves };

    fn rule() -> &'static Rule<'static>
        ensures { rule_of result.now ≡ waitable_set_poll }
    {
        built_in(word::WAITABLE_SET_POLL)
    }

    fn into_tree<'t>(
        &self,
        alloc: Global,
        bump: &'t Bump,
    ) -> Result<&'t [Leaf<'t, 'a>], AllocError> {
        one_into::<CoreItemRef<'a, kw::memory>>(alloc, bump, &self.memory)
    }

    fn from_tree(
        alloc: Global,
        bump: &'a Bump,
        parts: &[Leaf<'_, 'a>],
    ) -> Result<CanonWaitableSetPoll<'a>, AllocError> {
        let memory = one_from::<CoreItemRef<'a, kw::memory>>(alloc, bump, parts)?;
        Ok(CanonWaitableSetPoll { memory })
    }
}

/// `"waitable-set.poll" "(" "memory" memory ")"`.
impl<'a> Parse<'a> for CanonWaitableSetPoll<'a> {
    ghost grammar = { reads waitable_set_poll };

    ghost is_sound = { waitable_set_poll_reads.read_on };

    ghost is_clear = { waitable_set_poll_reads.decided };

    ghost stands = { by_relation (λ x v. waitable_set_poll_leaves x ≡ left_by waitable_set_poll v) };

    fn parse(alloc: Global, parser: &mut Parser<'a>) -> Result<CanonWaitableSetPoll<'a>, Error> {
        parse_leaves::<CanonWaitableSetPoll<'a>>(alloc, parser)
    }
}
