//! Built-ins of futures (Component Model, "Canonical Definitions").

ghost use Rattle.std.specs.Prelude.{◌≡◌};
ghost use Rattle.comp_model.specs.Rows.{leaves_of};
ghost use Rattle.comp_model.specs.declared.row.Row.TheVariants as rows;
ghost use Rattle.text_rules.specs.Rule.{reads};
ghost use Rattle.text_table.specs.Code.{rule_of};
ghost use Rattle.typed_parts.specs.Leaves.{left_by};
ghost use Rattle.wast_parser.specs.Standing.{by_relation};
ghost use Rattle.comp_canon.specs.LineLaws.{future_new_reads, future_read_reads, future_write_reads, future_forward_reads, future_cancel_read_reads, future_cancel_write_reads, future_drop_readable_reads, future_drop_writable_reads};
ghost use Rattle.comp_canon.specs.Lines.{future_new, future_read, future_write, future_forward, future_cancel_read, future_cancel_write, future_drop_readable, future_drop_writable};
ghost use Rattle.comp_canon.specs.Stands.{future_new_leaves, future_read_leaves, future_write_leaves, future_forward_leaves, future_cancel_read_leaves, future_cancel_write_leaves, future_drop_readable_leaves, future_drop_writable_leaves};

use crate::lines::built_in;
use bumpalo::Bump;
use comp_items::{CanonOpt, ItemRef};
use comp_tree::Leaf;
use std::alloc::{AllocError, Global};
use text_table::rule::Rule;
use token_codes::numbers as word;
use typed_nodes::{one_from, one_into, two_from, two_into};
use typed_parts::{OfLeaves, parse_leaves};
use wast_parser::{Error, Parse, Parser, kw};

/// What makes a future.
#[derive(Drop)]
pub struct CanonFutureNew<'a> {
    /// The type of the future.
    pub ty: ItemRef<'a, kw::type_>,
}

impl<'a> OfLeaves<'a> for CanonFutureNew<'a> {
    ghost line = { future_new };

    ghost is_readable = { future_new_reads.taken };

    ghost shapes = { leaves_of rows.FutureNew };

    ghost is_of_shapes = { future_new_reads.shaped };

    ghost leaves = { future_new_leaves };

    fn rule() -> &'static Rule<'static>
        ensures { rule_of result.now ≡ future_new }
    {
        built_in(word::FUTURE_NEW)
    }

    fn into_tree<'t>(
        &self,
        alloc: Global,
        bump: &'t Bump,
    ) -> Result<&'t [Leaf<'t, 'a>], AllocError> {
        one_into::<ItemRef<'a, kw::type_>>(alloc, bump, &self.ty)
    }

    fn from_tree(
        alloc: Global,
        bump: &'a Bump,
        parts: &[Leaf<'_, 'a>],
    ) -> Result<CanonFutureNew<'a>, AllocError> {
        let ty = one_from::<ItemRef<'a, kw::type_>>(alloc, bump, parts)?;
        Ok(CanonFutureNew { ty })
    }
}

/// `"future.new" ior("type")`.
impl<'a> Parse<'a> for CanonFutureNew<'a> {
    ghost grammar = { reads future_new };

    ghost is_sound = { future_new_reads.read_on };

    ghost is_clear = { future_new_reads.decided };

    ghost stands = { by_relation (λ x v. future_new_leaves x ≡ left_by future_new v) };

    fn parse(alloc: Global, parser: &mut Parser<'a>) -> Result<CanonFutureNew<'a>, Error> {
        parse_leaves::<CanonFutureNew<'a>>(alloc, parser)
    }
}

/// What reads from a future.
#[derive(Drop)]
pub struct CanonFutureRead<'a> {
    /// The type of the future.
    pub ty: ItemRef<'a, kw::type_>,
    /// The options, in the order of the text.
    pub opts: Vec<CanonOpt<'a>>,
}

impl<'a> OfLeaves<'a> for CanonFutureRead<'a> {
    ghost line = { future_read };

    ghost is_readable = { future_read_reads.taken };

    ghost shapes = { leaves_of rows.FutureRead };

    ghost is_of_shapes = { future_read_reads.shaped };

    ghost leaves = { future_read_leaves };

    fn rule() -> &'static Rule<'static>
        ensures { rule_of result.now ≡ future_read }
    {
        built_in(word::FUTURE_READ)
    }

    fn into_tree<'t>(
        &self,
        alloc: Global,
        bump: &'t Bump,
    ) -> Result<&'t [Leaf<'t, 'a>], AllocError> {
        two_into::<ItemRef<'a, kw::type_>, Vec<CanonOpt<'a>>>(alloc, bump, &self.ty, &self.opts)
    }

    fn from_tree(
        alloc: Global,
        bump: &'a Bump,
        parts: &[Leaf<'_, 'a>],
    ) -> Result<CanonFutureRead<'a>, AllocError> {
        let (ty, opts) = two_from::<ItemRef<'a, kw::type_>, Vec<CanonOpt<'a>>>(alloc, bump, parts)?;
        Ok(CanonFutureRead { ty, opts })
    }
}

/// `"future.read" ior("type") opt*`.
impl<'a> Parse<'a> for CanonFutureRead<'a> {
    ghost grammar = { reads future_read };

    ghost is_sound = { future_read_reads.read_on };

    ghost is_clear = { future_read_reads.decided };

    ghost stands = { by_relation (λ x v. future_read_leaves x ≡ left_by future_read v) };

    fn parse(alloc: Global, parser: &mut Parser<'a>) -> Result<CanonFutureRead<'a>, Error> {
        parse_leaves::<CanonFutureRead<'a>>(alloc, parser)
    }
}

/// What writes to a future.
#[derive(Drop)]
pub struct CanonFutureWrite<'a> {
    /// The type of the future.
    pub ty: ItemRef<'a, kw::type_>,
    /// The options, in the order of the text.
    pub opts: Vec<CanonOpt<'a>>,
}

impl<'a> OfLeaves<'a> for CanonFutureWrite<'a> {
    ghost line = { future_write };

    ghost is_readable = { future_write_reads.taken };

    ghost shapes = { leaves_of rows.FutureWrite };

    ghost is_of_shapes = { future_write_reads.shaped };

    ghost leaves = { future_write_leaves };

    fn rule() -> &'static Rule<'static>
        ensures { rule_of result.now ≡ future_write }
    {
        built_in(word::FUTURE_WRITE)
    }

    fn into_tree<'t>(
        &self,
        alloc: Global,
        bump: &'t Bump,
    ) -> Result<&'t [Leaf<'t, 'a>], AllocError> {
        two_into::<ItemRef<'a, kw::type_>, Vec<CanonOpt<'a>>>(alloc, bump, &self.ty, &self.opts)
    }

    fn from_tree(
        alloc: Global,
        bump: &'a Bump,
        parts: &[Leaf<'_, 'a>],
    ) -> Result<CanonFutureWrite<'a>, AllocError> {
        let (ty, opts) = two_from::<ItemRef<'a, kw::type_>, Vec<CanonOpt<'a>>>(alloc, bump, parts)?;
        Ok(CanonFutureWrite { ty, opts })
    }
}

/// `"future.write" ior("type") opt*`.
impl<'a> Parse<'a> for CanonFutureWrite<'a> {
    ghost grammar = { reads future_write };

    ghost is_sound = { future_write_reads.read_on };

    ghost is_clear = { future_write_reads.decided };

    ghost stands = { by_relation (λ x v. future_write_leaves x ≡ left_by future_write v) };

    fn parse(alloc: Global, parser: &mut Parser<'a>) -> Result<CanonFutureWrite<'a>, Error> {
        parse_leaves::<CanonFutureWrite<'a>>(alloc, parser)
    }
}

/// What joins the ends of two futures.
#[derive(Drop)]
pub struct CanonFutureForward<'a> {
    /// The type of the future.
    pub ty: ItemRef<'a, kw::type_>,
}

impl<'a> OfLeaves<'a> for CanonFutureForward<'a> {
    ghost line = { future_forward };

    ghost is_readable = { future_forward_reads.taken };

    ghost shapes = { leaves_of rows.FutureForward };

    ghost is_of_shapes = { future_forward_reads.shaped };

    ghost leaves = { future_forward_leaves };

    fn rule() -> &'static Rule<'static>
        ensures { rule_of result.now ≡ future_forward }
    {
        built_in(word::FUTURE_FORWARD)
    }

    fn into_tree<'t>(
        &self,
        alloc: Global,
        bump: &'t Bump,
    ) -> Result<&'t [Leaf<'t, 'a>], AllocError> {
        one_into::<ItemRef<'a, kw::type_>>(alloc, bump, &self.ty)
    }

    fn from_tree(
        alloc: Global,
        bump: &'a Bump,
        parts: &[Leaf<'_, 'a>],
    ) -> Result<CanonFutureForward<'a>, AllocError> {
        let ty = one_from::<ItemRef<'a, kw::type_>>(alloc, bump, parts)?;
        Ok(CanonFutureForward { ty })
    }
}

/// `"future.forward" ior("type")`.
impl<'a> Parse<'a> for CanonFutureForward<'a> {
    ghost grammar = { reads future_forward };

    ghost is_sound = { future_forward_reads.read_on };

    ghost is_clear = { future_forward_reads.decided };

    ghost stands = { by_relation (λ x v. future_forward_leaves x ≡ left_by future_forward v) };

    fn parse(alloc: Global, parser: &mut Parser<'a>) -> Result<CanonFutureForward<'a>, Error> {
        parse_leaves::<CanonFutureForward<'a>>(alloc, parser)
    }
}

/// What cancels a read from a future.
#[derive(Drop)]
pub struct CanonFutureCancelRead<'a> {
    /// The type of the future.
    pub ty: ItemRef<'a, kw::type_>,
    /// Whether the call is asynchronous.
    pub async_: bool,
}

impl<'a> OfLeaves<'a> for CanonFutureCancelRead<'a> {
    ghost line = { future_cancel_read };

    ghost is_readable = { future_cancel_read_reads.taken };

    ghost shapes = { leaves_of rows.FutureCancelRead };

    ghost is_of_shapes = { future_cancel_read_reads.shaped };

    ghost leaves = { future_cancel_read_leaves };

    fn rule() -> &'static Rule<'static>
        ensures { rule_of result.now ≡ future_cancel_read }
    {
        built_in(word::FUTURE_CANCEL_READ)
    }

    fn into_tree<'t>(
        &self,
        alloc: Global,
        bump: &'t Bump,
    ) -> Result<&'t [Leaf<'t, 'a>], AllocError> {
        two_into::<ItemRef<'a, kw::type_>, bool>(alloc, bump, &self.ty, &self.async_)
    }

    fn from_tree(
        alloc: Global,
        bump: &'a Bump,
        parts: &[Leaf<'_, 'a>],
    ) -> Result<CanonFutureCancelRead<'a>, AllocError> {
        let (ty, async_) = two_from::<ItemRef<'a, kw::type_>, bool>(alloc, bump, parts)?;
        Ok(CanonFutureCancelRead { ty, async_ })
    }
}

/// `"future.cancel-read" ior("type") "async"?`.
impl<'a> Parse<'a> for CanonFutureCancelRead<'a> {
    ghost grammar = { reads future_cancel_read };

    ghost is_sound = { future_cancel_read_reads.read_on };

    ghost is_clear = { future_cancel_read_reads.decided };

    ghost stands = { by_relation (λ x v. future_cancel_read_leaves x ≡ left_by future_cancel_read v) };

    fn parse(alloc: Global, parser: &mut Parser<'a>) -> Result<CanonFutureCancelRead<'a>, Error> {
        parse_leaves::<CanonFutureCancelRead<'a>>(alloc, parser)
    }
}

/// What cancels a write to a future.
#[derive(Drop)]
pub struct CanonFutureCancelWrite<'a> {
    /// The type of the future.
    pub ty: ItemRef<'a, kw::type_>,
    /// Whether the call is asynchronous.
    pub async_: bool,
}

impl<'a> OfLeaves<'a> for CanonFutureCancelWrite<'a> {
    ghost line = { future_cancel_write };

    ghost is_readable = { future_cancel_write_reads.taken };

    ghost shapes = { leaves_of rows.FutureCancelWrite };

    ghost is_of_shapes = { future_cancel_write_reads.shaped };

    ghost leaves = { future_cancel_write_leaves };

    fn rule() -> &'static Rule<'static>
        ensures { rule_of result.now ≡ future_cancel_write }
    {
        built_in(word::FUTURE_CANCEL_WRITE)
    }

    fn into_tree<'t>(
        &self,
        alloc: Global,
        bump: &'t Bump,
    ) -> Result<&'t [Leaf<'t, 'a>], AllocError> {
        two_into::<ItemRef<'a, kw::type_>, bool>(alloc, bump, &self.ty, &self.async_)
    }

    fn from_tree(
        alloc: Global,
        bump: &'a Bump,
        parts: &[Leaf<'_, 'a>],
    ) -> Result<CanonFutureCancelWrite<'a>, AllocError> {
        let (ty, async_) = two_from::<ItemRef<'a, kw::type_>, bool>(alloc, bump, parts)?;
        Ok(CanonFutureCancelWrite { ty, async_ })
    }
}

/// `"future.cancel-write" ior("type") "async"?`.
impl<'a> Parse<'a> for CanonFutureCancelWrite<'a> {
    ghost grammar = { reads future_cancel_write };

    ghost is_sound = { future_cancel_write_reads.read_on };

    ghost is_clear = { future_cancel_write_reads.decided };

    ghost stands = { by_relation (λ x v. future_cancel_write_leaves x ≡ left_by future_cancel_write v) };

    fn parse(alloc: Global, parser: &mut Parser<'a>) -> Result<CanonFutureCancelWrite<'a>, Error> {
        parse_leaves::<CanonFutureCancelWrite<'a>>(alloc, parser)
    }
}

/// What drops the readable end of a future.
#[derive(Drop)]
pub struct CanonFutureDropReadable<'a> {
    /// The type of the future.
    pub ty: ItemRef<'a, kw::type_>,
}

impl<'a> OfLeaves<'a> for CanonFutureDropReadable<'a> {
    ghost line = { future_drop_readable };

    ghost is_readable = { future_drop_readable_reads.taken };

    ghost shapes = { leaves_of rows.FutureDropReadable };

    ghost is_of_shapes = { future_drop_readable_reads.shaped };

    ghost leaves = { future_drop_readable_leaves };

    fn rule() -> &'static Rule<'static>
        ensures { rule_of result.now ≡ future_drop_readable }
    {
        built_in(word::FUTURE_DROP_READABLE)
    }

    fn into_tree<'t>(
        &self,
        alloc: Global,
        bump: &'t Bump,
    ) -> Result<&'t [Leaf<'t, 'a>], AllocError> {
        one_into::<ItemRef<'a, kw::type_>>(alloc, bump, &self.ty)
    }

    fn from_tree(
        alloc: Global,
        bump: &'a Bump,
        parts: &[Leaf<'_, 'a>],
    ) -> Result<CanonFutureDropReadable<'a>, AllocError> {
        let ty = one_from::<ItemRef<'a, kw::type_>>(alloc, bump, parts)?;
        Ok(CanonFutureDropReadable { ty })
    }
}

/// `"future.drop-readable" ior("type")`.
impl<'a> Parse<'a> for CanonFutureDropReadable<'a> {
    ghost grammar = { reads future_drop_readable };

    ghost is_sound = { future_drop_readable_reads.read_on };

    ghost is_clear = { future_drop_readable_reads.decided };

    ghost stands = { by_relation (λ x v. future_drop_readable_leaves x ≡ left_by future_drop_readable v) };

    fn parse(alloc: Global, parser: &mut Parser<'a>) -> Result<CanonFutureDropReadable<'a>, Error> {
        parse_leaves::<CanonFutureDropReadable<'a>>(alloc, parser)
    }
}

/// What drops the writable end of a future.
#[derive(Drop)]
pub struct CanonFutureDropWritable<'a> {
    /// The type of the future.
    pub ty: ItemRef<'a, kw::type_>,
}

impl<'a> OfLeaves<'a> for CanonFutureDropWritable<'a> {
    ghost line = { future_drop_writable };

    ghost is_readable = { future_drop_writable_reads.taken };

    ghost shapes = { leaves_of rows.FutureDropWritable };

    ghost is_of_shapes = { future_drop_writable_reads.shaped };

    ghost leaves = { future_drop_writable_leaves };

    fn rule() -> &'static Rule<'static>
        ensures { rule_of result.now ≡ future_drop_writable }
    {
        built_in(word::FUTURE_DROP_WRITABLE)
    }

    fn into_tree<'t>(
        &self,
        alloc: Global,
        bump: &'t Bump,
    ) -> Result<&'t [Leaf<'t, 'a>], AllocError> {
        one_into::<ItemRef<'a, kw::type_>>(alloc, bump, &self.ty)
    }

    fn from_tree(
        alloc: Global,
        bump: &'a Bump,
        parts: &[Leaf<'_, 'a>],
    ) -> Result<CanonFutureDropWritable<'a>, AllocError> {
        let ty = one_from::<ItemRef<'a, kw::type_>>(alloc, bump, parts)?;
        Ok(CanonFutureDropWritable { ty })
    }
}

/// `"future.drop-writable" ior("type")`.
impl<'a> Parse<'a> for CanonFutureDropWritable<'a> {
    ghost grammar = { reads future_drop_writable };

    ghost is_sound = { future_drop_writable_reads.read_on };

    ghost is_clear = { future_drop_writable_reads.decided };

    ghost stands = { by_relation (λ x v. future_drop_writable_leaves x ≡ left_by future_drop_writable v) };

    fn parse(alloc: Global, parser: &mut Parser<'a>) -> Result<CanonFutureDropWritable<'a>, Error> {
        parse_leaves::<CanonFutureDropWritable<'a>>(alloc, parser)
    }
}
