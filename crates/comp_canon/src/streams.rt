//! Built-ins of streams (Component Model, "Canonical Definitions").

ghost use Rattle.std.specs.Prelude.{◌≡◌};
ghost use Rattle.comp_model.specs.Rows.{leaves_of};
ghost use Rattle.comp_model.specs.declared.row.Row.TheVariants as rows;
ghost use Rattle.text_rules.specs.Rule.{reads};
ghost use Rattle.text_table.specs.Code.{rule_of};
ghost use Rattle.typed_parts.specs.Leaves.{left_by};
ghost use Rattle.wast_parser.specs.Standing.{by_relation};
ghost use Rattle.comp_canon.specs.LineLaws.{stream_new_reads, stream_read_reads, stream_write_reads, stream_forward_reads, stream_cancel_read_reads, stream_cancel_write_reads, stream_drop_readable_reads, stream_drop_writable_reads};
ghost use Rattle.comp_canon.specs.Lines.{stream_new, stream_read, stream_write, stream_forward, stream_cancel_read, stream_cancel_write, stream_drop_readable, stream_drop_writable};
ghost use Rattle.comp_canon.specs.Stands.{stream_new_leaves, stream_read_leaves, stream_write_leaves, stream_forward_leaves, stream_cancel_read_leaves, stream_cancel_write_leaves, stream_drop_readable_leaves, stream_drop_writable_leaves};

use crate::lines::built_in;
use bumpalo::Bump;
use comp_items::{CanonOpt, ItemRef};
use comp_tree::Leaf;
use std::alloc::{AllocError, Global};
use text_table::rule::Rule;
use token_codes::numbers as word;
use typed_nodes::{one_from, one_into, two_from, two_into};
use typed_parts::{OfLeaves, parse_leaves};
use wast_parser::{Error, Parse, Parser, kw};

/// What makes a stream.
#[derive(Drop)]
pub struct CanonStreamNew<'a> {
    /// The type of the stream.
    pub ty: ItemRef<'a, kw::type_>,
}

impl<'a> OfLeaves<'a> for CanonStreamNew<'a> {
    ghost line = { stream_new };

    ghost is_readable = { stream_new_reads.taken };

    ghost shapes = { leaves_of rows.StreamNew };

    ghost is_of_shapes = { stream_new_reads.shaped };

    ghost leaves = { stream_new_leaves };

    fn rule() -> &'static Rule<'static>
        ensures { rule_of result.now ≡ stream_new }
    {
        built_in(word::STREAM_NEW)
    }

    fn into_tree<'t>(
        &self,
        alloc: Global,
        bump: &'t Bump,
    ) -> Result<&'t [Leaf<'t, 'a>], AllocError> {
        one_into::<ItemRef<'a, kw::type_>>(alloc, bump, &self.ty)
    }

    fn from_tree(
        alloc: Global,
        bump: &'a Bump,
        parts: &[Leaf<'_, 'a>],
    ) -> Result<CanonStreamNew<'a>, AllocError> {
        let ty = one_from::<ItemRef<'a, kw::type_>>(alloc, bump, parts)?;
        Ok(CanonStreamNew { ty })
    }
}

/// `"stream.new" ior("type")`.
impl<'a> Parse<'a> for CanonStreamNew<'a> {
    ghost grammar = { reads stream_new };

    ghost is_sound = { stream_new_reads.read_on };

    ghost is_clear = { stream_new_reads.decided };

    ghost stands = { by_relation (λ x v. stream_new_leaves x ≡ left_by stream_new v) };

    fn parse(alloc: Global, parser: &mut Parser<'a>) -> Result<CanonStreamNew<'a>, Error> {
        parse_leaves::<CanonStreamNew<'a>>(alloc, parser)
    }
}

/// What reads from a stream.
#[derive(Drop)]
pub struct CanonStreamRead<'a> {
    /// The type of the stream.
    pub ty: ItemRef<'a, kw::type_>,
    /// The options, in the order of the text.
    pub opts: Vec<CanonOpt<'a>>,
}

impl<'a> OfLeaves<'a> for CanonStreamRead<'a> {
    ghost line = { stream_read };

    ghost is_readable = { stream_read_reads.taken };

    ghost shapes = { leaves_of rows.StreamRead };

    ghost is_of_shapes = { stream_read_reads.shaped };

    ghost leaves = { stream_read_leaves };

    fn rule() -> &'static Rule<'static>
        ensures { rule_of result.now ≡ stream_read }
    {
        built_in(word::STREAM_READ)
    }

    fn into_tree<'t>(
        &self,
        alloc: Global,
        bump: &'t Bump,
    ) -> Result<&'t [Leaf<'t, 'a>], AllocError> {
        two_into::<ItemRef<'a, kw::type_>, Vec<CanonOpt<'a>>>(alloc, bump, &self.ty, &self.opts)
    }

    fn from_tree(
        alloc: Global,
        bump: &'a Bump,
        parts: &[Leaf<'_, 'a>],
    ) -> Result<CanonStreamRead<'a>, AllocError> {
        let (ty, opts) = two_from::<ItemRef<'a, kw::type_>, Vec<CanonOpt<'a>>>(alloc, bump, parts)?;
        Ok(CanonStreamRead { ty, opts })
    }
}

/// `"stream.read" ior("type") opt*`.
impl<'a> Parse<'a> for CanonStreamRead<'a> {
    ghost grammar = { reads stream_read };

    ghost is_sound = { stream_read_reads.read_on };

    ghost is_clear = { stream_read_reads.decided };

    ghost stands = { by_relation (λ x v. stream_read_leaves x ≡ left_by stream_read v) };

    fn parse(alloc: Global, parser: &mut Parser<'a>) -> Result<CanonStreamRead<'a>, Error> {
        parse_leaves::<CanonStreamRead<'a>>(alloc, parser)
    }
}

/// What writes to a stream.
#[derive(Drop)]
pub struct CanonStreamWrite<'a> {
    /// The type of the stream.
    pub ty: ItemRef<'a, kw::type_>,
    /// The options, in the order of the text.
    pub opts: Vec<CanonOpt<'a>>,
}

impl<'a> OfLeaves<'a> for CanonStreamWrite<'a> {
    ghost line = { stream_write };

    ghost is_readable = { stream_write_reads.taken };

    ghost shapes = { leaves_of rows.StreamWrite };

    ghost is_of_shapes = { stream_write_reads.shaped };

    ghost leaves = { stream_write_leaves };

    fn rule() -> &'static Rule<'static>
        ensures { rule_of result.now ≡ stream_write }
    {
        built_in(word::STREAM_WRITE)
    }

    fn into_tree<'t>(
        &self,
        alloc: Global,
        bump: &'t Bump,
    ) -> Result<&'t [Leaf<'t, 'a>], AllocError> {
        two_into::<ItemRef<'a, kw::type_>, Vec<CanonOpt<'a>>>(alloc, bump, &self.ty, &self.opts)
    }

    fn from_tree(
        alloc: Global,
        bump: &'a Bump,
        parts: &[Leaf<'_, 'a>],
    ) -> Result<CanonStreamWrite<'a>, AllocError> {
        let (ty, opts) = two_from::<ItemRef<'a, kw::type_>, Vec<CanonOpt<'a>>>(alloc, bump, parts)?;
        Ok(CanonStreamWrite { ty, opts })
    }
}

/// `"stream.write" ior("type") opt*`.
impl<'a> Parse<'a> for CanonStreamWrite<'a> {
    ghost grammar = { reads stream_write };

    ghost is_sound = { stream_write_reads.read_on };

    ghost is_clear = { stream_write_reads.decided };

    ghost stands = { by_relation (λ x v. stream_write_leaves x ≡ left_by stream_write v) };

    fn parse(alloc: Global, parser: &mut Parser<'a>) -> Result<CanonStreamWrite<'a>, Error> {
        parse_leaves::<CanonStreamWrite<'a>>(alloc, parser)
    }
}

/// What joins the ends of two streams.
#[derive(Drop)]
pub struct CanonStreamForward<'a> {
    /// The type of the stream.
    pub ty: ItemRef<'a, kw::type_>,
}

impl<'a> OfLeaves<'a> for CanonStreamForward<'a> {
    ghost line = { stream_forward };

    ghost is_readable = { stream_forward_reads.taken };

    ghost shapes = { leaves_of rows.StreamForward };

    ghost is_of_shapes = { stream_forward_reads.shaped };

    ghost leaves = { stream_forward_leaves };

    fn rule() -> &'static Rule<'static>
        ensures { rule_of result.now ≡ stream_forward }
    {
        built_in(word::STREAM_FORWARD)
    }

    fn into_tree<'t>(
        &self,
        alloc: Global,
        bump: &'t Bump,
    ) -> Result<&'t [Leaf<'t, 'a>], AllocError> {
        one_into::<ItemRef<'a, kw::type_>>(alloc, bump, &self.ty)
    }

    fn from_tree(
        alloc: Global,
        bump: &'a Bump,
        parts: &[Leaf<'_, 'a>],
    ) -> Result<CanonStreamForward<'a>, AllocError> {
        let ty = one_from::<ItemRef<'a, kw::type_>>(alloc, bump, parts)?;
        Ok(CanonStreamForward { ty })
    }
}

/// `"stream.forward" ior("type")`.
impl<'a> Parse<'a> for CanonStreamForward<'a> {
    ghost grammar = { reads stream_forward };

    ghost is_sound = { stream_forward_reads.read_on };

    ghost is_clear = { stream_forward_reads.decided };

    ghost stands = { by_relation (λ x v. stream_forward_leaves x ≡ left_by stream_forward v) };

    fn parse(alloc: Global, parser: &mut Parser<'a>) -> Result<CanonStreamForward<'a>, Error> {
        parse_leaves::<CanonStreamForward<'a>>(alloc, parser)
    }
}

/// What cancels a read from a stream.
#[derive(Drop)]
pub struct CanonStreamCancelRead<'a> {
    /// The type of the stream.
    pub ty: ItemRef<'a, kw::type_>,
    /// Whether the call is asynchronous.
    pub async_: bool,
}

impl<'a> OfLeaves<'a> for CanonStreamCancelRead<'a> {
    ghost line = { stream_cancel_read };

    ghost is_readable = { stream_cancel_read_reads.taken };

    ghost shapes = { leaves_of rows.StreamCancelRead };

    ghost is_of_shapes = { stream_cancel_read_reads.shaped };

    ghost leaves = { stream_cancel_read_leaves };

    fn rule() -> &'static Rule<'static>
        ensures { rule_of result.now ≡ stream_cancel_read }
    {
        built_in(word::STREAM_CANCEL_READ)
    }

    fn into_tree<'t>(
        &self,
        alloc: Global,
        bump: &'t Bump,
    ) -> Result<&'t [Leaf<'t, 'a>], AllocError> {
        two_into::<ItemRef<'a, kw::type_>, bool>(alloc, bump, &self.ty, &self.async_)
    }

    fn from_tree(
        alloc: Global,
        bump: &'a Bump,
        parts: &[Leaf<'_, 'a>],
    ) -> Result<CanonStreamCancelRead<'a>, AllocError> {
        let (ty, async_) = two_from::<ItemRef<'a, kw::type_>, bool>(alloc, bump, parts)?;
        Ok(CanonStreamCancelRead { ty, async_ })
    }
}

/// `"stream.cancel-read" ior("type") "async"?`.
impl<'a> Parse<'a> for CanonStreamCancelRead<'a> {
    ghost grammar = { reads stream_cancel_read };

    ghost is_sound = { stream_cancel_read_reads.read_on };

    ghost is_clear = { stream_cancel_read_reads.decided };

    ghost stands = { by_relation (λ x v. stream_cancel_read_leaves x ≡ left_by stream_cancel_read v) };

    fn parse(alloc: Global, parser: &mut Parser<'a>) -> Result<CanonStreamCancelRead<'a>, Error> {
        parse_leaves::<CanonStreamCancelRead<'a>>(alloc, parser)
    }
}

/// What cancels a write to a stream.
#[derive(Drop)]
pub struct CanonStreamCancelWrite<'a> {
    /// The type of the stream.
    pub ty: ItemRef<'a, kw::type_>,
    /// Whether the call is asynchronous.
    pub async_: bool,
}

impl<'a> OfLeaves<'a> for CanonStreamCancelWrite<'a> {
    ghost line = { stream_cancel_write };

    ghost is_readable = { stream_cancel_write_reads.taken };

    ghost shapes = { leaves_of rows.StreamCancelWrite };

    ghost is_of_shapes = { stream_cancel_write_reads.shaped };

    ghost leaves = { stream_cancel_write_leaves };

    fn rule() -> &'static Rule<'static>
        ensures { rule_of result.now ≡ stream_cancel_write }
    {
        built_in(word::STREAM_CANCEL_WRITE)
    }

    fn into_tree<'t>(
        &self,
        alloc: Global,
        bump: &'t Bump,
    ) -> Result<&'t [Leaf<'t, 'a>], AllocError> {
        two_into::<ItemRef<'a, kw::type_>, bool>(alloc, bump, &self.ty, &self.async_)
    }

    fn from_tree(
        alloc: Global,
        bump: &'a Bump,
        parts: &[Leaf<'_, 'a>],
    ) -> Result<CanonStreamCancelWrite<'a>, AllocError> {
        let (ty, async_) = two_from::<ItemRef<'a, kw::type_>, bool>(alloc, bump, parts)?;
        Ok(CanonStreamCancelWrite { ty, async_ })
    }
}

/// `"stream.cancel-write" ior("type") "async"?`.
impl<'a> Parse<'a> for CanonStreamCancelWrite<'a> {
    ghost grammar = { reads stream_cancel_write };

    ghost is_sound = { stream_cancel_write_reads.read_on };

    ghost is_clear = { stream_cancel_write_reads.decided };

    ghost stands = { by_relation (λ x v. stream_cancel_write_leaves x ≡ left_by stream_cancel_write v) };

    fn parse(alloc: Global, parser: &mut Parser<'a>) -> Result<CanonStreamCancelWrite<'a>, Error> {
        parse_leaves::<CanonStreamCancelWrite<'a>>(alloc, parser)
    }
}

/// What drops the readable end of a stream.
#[derive(Drop)]
pub struct CanonStreamDropReadable<'a> {
    /// The type of the stream.
    pub ty: ItemRef<'a, kw::type_>,
}

impl<'a> OfLeaves<'a> for CanonStreamDropReadable<'a> {
    ghost line = { stream_drop_readable };

    ghost is_readable = { stream_drop_readable_reads.taken };

    ghost shapes = { leaves_of rows.StreamDropReadable };

    ghost is_of_shapes = { stream_drop_readable_reads.shaped };

    ghost leaves = { stream_drop_readable_leaves };

    fn rule() -> &'static Rule<'static>
        ensures { rule_of result.now ≡ stream_drop_readable }
    {
        built_in(word::STREAM_DROP_READABLE)
    }

    fn into_tree<'t>(
        &self,
        alloc: Global,
        bump: &'t Bump,
    ) -> Result<&'t [Leaf<'t, 'a>], AllocError> {
        one_into::<ItemRef<'a, kw::type_>>(alloc, bump, &self.ty)
    }

    fn from_tree(
        alloc: Global,
        bump: &'a Bump,
        parts: &[Leaf<'_, 'a>],
    ) -> Result<CanonStreamDropReadable<'a>, AllocError> {
        let ty = one_from::<ItemRef<'a, kw::type_>>(alloc, bump, parts)?;
        Ok(CanonStreamDropReadable { ty })
    }
}

/// `"stream.drop-readable" ior("type")`.
impl<'a> Parse<'a> for CanonStreamDropReadable<'a> {
    ghost grammar = { reads stream_drop_readable };

    ghost is_sound = { stream_drop_readable_reads.read_on };

    ghost is_clear = { stream_drop_readable_reads.decided };

    ghost stands = { by_relation (λ x v. stream_drop_readable_leaves x ≡ left_by stream_drop_readable v) };

    fn parse(alloc: Global, parser: &mut Parser<'a>) -> Result<CanonStreamDropReadable<'a>, Error> {
        parse_leaves::<CanonStreamDropReadable<'a>>(alloc, parser)
    }
}

/// What drops the writable end of a stream.
#[derive(Drop)]
pub struct CanonStreamDropWritable<'a> {
    /// The type of the stream.
    pub ty: ItemRef<'a, kw::type_>,
}

impl<'a> OfLeaves<'a> for CanonStreamDropWritable<'a> {
    ghost line = { stream_drop_writable };

    ghost is_readable = { stream_drop_writable_reads.taken };

    ghost shapes = { leaves_of rows.StreamDropWritable };

    ghost is_of_shapes = { stream_drop_writable_reads.shaped };

    ghost leaves = { stream_drop_writable_leaves };

    fn rule() -> &'static Rule<'static>
        ensures { rule_of result.now ≡ stream_drop_writable }
    {
        built_in(word::STREAM_DROP_WRITABLE)
    }

    fn into_tree<'t>(
        &self,
        alloc: Global,
        bump: &'t Bump,
    ) -> Result<&'t [Leaf<'t, 'a>], AllocError> {
        one_into::<ItemRef<'a, kw::type_>>(alloc, bump, &self.ty)
    }

    fn from_tree(
        alloc: Global,
        bump: &'a Bump,
        parts: &[Leaf<'_, 'a>],
    ) -> Result<CanonStreamDropWritable<'a>, AllocError> {
        let ty = one_from::<ItemRef<'a, kw::type_>>(alloc, bump, parts)?;
        Ok(CanonStreamDropWritable { ty })
    }
}

/// `"stream.drop-writable" ior("type")`.
impl<'a> Parse<'a> for CanonStreamDropWritable<'a> {
    ghost grammar = { reads stream_drop_writable };

    ghost is_sound = { stream_drop_writable_reads.read_on };

    ghost is_clear = { stream_drop_writable_reads.decided };

    ghost stands = { by_relation (λ x v. stream_drop_writable_leaves x ≡ left_by stream_drop_writable v) };

    fn parse(alloc: Global, parser: &mut Parser<'a>) -> Result<CanonStreamDropWritable<'a>, Error> {
        parse_leaves::<CanonStreamDropWritable<'a>>(alloc, parser)
    }
}
