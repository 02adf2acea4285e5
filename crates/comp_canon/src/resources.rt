//! Built-ins of resource types (Component Model, "Canonical Definitions").

ghost use Rattle.std.specs.Prelude.{◌≡◌};
ghost use Rattle.comp_model.specs.Rows.{leaves_of};
ghost use Rattle.comp_model.specs.declared.row.Row.TheVariants as rows;
ghost use Rattle.text_rules.specs.Rule.{reads};
ghost use Rattle.text_table.specs.Code.{rule_of};
ghost use Rattle.typed_parts.specs.Leaves.{left_by};
ghost use Rattle.wast_parser.specs.Standing.{by_relation};
ghost use Rattle.comp_canon.specs.LineLaws.{resource_new_reads, resource_drop_reads, resource_rep_reads};
ghost use Rattle.comp_canon.specs.Lines.{resource_new, resource_drop, resource_rep};
ghost use Rattle.comp_canon.specs.Stands.{resource_new_leaves, resource_drop_leaves, resource_rep_leaves};

use crate::lines::built_in;
use bumpalo::Bump;
use comp_items::ItemRef;
use comp_tree::Leaf;
use std::alloc::{AllocError, Global};
use text_table::rule::Rule;
use token_codes::numbers as word;
use typed_nodes::{one_from, one_into};
use typed_parts::{OfLeaves, parse_leaves};
use wast_parser::{Error, Parse, Parser, kw};

/// What makes a handle of a resource from its representation.
#[derive(Drop)]
pub struct CanonResourceNew<'a> {
    /// The resource type.
    pub ty: ItemRef<'a, kw::type_>,
}

impl<'a> OfLeaves<'a> for CanonResourceNew<'a> {
    ghost line = { resource_new };

    ghost is_readable = { resource_new_reads.taken };

    ghost shapes = { leaves_of rows.ResourceNew };

    ghost is_of_shapes = { resource_new_reads.shaped };

    ghost leaves = { resource_new_leaves };

    fn rule() -> &'static Rule<'static>
        ensures { rule_of result.now ≡ resource_new }
    {
        built_in(word::RESOURCE_NEW)
    }

    fn into_tree<'t>(
        &self,
        alloc: Global,
        bump: &'t Bump,
    ) -> Result<&'t [Leaf<'t, 'a>], AllocError> {
        one_into::<ItemRef<'a, kw::type_>>(alloc, bump, &self.ty)
    }

    fn from_tree(
        alloc: Global,
        bump: &'a Bump,
        parts: &[Leaf<'_, 'a>],
    ) -> Result<CanonResourceNew<'a>, AllocError> {
        let ty = one_from::<ItemRef<'a, kw::type_>>(alloc, bump, parts)?;
        Ok(CanonResourceNew { ty })
    }
}

/// `"resource.new" ior("type")`.
impl<'a> Parse<'a> for CanonResourceNew<'a> {
    ghost grammar = { reads resource_new };

    ghost is_sound = { resource_new_reads.read_on };

    ghost is_clear = { resource_new_reads.decided };

    ghost stands = { by_relation (λ x v. resource_new_leaves x ≡ left_by resource_new v) };

    fn parse(alloc: Global, parser: &mut Parser<'a>) -> Result<CanonResourceNew<'a>, Error> {
        parse_leaves::<CanonResourceNew<'a>>(alloc, parser)
    }
}

/// What drops a handle of a resource.
#[derive(Drop)]
pub struct CanonResourceDrop<'a> {
    /// The resource type.
    pub ty: ItemRef<'a, kw::type_>,
}

impl<'a> OfLeaves<'a> for CanonResourceDrop<'a> {
    ghost line = { resource_drop };

    ghost is_readable = { resource_drop_reads.taken };

    ghost shapes = { leaves_of rows.ResourceDrop };

    ghost is_of_shapes = { resource_drop_reads.shaped };

    ghost leaves = { resource_drop_leaves };

    fn rule() -> &'static Rule<'static>
        ensures { rule_of result.now ≡ resource_drop }
    {
        built_in(word::RESOURCE_DROP)
    }

    fn into_tree<'t>(
        &self,
        alloc: Global,
        bump: &'t Bump,
    ) -> Result<&'t [Leaf<'t, 'a>], AllocError> {
        one_into::<ItemRef<'a, kw::type_>>(alloc, bump, &self.ty)
    }

    fn from_tree(
        alloc: Global,
        bump: &'a Bump,
        parts: &[Leaf<'_, 'a>],
    ) -> Result<CanonResourceDrop<'a>, AllocError> {
        let ty = one_from::<ItemRef<'a, kw::type_>>(alloc, bump, parts)?;
        Ok(CanonResourceDrop { ty })
    }
}

/// `"resource.drop" ior("type")`.
impl<'a> Parse<'a> for CanonResourceDrop<'a> {
    ghost grammar = { reads resource_drop };

    ghost is_sound = { resource_drop_reads.read_on };

    ghost is_clear = { resource_drop_reads.decided };

    ghost stands = { by_relation (λ x v. resource_drop_leaves x ≡ left_by resource_drop v) };

    fn parse(alloc: Global, parser: &mut Parser<'a>) -> Result<CanonResourceDrop<'a>, Error> {
        parse_leaves::<CanonResourceDrop<'a>>(alloc, parser)
    }
}

/// What gives the representation of a resource.
#[derive(Drop)]
pub struct CanonResourceRep<'a> {
    /// The resource type.
    pub ty: ItemRef<'a, kw::type_>,
}

impl<'a> OfLeaves<'a> for CanonResourceRep<'a> {
    ghost line = { resource_rep };

    ghost is_readable = { resource_rep_reads.taken };

    ghost shapes = { leaves_of rows.ResourceRep };

    ghost is_of_shapes = { resource_rep_reads.shaped };

    ghost leaves = { resource_rep_leaves };

    fn rule() -> &'static Rule<'static>
        ensures { rule_of result.now ≡ resource_rep }
    {
        built_in(word::RESOURCE_REP)
    }

    fn into_tree<'t>(
        &self,
        alloc: Global,
        bump: &'t Bump,
    ) -> Result<&'t [Leaf<'t, 'a>], AllocError> {
        one_into::<ItemRef<'a, kw::type_>>(alloc, bump, &self.ty)
    }

    fn from_tree(
        alloc: Global,
        bump: &'a Bump,
        parts: &[Leaf<'_, 'a>],
    ) -> Result<CanonResourceRep<'a>, AllocError> {
        let ty = one_from::<ItemRef<'a, kw::type_>>(alloc, bump, parts)?;
        Ok(CanonResourceRep { ty })
    }
}

/// `"resource.rep" ior("type")`.
impl<'a> Parse<'a> for CanonResourceRep<'a> {
    ghost grammar = { reads resource_rep };

    ghost is_sound = { resource_rep_reads.read_on };

    ghost is_clear = { resource_rep_reads.decided };

    ghost stands = { by_relation (λ x v. resource_rep_leaves x ≡ left_by resource_rep v) };

    fn parse(alloc: Global, parser: &mut Parser<'a>) -> Result<CanonResourceRep<'a>, Error> {
        parse_leaves::<CanonResourceRep<'a>>(alloc, parser)
    }
}
